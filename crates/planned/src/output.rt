// What is printed of a plan's text: `bad plan`, or a line for each channel (the rules G2 and G15).
ghost use Rattle.std.specs.Prelude.{◌+◌, ◌*◌, ◌≤◌, length};
ghost use Rattle.ledger.specs.Limits.{task_count};
ghost use Rattle.ledger.specs.Plans.{figures};
ghost use Rattle.text.specs.Decimals.{number_line};
ghost use Rattle.text.specs.Hex.{Puts};
ghost use Rattle.planned.specs.Output.{longest_line, lines_of, bad_plan, Shows, output_of};

use crate::run::run;
use ledger::plans::Track;
use plan_text::read;
use text::decimals::put_number;

// The bytes of the longest output.
pub const LONGEST_OUTPUT: usize = 384;

// What is written: the first `count` bytes. (It is written by the caller, since a write may fail and this does not.)
#[derive(Clone, Copy)]
pub struct Output {
    pub bytes: [u8; LONGEST_OUTPUT],
    pub count: usize,
}

// G10: the line of a channel, of four figures.
fn put_track(t: Track, out: &mut [u8], at: usize) -> usize
    requires { at + longest_line ≤ length out.old }
    ensures { Puts at (number_line (figures t)) out.old out.new result }
{
    let first = put_number(t.replies, b' ', out, at);
    let second = put_number(t.quits, b' ', out, first);
    let third = put_number(t.refusals, b' ', out, second);
    let open = u32::from(t.poll.is_some());
    put_number(open, b'\n', out, third)
}

fn put_tracks(tracks: &[Track], out: &mut [u8]) -> usize
    requires most { length tracks.now ≤ task_count }
    requires room { task_count * longest_line ≤ length out.old }
    ensures { Puts 0 (lines_of tracks.now) out.old out.new result
        × (result ≤ length out.new) }
{
    let mut at = 0;
    for track in tracks {
        at = put_track(*track, out, at);
    }
    at
}

fn bad_plan() -> Output
    ensures { Shows bad_plan result }
{
    let mut bytes = [0u8; LONGEST_OUTPUT];
    bytes[..9].copy_from_slice(b"bad plan\n");
    Output { bytes, count: 9 }
}

// What the program writes for a text.
pub fn output_of(text: &[u8]) -> Output
    ensures { Shows (output_of text.now) result }
{
    let Some(plan) = read(text) else {
        return bad_plan();
    };
    let mut bytes = [0u8; LONGEST_OUTPUT];
    let count = put_tracks(&run(&plan.channels[..plan.count]), &mut bytes);
    Output { bytes, count }
}
