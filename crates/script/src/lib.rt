// A script run from fresh, a buffer of answers at a time. Its record is well-formed from the start and stays so: no line tests that again,
// and its tables stay where they are from the first line to the last.
#![tactic(auto)]

ghost use Rattle.script.specs.Output.{Runnable, Continues};

use answers::{LONGEST_ANSWER, put_answer, show};
use dispatch::call;
use dispatch::needs::holdings_for;
use frames::{MOST_BYTES, decode};
use ledger::Answer;
use record::Pool;
use stores::no_part;
use text::Reader;

// The record after some lines of a script, where the next line starts, and how long the answers are.
#[derive(Clone, Copy)]
pub struct Ran {
    pub pool: Pool,
    pub next: usize,
    pub written: usize,
}

// The answers to a script's lines from a place on, until the script or the buffer ends.
pub fn run_on(
    mut p: Pool,
    small: &mut [u8],
    large: &mut [u8],
    script: &[u8],
    start: usize,
    out: &mut [u8],
) -> Ran
    requires { Runnable p small.old large.old script.now start }
    ensures { Continues p small.old large.old script.now start result small.new
        large.new out.old out.new }
{
    let mut bytes = [0u8; MOST_BYTES];
    let mut lines = Reader {
        script,
        next: start,
    };
    let mut written = 0;
    let mut head = p.head;
    // By place: a run of answers ends where its buffer does.
    while LONGEST_ANSWER <= out.len() - written {
        let Some(line) = lines.step() else {
            break;
        };
        let frame = decode(line, &mut bytes);
        let Ok((request, count)) = frame else {
            written = put_answer(
                Answer::Refused(frame.unwrap_err()),
                no_part(small),
                out,
                written,
            );
            continue;
        };
        let holdings = holdings_for(head, &p.blocks, request);
        let done = call(
            head,
            &mut p.blocks,
            &mut p.expirations,
            small,
            large,
            holdings,
            request,
            &bytes[..count],
        );
        head = done.head;
        let answer = done.answer;
        written = show(answer, small, large, done.block, done.length, out, written);
    }
    p.head = head;
    Ran {
        pool: p,
        next: lines.next,
        written,
    }
}
