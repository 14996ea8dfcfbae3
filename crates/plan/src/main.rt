// The program: a cable plan on standard input, the figures of its channels on standard output, one line a channel (G15).
#![tactic(auto)]

ghost use Rattle.std.specs.Prelude.{IfSome, OnOk};
ghost use Rattle.std.specs.Io.KnownBytes.{Appends};
ghost use Rattle.plan.specs.Program.{written_for};

use input::fill;
use planned::output::output_of;
use std::io;
use std::io::{Read, Write};

// G2: the bytes of the longest plan.
const LONGEST_PLAN: usize = 432;

// G15: the program over any reader and writer.
fn run<R: Read + Drop, W: Write>(mut input: R, output: &mut W) -> io::Result<()>
    ensures { OnOk result (IfSome (R.remaining input) (λ text.
        Appends (W.contents output.old) (W.contents output.new) (written_for text))) }
{
    let mut buffer = [0u8; LONGEST_PLAN + 1];
    let count = fill(&mut input, &mut buffer)?;
    let shown = output_of(&buffer[..count]);
    output.write_all(&shown.bytes[..shown.count])
}

fn main(rt: HostRuntime) -> io::Result<()> {
    run(rt.stdin(), &mut rt.stdout())
}
