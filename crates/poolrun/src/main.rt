// The program: a script on standard input, one answer a line on standard output.
#![tactic(auto)]

ghost use Rattle.std.specs.Prelude.{IfSome, OnOk};
ghost use Rattle.std.specs.Io.KnownBytes.{Appends};
ghost use Rattle.ledger.specs.Limits.{standard};
ghost use Rattle.script.specs.Output.{output_of};
ghost use Rattle.poolrun.specs.Program.{written_for};

use input::fill;
use ledger::STANDARD;
use record::fresh;
use script::run_on;
use std::io;
use std::io::{Read, Write};
use stores::{LARGE_BYTES, SMALL_BYTES};

// P2: the longest script that is run.
const LONGEST_SCRIPT: usize = 65536;

// The answers of so many bytes are written at a time.
const OUTPUT_BYTES: usize = 65536;

// D5: from fresh, a buffer of answers at a time. A failed write ends it.
#[tactic(auto, using(text::proofs::Puts::puts_within))]
fn answer<W: Write>(script: &[u8], output: &mut W) -> io::Result<()>
    ensures { OnOk result (Appends (W.contents output.old) (W.contents output.new) (output_of standard script.now)) }
{
    let mut small = [0u8; SMALL_BYTES];
    let mut large = [0u8; LARGE_BYTES];
    let mut out = [0u8; OUTPUT_BYTES];
    let mut p = fresh(STANDARD);
    let mut at = 0;
    // By place: a run of answers ends where its buffer does.
    while at < script.len() {
        let ran = run_on(p, &mut small, &mut large, script, at, &mut out);
        p = ran.pool;
        at = ran.next;
        output.write_all(&out[..ran.written])?;
    }
    Ok(())
}

// P2, P3, P4: the program over any reader and writer.
fn run<R: Read + Drop, W: Write>(mut input: R, output: &mut W) -> io::Result<()>
    ensures { OnOk result (IfSome (R.remaining input) (λ text.
        Appends (W.contents output.old) (W.contents output.new) (written_for text))) }
{
    let mut buffer = [0u8; LONGEST_SCRIPT + 1];
    let count = fill(&mut input, &mut buffer)?;
    if LONGEST_SCRIPT < count {
        return output.write_all(b"script too long\n");
    }
    answer(&buffer[..count], output)
}

fn main(rt: HostRuntime) -> io::Result<()> {
    run(rt.stdin(), &mut rt.stdout())
}
