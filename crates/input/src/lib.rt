// What a program is given on its input, read into a buffer: poolrun's script and plan's text.
#![tactic(auto)]

ghost use Rattle.std.specs.Prelude.{◌≡◌, ◌≤◌, IfOk, IfSome, length, take};

use std::io;
use std::io::Read;

// The first bytes of what a reader has left: as many as the buffer holds, or all where there are fewer.
#[tactic(auto, using(crate::proofs::Filled::filled_further))]
pub fn fill<R: Read>(reader: &mut R, buffer: &mut [u8]) -> io::Result<usize>
    ensures within { IfOk result (λ count. count ≤ length buffer.new) }
    ensures first { IfOk result (λ count. IfSome (R.remaining reader.old) (λ rest.
        take count buffer.new ≡ take (length buffer.old) rest)) }
{
    let mut done = 0;
    // By a count: a reader gives as many bytes at a time as it likes.
    while done < buffer.len() {
        let count = reader.read(&mut buffer[done..])?;
        if count == 0 {
            return Ok(done);
        }
        done += count;
    }
    Ok(done)
}

// A reader whose bytes are known: fewer than the buffer holds, and more.
#[test]
fn a_buffer_holds_the_first_bytes(rt: HostRuntime) -> io::Result<()> {
    let mut buffer = [7u8; 4];
    let mut short: &[u8] = b"abc";
    let count = fill(&mut short, &mut buffer)?;
    assert!(rt; count == 3, "fewer bytes than the buffer holds");
    assert!(rt; buffer == *b"abc\x07", "and the rest as it was");
    let mut long: &[u8] = b"defghi";
    let count = fill(&mut long, &mut buffer)?;
    assert!(rt; count == 4, "as many as it holds");
    assert!(rt; buffer == *b"defg", "the first ones");
    Ok(())
}
