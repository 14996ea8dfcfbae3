// The line of an answer in a buffer, with the bytes of a block where it shows some.
ghost use Rattle.std.specs.Prelude.{◌+◌, ◌≤◌, length};
ghost use Rattle.record.specs.Reading.{block_bytes};
ghost use Rattle.answers.specs.Answers.{answer_line, Showable};
ghost use Rattle.text.specs.Hex.{Puts};

use super::{WIDEST_HEAD, encode_answer};
use ledger::Answer;
use stores::{block_part, no_part};
use text::hex::MOST_BYTES;

// Room for any answer's line: two digits a byte of the widest head and of the largest object, and the LF.
pub const LONGEST_ANSWER: usize = 2 * (WIDEST_HEAD + MOST_BYTES) + 1;

// The line of an answer from a place of a buffer on; the place after it.
pub fn put_answer(answer: Answer, bytes: &[u8], out: &mut [u8], at: usize) -> usize
    requires { at + length (answer_line answer bytes.now) ≤ length out.old }
    ensures { Puts at (answer_line answer bytes.now) out.old out.new result }
{
    let length = encode_answer(answer, bytes, &mut out[at..]);
    at + length
}

// The same with the first bytes of a block.
pub fn show(
    answer: Answer,
    small: &[u8],
    large: &[u8],
    block: usize,
    count: u16,
    out: &mut [u8],
    at: usize,
) -> usize
    requires { Showable answer small.now large.now block count out.old at }
    ensures { Puts at
        (answer_line answer (block_bytes small.now large.now block count)) out.old out.new result }
{
    if count == 0 {
        return put_answer(answer, no_part(small), out, at);
    }
    put_answer(
        answer,
        block_part(small, large, block, count as usize),
        out,
        at,
    )
}
