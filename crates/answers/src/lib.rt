// The rules F27 to F32: the line of an answer.
#![tactic(auto)]

ghost use Rattle.std.specs.Prelude.{◌+◌, ◌*◌, ◌≤◌, ◌≡◌, length};
ghost use Rattle.answers.specs.Answers.{values_in, answer_head, answer_line};
ghost use Rattle.text.specs.Fields.{in_bytes};
ghost use Rattle.text.specs.Hex.{hex_of, Puts};
ghost use Rattle.ledger.specs.declared.Answer.TheVariants.{Counted, Lasts};

use ledger::{Answer, Life, Usage};
use text::hex::{put_byte, put_hex};
use text::words::word;

mod showing;

pub use showing::{LONGEST_ANSWER, put_answer, show};

// A number in four bytes as digits at a place of a buffer; the place after them.
fn put_word(out: &mut [u8], at: usize, value: u32) -> usize
    requires { at + 8 ≤ length out.old }
    ensures { Puts at (hex_of (in_bytes 4 value)) out.old out.new result }
{
    put_hex(out, at, &word(value))
}

// The head of a report's answer, its number and its values: no other answer's is as wide.
pub const WIDEST_HEAD: usize = 1 + COUNTS;

const COUNTS: usize = 8;

fn counts(usage: Usage) -> [u8; COUNTS]
    ensures { result ≡ values_in (Counted usage) }
{
    let dates = usage.expirations.to_be_bytes();
    let given = word(usage.given);
    [
        usage.small,
        usage.large,
        dates[0],
        dates[1],
        given[0],
        given[1],
        given[2],
        given[3],
    ]
}

// The values of a remaining life's answer.
fn lasts(life: Life) -> [u8; 2]
    ensures { result ≡ values_in (Lasts life) }
{
    [life.local, life.global]
}

// The head as digits at the start of a buffer; the place after them.
fn put_head(out: &mut [u8], answer: Answer) -> usize
    requires { 2 * length (answer_head answer) ≤ length out.old }
    ensures { Puts 0 (hex_of (answer_head answer)) out.old out.new result }
{
    let next = put_byte(out, 0, u8::from(answer));
    match answer {
        Answer::Advanced(advanced) => put_byte(out, next, advanced as u8),
        Answer::Handle(handle) => put_word(out, next, handle),
        Answer::Counted(usage) => put_hex(out, next, &counts(usage)),
        Answer::Lasts(life) => put_hex(out, next, &lasts(life)),
        Answer::Refused(_) | Answer::Done | Answer::Bytes => next,
    }
}

// The line of an answer, with the bytes of a read, at the start of a buffer; how long it is.
pub fn encode_answer(answer: Answer, bytes: &[u8], out: &mut [u8]) -> usize
    requires { length (answer_line answer bytes.now) ≤ length out.old }
    ensures { Puts 0 (answer_line answer bytes.now) out.old out.new result }
{
    let middle = put_head(out, answer);
    let end = put_hex(out, middle, bytes);
    out[end] = b'\n';
    end + 1
}
