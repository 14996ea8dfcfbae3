// A frame on a record by value: one line carried out, whichever call it is, with the line of its answer in the host's buffer.
#![tactic(auto)]

ghost use Rattle.by_value_frame.specs.Carries.{Carries};

use answers::LONGEST_ANSWER;
use by_value::{Numbered, TOO_SHORT};
use execute::execute_into;
use record::Pool;

pub fn frame_into(
    p: Pool,
    small: &mut [u8],
    large: &mut [u8],
    line: &[u8],
    out: &mut [u8],
    count: &mut usize,
    left: &mut Pool,
) -> u8
    ensures { Carries line.now p small.old large.old out.old count.old
        result left.new small.new large.new out.new count.new }
{
    *left = p;
    if out.len() < LONGEST_ANSWER {
        return TOO_SHORT;
    }
    let done = execute_into(*left, small, large, line, out, left);
    *count = done.length;
    done.number
}

// The same, given back.
pub fn frame(
    p: Pool,
    small: &mut [u8],
    large: &mut [u8],
    line: &[u8],
    out: &mut [u8],
    count: &mut usize,
) -> Numbered
    ensures { Carries line.now p small.old large.old out.old count.old
        result.number result.pool small.new large.new out.new count.new }
{
    let mut left = p;
    let number = frame_into(p, small, large, line, out, count, &mut left);
    Numbered { number, pool: left }
}
