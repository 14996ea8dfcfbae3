// A line carried out on a record by value (P7) with its stores: it is stored into one that is lent, whose tables are lent to
// the line; or given back.
#![tactic(auto)]

ghost use Rattle.std.specs.Prelude.{◌≤◌, length};
ghost use Rattle.record.specs.Tables.{pooled, Sized};
ghost use Rattle.answers.specs.Answers.{longest_answer};
ghost use Rattle.execute.specs.Execution.{executed_of, executed_by, Executes};

use answers::{put_answer, show};
use frames::{MOST_BYTES, decode};
use ledger::Answer;
use record::{BlockTable, ExpirationTable, Head, Pool};
use stores::no_part;
use tested::call;

// The record that a line leaves, the number of its answer, and how long the line of it is.
#[derive(Clone, Copy)]
pub struct Executed {
    pub pool: Pool,
    pub number: u8,
    pub length: usize,
}

// The same on lent tables: the head that a line leaves instead of the record.
#[derive(Clone, Copy)]
pub struct Carried {
    pub head: Head,
    pub number: u8,
    pub length: usize,
}

// A line on lent tables and any stores; the line of its answer goes to the start of a buffer. A frame that is refused leaves the tables
// alone, and so who lends them never looks at the record again.
fn execute_lent(
    h: Head,
    blocks: &mut BlockTable,
    expirations: &mut ExpirationTable,
    small: &mut [u8],
    large: &mut [u8],
    line: &[u8],
    out: &mut [u8],
) -> Carried
    requires { Sized blocks.old expirations.old
        × (longest_answer ≤ length out.old) }
    ensures { Sized blocks.new expirations.new
        × Executes line.now
        (pooled h blocks.old expirations.old)
        small.old large.old out.old
        (executed_of result blocks.new expirations.new)
        small.new large.new out.new }
{
    let mut bytes = [0u8; MOST_BYTES];
    let frame = decode(line, &mut bytes);
    let Ok((request, count)) = frame else {
        let refusal = Answer::Refused(frame.unwrap_err());
        return Carried {
            head: h,
            number: u8::from(refusal),
            length: put_answer(refusal, no_part(small), out, 0),
        };
    };
    let done = call(
        h,
        blocks,
        expirations,
        small,
        large,
        request,
        &bytes[..count],
    );
    let answer = done.answer;
    let head = done.head;
    let length = show(answer, small, large, done.block, done.length, out, 0);
    Carried {
        head,
        number: u8::from(answer),
        length,
    }
}

// The same on any record, stored into one that is lent.
pub fn execute_into(
    p: Pool,
    small: &mut [u8],
    large: &mut [u8],
    line: &[u8],
    out: &mut [u8],
    left: &mut Pool,
) -> Carried
    requires { longest_answer ≤ length out.old }
    ensures { Executes line.now p small.old large.old out.old (executed_by result left.new) small.new
        large.new out.new }
{
    *left = p;
    let done = execute_lent(
        left.head,
        &mut left.blocks,
        &mut left.expirations,
        small,
        large,
        line,
        out,
    );
    left.head = done.head;
    done
}

// The same, given back.
pub fn execute(p: Pool, small: &mut [u8], large: &mut [u8], line: &[u8], out: &mut [u8]) -> Executed
    requires { longest_answer ≤ length out.old }
    ensures { Executes line.now p small.old large.old out.old result small.new
        large.new out.new }
{
    let mut left = p;
    let done = execute_into(p, small, large, line, out, &mut left);
    Executed {
        pool: left,
        number: done.number,
        length: done.length,
    }
}
