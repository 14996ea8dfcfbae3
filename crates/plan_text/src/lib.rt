// The text of a cable plan (order 13 of document 02), read a byte at a time: one to sixteen lines of five numbers.
#![tactic(auto)]

ghost use Rattle.std.specs.Prelude.{◌<◌, ◌≡◌, option_map, IfSome};
ghost use Rattle.plan_text.specs.Reading.{new_line, with_digit, with_blank, channel_of, moved, plan_of, channels_of, Sized};

use ledger::TASK_COUNT;
use ledger::plans::Channel;

// G2: the largest extension. The largest number of a text is that of its type.
const LONGEST_EXTENSION: u16 = 30;

// G2: the channels of a plan: the first `count` here.
#[derive(Clone, Copy)]
pub struct Plan {
    pub count: usize,
    pub channels: [Channel; TASK_COUNT],
}

// A line under way: how many of its numbers have ended, the last four of these, and the number that is being read, if a digit of it was.
#[derive(Clone, Copy)]
pub struct Line {
    pub ended: u8,
    pub first: u16,
    pub second: u16,
    pub third: u16,
    pub fourth: u16,
    pub number: Option<u16>,
}

fn new_line() -> Line
    ensures { result ≡ new_line }
{
    Line {
        ended: 0,
        first: 0,
        second: 0,
        third: 0,
        fourth: 0,
        number: None,
    }
}

// One digit more: none stands after a leading zero, and no number is above the largest.
fn with_digit(line: Line, digit: u8) -> Option<Line>
    requires { digit < 10 }
    ensures { result ≡ with_digit line digit }
{
    let digit = digit as u16;
    let number = match line.number {
        None => digit,
        Some(0) => return None,
        Some(number) => number.checked_mul(10)?.checked_add(digit)?,
    };
    Some(Line {
        number: Some(number),
        ..line
    })
}

// A blank stands after one of the first four numbers; the first two are at least 1.
fn with_blank(line: Line) -> Option<Line>
    ensures { result ≡ with_blank line }
{
    let number = line.number?;
    if (4 <= line.ended) | ((line.ended < 2) & (number == 0)) {
        return None;
    }
    Some(Line {
        ended: line.ended + 1,
        first: line.second,
        second: line.third,
        third: line.fourth,
        fourth: number,
        number: None,
    })
}

// The channel of a line with all five numbers, the last of them an extension.
fn channel_of(line: Line) -> Option<Channel>
    ensures { result ≡ channel_of line }
{
    let extension = line.number?;
    if (line.ended != 4) | (LONGEST_EXTENSION < extension) {
        return None;
    }
    Some(Channel {
        period: line.first,
        reply: line.second,
        silent: line.third,
        wait: line.fourth,
        extension: extension as u8,
    })
}

// A byte more of a line that does not end with it.
fn moved(line: Line, byte: u8) -> Option<Line>
    ensures { result ≡ moved line byte }
{
    match byte {
        b' ' => with_blank(line),
        b'0'..=b'9' => with_digit(line, byte - b'0'),
        _ => None,
    }
}

// The plan of a text, if it is one.
#[tactic(auto, unfolding(crate::specs::Reading::read_from, crate::specs::Reading::plan_of))]
pub fn read(text: &[u8]) -> Option<Plan>
    ensures told { option_map channels_of result ≡ plan_of text.now }
    ensures sized { IfSome result Sized }
{
    let mut plan = Plan {
        count: 0,
        channels: [Channel::default(); TASK_COUNT],
    };
    let mut line = new_line();
    for byte in text {
        if *byte == b'\n' {
            let channel = channel_of(line)?;
            if plan.count == TASK_COUNT {
                return None;
            }
            plan.channels[plan.count] = channel;
            plan.count += 1;
            line = new_line();
        } else {
            line = moved(line, *byte)?;
        }
    }
    if (line.ended == 0) & line.number.is_none() & (plan.count != 0) {
        Some(plan)
    } else {
        None
    }
}
