// What the numbers of an entry mean.
ghost use Rattle.std.specs.Prelude.{◌≡◌};
ghost use Rattle.record.specs.Tables.{length_in, sum_in, maker_in, prefix_in, extent_of, with_sum, with_maker};
ghost use Rattle.record.specs.Codes.{state_of, is_global_clock};

use ledger::{State, TASK_COUNT};

// The state of a task entry.
pub const ABSENT: u16 = 0;

pub const RUNNING: u16 = 1;

pub const WAITING: u16 = 2;

pub const VIEWING: u16 = 3;

// The clock of an expiration entry: none, LOCAL and the number of the task whose clock it is, or for the global time GLOBAL and the number
// of the task that set it; DEPARTED where that has left; PINNED is no clock's.
pub const FREE: u8 = 0;

pub const LOCAL: u8 = 16;

pub const GLOBAL: u8 = LOCAL + (TASK_COUNT as u8);

pub const DEPARTED: u8 = GLOBAL + (TASK_COUNT as u8);

pub const PINNED: u8 = DEPARTED + 1;

// The values that a length has, a prefix too, and a maker; those of all that stands below the prefix, and below the sum.
const LENGTH_RANGE: u64 = 65536;

const MAKER_RANGE: u64 = 256;

const PREFIX_UNIT: u64 = 4294967296;

const SUM_UNIT: u64 = 281474976710656;

// O33: the length in an extent,
pub fn length_in(extent: u64) -> u16
    ensures { result ≡ length_in extent }
{
    (extent % LENGTH_RANGE) as u16
}

// Q3: the object's maker,
pub fn maker_in(extent: u64) -> u8
    ensures { result ≡ maker_in extent }
{
    (extent / LENGTH_RANGE % MAKER_RANGE) as u8
}

// V4: how many of its bytes a viewer reads (02: head length),
pub fn prefix_in(extent: u64) -> u16
    ensures { result ≡ prefix_in extent }
{
    (extent / PREFIX_UNIT % LENGTH_RANGE) as u16
}

// the sum of the block's bytes,
pub fn sum_in(extent: u64) -> u16
    ensures { result ≡ sum_in extent }
{
    (extent / SUM_UNIT) as u16
}

// the extent of the four,
pub fn extent_of(length: u16, sum: u16, maker: u8, prefix: u16) -> u64
    ensures { result ≡ extent_of length sum maker prefix }
{
    (sum as u64) * SUM_UNIT
        + ((prefix as u64) * PREFIX_UNIT + ((maker as u64) * LENGTH_RANGE + length as u64))
}

// one with another sum,
pub fn with_sum(extent: u64, sum: u16) -> u64
    ensures { result ≡ with_sum extent sum }
{
    (sum as u64) * SUM_UNIT + extent % SUM_UNIT
}

// and one with another maker.
pub fn with_maker(extent: u64, maker: u8) -> u64
    ensures { result ≡ with_maker extent maker }
{
    extent / (LENGTH_RANGE * MAKER_RANGE) * (LENGTH_RANGE * MAKER_RANGE)
        + ((maker as u64) * LENGTH_RANGE + extent % LENGTH_RANGE)
}

pub fn state_of(code: u16) -> State
    ensures { result ≡ state_of code }
{
    match code {
        RUNNING => State::Running,
        WAITING => State::Waiting,
        VIEWING => State::Viewing,
        _ => State::Absent,
    }
}

// The clock of an expiration that goes by the global time.
pub fn is_global(clock: u8) -> bool
    ensures { result ≡ is_global_clock clock }
{
    (GLOBAL <= clock) & (clock <= DEPARTED)
}
