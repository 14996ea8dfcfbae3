// When expirations may be due: by each clock, so many units from a first time on. A due number becomes a LocalTime where that is a task's,
// and a GlobalTime where it is the global one.
ghost use Rattle.std.specs.Prelude.{◌≡◌, ◌+◌, ◌<◌, ◌≤◌, true};
ghost use Rattle.lists.specs.Tests.{all};
ghost use Rattle.ledger.specs.Limits.{capacity, is_allowed};
ghost use Rattle.record.specs.WellFormed.{is_fit_task};
ghost use Rattle.fitness.specs.Checks.{left_from, WithinBy, next_local, next_global, Firsts, units_of, Units, CodedTimes, AllWithin, AllTimely};

use super::codes::code_at;
use ledger::{Limits, TASK_COUNT};
use record::clock_time::ClockTime;
use record::codes::{DEPARTED, FREE, GLOBAL, LOCAL, PINNED};
use record::{EXPIRATION_COUNT, GlobalTime, Head, LocalTime, TaskEntry};

// The codes of clocks, as indices: those of tasks are from LOCAL on, those of the global time from GLOBAL on by the task that set it, to
// DEPARTED; PINNED, which is no clock's, is the last that there is.
const NO_CLOCK: usize = FREE as usize;

const FIRST_LOCAL: usize = LOCAL as usize;

const FIRST_GLOBAL: usize = GLOBAL as usize;

const OF_DEPARTED: usize = DEPARTED as usize;

const OF_PINNED: usize = PINNED as usize;

pub const CODES: usize = OF_PINNED + 1;

// All units that a counter has: a free entry is due whenever it likes.
const ALL_UNITS: u64 = 4294967296;

// A pinned one has no time: its number is 0 and no other.
const PINNED_UNITS: u64 = 1;

// A time by one of the clocks, or the number of a pinned expiration, which is none. (It holds the number that a due one is held against, as
// the others do: with no number in it the compiler makes no vector code of the fit test, which then takes 2,600 instructions more.)
#[derive(Clone, Copy)]
pub enum Time {
    None(u32),
    Local(LocalTime),
    Global(GlobalTime),
}

// The units from a time on.
fn left_from(due: u32, first: Time) -> u32
    ensures { result ≡ left_from due first }
{
    match first {
        Time::None(number) => std::num::wrapping_sub_u32(due, number),
        Time::Local(at) => LocalTime(due).left(at),
        Time::Global(at) => GlobalTime(due).left(at),
    }
}

fn is_within(due: u32, first: Time, units: u64) -> bool
    ensures { WithinBy units first due result }
{
    (left_from(due, first) as u64) < units
}

// The first times that lie ahead.
fn next_local(now: LocalTime) -> Time
    ensures { result ≡ next_local now }
{
    Time::Local(now.after(1))
}

fn next_global(now: GlobalTime) -> Time
    ensures { result ≡ next_global now }
{
    Time::Global(now.after(1))
}

// By each clock the first time that lies ahead, and 0 for a pinned one; of other codes that are no clock's nothing is told.
fn firsts(tasks: [TaskEntry; TASK_COUNT], global: GlobalTime) -> [Time; CODES]
    ensures { Firsts tasks global result }
{
    let last = next_global(global);
    let mut out = [last; CODES];
    out[OF_PINNED] = Time::None(0);
    for (i, task) in tasks.iter().enumerate() {
        let first = next_local(task.clock);
        out[i + FIRST_LOCAL] = first;
    }
    out
}

// Of an absent task there are none, and of any other so many: by a product, since of a choice between numbers that are no constants the
// compiler makes no vector code.
fn units_of(state: u16, most: u16) -> u64
    requires { (state < 4)
        × (most ≤ capacity.extension + 2) }
    ensures { result ≡ units_of most state }
{
    (most * ((state + 3) / 4)) as u64
}

// By each code the units in which its expirations may be due: none of an absent task, nor by a code that there is not.
fn units(limits: Limits, tasks: [TaskEntry; TASK_COUNT]) -> [u64; CODES]
    requires { (is_allowed limits ≡ true)
        × (all is_fit_task tasks ≡ true) }
    ensures { Units limits tasks result }
{
    let local = limits.extension as u16 + 1;
    let global = limits.extension as u16 + 2;
    let mut out = [0; CODES];
    out[NO_CLOCK] = ALL_UNITS;
    out[OF_DEPARTED] = global as u64;
    out[OF_PINNED] = PINNED_UNITS;
    for (i, task) in tasks.iter().enumerate() {
        out[i + FIRST_LOCAL] = units_of(task.state, local);
        out[i + FIRST_GLOBAL] = units_of(task.state, global);
    }
    out
}

// Those that are not within are counted, which takes no branch.
fn all_within(
    firsts: [Time; CODES],
    units: [u64; CODES],
    clocks: &[u8; EXPIRATION_COUNT],
    dues: &[u32; EXPIRATION_COUNT],
) -> bool
    requires { CodedTimes clocks.now dues.now }
    ensures { AllWithin firsts units clocks.now dues.now result }
{
    let mut out = 0u32;
    for (i, due) in dues.iter().enumerate() {
        let code = code_at(clocks, i);
        let first = firsts[code];
        out += (!is_within(*due, first, units[code])) as u32;
    }
    out == 0
}

pub fn all_timely(h: Head, clocks: &[u8; EXPIRATION_COUNT], dues: &[u32; EXPIRATION_COUNT]) -> bool
    requires { CodedTimes clocks.now dues.now
        × (is_allowed h.limits ≡ true)
        × (all is_fit_task h.tasks ≡ true) }
    ensures { AllTimely h clocks.now dues.now result }
{
    let tasks = h.tasks;
    let firsts = firsts(tasks, h.global);
    let units = units(h.limits, tasks);
    all_within(firsts, units, clocks, dues)
}
