// E15, E16: how long the object in a block has left, group by group: one in which no entry names the block is passed by. Units are bytes,
// so that many are looked at at once.
ghost use Rattle.std.specs.Prelude.{◌≡◌, ◌+◌, ◌<◌, ◌≤◌, max, length, take, drop, if◌then◌else◌};
ghost use Rattle.ledger.specs.Limits.{task_count};
ghost use Rattle.record.specs.Tables.{block_entries, expiration_entries, group_size, expiration_list, EntriesSized};
ghost use Rattle.steps.specs.Remaining.{life_in, LifeWithin};
ghost use Rattle.expirations.specs.Remaining.{Lefts, longest, units_in};

use super::asking::has_byte;
use ledger::Life;
use record::clock_time::ClockTime;
use record::codes::{LOCAL, is_global};
use record::{
    BYTE_VALUES, EXPIRATION_COUNT, ExpirationTable, GROUP, GROUP_COUNT, GlobalTime, Head, LocalTime,
};

// What a task asks for: the object in a block, by the task's local time and by the global time.
#[derive(Clone, Copy)]
pub struct Query {
    pub task: u8,
    pub local: LocalTime,
    pub global: GlobalTime,
    pub block: u8,
}

// Units left by either time. Of an expiration that counts they fit a byte; of any other only their last byte is kept.
#[derive(Clone, Copy)]
pub struct Units {
    pub local: u8,
    pub global: u8,
}

const NONE: Units = Units {
    local: 0,
    global: 0,
};

const BYTE_RANGE: u32 = BYTE_VALUES as u32;

// The last byte of what is left of each due number of a group, read as a time by the clock that shows `now`.
fn lefts<T: ClockTime>(now: T, dues: &[u32; EXPIRATION_COUNT], from: usize) -> [u8; GROUP]
    requires { from + group_size ≤ expiration_entries }
    ensures { Lefts (T.ticks now) dues.now from group_size result }
{
    let mut out = [0; GROUP];
    for (i, left) in out.iter_mut().enumerate() {
        *left = (T::at(dues[from + i]).left(now) % BYTE_RANGE) as u8;
    }
    out
}

fn counted(counts: bool, left: u8) -> u8
    ensures { result ≡ (if counts then left else 0) }
{
    if counts { left } else { 0 }
}

// With those of a group: local ones that the task set, and global ones.
fn longest_in(so_far: Units, q: Query, expirations: &ExpirationTable, from: usize) -> Units
    requires { EntriesSized expirations.now
        × (from + group_size ≤ expiration_entries)
        × (q.task < task_count) }
    ensures { result ≡ longest so_far
        (units_in q (drop from (take (from + group_size) (expiration_list expirations.now)))) }
{
    if !has_byte(&expirations.named, q.block, from, from + GROUP) {
        return so_far;
    }
    let locals = lefts(q.local, &expirations.dues, from);
    let globals = lefts(q.global, &expirations.dues, from);
    let mut local = so_far.local;
    let mut global = so_far.global;
    // By index: four columns are read at two offsets.
    for i in 0..GROUP {
        let on = expirations.named[from + i] == q.block;
        let clock = expirations.clocks[from + i];
        local = local.max(counted(on & (clock == LOCAL + q.task), locals[i]));
        global = global.max(counted(on & is_global(clock), globals[i]));
    }
    Units { local, global }
}

// The remaining life of the object in a block, for a task that asks. In a well-formed record each figure fits a byte.
pub fn remaining_life(h: Head, expirations: &ExpirationTable, task: u8, block: usize) -> Life
    requires { EntriesSized expirations.now
        × (task < task_count)
        × (block < block_entries)
        × LifeWithin (life_in task block h.tasks h.global (expiration_list expirations.now)) }
    ensures { result ≡ life_in task block h.tasks h.global
        (expiration_list expirations.now) }
{
    let tasks = h.tasks;
    let asker = tasks[task as usize];
    let q = Query {
        task,
        local: asker.clock,
        global: h.global,
        block: block as u8,
    };
    let mut left = NONE;
    // By number: a group is a part of several columns at once.
    for g in 0..GROUP_COUNT {
        left = longest_in(left, q, expirations, g * GROUP);
    }
    Life {
        local: left.local,
        global: left.global,
    }
}
