// What a leave and an advance make of global expirations, before any is judged due: the leaver's have a departed setter, and those whose
// setter waits are put off.
ghost use Rattle.std.specs.Prelude.{◌≡◌, ◌+◌, ◌<◌, ◌≤◌, if◌then◌else◌};
ghost use Rattle.std.specs.List.{list_any};
ghost use Rattle.ledger.specs.Limits.{task_count};
ghost use Rattle.record.specs.Tables.{expiration_entries, group_size};
ghost use Rattle.steps.specs.Events.{next_time, deserted_clock};
ghost use Rattle.endings.specs.Late.{deserted_at, put_off_at, is_waiting_entry, PutOff, GlobalFlags, put_off_by};
ghost use Rattle.expirations.specs.Places.{Changed};

use super::Passing;
use expirations::asking::{any_global_clock, place_for};
use ledger::TASK_COUNT;
use record::codes::{DEPARTED, GLOBAL};
use record::running::is_waiting;
use record::{BYTE_VALUES, EXPIRATION_COUNT, GROUP, GROUP_COUNT, TaskEntry};
use std::num::wrapping_add_u32;

// E21: a clock after the leave of a task.
fn deserted(task: u8, clock: u8) -> u8
    requires { task < task_count }
    ensures { result ≡ deserted_clock task clock }
{
    if clock == GLOBAL + task {
        DEPARTED
    } else {
        clock
    }
}

// All of them, where the task leaves.
pub fn desert(t: Passing, clocks: &mut [u8; EXPIRATION_COUNT])
    requires { t.task < task_count }
    ensures { Changed 0 (deserted_at t) 0 expiration_entries clocks.old clocks.new }
{
    if !t.leaves {
        return;
    }
    for clock in clocks.iter_mut() {
        *clock = deserted(t.task, *clock);
    }
}

// Whether a task waits.
fn any_waiting(tasks: [TaskEntry; TASK_COUNT]) -> bool
    ensures { result ≡ list_any is_waiting_entry tasks }
{
    tasks.iter().any(|e| is_waiting(*e))
}

// E20: a flag for each clock, set where its setter waits.
fn put_off_flags(tasks: [TaskEntry; TASK_COUNT]) -> [bool; BYTE_VALUES]
    ensures { PutOff tasks result }
{
    let mut flags = [false; BYTE_VALUES];
    for (task, e) in tasks.iter().enumerate() {
        flags[GLOBAL as usize + task] = is_waiting(*e);
    }
    flags
}

// A due number, put off by one or not.
fn put_off_due(late: bool, due: u32) -> u32
    ensures { result ≡ (if late then next_time due else due) }
{
    if late { wrapping_add_u32(due, 1) } else { due }
}

// Those of a group.
fn put_off_in(
    flags: &[bool; BYTE_VALUES],
    clocks: &[u8; EXPIRATION_COUNT],
    dues: &mut [u32; EXPIRATION_COUNT],
    from: usize,
)
    requires { GlobalFlags flags.now
        × (from + group_size ≤ expiration_entries) }
    ensures { Changed 0 (put_off_by flags.now clocks.now) from (from + group_size) dues.old
        dues.new }
{
    if !any_global_clock(clocks, from) {
        return;
    }
    // By index: two columns go on from a place in the middle, and one of them is written.
    for i in from..from + GROUP {
        let at = place_for(clocks[i]);
        dues[i] = put_off_due(flags[at], dues[i]);
    }
}

// All of them, at an advance, by the tasks as it leaves them, two groups in a turn.
pub fn put_off(
    t: Passing,
    tasks: [TaskEntry; TASK_COUNT],
    clocks: &[u8; EXPIRATION_COUNT],
    dues: &mut [u32; EXPIRATION_COUNT],
)
    ensures { Changed 0 (put_off_at t tasks clocks.now) 0 expiration_entries dues.old dues.new }
{
    if !t.advanced {
        return;
    }
    if !any_waiting(tasks) {
        return;
    }
    let flags = put_off_flags(tasks);
    // By number: a group is a part of several columns at once.
    for g in 0..GROUP_COUNT / 2 {
        put_off_in(&flags, clocks, dues, g * 2 * GROUP);
        put_off_in(&flags, clocks, dues, g * 2 * GROUP + GROUP);
    }
}
