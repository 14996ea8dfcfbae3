// What ends expirations, and frees the blocks that have none left: an event those that are over, a release the pinned one of its object.
#![tactic(auto)]

ghost use Rattle.std.specs.Prelude.{◌<◌};
ghost use Rattle.ledger.specs.Limits.{task_count};
ghost use Rattle.endings.specs.Ending.{Ends};

mod ending;
mod late;
mod makers;
mod releasing;
mod unpinning;

use ending::end_due;
use expirations::naming::flags_of;
use late::{desert, put_off};
use ledger::TASK_COUNT;
pub use makers::orphan;
use record::{BLOCK_COUNT, EXPIRATION_COUNT, GlobalTime, LocalTime, TaskEntry};
use releasing::keep_named;
pub use unpinning::release;

// The time that an event of a task leaves: the task's local time, and whether it leaves for good; the global time, and whether that has
// advanced. (Both times are told whatever the flags say, so they are no Options.)
#[derive(Clone, Copy)]
pub struct Passing {
    pub task: u8,
    pub leaves: bool,
    pub local: LocalTime,
    pub advanced: bool,
    pub global: GlobalTime,
}

// What an event ends: the task's local expirations that are due, all of them where it leaves, and at an advance the global ones that are
// due, after those whose setter waits are put off. An object whose last one ends is gone, and its block is free.
pub fn end(
    t: Passing,
    tasks: [TaskEntry; TASK_COUNT],
    handles: &mut [u32; BLOCK_COUNT],
    clocks: &mut [u8; EXPIRATION_COUNT],
    named: &[u8; EXPIRATION_COUNT],
    dues: &mut [u32; EXPIRATION_COUNT],
)
    requires { t.task < task_count }
    ensures { Ends t tasks named.now dues.old handles.old clocks.old
        handles.new clocks.new dues.new }
{
    desert(t, clocks);
    put_off(t, tasks, clocks, dues);
    if end_due(t, clocks, dues) {
        keep_named(flags_of(clocks, named), handles);
    }
}
