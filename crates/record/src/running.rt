// Tests of task entries. They use `&` and `|`, which take no branch.
ghost use Rattle.std.specs.Prelude.{◌≡◌, map};
ghost use Rattle.lists.specs.Tests.{all};
ghost use Rattle.ledger.specs.Awaited.{awaited_of};
ghost use Rattle.ledger.specs.Tasks.{is_absent, is_waiting, is_viewing, is_active, all_ticked};
ghost use Rattle.record.specs.Codes.{state_of, task_of, is_running_entry, is_pending_entry};
ghost use Rattle.record.specs.WellFormed.{is_fit_task};

use super::TaskEntry;
use super::codes::{RUNNING, VIEWING, WAITING};
use ledger::TASK_COUNT;

pub fn is_running(e: TaskEntry) -> bool
    ensures { result ≡ is_running_entry e }
{
    e.state == RUNNING
}

pub fn is_waiting(e: TaskEntry) -> bool
    ensures { result ≡ is_waiting (state_of e.state) }
{
    e.state == WAITING
}

pub fn is_absent(state: u16) -> bool
    ensures { result ≡ is_absent (state_of state) }
{
    (state != RUNNING) & (state != WAITING) & (state != VIEWING)
}

pub fn is_viewing(state: u16) -> bool
    ensures { result ≡ is_viewing (state_of state) }
{
    state == VIEWING
}

// V3: who runs or waits.
pub fn is_active(state: u16) -> bool
    ensures { result ≡ is_active (state_of state) }
{
    (state == RUNNING) | (state == WAITING)
}

// Running, and not ticked.
fn is_pending(e: TaskEntry) -> bool
    ensures { result ≡ is_pending_entry e }
{
    is_running(e) & (e.ticked != 1)
}

#[tactic(auto, unfolding(crate::specs::WellFormed::is_fit_task))]
fn fits_task(e: TaskEntry) -> bool
    ensures { result ≡ is_fit_task e }
{
    (e.state < 4)
        & (e.ticked < 2)
        & ((e.ticked != 1) | is_running(e))
        & (!is_absent(e.state) | (e.clock.0 == 0))
}

// There is no way out before the end, so that several tasks are tested at once.
pub fn all_fit_tasks(tasks: [TaskEntry; TASK_COUNT]) -> bool
    ensures { result ≡ all is_fit_task tasks }
{
    let mut fit = true;
    for task in tasks {
        fit &= fits_task(task);
    }
    fit
}

// T16, the advance test: some task runs, and all that run have ticked.
pub fn all_ticked(tasks: [TaskEntry; TASK_COUNT]) -> bool
    ensures { result ≡ all_ticked (map task_of tasks) }
{
    let mut some = false;
    for task in tasks {
        if is_pending(task) {
            return false;
        }
        some |= is_running(task);
    }
    some
}

// T19: the tasks that run and have not ticked, a bit each. From the last task down, so that a turn doubles what it has.
pub fn awaited(tasks: [TaskEntry; TASK_COUNT]) -> u16
    ensures { result ≡ awaited_of (map task_of tasks) }
{
    let mut bits: u16 = 0;
    for task in tasks.iter().rev() {
        bits = 2 * bits + u16::from(is_pending(*task));
    }
    bits
}
