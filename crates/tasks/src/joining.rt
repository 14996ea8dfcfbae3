// What a join tests and enters (order 9 of document 02).
ghost use Rattle.std.specs.Prelude.{◌≡◌, ◌+◌, ◌||◌, nat_lt};
ghost use Rattle.ledger.specs.Refusals.{is_upside_down};
ghost use Rattle.steps.specs.Joins.{joined_entry};
ghost use Rattle.tasks.specs.Joining.{join_verdict};

use ledger::{Quota, Refusal, Share, TASK_COUNT};
use record::codes::RUNNING;
use record::running::is_absent;
use record::{Head, LocalTime, TaskEntry};

// T9: the entry of a task that joins.
pub const JOINED_TASK: TaskEntry = TaskEntry {
    state: RUNNING,
    ticked: 0,
    clock: LocalTime(0),
};

// 24, of one store
fn is_upside_down(quota: Quota) -> bool
    ensures { result ≡ is_upside_down quota }
{
    quota.limit < quota.reserve
}

// 25, of one store of which so many blocks are spoken for
fn is_scant(blocks: u32, spoken: u32, reserve: u8) -> bool
    ensures { result ≡ nat_lt blocks (spoken + reserve) }
{
    (blocks as u64) < spoken as u64 + reserve as u64
}

// R36: 1, 2, 24, 25, where so many blocks of either store are spoken for
#[tactic(auto, unfolding(crate::specs::Joining::join_verdict, ledger::specs::Rules::tests_of, ledger::specs::Refusals::verdict))]
pub fn judge_join(h: Head, small: u32, large: u32, task: u8, share: Share) -> Result<(), Refusal>
    ensures { result ≡ join_verdict h task share
        (nat_lt h.limits.small (small + share.small.reserve) || nat_lt h.limits.large (large + share.large.reserve)) }
{
    let at = task as usize;
    if TASK_COUNT <= at {
        return Err(Refusal::NoSuchTask);
    }
    let limits = h.limits;
    let tasks = h.tasks;
    let e = tasks[at];
    if !is_absent(e.state) {
        return Err(Refusal::TaskPresent);
    }
    if is_upside_down(share.small) | is_upside_down(share.large) {
        return Err(Refusal::ReserveAboveLimit);
    }
    if is_scant(limits.small, small, share.small.reserve)
        | is_scant(limits.large, large, share.large.reserve)
    {
        return Err(Refusal::ReserveNotFree);
    }
    Ok(())
}
