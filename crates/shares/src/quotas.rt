// What of their quotas tasks have. No loop has a way out before its end, so that all tasks are asked at once.
ghost use Rattle.std.specs.Prelude.{◌-◌, ◌<◌, true, cond, ◌&&◌, ◌≡◌, leb};
ghost use Rattle.lists.specs.Tables.{all_from};
ghost use Rattle.lists.specs.Tests.{all};
ghost use Rattle.ledger.specs.Tasks.{is_active};
ghost use Rattle.record.specs.Codes.{state_of};
ghost use Rattle.record.specs.Shares.{is_ordered};
ghost use Rattle.record.specs.WellFormed.{is_fit_task};
ghost use Rattle.shares.specs.Quotas.{Unmets, is_quota_kept, is_clear};

use super::of_store;
use ledger::{Quota, Share, TASK_COUNT};
use record::TaskEntry;

// Q5: by how much each task's reserve is unmet.
pub fn unmets(shares: [Share; TASK_COUNT], made: [u8; TASK_COUNT], small: bool) -> [u8; TASK_COUNT]
    ensures { Unmets small shares made result }
{
    let mut out = [0; TASK_COUNT];
    for (i, share) in shares.iter().enumerate() {
        let quota = of_store(small, share.small, share.large);
        out[i] = quota.reserve.saturating_sub(made[i]);
    }
    out
}

// What a task made and what is unmet are together the larger of that and its reserve: so one test tells W21 and W24.
fn is_within(made: u8, unmet: u8, quota: Quota) -> bool
    requires { unmet ≡ quota.reserve - made }
    ensures { result ≡ (is_ordered quota && leb made quota.limit) }
{
    made + unmet <= quota.limit
}

pub fn all_within(
    shares: [Share; TASK_COUNT],
    made: [u8; TASK_COUNT],
    unmets: [u8; TASK_COUNT],
    small: bool,
) -> bool
    requires { Unmets small shares made unmets }
    ensures { result ≡ all_from 0 (is_quota_kept small made) shares }
{
    let mut fit = true;
    for (i, share) in shares.iter().enumerate() {
        fit &= is_within(
            made[i],
            unmets[i],
            of_store(small, share.small, share.large),
        );
    }
    fit
}

// 1 where a task is absent or views, else 0: by its number, since of a test of two states the compiler makes longer code.
fn is_idle(state: u16) -> u16
    requires { state < 4 }
    ensures { result ≡ cond (is_active (state_of state)) 0 1 }
{
    1 - (state + 1) / 2 % 2
}

// W20: who is not active has no limits; by W21 it then reserves nothing.
pub fn all_clear(tasks: [TaskEntry; TASK_COUNT], shares: [Share; TASK_COUNT]) -> bool
    requires { all is_fit_task tasks ≡ true }
    ensures { result ≡ all_from 0 (is_clear tasks) shares }
{
    let mut over: u16 = 0;
    // By index: zipped a call takes 117 instructions more.
    for i in 0..TASK_COUNT {
        let e = tasks[i];
        let share = shares[i];
        over |= (share.small.limit as u16 | share.large.limit as u16) * is_idle(e.state);
    }
    over == 0
}
