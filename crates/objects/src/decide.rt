// What a make and a batch decide, on the tables that they read: nothing is changed here. A batch's objects are sought where no test before
// that refuses.
ghost use Rattle.std.specs.Prelude.{◌+◌, ◌-◌, true, leb, ◌≡◌, length};
ghost use Rattle.ledger.specs.Limits.{is_allowed, is_small};
ghost use Rattle.record.specs.Tables.{block_entries};
ghost use Rattle.steps.specs.Objects.{free_place_in};
ghost use Rattle.objects.specs.Batches.{PlansBatch};
ghost use Rattle.refusals.specs.Verdicts.{and_then, make_call_verdict, taking_verdict};
ghost use Rattle.objects.specs.Outcomes.{is_limited_by, is_filled_by, make_plan};

use super::{BatchPlan, Plan};
use ledger::{Kind, LARGEST_BATCH, Refusal, SMALL_SIZE};
use record::{BLOCK_COUNT, Head};
use refusals::{
    batch_call_verdict, batch_objects_verdict, find_batch, free_place, make_call_verdict,
    taking_verdict,
};
use shares::{Holding, of_store};

// 9, by what of a store is spoken for: of that, the task's own unmet reserve is held back for nobody else.
fn is_filled(blocks: u32, reserve: u8, made: u8, spoken: u32) -> bool
    ensures { result ≡ leb (blocks + (reserve - made)) spoken }
{
    u64::from(blocks) + u64::from(reserve.saturating_sub(made)) <= u64::from(spoken)
}

// The verdict of a make, where so many expirations stand and the tasks have this of its store.
fn judge_make(
    h: Head,
    holding: Holding,
    standing: u16,
    task: u8,
    kind: Kind,
    extension: u8,
    size: u16,
    prefix: u16,
) -> Result<(), Refusal>
    requires { is_allowed h.limits ≡ true }
    ensures { result ≡ and_then (make_call_verdict h.limits task kind extension size prefix h.tasks h.given)
        (taking_verdict h.limits (is_limited_by (is_small size) h.shares holding task)
        (is_filled_by (is_small size) h.limits h.shares holding task) standing) }
{
    let size = size as u32;
    let limits = h.limits;
    let tasks = h.tasks;
    make_call_verdict(
        limits,
        task,
        kind,
        extension,
        size,
        prefix as u32,
        tasks,
        h.given,
    )?;
    let at = task as usize;
    let small = size <= SMALL_SIZE;
    let shares = h.shares;
    let share = shares[at];
    let quota = of_store(small, share.small, share.large);
    let made = holding.made[at];
    let full = is_filled(
        of_store(small, limits.small, limits.large),
        quota.reserve,
        made,
        holding.spoken,
    );
    taking_verdict(limits, quota.limit <= made, full, standing as usize)
}

// A make, with the first free block, where so many expirations stand and the tasks have this of its store.
pub fn plan_make(
    h: Head,
    handles: &[u32; BLOCK_COUNT],
    holding: Holding,
    standing: u16,
    task: u8,
    kind: Kind,
    extension: u8,
    size: u16,
    prefix: u16,
) -> Plan
    requires { (length handles.now ≡ block_entries)
        × (is_allowed h.limits ≡ true) }
    ensures { result ≡ make_plan task kind extension size prefix h (free_place_in h.limits size handles.now) holding
        standing }
{
    let place = free_place(h.limits, handles, size as u32);
    let verdict = judge_make(h, holding, standing, task, kind, extension, size, prefix);
    Plan { verdict, place }
}

// A batch, with the blocks of its objects, where so many expirations stand.
pub fn plan_batch(
    h: Head,
    handles: &[u32; BLOCK_COUNT],
    standing: u16,
    task: u8,
    kind: Kind,
    extension: u8,
    bytes: &[u8],
) -> BatchPlan
    requires { length handles.now ≡ block_entries }
    ensures { PlansBatch task kind extension bytes.now h handles.now standing result }
{
    let count = bytes.len() / 4;
    let tasks = h.tasks;
    if let Err(why) = batch_call_verdict(h.limits, task, kind, extension, tasks, count) {
        return BatchPlan {
            verdict: Err(why),
            blocks: [0; LARGEST_BATCH],
            count,
        };
    }
    let found = find_batch(h.given, handles, bytes);
    let blocks = found.blocks;
    let after = standing as usize + count;
    let verdict = batch_objects_verdict(h.limits, found.ungiven, found.gone, after);
    BatchPlan {
        verdict,
        blocks,
        count,
    }
}
