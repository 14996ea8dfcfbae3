// Each call that changes something, and remaining life, of a well-formed record with stores as long as its blocks need: what follows the
// tests of 15 and 14. The head goes by value, tables and stores are lent. A call decides first, by what it only reads, and then changes: a
// refusal has touched nothing.
#![tactic(auto)]

ghost use Rattle.std.specs.Prelude.{◌<◌, true, false, ◌≡◌, length};
ghost use Rattle.ledger.specs.Limits.{task_count, is_small};
ghost use Rattle.ledger.specs.Tasks.{is_tested};
ghost use Rattle.ledger.specs.declared.Call.TheVariants.{Join, Schedule, Make, Refresh, Write, Batch, Release};
ghost use Rattle.ledger.specs.declared.Request.TheVariants.{Use, Remaining};
ghost use Rattle.record.specs.Pools.{is_well_formed};
ghost use Rattle.record.specs.Tables.{pooled, Sized, block_list, BlocksSized, EntriesSized};
ghost use Rattle.shares.specs.Holdings.{Holds, HoldsBoth};
ghost use Rattle.calls.specs.Contract.{Ready, FollowsWith, Follows, Makes, Writes};
ghost use Rattle.calls.specs.Engine.{step_of, Bare, refused_by, with_given, with_times, shares_left, joined_head, FollowsBeside, FollowsAlone};

use endings;
use endings::{Passing, end, orphan};
use expirations::{set, set_all, standing};
use ledger::{Answer, Event, Kind, Refusal, Share, TASK_COUNT};
use objects::{
    find_for_refresh, find_for_release, find_for_write, find_life, plan_batch, plan_make,
};
use record::codes::{extent_of, with_sum};
use record::{BlockTable, ExpirationTable, GlobalTime, Head, NO_SHARE, Pool, TaskEntry};
use shares::{Holding, Holdings};
use stores::{clear_place, sum_after, write_place};
use tasks::{JOINED_TASK, judge_join, plan, plan_start};

// What a call gives back: the head that it leaves, and its answer. The bytes of a read are the first `length` of `block`; length is 0 for
// every other answer.
#[derive(Clone, Copy)]
pub struct Step {
    pub head: Head,
    pub answer: Answer,
    pub block: usize,
    pub length: u16,
}

// What a call gives back that hands back no bytes.
pub fn answered(answer: Answer, head: Head) -> Step
    ensures { result ≡ step_of answer head }
{
    Step {
        head,
        answer,
        block: 0,
        length: 0,
    }
}

// A call that is refused.
pub fn refused(why: Refusal, h: Head) -> Step
    ensures { result ≡ refused_by why h }
{
    answered(Answer::Refused(why), h)
}

fn with_given(mut h: Head, given: u32) -> Head
    ensures { result ≡ with_given h given }
{
    h.given = given;
    h
}

// With the tasks and the time that an event leaves.
fn with_times(mut h: Head, tasks: [TaskEntry; TASK_COUNT], global: GlobalTime) -> Head
    ensures { result ≡ with_times h tasks global }
{
    h.tasks = tasks;
    h.global = global;
    h
}

// Q2: a leaver has nothing any more.
fn shares_left(leaves: bool, task: u8, mut shares: [Share; TASK_COUNT]) -> [Share; TASK_COUNT]
    ensures { result ≡ shares_left leaves task shares }
{
    let at = task as usize;
    if !leaves {
        return shares;
    }
    if TASK_COUNT <= at {
        return shares;
    }
    shares[at] = NO_SHARE;
    shares
}

// Leave, block, resume, tick and view.
pub fn schedule(
    h: Head,
    blocks: &mut BlockTable,
    expirations: &mut ExpirationTable,
    event: Event,
    task: u8,
) -> Step
    requires { Sized blocks.old expirations.old }
    ensures { FollowsBeside (Use (Schedule event task)) h blocks.old expirations.old result.answer result.head blocks.new expirations.new
        × Bare result
        × (expirations.new.named ≡ expirations.old.named) }
{
    let limits = h.limits;
    let before = h.tasks;
    let time = h.global;
    let shares = h.shares;
    let planned = plan(before, time, event, task);
    let answer = planned.answer;
    let tasks = planned.tasks;
    let global = planned.global;
    let Some(ending) = planned.ending else {
        return answered(answer, with_times(h, tasks, global));
    };
    let head = Head {
        limits,
        tasks,
        global,
        given: h.given,
        shares: shares_left(ending.leaves, task, shares),
    };
    let passing = Passing {
        task,
        leaves: ending.leaves,
        local: ending.local,
        advanced: ending.advanced,
        global,
    };
    end(
        passing,
        tasks,
        &mut blocks.handles,
        &mut expirations.clocks,
        &expirations.named,
        &mut expirations.dues,
    );
    orphan(passing, &mut blocks.extents);
    answered(answer, head)
}

// A resume or a view alone: no advance test follows it, and it touches no table.
pub fn start(h: Head, event: Event, task: u8) -> Step
    requires { is_tested event ≡ false }
    ensures { FollowsAlone (λ blocks. Unit) (Use (Schedule event task)) h result.answer result.head
        × Bare result }
{
    let before = h.tasks;
    let time = h.global;
    let planned = plan_start(before, time, event, task);
    answered(planned.answer, with_times(h, planned.tasks, planned.global))
}

fn with_joined(mut h: Head, task: u8, share: Share) -> Head
    requires { task < task_count }
    ensures { result ≡ joined_head h task share }
{
    let mut tasks = h.tasks;
    let mut shares = h.shares;
    tasks[task as usize] = JOINED_TASK;
    shares[task as usize] = share;
    h.tasks = tasks;
    h.shares = shares;
    h
}

// Join, with what the task asks for, where the tasks have this of the stores; no table changes.
pub fn join(h: Head, holdings: Holdings, task: u8, share: Share) -> Step
    ensures { FollowsAlone (λ blocks. HoldsBoth h.shares blocks holdings) (Use (Join task share)) h result.answer result.head
        × Bare result }
{
    if let Err(why) = judge_join(h, holdings.small.spoken, holdings.large.spoken, task, share) {
        return refused(why, h);
    }
    answered(Answer::Done, with_joined(h, task, share))
}

// Takes a free block for an object, and sets its first expiration.
pub fn make(
    h: Head,
    blocks: &mut BlockTable,
    expirations: &mut ExpirationTable,
    small: &mut [u8],
    large: &mut [u8],
    holding: Holding,
    task: u8,
    kind: Kind,
    extension: u8,
    size: u16,
    prefix: u16,
) -> Step
    requires { Sized blocks.old expirations.old
        × Ready (Use (Make task kind extension size prefix))
        (pooled h blocks.old expirations.old) small.old large.old
        × Holds (is_small size) h.shares (block_list blocks.old) holding }
    ensures { Sized blocks.new expirations.new
        × Makes task kind extension size prefix
        (pooled h blocks.old expirations.old)
        small.old large.old result.answer
        (pooled result.head blocks.new expirations.new)
        small.new large.new
        × Bare result }
{
    let standing = standing(&expirations.clocks);
    let plan = plan_make(
        h,
        &blocks.handles,
        holding,
        standing,
        task,
        kind,
        extension,
        size,
        prefix,
    );
    if let Err(why) = plan.verdict {
        return refused(why, h);
    }
    let place = plan.place;
    set(h, kind, task, extension, place, expirations);
    clear_place(small, large, place);
    let handle = h.given + 1;
    blocks.handles[place] = handle;
    blocks.extents[place] = extent_of(size, 0, task, prefix);
    answered(Answer::Handle(handle), with_given(h, handle))
}

// Sets one more expiration.
pub fn refresh(
    h: Head,
    blocks: &BlockTable,
    expirations: &mut ExpirationTable,
    task: u8,
    kind: Kind,
    extension: u8,
    handle: u32,
) -> Step
    requires { Sized blocks.now expirations.old
        × (is_well_formed (pooled h blocks.now expirations.old) ≡ true) }
    ensures { EntriesSized expirations.new
        × Follows (Use (Refresh task kind extension handle))
        (pooled h blocks.now expirations.old) result.answer
        (pooled result.head blocks.now expirations.new)
        × Bare result }
{
    let found = match find_for_refresh(h, blocks, expirations, task, kind, extension, handle) {
        Err(why) => return refused(why, h),
        Ok(found) => found,
    };
    set(h, kind, task, extension, found.block, expirations);
    answered(Answer::Done, h)
}

// E24: ends the pinned expiration of an object.
pub fn release(
    h: Head,
    blocks: &mut BlockTable,
    expirations: &mut ExpirationTable,
    task: u8,
    handle: u32,
) -> Step
    requires { Sized blocks.old expirations.old
        × (is_well_formed (pooled h blocks.old expirations.old) ≡ true) }
    ensures { Sized blocks.new expirations.new
        × Follows (Use (Release task handle))
        (pooled h blocks.old expirations.old) result.answer
        (pooled result.head blocks.new expirations.new)
        × Bare result
        × (blocks.new.extents ≡ blocks.old.extents)
        × (expirations.new.named ≡ expirations.old.named)
        × (expirations.new.dues ≡ expirations.old.dues) }
{
    match find_for_release(h, blocks, expirations, task, handle) {
        Err(why) => refused(why, h),
        Ok(found) => {
            endings::release(
                found.block,
                &mut blocks.handles,
                &mut expirations.clocks,
                &expirations.named,
            );
            answered(Answer::Done, h)
        }
    }
}

// Sets one more expiration on each object that the bytes name, or on none.
pub fn batch(
    h: Head,
    blocks: &BlockTable,
    expirations: &mut ExpirationTable,
    task: u8,
    kind: Kind,
    extension: u8,
    bytes: &[u8],
) -> Step
    requires { Sized blocks.now expirations.old
        × (is_well_formed (pooled h blocks.now expirations.old) ≡ true) }
    ensures { EntriesSized expirations.new
        × FollowsWith (Use (Batch task kind extension)) bytes.now
        (pooled h blocks.now expirations.old) result.answer
        (pooled result.head blocks.now expirations.new)
        × Bare result }
{
    let standing = standing(&expirations.clocks);
    let plan = plan_batch(h, &blocks.handles, standing, task, kind, extension, bytes);
    if let Err(why) = plan.verdict {
        return refused(why, h);
    }
    set_all(
        h,
        kind,
        task,
        extension,
        &plan.blocks,
        plan.count,
        expirations,
    );
    answered(Answer::Done, h)
}

// Replaces bytes of an object, and with them the sum of its block's bytes.
pub fn write(
    h: Head,
    blocks: &mut BlockTable,
    expirations: &ExpirationTable,
    small: &mut [u8],
    large: &mut [u8],
    task: u8,
    handle: u32,
    offset: u8,
    bytes: &[u8],
) -> Answer
    requires { Sized blocks.old expirations.now
        × Ready (Use (Write task handle offset))
        (pooled h blocks.old expirations.now) small.old large.old }
    ensures { BlocksSized blocks.new
        × Writes task handle offset bytes.now
        (pooled h blocks.old expirations.now)
        small.old large.old result
        (pooled h blocks.new expirations.now)
        small.new large.new }
{
    match find_for_write(
        h,
        blocks,
        expirations,
        small,
        large,
        task,
        handle,
        offset,
        bytes.len(),
    ) {
        Err(why) => Answer::Refused(why),
        Ok(part) => {
            let block = part.block;
            let offset = offset as usize;
            let after = sum_after(small, large, block, offset, bytes, part.sum);
            write_place(small, large, block, offset, bytes);
            blocks.extents[block] = with_sum(blocks.extents[block], after);
            Answer::Done
        }
    }
}

// How long an object has left for the task that asks; nothing is changed.
pub fn remaining(
    h: Head,
    blocks: &BlockTable,
    expirations: &ExpirationTable,
    task: u8,
    handle: u32,
) -> Answer
    requires { Sized blocks.now expirations.now
        × (is_well_formed (pooled h blocks.now expirations.now) ≡ true) }
    ensures { Follows (Remaining task handle)
        (pooled h blocks.now expirations.now) result
        (pooled h blocks.now expirations.now) }
{
    match find_life(h, blocks, expirations, task, handle) {
        Err(why) => Answer::Refused(why),
        Ok(life) => Answer::Lasts(life),
    }
}
