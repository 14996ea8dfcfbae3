// The two tests before a call, on lent tables: 15 first, then 14 where a store is touched, and then the call itself: each call that
// changes the record by its own function, and any call by its request. Who lends the tables never looks at the record again.
#![tactic(auto)]

ghost use Rattle.std.specs.Prelude.{false, ◌≡◌, length};
ghost use Rattle.ledger.specs.declared.Call.TheVariants.{Join, Schedule, Refresh, Batch, Release};
ghost use Rattle.ledger.specs.Tasks.{is_tested};
ghost use Rattle.ledger.specs.declared.Request.TheVariants.{Use};
ghost use Rattle.record.specs.Tables.{pooled, Sized, BlocksSized, EntriesSized};
ghost use Rattle.calls.specs.Contract.{FollowsWith, Follows, Makes, Writes};

use calls;
use calls::{Step, answered, refused};
use fitness::{fitness_of, is_well_formed};
use ledger::{Event, Kind, Refusal, SMALL_SIZE, Share};
use record::{BlockTable, ExpirationTable, Head};
use shares::of_store;
use stores::are_whole;

mod requests;

pub use requests::call;

// Join, with what the task asks for.
pub fn join(
    h: Head,
    blocks: &BlockTable,
    expirations: &ExpirationTable,
    task: u8,
    share: Share,
) -> Step
    requires { Sized blocks.now expirations.now }
    ensures { Follows (Use (Join task share))
        (pooled h blocks.now expirations.now) result.answer
        (pooled result.head blocks.now expirations.now) }
{
    let Some(holdings) = fitness_of(h, blocks, expirations) else {
        return refused(Refusal::NotWellFormed, h);
    };
    calls::join(h, holdings, task, share)
}

// A resume or a view.
pub fn start(
    h: Head,
    blocks: &BlockTable,
    expirations: &ExpirationTable,
    event: Event,
    task: u8,
) -> Step
    requires { Sized blocks.now expirations.now
        × (is_tested event ≡ false) }
    ensures { Follows (Use (Schedule event task))
        (pooled h blocks.now expirations.now) result.answer
        (pooled result.head blocks.now expirations.now) }
{
    if !is_well_formed(h, blocks, expirations) {
        return refused(Refusal::NotWellFormed, h);
    }
    calls::start(h, event, task)
}

// Leave, block, resume, tick and view.
pub fn schedule(
    h: Head,
    blocks: &mut BlockTable,
    expirations: &mut ExpirationTable,
    event: Event,
    task: u8,
) -> Step
    requires { Sized blocks.old expirations.old }
    ensures { Sized blocks.new expirations.new
        × Follows (Use (Schedule event task))
        (pooled h blocks.old expirations.old) result.answer
        (pooled result.head blocks.new expirations.new)
        × (expirations.new.named ≡ expirations.old.named) }
{
    if !is_well_formed(h, blocks, expirations) {
        return refused(Refusal::NotWellFormed, h);
    }
    calls::schedule(h, blocks, expirations, event, task)
}

pub fn make(
    h: Head,
    blocks: &mut BlockTable,
    expirations: &mut ExpirationTable,
    small: &mut [u8],
    large: &mut [u8],
    task: u8,
    kind: Kind,
    extension: u8,
    size: u16,
    prefix: u16,
) -> Step
    requires { Sized blocks.old expirations.old }
    ensures { Sized blocks.new expirations.new
        × Makes task kind extension size prefix
        (pooled h blocks.old expirations.old)
        small.old large.old result.answer
        (pooled result.head blocks.new expirations.new)
        small.new large.new }
{
    let Some(holdings) = fitness_of(h, blocks, expirations) else {
        return refused(Refusal::NotWellFormed, h);
    };
    if !are_whole(h.limits, small.len(), large.len()) {
        return refused(Refusal::WrongStoreLength, h);
    }
    let holding = of_store(size as u32 <= SMALL_SIZE, holdings.small, holdings.large);
    calls::make(
        h,
        blocks,
        expirations,
        small,
        large,
        holding,
        task,
        kind,
        extension,
        size,
        prefix,
    )
}

pub fn release(
    h: Head,
    blocks: &mut BlockTable,
    expirations: &mut ExpirationTable,
    task: u8,
    handle: u32,
) -> Step
    requires { Sized blocks.old expirations.old }
    ensures { Sized blocks.new expirations.new
        × Follows (Use (Release task handle))
        (pooled h blocks.old expirations.old) result.answer
        (pooled result.head blocks.new expirations.new)
        × (blocks.new.extents ≡ blocks.old.extents)
        × (expirations.new.named ≡ expirations.old.named)
        × (expirations.new.dues ≡ expirations.old.dues) }
{
    if !is_well_formed(h, blocks, expirations) {
        return refused(Refusal::NotWellFormed, h);
    }
    calls::release(h, blocks, expirations, task, handle)
}

pub fn refresh(
    h: Head,
    blocks: &BlockTable,
    expirations: &mut ExpirationTable,
    task: u8,
    kind: Kind,
    extension: u8,
    handle: u32,
) -> Step
    requires { Sized blocks.now expirations.old }
    ensures { EntriesSized expirations.new
        × Follows (Use (Refresh task kind extension handle))
        (pooled h blocks.now expirations.old) result.answer
        (pooled result.head blocks.now expirations.new) }
{
    if !is_well_formed(h, blocks, expirations) {
        return refused(Refusal::NotWellFormed, h);
    }
    calls::refresh(h, blocks, expirations, task, kind, extension, handle)
}

pub fn batch(
    h: Head,
    blocks: &BlockTable,
    expirations: &mut ExpirationTable,
    task: u8,
    kind: Kind,
    extension: u8,
    bytes: &[u8],
) -> Step
    requires { Sized blocks.now expirations.old }
    ensures { EntriesSized expirations.new
        × FollowsWith (Use (Batch task kind extension)) bytes.now
        (pooled h blocks.now expirations.old) result.answer
        (pooled result.head blocks.now expirations.new) }
{
    if !is_well_formed(h, blocks, expirations) {
        return refused(Refusal::NotWellFormed, h);
    }
    calls::batch(h, blocks, expirations, task, kind, extension, bytes)
}

pub fn write(
    h: Head,
    blocks: &mut BlockTable,
    expirations: &ExpirationTable,
    small: &mut [u8],
    large: &mut [u8],
    task: u8,
    handle: u32,
    offset: u8,
    bytes: &[u8],
) -> Step
    requires { Sized blocks.old expirations.now }
    ensures { BlocksSized blocks.new
        × Writes task handle offset bytes.now
        (pooled h blocks.old expirations.now)
        small.old large.old result.answer
        (pooled result.head blocks.new expirations.now)
        small.new large.new }
{
    if !is_well_formed(h, blocks, expirations) {
        return refused(Refusal::NotWellFormed, h);
    }
    if !are_whole(h.limits, small.len(), large.len()) {
        return refused(Refusal::WrongStoreLength, h);
    }
    let answer = calls::write(
        h,
        blocks,
        expirations,
        small,
        large,
        task,
        handle,
        offset,
        bytes,
    );
    answered(answer, h)
}
