// Where an object is: one finding (O30), which remaining life, refresh, release, read and write make after the tests that go before it. The
// record is well-formed, or its figures would not fit.
ghost use Rattle.std.specs.Prelude.{ℕ, ◌<◌, true, false, ◌≡◌, length, List, [], ◌∷◌, ◌++◌};
ghost use Rattle.ledger.specs.Limits.{task_count};
ghost use Rattle.record.specs.Reading.{is_whole_small, is_whole_large};
ghost use Rattle.record.specs.Tables.{Sized, EntriesSized, expiration_list, block_entries, lent};
ghost use Rattle.record.specs.WellFormed.{is_well_formed};
ghost use Rattle.steps.specs.Remaining.{life_in, LifeWithin};
ghost use Rattle.ledger.specs.Refusals.{sum_differs};
ghost use Rattle.ledger.specs.Rules.{tests_of};
ghost use Rattle.ledger.specs.declared.Call.TheVariants.{Read, Refresh, Release, Write};
ghost use Rattle.steps.specs.Facts.{task_tests, handle_tests};
ghost use Rattle.objects.specs.Outcomes.{found_in, life_if, life_of, bytes_in, shown_in};

use super::{Found, Part};
use expirations::{is_pinned, remaining_life, standing};
use ledger::{Kind, Life, Refusal};
use record::codes::{length_in, prefix_in, sum_in};
use record::running::is_viewing;
use record::{BlockTable, ExpirationTable, Head};
use refusals::{found_verdict, locate, reaches_past, room_verdict, set_verdict, task_verdict};
use stores::block_sum;

// The remaining life, where it is asked for.
fn life_if(h: Head, expirations: &ExpirationTable, task: u8, block: usize, asks: bool) -> Life
    requires { EntriesSized expirations.now
        × (task < task_count)
        × (block < block_entries)
        × LifeWithin (life_in task block h.tasks h.global (expiration_list expirations.now)) }
    ensures { result ≡ life_if asks
        (life_in task block h.tasks h.global (expiration_list expirations.now)) }
{
    if asks {
        remaining_life(h, expirations, task, block)
    } else {
        Life {
            local: 0,
            global: 0,
        }
    }
}

// 11, 12, or where the object is.
fn find(
    h: Head,
    blocks: &BlockTable,
    expirations: &ExpirationTable,
    task: u8,
    handle: u32,
    asks: bool,
) -> Result<Found, Refusal>
    requires { Sized blocks.now expirations.now
        × (is_well_formed (lent h blocks.now expirations.now) ≡ true)
        × (task < task_count) }
    ensures { result ≡ found_in asks (handle_tests handle) task handle
        (lent h blocks.now expirations.now) }
{
    let block = locate(&blocks.handles, handle);
    found_verdict(handle, h.given, block)?;
    let life = life_if(h, expirations, task, block, asks);
    Ok(Found { block, life })
}

// The object whose life is asked for; only then are its figures worked out. Read, write and release begin with the same tests; the last two
// act, which a viewer may not.
pub fn find_standing(
    h: Head,
    blocks: &BlockTable,
    expirations: &ExpirationTable,
    task: u8,
    handle: u32,
    acts: bool,
    asks: bool,
) -> Result<Found, Refusal>
    requires { Sized blocks.now expirations.now
        × (is_well_formed (lent h blocks.now expirations.now) ≡ true) }
    ensures { result ≡ found_in asks (task_tests acts task (handle_tests handle)) task handle
        (lent h blocks.now expirations.now) }
{
    let tasks = h.tasks;
    task_verdict(acts, task, tasks)?;
    find(h, blocks, expirations, task, handle, asks)
}

// The remaining life of an object for the task that asks.
pub fn find_life(
    h: Head,
    blocks: &BlockTable,
    expirations: &ExpirationTable,
    task: u8,
    handle: u32,
) -> Result<Life, Refusal>
    requires { Sized blocks.now expirations.now
        × (is_well_formed (lent h blocks.now expirations.now) ≡ true) }
    ensures { result ≡ life_of (found_in true (task_tests false task (handle_tests handle)) task handle
        (lent h blocks.now expirations.now)) }
{
    Ok(find_standing(h, blocks, expirations, task, handle, false, true)?.life)
}

// The object whose bytes are asked for: those of its block add up to its sum.
fn find_bytes(
    h: Head,
    blocks: &BlockTable,
    expirations: &ExpirationTable,
    small: &[u8],
    large: &[u8],
    task: u8,
    handle: u32,
    acts: bool,
) -> Result<Part, Refusal>
    requires { Sized blocks.now expirations.now
        × (is_well_formed (lent h blocks.now expirations.now) ≡ true)
        × (is_whole_small h.limits small.now ≡ true)
        × (is_whole_large h.limits large.now ≡ true) }
    ensures { result ≡ bytes_in small.now large.now
        (task_tests acts task (handle_tests handle) ++ (sum_differs handle ∷ [])) handle
        (lent h blocks.now expirations.now) }
{
    let found = find_standing(h, blocks, expirations, task, handle, acts, false)?;
    let block = found.block;
    let extent = blocks.extents[block];
    let sum = sum_in(extent);
    if block_sum(small, large, block) != sum as u32 {
        return Err(Refusal::SumDiffers);
    }
    let length = length_in(extent);
    Ok(Part { block, length, sum })
}

// The object that is read: all of it, or V5: where a viewer reads, its prefix.
pub fn find_for_read(
    h: Head,
    blocks: &BlockTable,
    expirations: &ExpirationTable,
    small: &[u8],
    large: &[u8],
    task: u8,
    handle: u32,
) -> Result<Part, Refusal>
    requires { Sized blocks.now expirations.now
        × (is_well_formed (lent h blocks.now expirations.now) ≡ true)
        × (is_whole_small h.limits small.now ≡ true)
        × (is_whole_large h.limits large.now ≡ true) }
    ensures { result ≡ shown_in small.now large.now (tests_of (Read task handle) []) task handle
        (lent h blocks.now expirations.now) }
{
    let mut part = find_bytes(h, blocks, expirations, small, large, task, handle, false)?;
    let tasks = h.tasks;
    let e = tasks[task as usize];
    if is_viewing(e.state) {
        part.length = prefix_in(blocks.extents[part.block]);
    }
    Ok(part)
}

// The object that is written, with however many bytes: as many from the offset on lie within its length.
pub fn find_for_write(
    h: Head,
    blocks: &BlockTable,
    expirations: &ExpirationTable,
    small: &[u8],
    large: &[u8],
    task: u8,
    handle: u32,
    offset: u8,
    count: usize,
) -> Result<Part, Refusal>
    requires { Sized blocks.now expirations.now
        × (is_well_formed (lent h blocks.now expirations.now) ≡ true)
        × (is_whole_small h.limits small.now ≡ true)
        × (is_whole_large h.limits large.now ≡ true) }
    ensures { (new : List ℕ) → length new ≡ count
        → result ≡ bytes_in small.now large.now (tests_of (Write task handle offset) new) handle (lent h blocks.now expirations.now) }
{
    let part = find_bytes(h, blocks, expirations, small, large, task, handle, true)?;
    if reaches_past(part.length, offset, count) {
        return Err(Refusal::OutsideObject);
    }
    Ok(part)
}

// The object that gets one more expiration, where that has room.
pub fn find_for_refresh(
    h: Head,
    blocks: &BlockTable,
    expirations: &ExpirationTable,
    task: u8,
    kind: Kind,
    extension: u8,
    handle: u32,
) -> Result<Found, Refusal>
    requires { Sized blocks.now expirations.now
        × (is_well_formed (lent h blocks.now expirations.now) ≡ true) }
    ensures { result ≡ found_in false (tests_of (Refresh task kind extension handle) []) task handle
        (lent h blocks.now expirations.now) }
{
    let tasks = h.tasks;
    task_verdict(true, task, tasks)?;
    set_verdict(h.limits, kind, extension)?;
    let found = find(h, blocks, expirations, task, handle, false)?;
    room_verdict(h.limits, standing(&expirations.clocks) as usize)?;
    Ok(found)
}

// The object that is released: it has a pinned expiration.
pub fn find_for_release(
    h: Head,
    blocks: &BlockTable,
    expirations: &ExpirationTable,
    task: u8,
    handle: u32,
) -> Result<Found, Refusal>
    requires { Sized blocks.now expirations.now
        × (is_well_formed (lent h blocks.now expirations.now) ≡ true) }
    ensures { result ≡ found_in false (tests_of (Release task handle) []) task handle
        (lent h blocks.now expirations.now) }
{
    let found = find_standing(h, blocks, expirations, task, handle, true, false)?;
    if !is_pinned(&expirations.clocks, &expirations.named, found.block) {
        return Err(Refusal::NotPinned);
    }
    Ok(found)
}
