// E24: the end of a pinned expiration by a release.
ghost use Rattle.std.specs.Prelude.{◌≡◌, ◌+◌, ◌<◌, ◌≤◌, false, ◌&&◌, ◌||◌, ◌==◌, fold};
ghost use Rattle.std.specs.List.{zip};
ghost use Rattle.record.specs.Tables.{block_entries, expiration_entries, group_size};
ghost use Rattle.expirations.specs.Naming.{is_named_at};
ghost use Rattle.expirations.specs.Places.{SomeBetween, Changed};
ghost use Rattle.expirations.specs.Standing.{is_dated_clock};
ghost use Rattle.endings.specs.Unpinning.{unpinned_clock, unpinned_at, AllNamed, Releases};

use super::releasing::kept_handle;
use expirations::asking::{has_byte, is_dated};
use expirations::pinning::is_pin;
use record::codes::FREE;
use record::{BLOCK_COUNT, EXPIRATION_COUNT, GROUP, GROUP_COUNT};

// What is left of a clock.
fn unpinned(block: u8, clock: u8, named: u8) -> u8
    ensures { result ≡ unpinned_clock block clock named }
{
    if is_pin(block, clock, named) {
        FREE
    } else {
        clock
    }
}

// Ends it.
fn unpin(block: u8, clocks: &mut [u8; EXPIRATION_COUNT], named: &[u8; EXPIRATION_COUNT])
    ensures { Changed 0 (unpinned_at block named.now) 0 expiration_entries clocks.old clocks.new }
{
    for (i, clock) in clocks.iter_mut().enumerate() {
        *clock = unpinned(block, *clock, named[i]);
    }
}

// Whether one of some names the block.
fn any_names(block: u8, clocks: &[u8], named: &[u8]) -> bool
    ensures { result ≡ fold (λ some entry. some || (is_dated_clock entry.0 && entry.1 == block)) false
        (zip clocks.now named.now) }
{
    clocks.iter().zip(named).fold(false, |some, (clock, name)| {
        some | (is_dated(*clock) & (*name == block))
    })
}

// Whether one of a group names the block: a group in which none has its number is passed by.
fn names_in(
    block: u8,
    clocks: &[u8; EXPIRATION_COUNT],
    named: &[u8; EXPIRATION_COUNT],
    from: usize,
) -> bool
    requires { from + group_size ≤ expiration_entries }
    ensures { SomeBetween (is_named_at clocks.now named.now block) from (from + group_size) result }
{
    if !has_byte(named, block, from, from + GROUP) {
        return false;
    }
    any_names(
        block,
        &clocks[from..from + GROUP],
        &named[from..from + GROUP],
    )
}

// Whether an expiration names the block.
fn is_named(block: u8, clocks: &[u8; EXPIRATION_COUNT], named: &[u8; EXPIRATION_COUNT]) -> bool
    ensures { SomeBetween (is_named_at clocks.now named.now block) 0 expiration_entries result }
{
    let mut some = false;
    // By number: a group is a part of several columns at once.
    for g in 0..GROUP_COUNT {
        some = some | names_in(block, clocks, named, g * GROUP);
    }
    some
}

// The pinned expiration of the object in a block ends. Where it was the last, the object is gone, and its block is free: no other block's
// entries are changed, so that those in use are named still.
pub fn release(
    block: usize,
    handles: &mut [u32; BLOCK_COUNT],
    clocks: &mut [u8; EXPIRATION_COUNT],
    named: &[u8; EXPIRATION_COUNT],
)
    requires { (block < block_entries)
        × AllNamed handles.old clocks.old named.now }
    ensures { Releases block named.now handles.old clocks.old handles.new
        clocks.new }
{
    unpin(block as u8, clocks, named);
    handles[block] = kept_handle(is_named(block as u8, clocks, named), handles[block]);
}
