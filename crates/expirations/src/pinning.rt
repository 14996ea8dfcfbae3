// The pinned expiration of a block (02: kept): whether there is one.
ghost use Rattle.std.specs.Prelude.{◌≡◌, ◌+◌, ◌<◌, ◌≤◌, false, ◌||◌, fold, zip};
ghost use Rattle.std.specs.List.{slice_range};
ghost use Rattle.record.specs.Tables.{block_entries, expiration_entries, group_size};
ghost use Rattle.expirations.specs.Pinning.{is_pin_by, is_pin_at, Pins};
ghost use Rattle.expirations.specs.Places.{SomeBetween};

use super::asking::has_byte;
use record::codes::PINNED;
use record::{EXPIRATION_COUNT, GROUP, GROUP_COUNT};

// Whether an entry is it.
pub fn is_pin(block: u8, clock: u8, named: u8) -> bool
    ensures { result ≡ is_pin_by block clock named }
{
    (clock == PINNED) & (named == block)
}

// Whether one of a group is,
fn is_among(
    block: u8,
    clocks: &[u8; EXPIRATION_COUNT],
    named: &[u8; EXPIRATION_COUNT],
    from: usize,
) -> bool
    requires { from + group_size ≤ expiration_entries }
    ensures { result ≡ fold (λ some entry. some || is_pin_by block entry.0 entry.1) false
        (zip (slice_range clocks.now from (from + group_size)) (slice_range named.now from (from + group_size))) }
{
    clocks[from..from + GROUP]
        .iter()
        .zip(&named[from..from + GROUP])
        .fold(
            false,
            |some, (clock, named)| some | is_pin(block, *clock, *named),
        )
}

// where a group in which none is pinned is passed by.
fn any_pin(
    block: u8,
    clocks: &[u8; EXPIRATION_COUNT],
    named: &[u8; EXPIRATION_COUNT],
    from: usize,
) -> bool
    requires { from + group_size ≤ expiration_entries }
    ensures { SomeBetween (is_pin_at block clocks.now named.now) from (from + group_size) result }
{
    if !has_byte(clocks, PINNED, from, from + GROUP) {
        return false;
    }
    is_among(block, clocks, named, from)
}

// Whether the object in a block is pinned.
pub fn is_pinned(
    clocks: &[u8; EXPIRATION_COUNT],
    named: &[u8; EXPIRATION_COUNT],
    block: usize,
) -> bool
    requires { block < block_entries }
    ensures { Pins block clocks.now named.now result }
{
    let mut some = false;
    // By number: a group is a part of several columns at once.
    for g in 0..GROUP_COUNT {
        some = some | any_pin(block as u8, clocks, named, g * GROUP);
    }
    some
}
