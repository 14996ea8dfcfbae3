// Entries asked by one column alone, many at a time: most are free or another block's, and then the other columns are not looked at. Loops
// that count or ask have no way out before the end, so that many bytes are compared at once.
ghost use Rattle.std.specs.Prelude.{◌≡◌, ℕ, ◌+◌, ◌≤◌, Bool, false, ◌||◌, take, drop, fold};
ghost use Rattle.std.specs.List.{slice_range};
ghost use Rattle.record.specs.Tables.{expiration_entries, group_size};
ghost use Rattle.expirations.specs.Places.{SomeBetween, PlaceFor};
ghost use Rattle.expirations.specs.Standing.{standing_of, free_in, is_dated_clock, is_byte_at, is_dated_at, is_global_clock_at, half_size};

use record::codes::{FREE, LOCAL, PINNED, is_global};
use record::{EXPIRATION_COUNT, GROUP};

// Entries of which a byte can hold the count.
pub const HALF: usize = EXPIRATION_COUNT / 2;

// How many stand in one half.
pub fn standing_in(clocks: &[u8; EXPIRATION_COUNT], from: usize) -> u8
    requires { from + half_size ≤ expiration_entries }
    ensures { result ≡ standing_of (slice_range clocks.now from (from + half_size)) }
{
    let mut n: u8 = 0;
    for clock in &clocks[from..from + HALF] {
        n += (*clock != FREE) as u8;
    }
    n
}

// Whether one of these places of a column has this byte: a clock, or the number of a block.
pub fn has_byte(column: &[u8; EXPIRATION_COUNT], byte: u8, from: usize, to: usize) -> bool
    requires { (from ≤ to)
        × (to ≤ expiration_entries) }
    ensures { SomeBetween (is_byte_at byte column.now) from to result }
{
    let mut some = false;
    // By index: by a fold over the part a release takes up to 1,200 instructions more.
    for i in from..to {
        some = some | (column[i] == byte);
    }
    some
}

// The first free entry, sought one by one from a place before which none is free.
pub fn free_from(clocks: &[u8; EXPIRATION_COUNT], from: usize) -> usize
    requires { from ≤ free_in clocks.now }
    ensures { result ≡ free_in clocks.now }
{
    // By index: by `position` over the part a batch takes some 170 instructions more.
    for i in from..EXPIRATION_COUNT {
        if clocks[i] == FREE {
            return i;
        }
    }
    EXPIRATION_COUNT
}

// The same from the beginning: so many at a time, then one by one.
const SPAN: usize = 16;

pub fn free_entry(clocks: &[u8; EXPIRATION_COUNT]) -> usize
    ensures { result ≡ free_in clocks.now }
{
    let mut n = 0;
    // By place and no `chunks`: the search goes on from where the span begins.
    while n <= EXPIRATION_COUNT - SPAN && !has_byte(clocks, FREE, n, n + SPAN) {
        n += SPAN;
    }
    free_from(clocks, n)
}

// The clock of an expiration.
pub fn is_dated(clock: u8) -> bool
    ensures { result ≡ is_dated_clock clock }
{
    (LOCAL <= clock) & (clock <= PINNED)
}

// The place of a byte, a clock or the number of a block, in a table that has one for each.
pub fn place_for(byte: u8) -> usize
    ensures { PlaceFor byte result }
{
    byte as usize
}

// Whether one of a group passes.
fn any_in<F: Fn(u8) -> bool>(clocks: &[u8; EXPIRATION_COUNT], from: usize, passes: F) -> bool
    requires { F.IsAlwaysCallable passes
        × (from + group_size ≤ expiration_entries) }
    ensures { (p : ℕ → Bool) → ((x : ℕ) (r : Bool) → F.post passes x r → r ≡ p x)
        → result ≡ fold (λ some clock. some || p clock) false (slice_range clocks.now from (from + group_size)) }
{
    clocks[from..from + GROUP]
        .iter()
        .fold(false, |some, clock| some | passes(*clock))
}

// Whether one of a group is in use.
pub fn any_dated(clocks: &[u8; EXPIRATION_COUNT], from: usize) -> bool
    requires { from + group_size ≤ expiration_entries }
    ensures { SomeBetween (is_dated_at clocks.now) from (from + group_size) result }
{
    any_in(clocks, from, |clock| is_dated(clock))
}

// Whether one of a group goes by the global time.
pub fn any_global_clock(clocks: &[u8; EXPIRATION_COUNT], from: usize) -> bool
    requires { from + group_size ≤ expiration_entries }
    ensures { SomeBetween (is_global_clock_at clocks.now) from (from + group_size) result }
{
    any_in(clocks, from, |clock| is_global(clock))
}
