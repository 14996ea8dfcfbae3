// Whether no block is pinned twice: by a flag for each block, set where a pinned expiration names it. Most often none is pinned, so they
// are sought many at a time.
ghost use Rattle.std.specs.Prelude.{◌≡◌, ◌+◌, ◌≤◌, true, ◌&&◌, fold};
ghost use Rattle.std.specs.List.{slice_range};
ghost use Rattle.record.specs.Tables.{expiration_entries, group_size};
ghost use Rattle.fitness.specs.Checks.{SizedCodes};
ghost use Rattle.fitness.specs.Pins.{is_unpinned, PinsTo, PinnedOnce};

use record::codes::PINNED;
use record::{BYTE_VALUES, EXPIRATION_COUNT, GROUP, GROUP_COUNT};

// It has no way out before the end, so that many bytes are compared at once.
fn none_pinned(clocks: &[u8; EXPIRATION_COUNT], from: usize) -> bool
    requires { from + group_size ≤ expiration_entries }
    ensures { result ≡ fold (λ none clock. none && is_unpinned clock) true (slice_range clocks.now from (from + group_size)) }
{
    clocks[from..from + GROUP]
        .iter()
        .fold(true, |none, clock| none & (*clock != PINNED))
}

// Sets the flags of a group; fit is whether none was set twice so far.
fn pin_in(
    flags: &mut [bool; BYTE_VALUES],
    clocks: &[u8; EXPIRATION_COUNT],
    named: &[u8; EXPIRATION_COUNT],
    from: usize,
    fit: bool,
) -> bool
    requires { PinsTo clocks.now named.now from flags.old fit
        × (from + group_size ≤ expiration_entries) }
    ensures { PinsTo clocks.now named.now (from + group_size) flags.new result }
{
    if none_pinned(clocks, from) {
        return fit;
    }
    let mut once = fit;
    // By index: zipped an entry that is looked at takes three instructions more.
    for i in from..from + GROUP {
        if clocks[i] == PINNED {
            let at = named[i] as usize;
            once = once & !flags[at];
            flags[at] = true;
        }
    }
    once
}

pub fn pinned_once(clocks: &[u8; EXPIRATION_COUNT], named: &[u8; EXPIRATION_COUNT]) -> bool
    ensures { PinnedOnce clocks.now named.now result }
{
    let mut flags = [false; BYTE_VALUES];
    let mut once = true;
    // By number: a group is a part of several columns at once.
    for g in 0..GROUP_COUNT {
        once = pin_in(&mut flags, clocks, named, g * GROUP, once);
    }
    once
}
