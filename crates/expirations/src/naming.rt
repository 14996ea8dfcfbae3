// Which blocks expirations name, marked by flags.
ghost use Rattle.std.specs.Prelude.{◌≡◌, ◌+◌, ◌≤◌, length};
ghost use Rattle.record.specs.Tables.{expiration_entries, group_size};
ghost use Rattle.expirations.specs.Naming.{named_slot, NamedSlots, is_slot_at, BlockMarks, NamedFlags};

use super::asking::{any_dated, is_dated, place_for};
use record::{BYTE_VALUES, EXPIRATION_COUNT, GROUP, GROUP_COUNT};

// The flag that an entry sets that has no expiration: no block's.
const NO_BLOCK: u8 = 255;

fn slot_for(clock: u8, block: u8) -> u8
    ensures { result ≡ named_slot clock block }
{
    if is_dated(clock) { block } else { NO_BLOCK }
}

// The flag that each entry sets.
fn slots(clocks: &[u8; EXPIRATION_COUNT], named: &[u8; EXPIRATION_COUNT]) -> [u8; EXPIRATION_COUNT]
    ensures { NamedSlots clocks.now named.now result }
{
    let mut out = [0; EXPIRATION_COUNT];
    for (i, slot) in out.iter_mut().enumerate() {
        *slot = slot_for(clocks[i], named[i]);
    }
    out
}

// Sets the flags of a group.
fn mark_in(flags: &mut [bool; BYTE_VALUES], slots: &[u8; EXPIRATION_COUNT], from: usize)
    requires { BlockMarks (is_slot_at slots.now) from flags.old
        × (from + group_size ≤ expiration_entries) }
    ensures { BlockMarks (is_slot_at slots.now) (from + group_size) flags.new }
{
    for slot in &slots[from..from + GROUP] {
        flags[place_for(*slot)] = true;
    }
}

// Which blocks are named: a group in which none is in use is passed by.
pub fn flags_of(
    clocks: &[u8; EXPIRATION_COUNT],
    named: &[u8; EXPIRATION_COUNT],
) -> [bool; BYTE_VALUES]
    ensures { NamedFlags clocks.now named.now expiration_entries result }
{
    let slots = slots(clocks, named);
    let mut flags = [false; BYTE_VALUES];
    // By number: a group is a part of several columns at once.
    for g in 0..GROUP_COUNT {
        if any_dated(clocks, g * GROUP) {
            mark_in(&mut flags, &slots, g * GROUP);
        }
    }
    flags
}
