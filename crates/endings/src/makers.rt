// Q3: what a leave makes of the blocks' makers.
ghost use Rattle.std.specs.Prelude.{◌≡◌, ◌+◌};
ghost use Rattle.endings.specs.Makers.{orphaned_extents};

use super::Passing;
use ledger::TASK_COUNT;
use record::BLOCK_COUNT;
use record::codes::{maker_in, with_maker};

// All of them, where the task leaves: what it made is nobody's. Eight in a turn. Its maker is asked of the extents as they were: of a copy
// that nothing changes the one byte is compared, and of the word that is changed the whole would be read and shifted.
pub fn orphan(t: Passing, extents: &mut [u64; BLOCK_COUNT])
    ensures { extents.new ≡ orphaned_extents t extents.old }
{
    if !t.leaves {
        return;
    }
    let before = *extents;
    // Eight in a turn: one after the other a leave takes 1.2 % more.
    for g in 0..BLOCK_COUNT / 8 {
        for block in g * 8..g * 8 + 8 {
            if maker_in(before[block]) == t.task {
                extents[block] = with_maker(extents[block], TASK_COUNT as u8);
            }
        }
    }
}
