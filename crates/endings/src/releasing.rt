// Blocks that no expiration names are free.
ghost use Rattle.std.specs.Prelude.{◌≡◌, if◌then◌else◌};
ghost use Rattle.record.specs.Tables.{block_entries};
ghost use Rattle.expirations.specs.Places.{Changed};
ghost use Rattle.endings.specs.Releasing.{kept_by_flag};

use record::{BLOCK_COUNT, BYTE_VALUES};

// What is left of a handle.
pub fn kept_handle(named: bool, handle: u32) -> u32
    ensures { result ≡ (if named then handle else 0) }
{
    if named { handle } else { 0 }
}

// What none names is free.
pub fn keep_named(flags: [bool; BYTE_VALUES], handles: &mut [u32; BLOCK_COUNT])
    ensures { Changed 0 (kept_by_flag flags) 0 block_entries handles.old handles.new }
{
    for (block, handle) in handles.iter_mut().enumerate() {
        *handle = kept_handle(flags[block], *handle);
    }
}
