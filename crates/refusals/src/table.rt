// A table of the blocks by the last byte of their handles, for many searches one after another: it tells the first block of each byte, and
// the blocks are searched only where that one has another handle. Handles given one after another have last bytes of their own.
ghost use Rattle.std.specs.Prelude.{◌%◌, ◌≡◌};
ghost use Rattle.record.specs.Tables.{byte_values};
ghost use Rattle.steps.specs.Objects.{place_in};
ghost use Rattle.refusals.specs.Firsts.{FirstBlocks};

use super::search::locate;
use record::{BLOCK_COUNT, BYTE_VALUES};

// The last byte of a handle, as a place of the table.
fn byte_of(handle: u32) -> usize
    ensures { result ≡ handle % byte_values }
{
    handle as usize % BYTE_VALUES
}

// From the last block to the first, so that the first one of each byte stays; a byte that no handle has tells block 0.
pub fn firsts(handles: &[u32; BLOCK_COUNT]) -> [u8; BYTE_VALUES]
    ensures { FirstBlocks 0 handles.now result }
{
    let mut out = [0u8; BYTE_VALUES];
    for block in (0..BLOCK_COUNT).rev() {
        out[byte_of(handles[block])] = block as u8;
    }
    out
}

// What `locate` gives, by the table.
pub fn locate_by(firsts: &[u8; BYTE_VALUES], handles: &[u32; BLOCK_COUNT], handle: u32) -> usize
    requires { FirstBlocks 0 handles.now firsts.now }
    ensures { result ≡ place_in handle handles.now }
{
    let at = byte_of(handle);
    let block = firsts[at] as usize;
    if handles[block] == handle {
        return block;
    }
    locate(handles, handle)
}
