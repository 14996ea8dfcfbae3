// The objects of a batch: one pass finds them, each by a table of the blocks that is made once.
ghost use Rattle.std.specs.Prelude.{◌+◌, ◌*◌, ◌/◌, ◌≤◌, ◌<◌, ◌≡◌, length, get_or};
ghost use Rattle.ledger.specs.Limits.{largest_batch};
ghost use Rattle.ledger.specs.Objects.{handles_of};
ghost use Rattle.refusals.specs.Batches.{FindsBatch};

use super::is_ungiven;
use super::table::{firsts, locate_by};
use ledger::LARGEST_BATCH;
use record::BLOCK_COUNT;

// What a pass over a batch's handles finds: the block of each object, whether some handle was not given and whether some object is gone.
// (Flags and no Result, since 11 of any handle comes before 12 of any.)
#[derive(Clone, Copy)]
pub struct BatchFound {
    pub blocks: [u8; LARGEST_BATCH],
    pub ungiven: bool,
    pub gone: bool,
}

// A number of four bytes, the high one first.
fn joined(a: u8, b: u8, c: u8, d: u8) -> u32
    ensures { result ≡ 256 * (256 * (256 * a + b) + c) + d }
{
    256 * (256 * (256 * a as u32 + b as u32) + c as u32) + d as u32
}

// A batch's handle at a place.
pub fn handle_at(bytes: &[u8], i: usize) -> u32
    requires { i < length bytes.now / 4 }
    ensures { result ≡ get_or (handles_of bytes.now) i 0 }
{
    let at = 4 * i;
    joined(bytes[at], bytes[at + 1], bytes[at + 2], bytes[at + 3])
}

// All objects of a batch, where there is room for their blocks.
pub fn find_batch(given: u32, handles: &[u32; BLOCK_COUNT], bytes: &[u8]) -> BatchFound
    requires { length bytes.now / 4 ≤ largest_batch }
    ensures { FindsBatch given handles.now (handles_of bytes.now) result }
{
    let firsts = firsts(handles);
    let mut blocks = [0u8; LARGEST_BATCH];
    let mut ungiven = false;
    let mut gone = false;
    // By index: a handle is four bytes, and its block goes to the place of the same number.
    for i in 0..bytes.len() / 4 {
        let handle = handle_at(bytes, i);
        let place = locate_by(&firsts, handles, handle);
        blocks[i] = place as u8;
        ungiven = ungiven | is_ungiven(given, handle);
        gone = gone | (BLOCK_COUNT <= place);
    }
    BatchFound {
        blocks,
        ungiven,
        gone,
    }
}
