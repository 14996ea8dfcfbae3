// A batch's handles as bytes, for a host that has them as numbers.
ghost use Rattle.std.specs.Prelude.{◌+◌, ◌≤◌, ◌≡◌, length};
ghost use Rattle.text.specs.HandleBytes.{HandsOn};
ghost use Rattle.text.specs.Fields.{in_bytes};
ghost use Rattle.text.specs.Hex.{Puts};

use super::words::word;
use ledger::LARGEST_BATCH;

// F12: the bytes of a handle.
pub const HANDLE_WIDTH: usize = 4;

// One handle more than a batch may have: enough for R20.
const MOST_HANDLES: usize = LARGEST_BATCH + 1;

pub const MOST_HANDLE_BYTES: usize = HANDLE_WIDTH * MOST_HANDLES;

// The bytes of handles that are handed on: the first `count` here.
#[derive(Clone, Copy)]
pub struct Handed {
    pub bytes: [u8; MOST_HANDLE_BYTES],
    pub count: usize,
}

// A handle's bytes from a place on; the place after them.
fn store_handle(bytes: &mut [u8], at: usize, handle: u32) -> usize
    requires { at + 4 ≤ length bytes.old }
    ensures { Puts at (in_bytes 4 handle) bytes.old bytes.new result }
{
    let four = word(handle);
    bytes[at] = four[0];
    bytes[at + 1] = four[1];
    bytes[at + 2] = four[2];
    bytes[at + 3] = four[3];
    at + 4
}

// The bytes of a batch's handles, of which there may be any number: those of the first MOST_HANDLES are handed on.
pub fn handle_bytes(handles: &[u32]) -> Handed
    ensures { HandsOn handles.now result }
{
    let mut bytes = [0u8; MOST_HANDLE_BYTES];
    let mut count = 0;
    let enough = &handles[..handles.len().min(MOST_HANDLES)];
    for handle in enough {
        count = store_handle(&mut bytes, count, *handle);
    }
    Handed { bytes, count }
}
