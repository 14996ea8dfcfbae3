// What report counts of a record.
ghost use Rattle.std.specs.Prelude.{◌≤◌, ◌≡◌, slice_range};
ghost use Rattle.lists.specs.Tests.{count};
ghost use Rattle.record.specs.Tables.{block_entries};
ghost use Rattle.objects.specs.Usage.{is_given, usage_in};

use ledger::Usage;
use record::{BLOCK_COUNT, SMALL_COUNT};

// The blocks in use from one place to before another.
fn used_blocks(handles: &[u32; BLOCK_COUNT], start: usize, end: usize) -> u8
    requires { (start ≤ end)
        × (end ≤ block_entries) }
    ensures { result ≡ count is_given (slice_range handles.now start end) }
{
    let mut n: u8 = 0;
    for handle in &handles[start..end] {
        n += (*handle != 0) as u8;
    }
    n
}

// With so many expirations standing.
pub fn usage(given: u32, handles: &[u32; BLOCK_COUNT], standing: u16) -> Usage
    ensures { result ≡ usage_in given handles.now standing }
{
    Usage {
        small: used_blocks(handles, 0, SMALL_COUNT),
        large: used_blocks(handles, SMALL_COUNT, BLOCK_COUNT),
        expirations: standing,
        given,
    }
}
