// The sum of a block's bytes: as they are, and as they will be once new ones have taken the place of some.
ghost use Rattle.std.specs.Prelude.{◌≡◌, ◌+◌, ◌≤◌, length, take, drop};
ghost use Rattle.lists.specs.Sums.{total};
ghost use Rattle.ledger.specs.Limits.{large_size};
ghost use Rattle.record.specs.Reading.{block_bytes, size_of};
ghost use Rattle.stores.specs.Places.{InBlock, most_sum, sum_at, sum_after};

use super::{block_size, block_start, part_of};
use record::SMALL_COUNT;

// The sum of no more bytes than a block has.
fn sum_of(bytes: &[u8]) -> u32
    requires { length bytes.now ≤ large_size }
    ensures { result ≡ total bytes.now }
{
    bytes.iter().map(|byte| u32::from(*byte)).sum()
}

// The sum of bytes of a block from an offset on, in whichever store has it.
fn part_sum(small: &[u8], large: &[u8], block: usize, offset: usize, count: usize) -> u32
    requires { InBlock small.now large.now block (offset + count) }
    ensures { result ≡ total (take count (drop offset (block_bytes small.now large.now block (size_of block)))) }
{
    let at = block_start(block) + offset;
    if block < SMALL_COUNT {
        sum_of(part_of(small, at, count))
    } else {
        sum_of(part_of(large, at, count))
    }
}

// O34: the sum of the bytes that a block has.
pub fn block_sum(small: &[u8], large: &[u8], block: usize) -> u32
    requires { InBlock small.now large.now block (size_of block) }
    ensures { result ≡ sum_at small.now large.now block }
{
    part_sum(small, large, block, 0, block_size(block))
}

// O35: the sum that a block's bytes will have after a write into them, by the bytes that it replaces.
pub fn sum_after(
    small: &[u8],
    large: &[u8],
    block: usize,
    offset: usize,
    bytes: &[u8],
    sum: u16,
) -> u16
    requires { InBlock small.now large.now block (offset + length bytes.now)
        × (sum ≡ sum_at small.now large.now block) }
    ensures { result ≡ sum_after small.now large.now block offset bytes.now }
{
    let old = part_sum(small, large, block, offset, bytes.len());
    let new = sum_of(bytes);
    (sum as u32 - old + new) as u16
}
