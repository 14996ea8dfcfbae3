// A block's part of a lent store: cleared, written, summed, or handed back; and how long the two stores are.
#![tactic(auto)]

ghost use Rattle.std.specs.Prelude.{◌≡◌, [], ◌+◌, ◌≤◌, ◌<◌, length, take, drop, replicate};
ghost use Rattle.lists.specs.Blocks.{overwritten};
ghost use Rattle.record.specs.Reading.{block_bytes, size_of};
ghost use Rattle.record.specs.Tables.{block_entries};
ghost use Rattle.stores.specs.Places.{start_of, InBlock, small_after, large_after};

pub use lengths::{LARGE_BYTES, SMALL_BYTES, are_whole};
use record::SMALL_COUNT;
pub use sums::{block_sum, sum_after};

mod lengths;
mod sums;

// The bytes of a small and of a large block.
pub const SMALL_SIZE: usize = ledger::SMALL_SIZE as usize;

pub const LARGE_SIZE: usize = ledger::LARGE_SIZE as usize;

// The bytes of one turn, which a machine moves as one word.
const TURN: usize = 8;

// All bytes zero: eight a turn, and the odd ones at the end singly.
fn clear(part: &mut [u8])
    ensures { part.new ≡ replicate (length part.old) 0 }
{
    let mut done = 0;
    while TURN <= part.len() - done {
        let end = done + TURN;
        part[done..end].copy_from_slice(&[0; TURN]);
        done = end;
    }
    for i in done..part.len() {
        part[i] = 0;
    }
}

// The bytes over a part of as many: eight a turn, and the odd ones at the end singly.
fn copy(part: &mut [u8], bytes: &[u8])
    requires { length part.old ≡ length bytes.now }
    ensures { part.new ≡ bytes.now }
{
    let mut done = 0;
    while TURN <= bytes.len() - done {
        let end = done + TURN;
        part[done..end].copy_from_slice(&bytes[done..end]);
        done = end;
    }
    for i in done..bytes.len() {
        part[i] = bytes[i];
    }
}

// O11: all of the block zero, and the rest of the store as it was.
#[tactic(auto, using(lists::proofs::Blocks::put_back_filled))]
pub fn clear_block(store: &mut [u8], at: usize, size: usize)
    requires { at + size ≤ length store.old }
    ensures { store.new ≡ overwritten at (replicate size 0) store.old }
{
    let end = at + size;
    clear(&mut store[at..end]);
}

// O20, O21: new bytes in the block, and the rest of the store as it was.
#[tactic(auto, using(lists::proofs::Blocks::put_back))]
pub fn write_block(store: &mut [u8], at: usize, bytes: &[u8])
    requires { at + length bytes.now ≤ length store.old }
    ensures { store.new ≡ overwritten at bytes.now store.old }
{
    let end = at + bytes.len();
    copy(&mut store[at..end], bytes);
}

// Where a block starts in its store.
#[tactic(auto, using(record::proofs::Figures::small_block, record::proofs::Figures::large_block), unfolding(crate::specs::Places::index_of, crate::specs::Places::start_of, record::specs::Reading::size_of))]
pub fn block_start(block: usize) -> usize
    requires { block < block_entries }
    ensures { result ≡ start_of block }
{
    if block < SMALL_COUNT {
        block * SMALL_SIZE
    } else {
        (block - SMALL_COUNT) * LARGE_SIZE
    }
}

// How many bytes a block has.
#[tactic(auto, using(record::proofs::Figures::small_block, record::proofs::Figures::large_block), unfolding(record::specs::Reading::size_of))]
fn block_size(block: usize) -> usize
    ensures { result ≡ size_of block }
{
    if block < SMALL_COUNT {
        SMALL_SIZE
    } else {
        LARGE_SIZE
    }
}

// As many bytes from a place on.
fn part_of<'a>(store: &'a [u8], at: usize, count: usize) -> &'a [u8]
    requires { at + count ≤ length store.now }
    ensures { result.now ≡ take count (drop at store.now) }
{
    let end = at + count;
    &store[at..end]
}

// The first bytes of a block, as a part of the store that has it.
pub fn block_part<'a>(small: &'a [u8], large: &'a [u8], block: usize, length: usize) -> &'a [u8]
    requires { InBlock small.now large.now block length }
    ensures { result.now ≡ block_bytes small.now large.now block length }
{
    let start = block_start(block);
    if block < SMALL_COUNT {
        part_of(small, start, length)
    } else {
        part_of(large, start, length)
    }
}

// O19: the empty part of a refused read.
pub fn no_part<'a>(small: &'a [u8]) -> &'a [u8]
    ensures { result.now ≡ [] }
{
    &small[..0]
}

// A whole block to zero, in whichever store has it; the other store stays.
pub fn clear_place(small: &mut [u8], large: &mut [u8], block: usize)
    requires { InBlock small.old large.old block (size_of block) }
    ensures { (small.new ≡ small_after block 0 (replicate (size_of block) 0) small.old)
        × (large.new ≡ large_after block 0 (replicate (size_of block) 0) large.old) }
{
    let start = block_start(block);
    if block < SMALL_COUNT {
        clear_block(small, start, SMALL_SIZE);
        return;
    }
    clear_block(large, start, LARGE_SIZE);
}

// Bytes into a block from an offset on, in whichever store has it; the other store stays.
pub fn write_place(small: &mut [u8], large: &mut [u8], block: usize, offset: usize, bytes: &[u8])
    requires { InBlock small.old large.old block (offset + length bytes.now) }
    ensures { (small.new ≡ small_after block offset bytes.now small.old)
        × (large.new ≡ large_after block offset bytes.now large.old) }
{
    let at = block_start(block) + offset;
    if block < SMALL_COUNT {
        write_block(small, at, bytes);
        return;
    }
    write_block(large, at, bytes);
}
