// Tests of blocks, by the flags that say which of them expirations name. Each goes by itself over few columns and has no way out before the
// end, so that many blocks are tested at once.
ghost use Rattle.std.specs.Prelude.{◌≡◌, true, ◌&&◌, fold, slice_index, zip};
ghost use Rattle.lists.specs.Filled.{Filled};
ghost use Rattle.lists.specs.Tables.{all_from};
ghost use Rattle.ledger.specs.Limits.{capacity};
ghost use Rattle.record.specs.Tables.{block_entries, block_list};
ghost use Rattle.record.specs.WellFormed.{is_sized_for};
ghost use Rattle.handles.specs.Handles.{UsedFlags};
ghost use Rattle.fitness.specs.Checks.{is_given_by, is_shaped_for, ShapedTo, is_named_row, is_fit_block_in};

use ledger::{LARGE_SIZE, SMALL_SIZE};
use record::codes::{length_in, prefix_in};
use record::{BLOCK_COUNT, BYTE_VALUES, BlockTable, SMALL_COUNT};

fn is_sized_for(block: usize, length: u16) -> bool
    ensures { result ≡ is_sized_for block length }
{
    let size = length as u32;
    if block < SMALL_COUNT {
        (1 <= size) & (size <= SMALL_SIZE)
    } else {
        (SMALL_SIZE < size) & (size <= LARGE_SIZE)
    }
}

// W3, W25: a length of the store's range, and a prefix that is not longer.
fn is_shaped_for(block: usize, length: u16, prefix: u16) -> bool
    ensures { result ≡ is_shaped_for block length prefix }
{
    is_sized_for(block, length) & (prefix <= length)
}

// The lengths of all blocks, and the prefixes: of numbers of 16 bits that stand by themselves eight are tested at once.
fn of_all<F: Fn(u64) -> u16>(part: F, extents: &[u64; BLOCK_COUNT]) -> [u16; BLOCK_COUNT]
    requires { F.IsAlwaysCallable part }
    ensures { Filled 0 (λ k x. F.post part (slice_index extents.now k) x) block_entries block_entries result }
{
    let mut out = [0; BLOCK_COUNT];
    for (i, out) in out.iter_mut().enumerate() {
        *out = part(extents[i]);
    }
    out
}

// Which blocks have such a length and prefix: those of the small store,
fn small_shaped(lengths: [u16; BLOCK_COUNT], prefixes: [u16; BLOCK_COUNT]) -> [bool; BLOCK_COUNT]
    ensures { ShapedTo lengths prefixes capacity.small result }
{
    let mut out = [false; BLOCK_COUNT];
    // By index, the stores by themselves: one loop over both takes 675 instructions more.
    for i in 0..SMALL_COUNT {
        out[i] = is_shaped_for(i, lengths[i], prefixes[i]);
    }
    out
}

// and then those of the large one.
fn shaped(lengths: [u16; BLOCK_COUNT], prefixes: [u16; BLOCK_COUNT]) -> [bool; BLOCK_COUNT]
    ensures { ShapedTo lengths prefixes block_entries result }
{
    let mut out = small_shaped(lengths, prefixes);
    // By index, as above.
    for i in SMALL_COUNT..BLOCK_COUNT {
        out[i] = is_shaped_for(i, lengths[i], prefixes[i]);
    }
    out
}

// A free block's handle, 0, is no higher either.
fn all_given(given: u32, handles: &[u32; BLOCK_COUNT]) -> bool
    ensures { result ≡ fold (λ fit handle. fit && is_given_by given handle) true handles.now }
{
    handles
        .iter()
        .fold(true, |fit, handle| fit & (*handle <= given))
}

// The blocks in use are those that are named, and have lengths and prefixes that fit.
fn all_named(
    flags: [bool; BYTE_VALUES],
    shaped: [bool; BLOCK_COUNT],
    used: [bool; BLOCK_COUNT],
) -> bool
    ensures { result ≡ fold (λ fit row. fit && is_named_row row) true (zip (zip used flags) shaped) }
{
    used.iter()
        .zip(&flags)
        .zip(&shaped)
        .fold(true, |fit, ((used, flag), shaped)| {
            fit & ((*used == *flag) & (!*used | *shaped))
        })
}

pub fn check_blocks(
    given: u32,
    flags: [bool; BYTE_VALUES],
    used: [bool; BLOCK_COUNT],
    blocks: &BlockTable,
) -> bool
    requires { UsedFlags blocks.now.handles used }
    ensures { result ≡ all_from 0 (is_fit_block_in given flags) (block_list blocks.now) }
{
    let shaped = shaped(
        of_all(|extent| length_in(extent), &blocks.extents),
        of_all(|extent| prefix_in(extent), &blocks.extents),
    );
    all_given(given, &blocks.handles) & all_named(flags, shaped, used)
}
