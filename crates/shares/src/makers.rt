// Makers counted. A block adds to its maker's counter whether it is in use, so that no turn has a branch. Of a free block's maker nothing
// is asked: it may be any byte, and there is a counter for each.
ghost use Rattle.std.specs.Prelude.{◌+◌, ◌≤◌, ◌<◌, ◌≡◌, eqb, length, get_or};
ghost use Rattle.ledger.specs.Limits.{task_count};
ghost use Rattle.record.specs.Tables.{block_entries};
ghost use Rattle.shares.specs.Counting.{Span, Few, Added, Tallied, TalliedBoth, CountedIn, First, of_all, Totals};

use ledger::TASK_COUNT;
use record::codes::maker_in;
use record::{BLOCK_COUNT, BYTE_VALUES, SMALL_COUNT};

// Adds a block,
fn add(
    out: &mut [u8; BYTE_VALUES],
    used: &[bool; BLOCK_COUNT],
    extents: &[u64; BLOCK_COUNT],
    i: usize,
)
    requires { Few i out.old
        × (i < block_entries) }
    ensures { Added used.now extents.now i (i + 1) out.old out.new }
{
    let maker = maker_in(extents[i]) as usize;
    out[maker] += u8::from(used[i]);
}

// four,
fn add_four(
    out: &mut [u8; BYTE_VALUES],
    used: &[bool; BLOCK_COUNT],
    extents: &[u64; BLOCK_COUNT],
    i: usize,
)
    requires { Few i out.old
        × (i + 4 ≤ block_entries) }
    ensures { Added used.now extents.now i (i + 4) out.old out.new }
{
    add(out, used, extents, i);
    add(out, used, extents, i + 1);
    add(out, used, extents, i + 2);
    add(out, used, extents, i + 3);
}

// and all from one place to another.
pub fn tally(
    used: &[bool; BLOCK_COUNT],
    extents: &[u64; BLOCK_COUNT],
    from: usize,
    to: usize,
) -> [u8; BYTE_VALUES]
    requires { Span from to }
    ensures { Tallied used.now extents.now from to result }
{
    let mut out = [0; BYTE_VALUES];
    // Four in a turn, as both stores are counted below.
    for g in from / 4..to / 4 {
        add_four(&mut out, used, extents, g * 4);
    }
    out
}

// The counters of either store.
#[derive(Clone, Copy)]
pub struct Tallies {
    pub small: [u8; BYTE_VALUES],
    pub large: [u8; BYTE_VALUES],
}

// Both stores are counted in one loop, in each turn eight blocks of the small one and four of the large one. (Of two loops the compiler
// writes the shorter one out in full; with so many reads it no longer sees that the columns are only read, and calls that change them copy
// them once more.)
const TURNS: usize = SMALL_COUNT / 8;

pub fn tally_both(used: &[bool; BLOCK_COUNT], extents: &[u64; BLOCK_COUNT]) -> Tallies
    ensures { TalliedBoth used.now extents.now result }
{
    let mut small = [0; BYTE_VALUES];
    let mut large = [0; BYTE_VALUES];
    for g in 0..TURNS {
        add_four(&mut small, used, extents, g * 8);
        add_four(&mut small, used, extents, g * 8 + 4);
        add_four(&mut large, used, extents, SMALL_COUNT + g * 4);
    }
    Tallies { small, large }
}

// Q4: the counters of the tasks.
pub fn first(table: [u8; BYTE_VALUES]) -> [u8; TASK_COUNT]
    ensures { First table result }
{
    let mut out = [0; TASK_COUNT];
    // By index: by `copy_from_slice` a call takes 421 instructions more.
    for i in 0..TASK_COUNT {
        out[i] = table[i];
    }
    out
}

// The blocks in use, from one place to another.
pub fn count(used: &[bool; BLOCK_COUNT], from: usize, to: usize) -> u8
    requires { Span from to }
    ensures { CountedIn used.now from to result }
{
    let mut sum = 0;
    for flag in &used[from..to] {
        sum += u8::from(*flag);
    }
    sum
}

pub fn total(numbers: [u8; TASK_COUNT]) -> u32
    ensures { Totals numbers result }
{
    numbers.iter().map(|number| u32::from(*number)).sum()
}

// W22: tasks, and those that departed, made all that is in use.
pub fn is_known(table: [u8; BYTE_VALUES], made: [u8; TASK_COUNT], taken: u8) -> bool
    ensures { result ≡ eqb (of_all made + get_or table task_count 0) taken }
{
    total(made) + u32::from(table[TASK_COUNT]) == u32::from(taken)
}
