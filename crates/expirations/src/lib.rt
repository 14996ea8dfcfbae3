// How expirations (01: dates) are kept: a table of entries, of which those with clock 0 are free. A call knows how many stand and how
// long the object in a block has left, and sets one on a block or one on each of a batch's. Where an entry stands is known here and in
// crates/endings, which ends them, alone.
#![tactic(auto)]

ghost use Rattle.std.specs.Prelude.{◌≡◌, ◌+◌, ◌<◌, ◌≤◌, length, take};
ghost use Rattle.ledger.specs.Limits.{task_count, largest_batch};
ghost use Rattle.expirations.specs.Standing.{standing_of, free_in};
ghost use Rattle.expirations.specs.Setting.{entry_now, Sets, SetsEach};
ghost use Rattle.record.specs.Tables.{block_entries, expiration_entries, EntriesSized};

pub mod asking;
pub mod naming;
pub mod pinning;
mod remaining;

use asking::{HALF, free_entry, free_from, standing_in};
use ledger::{Kind, LARGEST_BATCH, TASK_COUNT};
pub use pinning::is_pinned;
use record::clock_time::ClockTime;
use record::codes::{GLOBAL, LOCAL, PINNED};
use record::{EXPIRATION_COUNT, ExpirationTable, GlobalTime, Head, TaskEntry};
pub use remaining::remaining_life;

// How many expirations stand.
pub fn standing(clocks: &[u8; EXPIRATION_COUNT]) -> u16
    ensures { result ≡ standing_of clocks.now }
{
    standing_in(clocks, 0) as u16 + standing_in(clocks, HALF) as u16
}

// An entry of the table.
#[derive(Clone, Copy)]
pub struct Entry {
    pub clock: u8,
    pub block: u8,
    pub due: u32,
}

// The entry of an expiration that a task sets now on a block, due by the clock of its kind; a pinned one never is.
fn entry_for(
    tasks: [TaskEntry; TASK_COUNT],
    global: GlobalTime,
    kind: Kind,
    task: u8,
    extension: u8,
    block: usize,
) -> Entry
    requires { (task < task_count)
        × (block < block_entries) }
    ensures { result ≡ entry_now tasks global kind task extension block }
{
    match kind {
        Kind::Local => {
            let setter = tasks[task as usize];
            Entry {
                clock: LOCAL + task,
                block: block as u8,
                due: setter.clock.after(extension as u32 + 1).0,
            }
        }
        Kind::Global => Entry {
            clock: GLOBAL + task,
            block: block as u8,
            due: global.after(extension as u32 + 2).0,
        },
        Kind::Pinned => Entry {
            clock: PINNED,
            block: block as u8,
            due: 0,
        },
    }
}

// An entry in all columns of the first free one, whose place is known.
fn put(e: Entry, at: usize, expirations: &mut ExpirationTable)
    requires { EntriesSized expirations.old
        × (at ≡ free_in expirations.old.clocks)
        × (at < expiration_entries) }
    ensures { Sets e expirations.old expirations.new }
{
    expirations.clocks[at] = e.clock;
    expirations.named[at] = e.block;
    expirations.dues[at] = e.due;
}

// One expiration more, where there is a free entry.
pub fn set(
    h: Head,
    kind: Kind,
    task: u8,
    extension: u8,
    block: usize,
    expirations: &mut ExpirationTable,
)
    requires { EntriesSized expirations.old
        × (standing_of expirations.old.clocks < expiration_entries)
        × (task < task_count)
        × (block < block_entries) }
    ensures { Sets (entry_now h.tasks h.global kind task extension block) expirations.old expirations.new }
{
    let e = entry_for(h.tasks, h.global, kind, task, extension, block);
    let at = free_entry(&expirations.clocks);
    put(e, at, expirations);
}

// One expiration more on each of the first `count` blocks, where there are free entries for all. The entry is made once; the entries before
// the first free one are passed over many at a time, and each search goes on where the last one ended: one pass.
pub fn set_all(
    h: Head,
    kind: Kind,
    task: u8,
    extension: u8,
    blocks: &[u8; LARGEST_BATCH],
    count: usize,
    expirations: &mut ExpirationTable,
)
    requires { EntriesSized expirations.old
        × (length blocks.now ≡ largest_batch)
        × (count ≤ largest_batch)
        × (standing_of expirations.old.clocks + count ≤ expiration_entries)
        × (task < task_count) }
    ensures { SetsEach h.tasks h.global kind task extension (take count blocks.now) expirations.old expirations.new }
{
    let first = entry_for(h.tasks, h.global, kind, task, extension, 0);
    let mut from = free_entry(&expirations.clocks);
    for block in &blocks[..count] {
        let e = Entry {
            block: *block,
            ..first
        };
        let at = free_from(&expirations.clocks, from);
        put(e, at, expirations);
        from = at + 1;
    }
}
