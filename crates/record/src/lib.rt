// The pool's record: sixteen task entries, two counters, its figures, and the tables of blocks and of expirations, one array for each
// field. It holds nothing but numbers and no padding, so every bit pattern of it is a value, which the test of well-formedness (01: a fit
// record) judges, and equal values are equal bytes.
#![tactic(auto)]

ghost use Rattle.std.specs.Prelude.{◌≡◌};
ghost use Rattle.record.specs.Reading.{fresh_pool};

pub mod clock_time;
pub mod codes;
pub mod running;

use codes::{ABSENT, FREE};
use ledger::{CAPACITY, Limits, Quota, Share, TASK_COUNT};

// The entries of the block table: those of the small store's blocks, then, from SMALL_COUNT on, those of the large one's.
pub const SMALL_COUNT: usize = CAPACITY.small as usize;

pub const BLOCK_COUNT: usize = SMALL_COUNT + CAPACITY.large as usize;

// The entries of the expiration table.
pub const EXPIRATION_COUNT: usize = CAPACITY.expirations as usize;

// The entries of that table that are asked at once, and the groups of them.
pub const GROUP: usize = 32;

pub const GROUP_COUNT: usize = EXPIRATION_COUNT / GROUP;

// The numbers that a byte can be: a table by clocks or blocks as they come has a place for each.
pub const BYTE_VALUES: usize = 256;

// T6: a local time (01: own clock).
#[repr(C)]
#[derive(Clone, Copy)]
pub struct LocalTime(pub u32);

// T6: a global time (01: common time).
#[repr(C)]
#[derive(Clone, Copy)]
pub struct GlobalTime(pub u32);

// T3: a task entry. State 0 is absent, 1 running, 2 waiting, 3 viewing: a number and no enum, since a host's memory may hold any. Ticked
// (01: mark) is 0 or 1.
#[repr(C)]
#[derive(Clone, Copy)]
pub struct TaskEntry {
    pub state: u16,
    pub ticked: u16,
    pub clock: LocalTime,
}

// What of the record goes by value through a call. The shares (Q1: reserves and limits) stand apart from the task entries: with them these
// would be 12 bytes long, and each test that goes over them would cost more. The figures stand behind the counters: in front of the tasks
// they would make one piece of 144 bytes with them, and the compiler, which moves 128 in place, would call a copy.
#[repr(C)]
#[derive(Clone, Copy)]
pub struct Head {
    pub tasks: [TaskEntry; TASK_COUNT],
    pub global: GlobalTime,
    pub given: u32,
    pub limits: Limits,
    pub shares: [Share; TASK_COUNT],
}

// Block i has the object `handles[i]` (01: number; 0 is a free block); its word `extents[i]` has from its low end the object's length (16
// bits), its maker (8: a task, or 16 where that has left), 8 bits that are left for later, its prefix (16; 02: head length) and at the top
// the sum of the block's bytes (16). The small store's blocks come first, then the large one's.
#[repr(C)]
#[derive(Clone, Copy)]
pub struct BlockTable {
    pub handles: [u32; BLOCK_COUNT],
    pub extents: [u64; BLOCK_COUNT],
}

// Expiration i (01: date) goes by the clock `clocks[i]`, a code of codes.rt in which 0 is a free entry, belongs to the object in the block
// `named[i]`, and is due when that clock reads `dues[i]`. A table has a column for each field, since a pass over one is vector code.
#[repr(C)]
#[derive(Clone, Copy)]
pub struct ExpirationTable {
    pub clocks: [u8; EXPIRATION_COUNT],
    pub named: [u8; EXPIRATION_COUNT],
    pub dues: [u32; EXPIRATION_COUNT],
}

// In memory its parts follow one another with nothing between.
#[repr(C)]
#[derive(Clone, Copy)]
pub struct Pool {
    pub head: Head,
    pub blocks: BlockTable,
    pub expirations: ExpirationTable,
}

// T6, E19, E22: what specifications read an entry as: when an expiration is due, and who set it. A time by one clock cannot be tested
// against the other; the number of a pinned one is no time.
#[derive(Clone, Copy)]
pub enum Due {
    Free,
    Local { setter: u8, at: LocalTime },
    Global { setter: u8, at: GlobalTime },
    Pinned(u32),
    Unknown,
}

// Q2: who is absent or views has nothing.
const NO_QUOTA: Quota = Quota {
    reserve: 0,
    limit: 0,
};

pub const NO_SHARE: Share = Share {
    small: NO_QUOTA,
    large: NO_QUOTA,
};

// What the entry of an absent task holds.
pub const ABSENT_TASK: TaskEntry = TaskEntry {
    state: ABSENT,
    ticked: 0,
    clock: LocalTime(0),
};

// T5, O9: a fresh pool of these figures, whatever they are: 29 (R29) is told where a host has a pool made.
#[tactic(auto, unfolding(crate::specs::Reading::fresh_pool))]
pub fn fresh(limits: Limits) -> Pool
    ensures { result ≡ fresh_pool limits }
{
    Pool {
        head: Head {
            tasks: [ABSENT_TASK; TASK_COUNT],
            global: GlobalTime(0),
            given: 0,
            limits,
            shares: [NO_SHARE; TASK_COUNT],
        },
        blocks: BlockTable {
            handles: [0; BLOCK_COUNT],
            extents: [0; BLOCK_COUNT],
        },
        expirations: ExpirationTable {
            clocks: [FREE; EXPIRATION_COUNT],
            named: [0; EXPIRATION_COUNT],
            dues: [0; EXPIRATION_COUNT],
        },
    }
}
