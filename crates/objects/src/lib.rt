// What make, refresh, read, write, batch and release decide, on a head by value and the tables of blocks and expirations that they read.
#![tactic(auto)]

mod decide;
mod finding;
mod report;

pub use decide::{plan_batch, plan_make};
pub use finding::{
    find_for_read, find_for_refresh, find_for_release, find_for_write, find_life, find_standing,
};
use ledger::{LARGEST_BATCH, Life, Refusal};
pub use report::usage;

// The verdict of a make, and the block that it goes by.
#[derive(Clone, Copy)]
pub struct Plan {
    pub verdict: Result<(), Refusal>,
    pub place: usize,
}

// The verdict of a batch, and the blocks of as many objects as it has; the others say nothing.
#[derive(Clone, Copy)]
pub struct BatchPlan {
    pub verdict: Result<(), Refusal>,
    pub blocks: [u8; LARGEST_BATCH],
    pub count: usize,
}

// Where an object is, and what remains of its life for the task that asks; no figures where it is not asked for.
#[derive(Clone, Copy)]
pub struct Found {
    pub block: usize,
    pub life: Life,
}

// Where the bytes of a read or a write are: the object's block, its length or what of it is shown, and the sum of the block's bytes.
#[derive(Clone, Copy)]
pub struct Part {
    pub block: usize,
    pub length: u16,
    pub sum: u16,
}
