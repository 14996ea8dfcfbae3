// The lengths of the two stores (14).
ghost use Rattle.stores.specs.Lengths.{TellsWhole};

use super::{LARGE_SIZE, SMALL_SIZE};
use ledger::{Limits, STANDARD};

// 01: the lengths of the two stores.
pub const SMALL_BYTES: usize = STANDARD.small as usize * SMALL_SIZE;

pub const LARGE_BYTES: usize = STANDARD.large as usize * LARGE_SIZE;

// Two stores of these lengths are as long as the blocks need.
pub fn are_whole(limits: Limits, small: usize, large: usize) -> bool
    ensures { TellsWhole limits small large result }
{
    (small == limits.small as usize * SMALL_SIZE) & (large == limits.large as usize * LARGE_SIZE)
}
