// What of a store each task has: how many objects it made, and how many blocks are spoken for, in use or held back (the rules Q4 to Q7);
// and the test of shares and makers (W20 to W24).
#![tactic(auto)]

ghost use Rattle.std.specs.Prelude.{true, cond, ◌≡◌};
ghost use Rattle.lists.specs.Tests.{all};
ghost use Rattle.ledger.specs.Shares.{quota_in, blocks_in};
ghost use Rattle.record.specs.WellFormed.{is_fit_task};
ghost use Rattle.shares.specs.Counting.{first_block, end_block};
ghost use Rattle.shares.specs.Holdings.{HoldsIn, TellsSharing};
ghost use Rattle.shares.specs.Quotas.{HeldBy, is_shared_by};

mod makers;
mod quotas;

use ledger::{Limits, Quota, Share, TASK_COUNT};
use makers::{count, first, is_known, tally, tally_both, total};
use quotas::{all_clear, all_within, unmets};
use record::{BLOCK_COUNT, Head, SMALL_COUNT};

// Of one store: how many objects each task made, and the blocks that are in use or held back.
#[derive(Clone, Copy)]
pub struct Holding {
    pub made: [u8; TASK_COUNT],
    pub spoken: u32,
}

// Of both.
#[derive(Clone, Copy)]
pub struct Holdings {
    pub small: Holding,
    pub large: Holding,
}

// With whether shares and makers are fit.
#[derive(Clone, Copy)]
pub struct Sharing {
    pub fit: bool,
    pub holdings: Holdings,
}

// Of what both stores have, what the one has that is asked for.
pub fn of_store<T: Copy>(small: bool, of_small: T, of_large: T) -> T
    ensures { result ≡ cond small of_small of_large }
{
    if small { of_small } else { of_large }
}

// By what each task made and how many blocks are in use.
fn holding_by(
    shares: [Share; TASK_COUNT],
    made: [u8; TASK_COUNT],
    taken: u8,
    small: bool,
) -> Holding
    ensures { HeldBy small shares made taken result }
{
    let spoken = taken as u32 + total(unmets(shares, made, small));
    Holding { made, spoken }
}

// Of one store alone.
pub fn holding_of(
    shares: [Share; TASK_COUNT],
    used: &[bool; BLOCK_COUNT],
    extents: &[u64; BLOCK_COUNT],
    small: bool,
) -> Holding
    ensures { HoldsIn small shares used.now extents.now result }
{
    let from = of_store(small, 0, SMALL_COUNT);
    let to = of_store(small, SMALL_COUNT, BLOCK_COUNT);
    let made = first(tally(used, extents, from, to));
    holding_by(shares, made, count(used, from, to), small)
}

// W23, W24, and W21 of the store.
fn is_shared_in(limits: Limits, shares: [Share; TASK_COUNT], holding: Holding, small: bool) -> bool
    ensures { result ≡ is_shared_by small limits shares holding }
{
    let made = holding.made;
    (holding.spoken <= of_store(small, limits.small, limits.large))
        & all_within(shares, made, unmets(shares, made, small), small)
}

// Each part is asked of either store by a call of its own, whose constants the compiler sees.
pub fn sharing_of(h: Head, used: &[bool; BLOCK_COUNT], extents: &[u64; BLOCK_COUNT]) -> Sharing
    requires { all is_fit_task h.tasks ≡ true }
    ensures { TellsSharing h used.now extents.now result }
{
    let limits = h.limits;
    let tasks = h.tasks;
    let shares = h.shares;
    let tallies = tally_both(used, extents);
    let small_table = tallies.small;
    let large_table = tallies.large;
    let small_made = first(small_table);
    let large_made = first(large_table);
    let small_count = count(used, 0, SMALL_COUNT);
    let large_count = count(used, SMALL_COUNT, BLOCK_COUNT);
    let small = holding_by(shares, small_made, small_count, true);
    let large = holding_by(shares, large_made, large_count, false);
    Sharing {
        fit: all_clear(tasks, shares)
            & is_known(small_table, small_made, small_count)
            & is_known(large_table, large_made, large_count)
            & is_shared_in(limits, shares, small, true)
            & is_shared_in(limits, shares, large, false),
        holdings: Holdings { small, large },
    }
}
