// The test of well-formedness (01: a fit record) on lent tables, in parts, each one pass: tasks; expirations by themselves; the pinned
// ones; blocks by who names them; handles.
#![tactic(auto)]

ghost use Rattle.std.specs.Prelude.{◌≡◌, true};
ghost use Rattle.ledger.specs.Limits.{is_allowed};
ghost use Rattle.record.specs.Tables.{lent, Sized};
ghost use Rattle.record.specs.WellFormed.{is_consistent, is_well_formed};
ghost use Rattle.handles.specs.Handles.{UsedFlags};
ghost use Rattle.fitness.specs.Fitness.{Fitness};

mod blocks;
mod bounds;
mod codes;
mod pins;
mod times;

use blocks::check_blocks;
use bounds::is_bounded;
use codes::{all_coded, flags_of};
use handles::{distinct, used_of};
use ledger::is_allowed;
use pins::pinned_once;
use record::running::{all_fit_tasks, all_ticked};
use record::{BLOCK_COUNT, BlockTable, ExpirationTable, Head};
use shares::{Holdings, sharing_of};
use times::all_timely;

// The rules W, of the whole record but for its figures and shares.
fn is_consistent(
    h: Head,
    used: [bool; BLOCK_COUNT],
    blocks: &BlockTable,
    expirations: &ExpirationTable,
) -> bool
    requires { Sized blocks.now expirations.now
        × (is_allowed h.limits ≡ true)
        × UsedFlags blocks.now.handles used }
    ensures { result ≡ is_consistent
        (lent h blocks.now expirations.now) }
{
    let tasks = h.tasks;
    if !all_fit_tasks(tasks) {
        return false;
    }
    if all_ticked(tasks) {
        return false;
    }
    if !all_coded(&expirations.clocks, &expirations.named) {
        return false;
    }
    if !all_timely(h, &expirations.clocks, &expirations.dues) {
        return false;
    }
    let flags = flags_of(&expirations.clocks, &expirations.named);
    if !check_blocks(h.given, flags, used, blocks) {
        return false;
    }
    distinct(&blocks.handles, &used) & pinned_once(&expirations.clocks, &expirations.named)
}

// What of either store its tasks have, where the record is well-formed: the rules W.
pub fn fitness_of(h: Head, blocks: &BlockTable, expirations: &ExpirationTable) -> Option<Holdings>
    requires { Sized blocks.now expirations.now }
    ensures { Fitness h blocks.now expirations.now
        result }
{
    let limits = h.limits;
    if !is_allowed(limits) {
        return None;
    }
    let used = used_of(&blocks.handles);
    if !is_consistent(h, used, blocks, expirations) {
        return None;
    }
    let sharing = sharing_of(h, &used, &blocks.extents);
    let fit = is_bounded(limits, &blocks.handles, &expirations.clocks) & sharing.fit;
    if fit { Some(sharing.holdings) } else { None }
}

pub fn is_well_formed(h: Head, blocks: &BlockTable, expirations: &ExpirationTable) -> bool
    requires { Sized blocks.now expirations.now }
    ensures { result ≡ is_well_formed
        (lent h blocks.now expirations.now) }
{
    fitness_of(h, blocks, expirations).is_some()
}
