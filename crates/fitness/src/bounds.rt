// W18, W19: no block and no entry beyond the figures is in use. Where the figures are the largest there is nothing to look at.
ghost use Rattle.std.specs.Prelude.{◌≡◌, ◌≤◌, true, ◌&&◌, drop, ◌==◌, fold};
ghost use Rattle.std.specs.List.{slice_range};
ghost use Rattle.ledger.specs.Limits.{is_allowed};
ghost use Rattle.record.specs.Tables.{block_entries, expiration_entries};
ghost use Rattle.fitness.specs.Checks.{Bounds};

use ledger::Limits;
use record::{BLOCK_COUNT, EXPIRATION_COUNT, SMALL_COUNT};

fn all_free(handles: &[u32; BLOCK_COUNT], from: usize, to: usize) -> bool
    requires { (from ≤ to)
        × (to ≤ block_entries) }
    ensures { result ≡ fold (λ fit handle. fit && handle == 0) true (slice_range handles.now from to) }
{
    handles[from..to]
        .iter()
        .fold(true, |fit, handle| fit & (*handle == 0))
}

fn all_unset(clocks: &[u8; EXPIRATION_COUNT], from: usize) -> bool
    requires { from ≤ expiration_entries }
    ensures { result ≡ fold (λ fit clock. fit && clock == 0) true (drop from clocks.now) }
{
    clocks[from..]
        .iter()
        .fold(true, |fit, clock| fit & (*clock == 0))
}

pub fn is_bounded(
    limits: Limits,
    handles: &[u32; BLOCK_COUNT],
    clocks: &[u8; EXPIRATION_COUNT],
) -> bool
    requires { is_allowed limits ≡ true }
    ensures { Bounds limits handles.now clocks.now result }
{
    let small = limits.small as usize;
    let large = SMALL_COUNT + limits.large as usize;
    all_free(handles, small, SMALL_COUNT)
        & all_free(handles, large, BLOCK_COUNT)
        & all_unset(clocks, limits.expirations as usize)
}
