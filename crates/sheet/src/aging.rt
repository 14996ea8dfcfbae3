// What an event, and a release, make of the rows: units are spent, and the rows of which nothing is left are taken out.
ghost use Rattle.std.specs.Prelude.{ℕ, ◌+◌, ◌≤◌, ◌<◌, true, cond, map, ◌≡◌, length};
ghost use Rattle.lists.specs.Tables.{read_by};
ghost use Rattle.lists.specs.Tests.{All};
ghost use Rattle.ledger.specs.Limits.{task_count};
ghost use Rattle.ledger.specs.Tasks.{is_tested};
ghost use Rattle.ledger.proofs.Aging.{aged_by};
ghost use Rattle.sheet.specs.Aged.{most_units, Table, Passes, passing_of, waits_in, put_off_below, advanced_units, aged_clocks, aged_units};
ghost use Rattle.sheet.specs.Sheet.{unpinned};
ghost use Rattle.sheet.specs.Passes.{units_by, deserted_by};

use super::passes::{GLOBAL, advance, desert, put_off, spend, unpin};
use super::sweeping::sweep;
use ledger::{Event, TASK_COUNT};
use record::TaskEntry;
use record::running::is_waiting;

// What an event does: the units that it takes of its task's local expirations, whether the task leaves, and whether the global time
// advances.
#[derive(Clone, Copy)]
pub struct Passing {
    pub task: u8,
    pub cost: u8,
    pub leaves: bool,
    pub advanced: bool,
}

// E20: those of each task that waits are put off.
fn put_off_all(tasks: [TaskEntry; TASK_COUNT], clocks: &[u8], units: &mut [u8])
    requires { (length clocks.now ≡ length units.old)
        × All (λ (u : ℕ). u ≤ most_units) units.old }
    ensures { units.new ≡ units_by (put_off_below task_count tasks) clocks.now units.old }
{
    for (task, e) in tasks.iter().enumerate() {
        if is_waiting(*e) {
            put_off(GLOBAL + task as u8, clocks, units);
        }
    }
}

// E11, E20: where the global time advances.
fn advance_all(advanced: bool, tasks: [TaskEntry; TASK_COUNT], clocks: &[u8], units: &mut [u8])
    requires { (length clocks.now ≡ length units.old)
        × All (λ (u : ℕ). u ≤ most_units) units.old }
    ensures { units.new ≡ advanced_units advanced tasks clocks.now units.old }
{
    if advanced {
        put_off_all(tasks, clocks, units);
        advance(clocks, units);
    }
}

// E21: where the task leaves.
fn desert_all(leaves: bool, task: u8, clocks: &mut [u8])
    requires { task < task_count }
    ensures { clocks.new ≡ cond leaves (map (deserted_by task) clocks.old) clocks.old }
{
    if leaves {
        desert(task, clocks);
    }
}

// An event of a task, by the tasks as it leaves them.
fn age(p: Passing, tasks: [TaskEntry; TASK_COUNT], clocks: &mut [u8], units: &mut [u8])
    requires { (p.task < task_count)
        × (length clocks.old ≡ length units.old)
        × All (λ (u : ℕ). u ≤ most_units) units.old }
    ensures { (clocks.new ≡ aged_clocks p clocks.old)
        × (units.new ≡ aged_units p tasks clocks.old units.old) }
{
    spend(p.task, p.cost, clocks, units);
    desert_all(p.leaves, p.task, clocks);
    advance_all(p.advanced, tasks, clocks, units);
}

#[tactic(auto, unfolding(crate::specs::Aged::passing_of))]
fn passing_of(event: Event, task: u8, advanced: bool) -> Passing
    ensures { result ≡ passing_of event task advanced }
{
    let (cost, leaves) = match event {
        Event::Leave => (255, true),
        Event::Tick => (1, false),
        Event::Block | Event::Resume | Event::View => (0, false),
    };
    Passing {
        task,
        cost,
        leaves,
        advanced,
    }
}

// E12: an event with an advance test; the place from which on rows are left.
pub fn pass(
    event: Event,
    task: u8,
    advanced: bool,
    tasks: [TaskEntry; TASK_COUNT],
    clocks: &mut [u8],
    places: &mut [u16],
    units: &mut [u8],
    counts: &mut [u16],
) -> usize
    requires { (is_tested event ≡ true)
        × (task < task_count)
        × Table clocks.old places.old units.old counts.old }
    ensures { Passes (read_by (aged_by event task advanced (waits_in tasks))) clocks.old places.old
        units.old counts.old result clocks.new places.new units.new counts.new }
{
    age(passing_of(event, task, advanced), tasks, clocks, units);
    sweep(clocks, places, units, counts)
}

// E24: a release of the object of this place.
pub fn release(
    place: u16,
    clocks: &mut [u8],
    places: &mut [u16],
    units: &mut [u8],
    counts: &mut [u16],
) -> usize
    requires { Table clocks.old places.old units.old counts.old }
    ensures { Passes (unpinned (place + 1)) clocks.old places.old units.old counts.old result
        clocks.new places.new units.new counts.new }
{
    unpin(place, clocks, places, units);
    sweep(clocks, places, units, counts)
}
