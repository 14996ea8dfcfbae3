// Passes over all rows, with no way out before the last, so that many are made anew at once.
ghost use Rattle.std.specs.Prelude.{ℕ, ◌+◌, ◌<◌, false, ◌||◌, ◌==◌, cond, map, ◌≡◌, eqb, fold, length, slice_index};
ghost use Rattle.ledger.specs.Limits.{task_count};
ghost use Rattle.lists.specs.Tests.{any, All};
ghost use Rattle.sheet.specs.Passes.{units_by, Gives, spent, spent_of, spent_global, put_off_of, deserted_by, unpinned_in};

// The codes of a row's clock: below this the local time of the task of that number; then the global time, with the task that set it,
pub const GLOBAL: u8 = 16;

// or with a departed one;
pub const DEPARTED: u8 = 32;

// from here on none: it is pinned.
pub const PINNED: u8 = 33;

// So many units less where the row is hit, or none.
fn spent(hit: bool, cost: u8, units: u8) -> u8
    ensures { result ≡ spent hit cost units }
{
    if hit {
        units.saturating_sub(cost)
    } else {
        units
    }
}

// The units of all rows made anew, each by its clock and what is left of it.
fn remake<F: Fn(u8, u8) -> u8>(anew: F, clocks: &[u8], units: &mut [u8])
    requires even { length clocks.now ≡ length units.old }
    requires able { (k : ℕ) → k < length units.old → F.pre anew (slice_index clocks.now k) (slice_index units.old k) }
    ensures { (f : ℕ → ℕ → ℕ) → Gives (F.post anew) f → units.new ≡ units_by f clocks.now units.old }
{
    for (i, left) in units.iter_mut().enumerate() {
        *left = anew(clocks[i], *left);
    }
}

// E8, E9: so many units less of the rows by one clock: one at a tick, all at a leave.
pub fn spend(code: u8, cost: u8, clocks: &[u8], units: &mut [u8])
    requires { length clocks.now ≡ length units.old }
    ensures { units.new ≡ units_by (spent_of code cost) clocks.now units.old }
{
    remake(
        |clock, left| spent(clock == code, cost, left),
        clocks,
        units,
    );
}

// E11: one unit less of the rows by the global time.
pub fn advance(clocks: &[u8], units: &mut [u8])
    requires { length clocks.now ≡ length units.old }
    ensures { units.new ≡ units_by spent_global clocks.now units.old }
{
    remake(
        |clock, left| spent((GLOBAL <= clock) & (clock < PINNED), 1, left),
        clocks,
        units,
    );
}

// One unit more where the row is hit.
fn added(hit: bool, units: u8) -> u8
    requires { units < 255 }
    ensures { result ≡ cond hit (units + 1) units }
{
    if hit { units + 1 } else { units }
}

// E20: one unit more of the rows by one clock, before the global time advances.
pub fn put_off(code: u8, clocks: &[u8], units: &mut [u8])
    requires { (length clocks.now ≡ length units.old)
        × All (λ (u : ℕ). u < 255) units.old }
    ensures { units.new ≡ units_by (put_off_of code) clocks.now units.old }
{
    remake(|clock, left| added(clock == code, left), clocks, units);
}

// E21: a clock after the leave of a task.
fn deserted(task: u8, clock: u8) -> u8
    requires { task < task_count }
    ensures { result ≡ deserted_by task clock }
{
    if clock == GLOBAL + task {
        DEPARTED
    } else {
        clock
    }
}

// E21: all clocks after the leave of a task.
pub fn desert(task: u8, clocks: &mut [u8])
    requires { task < task_count }
    ensures { clocks.new ≡ map (deserted_by task) clocks.old }
{
    for clock in clocks.iter_mut() {
        *clock = deserted(task, *clock);
    }
}

// None left where this is the row that a release ends.
fn unpinned(hit: bool, units: u8) -> u8
    ensures { result ≡ cond hit 0 units }
{
    if hit { 0 } else { units }
}

// E24: none left of the pinned row of an object.
pub fn unpin(place: u16, clocks: &[u8], places: &[u16], units: &mut [u8])
    requires { (length clocks.now ≡ length units.old)
        × (length places.now ≡ length units.old) }
    ensures { units.new ≡ unpinned_in place clocks.now places.now units.old }
{
    for (i, left) in units.iter_mut().enumerate() {
        *left = unpinned((PINNED <= clocks[i]) & (places[i] == place), *left);
    }
}

// Whether nothing is left of some row, asked of one after the other,
fn some_over(units: &[u8]) -> bool
    ensures { result ≡ fold (λ some left. some || left == 0) false units.now }
{
    units.iter().fold(false, |some, left| some | (*left == 0))
}

// and as a test of all.
pub fn any_over(units: &[u8]) -> bool
    ensures { result ≡ any (λ (u : ℕ). eqb u 0) units.now }
{
    some_over(units)
}
