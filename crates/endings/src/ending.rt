// The end of expirations that are due or were a leaver's own: first those by the task's clock, then those by the global time where that has
// advanced. A leaver's own end whenever they are due, in one pass over the clocks; else by groups: one where no clock is asked for is
// passed by, and the due numbers of another are judged before its clocks.
ghost use Rattle.std.specs.Prelude.{◌≡◌, ℕ, ◌+◌, ◌<◌, ◌≤◌, Bool, false, ◌||◌, ◌==◌, fold, if◌then◌else◌};
ghost use Rattle.ledger.specs.Limits.{task_count};
ghost use Rattle.record.specs.Codes.{is_global_clock, units_left};
ghost use Rattle.record.specs.Tables.{expiration_entries, group_size};
ghost use Rattle.endings.specs.Ending.{is_own_at, is_own_ending_at, is_its_over_at, Over, EndedBy, Ended};

use super::Passing;
use record::clock_time::ClockTime;
use record::codes::{FREE, LOCAL, is_global};
use record::{EXPIRATION_COUNT, GROUP, GROUP_COUNT, GlobalTime, LocalTime};

// What is left of a clock.
fn kept(ends: bool, clock: u8) -> u8
    ensures { result ≡ (if ends then 0 else clock) }
{
    if ends { FREE } else { clock }
}

// Ends all that go by a task's clock, and says whether that was any.
fn end_own(own: u8, clocks: &mut [u8; EXPIRATION_COUNT]) -> bool
    ensures { EndedBy (is_own_at own) 0 expiration_entries clocks.old clocks.new result }
{
    let mut some = false;
    for clock in clocks.iter_mut() {
        let ends = *clock == own;
        some = some | ends;
        *clock = kept(ends, *clock);
    }
    some
}

// A clock that expirations go by: the codes that are its, and the number that it shows now.
trait Clock: Copy {
    ghost is_its: { Self → ℕ → Bool };

    ghost now: { Self → ℕ };

    fn is_its(self, code: u8) -> bool
        ensures { result ≡ is_its self code };

    // Whether nothing is left of what is due at a number.
    fn is_over(self, due: u32) -> bool
        ensures { result ≡ (units_left due (now self) == 0) };
}

// A task's own, as it stands now.
#[derive(Clone, Copy)]
struct Own {
    code: u8,
    now: LocalTime,
}

impl Clock for Own {
    ghost is_its = { λ own code. code == own.code };

    ghost now = { λ own. own.now.0 };

    fn is_its(self, code: u8) -> bool {
        code == self.code
    }

    fn is_over(self, due: u32) -> bool {
        let now = self.now;
        LocalTime(due).left(now) == 0
    }
}

impl Clock for GlobalTime {
    ghost is_its = { λ global. is_global_clock };

    ghost now = { λ global. global.0 };

    fn is_its(self, code: u8) -> bool {
        is_global(code)
    }

    fn is_over(self, due: u32) -> bool {
        GlobalTime(due).left(self) == 0
    }
}

// Whether some of a group are its.
fn any_its<C: Clock>(by: C, group: &[u8]) -> bool
    ensures { result ≡ fold (λ some clock. some || C.is_its by clock) false group.now }
{
    group
        .iter()
        .fold(false, |some, clock| some | by.is_its(*clock))
}

// At which places of a group nothing is left.
fn over<C: Clock>(by: C, dues: &[u32; EXPIRATION_COUNT], from: usize) -> [bool; GROUP]
    requires { from + group_size ≤ expiration_entries }
    ensures { Over (C.now by) dues.now from result }
{
    let mut out = [false; GROUP];
    for (i, over) in out.iter_mut().enumerate() {
        *over = by.is_over(dues[from + i]);
    }
    out
}

// Ends what is over in a group, and says whether that was any.
fn end_in<C: Clock>(
    by: C,
    clocks: &mut [u8; EXPIRATION_COUNT],
    dues: &[u32; EXPIRATION_COUNT],
    from: usize,
) -> bool
    requires { from + group_size ≤ expiration_entries }
    ensures { EndedBy (is_its_over_at (C.is_its by) (C.now by) dues.now) from (from + group_size) clocks.old clocks.new
        result }
{
    if !any_its(by, &clocks[from..from + GROUP]) {
        return false;
    }
    let over = over(by, dues, from);
    let mut some = false;
    for (i, is_over) in over.iter().enumerate() {
        let ends = by.is_its(clocks[from + i]) & *is_over;
        some = some | ends;
        clocks[from + i] = kept(ends, clocks[from + i]);
    }
    some
}

// The same of all, two groups in a turn.
fn end_by<C: Clock>(
    by: C,
    clocks: &mut [u8; EXPIRATION_COUNT],
    dues: &[u32; EXPIRATION_COUNT],
) -> bool
    ensures { EndedBy (is_its_over_at (C.is_its by) (C.now by) dues.now) 0 expiration_entries clocks.old clocks.new
        result }
{
    let mut some = false;
    // By number: a group is a part of several columns at once.
    for g in 0..GROUP_COUNT / 2 {
        some = some | end_in(by, clocks, dues, g * 2 * GROUP);
        some = some | end_in(by, clocks, dues, g * 2 * GROUP + GROUP);
    }
    some
}

// Ends what the event ends by its task's clock: all of them where the task leaves.
fn end_tasks(
    t: Passing,
    clocks: &mut [u8; EXPIRATION_COUNT],
    dues: &[u32; EXPIRATION_COUNT],
) -> bool
    requires { t.task < task_count }
    ensures { EndedBy (is_own_ending_at t dues.now) 0 expiration_entries clocks.old clocks.new result }
{
    let own = Own {
        code: LOCAL + t.task,
        now: t.local,
    };
    if t.leaves {
        end_own(own.code, clocks)
    } else {
        end_by(own, clocks, dues)
    }
}

// Ends all that the event ends, and says whether that was any.
pub fn end_due(
    t: Passing,
    clocks: &mut [u8; EXPIRATION_COUNT],
    dues: &[u32; EXPIRATION_COUNT],
) -> bool
    requires { t.task < task_count }
    ensures { Ended t dues.now 0 expiration_entries clocks.old clocks.new result }
{
    let some = end_tasks(t, clocks, dues);
    if !t.advanced {
        return some;
    }
    let global = t.global;
    some | end_by(global, clocks, dues)
}
