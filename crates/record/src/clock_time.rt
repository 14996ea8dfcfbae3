// Times by the two clocks (T6): a time by one can be held against a time by the same one alone.
ghost use Rattle.std.specs.Prelude.{◌≡◌, ℕ, ◌+◌, ◌%◌, refl};
ghost use Rattle.ledger.specs.Limits.{counter_range};
ghost use Rattle.record.specs.Codes.{units_left};

use super::{GlobalTime, LocalTime};
use std::num::{wrapping_add_u32, wrapping_sub_u32};

pub trait ClockTime: Copy {
    // The number that the clock shows then, and the time at which it shows a number.
    ghost ticks: { Self → ℕ };

    ghost at: { ℕ → Self };

    fn ticks(self) -> u32
        ensures { result ≡ ticks self };

    fn at(number: u32) -> Self
        ensures { result ≡ at number };

    // E6: what remains of an expiration that is due then, by counters that wrap (T8).
    fn left(self, now: Self) -> u32
        ensures { result ≡ units_left (ticks self) (ticks now) }
    {
        wrapping_sub_u32(self.ticks(), now.ticks())
    }

    // The time so many units later.
    fn after(self, units: u32) -> Self
        ensures { result ≡ at ((ticks self + units) % counter_range) }
    {
        Self::at(wrapping_add_u32(self.ticks(), units))
    }

    // A time is the number that its clock shows, and no more.
    ghost shows: { (n : ℕ) → ticks (at n) ≡ n };

    ghost shown: { (t : Self) → at (ticks t) ≡ t };
}

impl ClockTime for LocalTime {
    ghost ticks = { λ t. t.0 };

    ghost at = { λ n. record { 0 = n } };

    ghost shows = { λ n. refl };

    ghost shown = { λ t. refl };

    fn ticks(self) -> u32 {
        self.0
    }

    fn at(number: u32) -> LocalTime {
        LocalTime(number)
    }
}

impl ClockTime for GlobalTime {
    ghost ticks = { λ t. t.0 };

    ghost at = { λ n. record { 0 = n } };

    ghost shows = { λ n. refl };

    ghost shown = { λ t. refl };

    fn ticks(self) -> u32 {
        self.0
    }

    fn at(number: u32) -> GlobalTime {
        GlobalTime(number)
    }
}
