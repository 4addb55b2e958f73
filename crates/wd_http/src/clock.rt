//! A clock, from which a moment is read or rested for.

ghost use Rattle.std.specs.Prelude.{◌≤◌, ℕ};

/// A clock in milliseconds. What it answers is told by two relations, which each clock gives: a
/// clock that can be known makes them equations, any other lets them hold always. It has no faults.
pub trait Clock {
    /// From this clock, `now` may give that answer and leave that clock.
    ghost now_gives: { Self → ℕ → Self → Type 0 };

    /// From this clock, a rest until a moment may give that answer and leave that clock.
    ghost rest_gives: { Self → ℕ → ℕ → Self → Type 0 };

    /// The moment that it is.
    fn now(&mut self) -> u64
        ensures { now_gives self.old result self.new };

    /// Waits until the moment `t`, and answers the moment that it is then, which is at least `t`.
    fn rest_until(&mut self, t: u64) -> u64
        ensures late { t ≤ result }
        ensures gives { rest_gives self.old t result self.new };
}
