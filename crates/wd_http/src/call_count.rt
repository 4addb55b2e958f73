//! Calls in memory numbered from 1, and which of them fail.

ghost use Rattle.wd_http.specs.Calls.{Calls, IsCalled, first_calls, last_number};
ghost use Rattle.std.specs.Prelude.{◌≡◌, ◌≤◌, ◌<◌, ◌+◌, ◌↔◌, IsTrue, false};

use crate::lists::CallList;
use std::marker::Model;

/// The calls on something in memory, numbered from 1, and the numbers of those that fail. A call
/// after number 2^64 − 1 has no number, so it doesn't fail.
#[derive(Debug, Drop)]
pub(crate) struct CallCount {
    fails: CallList,
    made: u64,
    faults: u64,
}

impl Model for CallCount {
    ghost use Rattle.std.specs.Prelude.{◌≤◌};
    ghost use Rattle.wd_http.specs.Calls.{Calls, last_number};

    ghost Value = { Calls };

    ghost view = { λ c. record { fails = c.fails; made = c.made; faults = c.faults } };

    ghost invariant = { λ c. (c.faults ≤ c.made) × (c.made ≤ last_number) };
}

impl CallCount {
    pub(crate) fn new(fails: CallList) -> CallCount
        ensures { result ≡ first_calls fails }
    {
        CallCount {
            fails,
            made: 0,
            faults: 0,
        }
    }

    /// Whether a number is left for a call.
    pub(crate) fn is_left(&self) -> bool
        ensures left { IsTrue result ↔ (self.now.made < last_number) }
        ensures none { result ≡ false → self.now.made ≡ last_number }
    {
        self.made < u64::MAX
    }

    /// Counts a call, and says whether it fails; then its fault is counted.
    pub(crate) fn fails(&mut self) -> bool
        ensures called { IsCalled self.old self.new result }
        ensures few { self.new.faults ≤ last_number }
        ensures next { self.old.made < last_number → self.new.made ≡ self.old.made + 1 }
        ensures fewer { self.old.made < last_number → result ≡ false → self.new.faults < self.new.made }
    {
        if !self.is_left() {
            return false;
        }
        self.made += 1;
        let fails = self.fails.as_slice().contains(&self.made);
        if fails {
            self.faults += 1;
        }
        fails
    }

    /// Counts a fault.
    pub(crate) fn fault(&mut self)
        requires { self.old.faults < self.old.made }
        ensures { self.new ≡ record self.old { faults = self.old.faults + 1 } }
    {
        self.faults += 1;
    }
}
