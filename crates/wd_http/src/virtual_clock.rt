//! A clock that stands still but for rests.

ghost use Rattle.std.specs.Prelude.{◌≡◌};
ghost use Rattle.wd_http.specs.Clocks.{virtual_now, virtual_rest};

use crate::clock::Clock;
use std::marker::Model;

/// A clock that stands still but for rests. Contracts see the moment at which it stands, the
/// greatest one that was rested for, at first 0.
#[derive(Debug, Drop)]
pub struct VirtualClock {
    moment: u64,
}

impl Model for VirtualClock {
    ghost use Rattle.std.specs.Prelude.{ℕ};

    ghost Value = { ℕ };

    ghost view = { λ c. c.moment };
}

impl VirtualClock {
    /// A clock at the moment 0.
    pub fn new() -> VirtualClock
        ensures { result ≡ 0 }
    {
        VirtualClock { moment: 0 }
    }
}

impl Clock for VirtualClock {
    ghost now_gives = { virtual_now };

    ghost rest_gives = { virtual_rest };

    fn now(&mut self) -> u64 {
        self.moment
    }

    fn rest_until(&mut self, t: u64) -> u64 {
        self.moment = self.moment.max(t);
        self.moment
    }
}
