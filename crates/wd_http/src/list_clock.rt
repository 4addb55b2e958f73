//! A clock that answers the numbers of a list.

ghost use Rattle.std.specs.Prelude.{◌≡◌, ◌≤◌};
ghost use Rattle.wd_http.specs.Clocks.{list_now, list_rest, times_of};

use crate::clock::Clock;
use crate::lists::TimeList;
use std::marker::Model;

/// A clock that answers its numbers in order, and then its last one again, at first 0. Contracts
/// see the numbers to come and the last one.
#[derive(Debug, Drop)]
pub struct ListClock {
    numbers: TimeList,
    at: usize,
    last: u64,
}

impl Model for ListClock {
    ghost use Rattle.std.specs.Prelude.{◌≤◌, drop, length};
    ghost use Rattle.wd_http.specs.Clocks.{Times};

    ghost Value = { Times };

    ghost view = { λ c. record { left = drop c.at c.numbers; last = c.last } };

    ghost invariant = { λ c. c.at ≤ length c.numbers };
}

impl ListClock {
    /// A clock that answers these numbers. It takes no memory.
    pub fn new(numbers: TimeList) -> ListClock
        ensures { result ≡ times_of numbers }
    {
        ListClock {
            numbers,
            at: 0,
            last: 0,
        }
    }
}

impl Clock for ListClock {
    ghost now_gives = { list_now };

    ghost rest_gives = { list_rest };

    /// The front of the list, which is taken away; where the list is empty the last number again.
    fn now(&mut self) -> u64
        ensures { list_now self.old result self.new }
    {
        if self.at < self.numbers.len() {
            self.last = self.numbers.as_slice()[self.at];
            self.at += 1;
        }
        self.last
    }

    /// The greater of what `now` would answer and `t`; the front is taken away likewise.
    fn rest_until(&mut self, t: u64) -> u64
        ensures late { t ≤ result }
        ensures gives { list_rest self.old t result self.new }
    {
        self.now().max(t)
    }
}
