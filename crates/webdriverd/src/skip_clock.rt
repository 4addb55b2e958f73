//! The machine's clock, with rests that take no time and no reading that goes back.

ghost use Rattle.std.specs.Prelude.{◌≡◌, ◌≤◌};

use std::rt;
use std::time::SystemTime;
use wd_http::Clock;

/// The machine's time in milliseconds since the start of 1970, and an offset that a rest raises: a rest takes no time. It
/// never goes back: where the machine's clock does, or can't be read, it answers what it answered last, at first 0.
#[derive(Drop)]
pub struct SkipClock<'a, R: rt::Clock> {
    runtime: &'a R,
    offset: u64,
    last: u64,
}

impl<'a, R: rt::Clock> SkipClock<'a, R> {
    /// The clock of this runtime, before any rest.
    pub fn new(runtime: &'a R) -> SkipClock<'a, R>
        ensures { (result.offset ≡ 0) × (result.last ≡ 0) }
    {
        SkipClock {
            runtime,
            offset: 0,
            last: 0,
        }
    }
}

/// The machine's milliseconds since the start of 1970, where its clock can be read.
pub fn milliseconds<R: rt::Clock>(runtime: &R) -> Option<u64> {
    let now = SystemTime::now(runtime).ok()?;
    let since = now.duration_since(SystemTime::UNIX_EPOCH).ok()?;
    u64::try_from(since.as_millis()).ok()
}

impl<'a, R: rt::Clock> Clock for SkipClock<'a, R> {
    ghost now_gives = { λ _ _ _. Unit {0} };

    ghost rest_gives = { λ _ _ _ _. Unit {0} };

    fn now(&mut self) -> u64
        ensures on { (self.old.last ≤ result) × (self.new.last ≡ result) }
        ensures offset { self.new.offset ≡ self.old.offset }
    {
        if let Some(machine) = milliseconds(self.runtime) {
            self.last = self.last.max(machine.saturating_add(self.offset));
        }
        self.last
    }

    // What is missing until then joins the offset.
    fn rest_until(&mut self, t: u64) -> u64
        ensures late { t ≤ result }
        ensures on { (self.old.last ≤ result) × (self.new.last ≡ result) }
        ensures offset { self.old.offset ≤ self.new.offset }
    {
        let now = self.now();
        if now < t {
            self.offset = self.offset.saturating_add(t - now);
            self.last = t;
        }
        self.last
    }
}
