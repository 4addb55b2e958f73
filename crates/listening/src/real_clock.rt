//! The machine's clock with rests that take no time, as a test.

use std::process::Abort;
use wd_http::Clock;
use webdriverd::SkipClock;

#[test]
fn a_rest_takes_no_time_and_the_clock_goes_on(rt: HostRuntime) {
    let mut clock = SkipClock::new(&rt);
    let first = clock.now();
    // a day
    let asked = first.saturating_add(86_400_000);
    let rested = clock.rest_until(asked);
    assert!(rt; rested >= asked);
    assert!(rt; clock.now() >= rested);
    // a moment that has passed
    assert!(rt; clock.rest_until(first) >= rested);
}
