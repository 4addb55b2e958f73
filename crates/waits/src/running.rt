//! All steps of an activity up to a reading, each at its own moment.

ghost use Rattle.std.specs.Prelude.{◌≡◌, ◌<◌, ◌≤◌, ℕ, Some, None, Ok, IfSome, IfOk, OnOk};
ghost use Rattle.waits.specs.Reaching.{Reaches, IsLater};

use crate::activity::Activity;
use wd_json::Memory;

/// The next moment, where it is at most the reading.
fn due<A: Activity>(activity: &A, reading: u64) -> Option<u64>
    requires { A.whole activity.now }
    ensures due { IfSome result (λ moment. (A.next_of activity.now ≡ Some moment) × (moment ≤ reading)) }
    ensures later { result ≡ None → IsLater (A.next_of activity.now) reading }
{
    match activity.next() {
        Some(moment) => {
            if moment <= reading {
                Some(moment)
            } else {
                None
            }
        }
        None => None,
    }
}

/// Makes all steps whose moments are at most the reading, in order. Answers the next moment, which is later than
/// the reading, and `None` exactly where there is none. It has fewer steps left where it made one. With an early
/// reading it changes nothing and takes no memory. `Memory` where a step wants memory: then it can't go on.
pub fn run_to<A: Activity>(activity: &mut A, reading: u64) -> Result<Option<u64>, Memory>
    requires { A.whole activity.old }
    ensures reaches { OnOk result (Reaches A.next_of A.step reading activity.old activity.new) }
    ensures next { IfOk result (λ until. until ≡ A.next_of activity.new) }
    ensures later { IfOk result (λ until. IsLater until reading) }
    ensures whole { OnOk result (A.whole activity.new) }
    ensures fewer { (moment : ℕ) → A.next_of activity.old ≡ Some moment → moment ≤ reading → OnOk result (A.left activity.new < A.left activity.old) }
    ensures early { IsLater (A.next_of activity.old) reading → (result ≡ Ok (A.next_of activity.old)) × (activity.new ≡ activity.old) }
{
    while let Some(moment) = due(activity, reading) {
        activity.at(moment)?;
    }
    Ok(activity.next())
}
