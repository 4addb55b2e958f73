//! Which effects keep their ranges and may stand where they do.

ghost use Rattle.std.specs.Prelude.{◌≡◌, pos, int_le, ◌&&◌};
ghost use Rattle.page_engine.specs.Fitting.{anywhere, is_within, is_wait, is_layer, is_box, is_box_or_none, fits_at, fit_at};

use crate::effect::{Effect, EffectList};
use crate::place::{ANSWERING, ANYWHERE, Place, TIMED};
use page_tree::PixelBox;

/// The longest wait of a timer, in milliseconds.
const MAX_WAIT: u64 = 1 << 40;

/// Whether the effects keep the ranges of what they say, and stand where they may: no `after` in a
/// timer, in an `after` or in the lists of a prompt, and no prompt in the lists of a prompt. The
/// list is taken as that of a handler or of a script. It takes no memory.
pub fn effects_fit(effects: &EffectList) -> bool
    ensures { result ≡ fit_at anywhere effects.now }
{
    all_fit(effects, ANYWHERE)
}

/// Whether the effects may all stand at that place.
#[cycle(fitting)]
pub fn all_fit(effects: &EffectList, place: Place) -> bool
    ensures { result ≡ fit_at place effects.now }
{
    for effect in effects.as_slice() {
        if !fits(effect, place) {
            return false;
        }
    }
    true
}

/// Whether the effect may stand at that place.
#[cycle(fitting)]
#[tactic(auto, using(crate::proofs::Fits::fits_inside))]
fn fits(effect: &Effect, place: Place) -> bool
    ensures { result ≡ fits_at effect.now place }
{
    match effect {
        Effect::Pixels { pixels, .. } => is_box_or_none(pixels),
        Effect::Layer { layer, .. } => is_layer(*layer),
        Effect::Prompt {
            accepted,
            dismissed,
            ..
        } => {
            if !place.prompts || !all_fit(accepted, ANSWERING) {
                return false;
            }
            all_fit(dismissed, ANSWERING)
        }
        Effect::After { ms, effects } => {
            if !place.afters || !is_wait(*ms) {
                return false;
            }
            all_fit(effects, TIMED)
        }
        _ => true,
    }
}

/// Whether a timer may wait so many milliseconds: 1 to 2^40.
pub fn is_wait(ms: u64) -> bool
    ensures { result ≡ is_wait ms }
{
    1 <= ms && ms <= MAX_WAIT
}

/// Whether the layer is within plus or minus 1,000.
pub fn is_layer(layer: i32) -> bool
    ensures { result ≡ is_layer layer }
{
    is_within(layer, 1000)
}

/// Whether a box that is there keeps its ranges.
pub fn is_box_or_none(pixels: &Option<PixelBox>) -> bool
    ensures { result ≡ is_box_or_none pixels.now }
{
    match pixels {
        Some(pixels) => is_box(pixels),
        None => true,
    }
}

/// Whether the box starts within plus or minus 1,000,000 pixels and is at most as large.
fn is_box(pixels: &PixelBox) -> bool
    ensures { result ≡ is_box pixels.now }
{
    is_within(pixels.x, 1_000_000)
        && is_within(pixels.y, 1_000_000)
        && is_up_to(pixels.w, 1_000_000)
        && is_up_to(pixels.h, 1_000_000)
}

fn is_within(number: i32, most: u32) -> bool
    ensures { result ≡ is_within most number }
{
    number.unsigned_abs() <= most
}

fn is_up_to(number: i32, most: i32) -> bool
    ensures { result ≡ int_le (pos 0) number && int_le number most }
{
    0 <= number && number <= most
}
