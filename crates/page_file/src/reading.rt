//! The effects that a value spells.

ghost use Rattle.std.specs.Prelude.{◌≡◌, IfOk, IfErr, IfSome, None, Some, true};
ghost use Rattle.page_engine.specs.Fitting.{anywhere, timed, answering, fits_at, fit_at};
ghost use Rattle.page_engine.specs.declared.place.Place.{Place};
ghost use Rattle.page_file.specs.Spelled.{prompt_row, timed_row, after_row, effect_row, answer_effect, timed_effect, effect_of, all_in, effects_in};
ghost use Rattle.page_file.specs.Causes.{IsCause};

use crate::each::{Spelling, list};
use crate::fault::EffectFault;
use crate::plain::{as_row, plain_effect};
use crate::prompt::asked;
use crate::values::as_wait;
use crate::word::Word;
use page_engine::{Effect, EffectList};
use std::alloc::Global;
use wd_json::{Json, Memory};

/// The list of effects that the value spells: a list of lists, each a word and what it takes. In a
/// handler's or a script's list any effect may stand, in that of a timer or of an `after` all but
/// `after`, and in a prompt's lists neither `after` nor `prompt`. Nodes and places are 0 to
/// 2^32 - 1, layers within plus or minus 1,000, boxes start within 1,000,000 pixels and are at most
/// as large, and a wait is 1 to 2^40 milliseconds.
///
/// `Form` exactly where the value spells no such list; `Memory` where there is no memory for it.
pub fn effects_of(alloc: Global, value: &Json) -> Result<EffectList, EffectFault>
    ensures spelled { IfOk result (λ effects. effects_in value.now ≡ Some effects) }
    ensures cause { IfErr result (IsCause value.now) }
    ensures fit { IfOk result (λ effects. fit_at anywhere effects ≡ true) }
{
    match effects(alloc, value)? {
        Some(effects) => Ok(effects),
        None => Err(EffectFault::Form),
    }
}

// ---- in the lists of a prompt

struct AnswerEffect;

impl Spelling for AnswerEffect {
    type Value = Json;

    type Item = Effect;

    ghost spelled = { answer_effect };

    ghost fits = { λ effect. fits_at effect answering };

    fn read(alloc: Global, value: &Json) -> Result<Option<Effect>, Memory> {
        match as_row(value) {
            Some((word, values)) => plain_effect(alloc, word, values),
            None => Ok(None),
        }
    }
}

// ---- in a timer, and in an `after`

#[tactic(auto, using(crate::proofs::EachRead::fits_inside))]
fn prompt(alloc: Global, values: &[Json]) -> Result<Option<Effect>, Memory>
    ensures row { IfOk result (λ e. e ≡ prompt_row values.now) }
    ensures fits { (place : Place) → place.prompts ≡ true → IfOk result (λ e. IfSome e (λ e. fits_at e place ≡ true)) }
{
    let Some((kind, text, answer, accepted, dismissed)) = asked(values) else {
        return Ok(None);
    };
    let Some(accepted) = list::<AnswerEffect>(alloc, accepted)? else {
        return Ok(None);
    };
    let Some(dismissed) = list::<AnswerEffect>(alloc, dismissed)? else {
        return Ok(None);
    };
    let text = text.copy(alloc)?;
    let answer = answer.copy(alloc)?;
    Ok(Some(Effect::Prompt {
        kind,
        text,
        answer,
        accepted,
        dismissed,
    }))
}

fn timed_row(alloc: Global, word: Word, values: &[Json]) -> Result<Option<Effect>, Memory>
    ensures row { IfOk result (λ e. e ≡ timed_row word values.now) }
    ensures fits { (place : Place) → place.prompts ≡ true → IfOk result (λ e. IfSome e (λ e. fits_at e place ≡ true)) }
{
    match word {
        Word::Prompt => prompt(alloc, values),
        _ => plain_effect(alloc, word, values),
    }
}

struct TimedEffect;

impl Spelling for TimedEffect {
    type Value = Json;

    type Item = Effect;

    ghost spelled = { timed_effect };

    ghost fits = { λ effect. fits_at effect timed };

    fn read(alloc: Global, value: &Json) -> Result<Option<Effect>, Memory> {
        match as_row(value) {
            Some((word, values)) => timed_row(alloc, word, values),
            None => Ok(None),
        }
    }
}

/// The effects of a timer or of an `after`.
pub fn timed_effects(alloc: Global, value: &Json) -> Result<Option<EffectList>, Memory>
    ensures list { IfOk result (λ es. es ≡ all_in timed_effect value.now) }
    ensures fit { IfOk result (λ es. IfSome es (λ es. fit_at timed es ≡ true)) }
{
    list::<TimedEffect>(alloc, value)
}

// ---- in a handler, and in a script

#[tactic(auto, using(crate::proofs::EachRead::fits_inside))]
fn after(alloc: Global, values: &[Json]) -> Result<Option<Effect>, Memory>
    ensures row { IfOk result (λ e. e ≡ after_row values.now) }
    ensures fits { IfOk result (λ e. IfSome e (λ e. fits_at e anywhere ≡ true)) }
{
    let [ms, effects] = values else {
        return Ok(None);
    };
    let Some(ms) = as_wait(ms) else {
        return Ok(None);
    };
    let Some(effects) = timed_effects(alloc, effects)? else {
        return Ok(None);
    };
    Ok(Some(Effect::After { ms, effects }))
}

fn effect_row(alloc: Global, word: Word, values: &[Json]) -> Result<Option<Effect>, Memory>
    ensures row { IfOk result (λ e. e ≡ effect_row word values.now) }
    ensures fits { IfOk result (λ e. IfSome e (λ e. fits_at e anywhere ≡ true)) }
{
    match word {
        Word::After => after(alloc, values),
        _ => timed_row(alloc, word, values),
    }
}

struct HandledEffect;

impl Spelling for HandledEffect {
    type Value = Json;

    type Item = Effect;

    ghost spelled = { effect_of };

    ghost fits = { λ effect. fits_at effect anywhere };

    fn read(alloc: Global, value: &Json) -> Result<Option<Effect>, Memory> {
        match as_row(value) {
            Some((word, values)) => effect_row(alloc, word, values),
            None => Ok(None),
        }
    }
}

/// The effects of a handler or of a script.
#[tactic(auto, unfolding(crate::specs::Spelled::effects_in))]
pub fn effects(alloc: Global, value: &Json) -> Result<Option<EffectList>, Memory>
    ensures list { IfOk result (λ es. es ≡ effects_in value.now) }
    ensures fit { IfOk result (λ es. IfSome es (λ es. fit_at anywhere es ≡ true)) }
{
    list::<HandledEffect>(alloc, value)
}
