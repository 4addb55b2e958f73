//! The value that spells a list of effects.

ghost use Rattle.std.specs.Prelude.{◌≡◌, List, IfOk, Some, true};
ghost use Rattle.page_engine.specs.Fitting.{anywhere, timed, answering, is_wait, fits_at, fit_at};
ghost use Rattle.page_engine.specs.declared.effect.Effect.{Effect};
ghost use Rattle.page_engine.specs.declared.effect.Effect.TheVariants.{Prompt, After};
ghost use Rattle.wd_json.specs.Json.{data_of};
ghost use Rattle.wd_json.specs.Whole.{is_whole};
ghost use Rattle.page_file.specs.Spelled.{answer_effect, timed_effect, effect_of, all_in, effects_in};

use crate::row::{five, kind_value, one, three, two};
use crate::spelling::{flag, layer, number, optional_box, optional_text, text as text_value, wait};
use crate::word::Word;
use page_engine::{Effect, EffectList, PromptKind};
use std::alloc::Global;
use wd_json::{Json, Memory, WdList, WdText};

/// The value that spells these effects, which is a list of lists, each a word and what it takes: one
/// value spells at most one list, so `effects_of` gives this one back. The effects keep their ranges
/// and stand where they may, as `effects_fit` tests. All numbers are within plus or minus 2^53 - 1.
/// `Memory` where there is no memory for it.
#[tactic(auto, unfolding(crate::specs::Spelled::effects_in))]
pub fn effects_json(alloc: Global, effects: &EffectList) -> Result<Json, Memory>
    requires { fit_at anywhere effects.now ≡ true }
    ensures spelled { IfOk result (λ value. effects_in value ≡ Some effects.now) }
    ensures whole { IfOk result (λ value. is_whole (data_of value) ≡ true) }
{
    all_json(alloc, effects)
}

// The list that spells the effects, where they may stand in the lists of a prompt, in a timer or in
// a handler.
#[cycle(json)]
fn all_json(alloc: Global, effects: &EffectList) -> Result<Json, Memory>
    ensures answers { fit_at answering effects.now ≡ true → IfOk result (λ v. all_in answer_effect v ≡ Some effects.now) }
    ensures timed { fit_at timed effects.now ≡ true → IfOk result (λ v. all_in timed_effect v ≡ Some effects.now) }
    ensures handled { fit_at anywhere effects.now ≡ true → IfOk result (λ v. all_in effect_of v ≡ Some effects.now) }
    ensures whole { IfOk result (λ v. is_whole (data_of v) ≡ true) }
{
    let mut values = Vec::with_capacity(alloc, effects.len())?;
    for effect in effects.as_slice() {
        values.push(effect_json(alloc, effect)?)?;
    }
    Ok(Json::List(WdList::from_vec(values)))
}

#[cycle(json)]
#[tactic(auto, using(crate::proofs::EachRead::fits_inside))]
fn effect_json(alloc: Global, effect: &Effect) -> Result<Json, Memory>
    ensures answers { fits_at effect.now answering ≡ true → IfOk result (λ v. answer_effect v ≡ Some effect.now) }
    ensures timed { fits_at effect.now timed ≡ true → IfOk result (λ v. timed_effect v ≡ Some effect.now) }
    ensures handled { fits_at effect.now anywhere ≡ true → IfOk result (λ v. effect_of v ≡ Some effect.now) }
    ensures whole { IfOk result (λ v. is_whole (data_of v) ≡ true) }
{
    match effect {
        Effect::Remove { node } => one(alloc, Word::Remove, number(*node)),
        Effect::Insert {
            node,
            parent,
            place,
        } => three(
            alloc,
            Word::Insert,
            number(*node),
            number(*parent),
            number(*place),
        ),
        Effect::Attr { node, name, value } => {
            let name = text_value(alloc, name)?;
            let value = optional_text(alloc, value)?;
            three(alloc, Word::Attr, number(*node), name, value)
        }
        Effect::Text { node, text } => {
            let text = text_value(alloc, text)?;
            two(alloc, Word::Text, number(*node), text)
        }
        Effect::Pixels { node, pixels } => {
            let pixels = optional_box(alloc, pixels)?;
            two(alloc, Word::Pixels, number(*node), pixels)
        }
        Effect::Layer { node, layer: z } => two(alloc, Word::Layer, number(*node), layer(*z)),
        Effect::Hidden { node, hidden } => two(alloc, Word::Hidden, number(*node), flag(*hidden)),
        Effect::Value { node, text } => {
            let text = text_value(alloc, text)?;
            two(alloc, Word::Value, number(*node), text)
        }
        Effect::Checked { node, checked } => {
            two(alloc, Word::Checked, number(*node), flag(*checked))
        }
        Effect::Focus { node } => one(alloc, Word::Focus, number(*node)),
        Effect::Prompt {
            kind,
            text,
            answer,
            accepted,
            dismissed,
        } => {
            let accepted = all_json(alloc, accepted)?;
            let dismissed = all_json(alloc, dismissed)?;
            prompt_json(alloc, *kind, text, answer, accepted, dismissed)
        }
        Effect::Go { address } => {
            let address = text_value(alloc, address)?;
            one(alloc, Word::Go, address)
        }
        Effect::Open { address } => {
            let address = text_value(alloc, address)?;
            one(alloc, Word::Open, address)
        }
        Effect::After { ms, effects } => {
            let effects = all_json(alloc, effects)?;
            after_json(alloc, *ms, effects)
        }
    }
}

// The row of a prompt, from the values of its lists.
#[tactic(auto, using(crate::proofs::RowsRead::prompts_read))]
fn prompt_json(
    alloc: Global,
    kind: PromptKind,
    text: &WdText,
    answer: &WdText,
    accepted: Json,
    dismissed: Json,
) -> Result<Json, Memory>
    ensures timed { (some others : List Effect) → all_in answer_effect accepted ≡ Some some → all_in answer_effect dismissed ≡ Some others
        → IfOk result (λ v. timed_effect v ≡ Some (Prompt kind text.now answer.now some others)) }
    ensures handled { (some others : List Effect) → all_in answer_effect accepted ≡ Some some → all_in answer_effect dismissed ≡ Some others
        → IfOk result (λ v. effect_of v ≡ Some (Prompt kind text.now answer.now some others)) }
    ensures whole { is_whole (data_of accepted) ≡ true → is_whole (data_of dismissed) ≡ true
        → IfOk result (λ v. is_whole (data_of v) ≡ true) }
{
    let kind = kind_value(alloc, kind)?;
    let text = text_value(alloc, text)?;
    let answer = text_value(alloc, answer)?;
    five(alloc, Word::Prompt, kind, text, answer, accepted, dismissed)
}

// The row of an `after`, from the value of its list.
#[tactic(auto, using(crate::proofs::RowsRead::after_read))]
fn after_json(alloc: Global, ms: u64, effects: Json) -> Result<Json, Memory>
    ensures handled { (es : List Effect) → is_wait ms ≡ true → all_in timed_effect effects ≡ Some es
        → IfOk result (λ v. effect_of v ≡ Some (After ms es)) }
    ensures whole { is_whole (data_of effects) ≡ true → IfOk result (λ v. is_whole (data_of v) ≡ true) }
{
    two(alloc, Word::After, wait(ms), effects)
}
