//! What effects do, in order: changes, timers, and what is asked of the world around the page.

ghost use Rattle.std.specs.Prelude.{◌≡◌, ◌≤◌, true, false, OnOk};
ghost use Rattle.waits.specs.Moments.{last_moment};
ghost use Rattle.page_engine.specs.Effects.{effect_on, effects_on, asking, going, opening, starting, has_timer};
ghost use Rattle.page_engine.specs.Scene.{scene_in};

use crate::at::At;
use crate::changes;
use crate::copying::copy_effects;
use crate::effect::{Effect, EffectList, Prompt, PromptKind};
use crate::outcome::Outcome;
use crate::parts::Parts;
use crate::place::Place;
use waits::{LAST_MOMENT, plus};
use wd_json::{Memory, NodeId, WdText};

/// How many timers may be pending.
const MAX_TIMERS: usize = 1000;

/// The effects of a list, in order.
pub fn run_effects(
    parts: &mut Parts,
    asked: &mut Outcome,
    at: At,
    place: Place,
    effects: &EffectList,
) -> Result<(), Memory>
    requires alive { parts.old.document.spent ≡ false }
    requires moment { at.now ≤ last_moment }
    ensures ok { OnOk result (scene_in parts.new asked.new ≡ effects_on at place (scene_in parts.old asked.old) effects.now) }
    ensures alive { OnOk result (parts.new.document.spent ≡ false) }
{
    for effect in effects.as_slice() {
        run_effect(parts, asked, at, place, effect)?;
    }
    Ok(())
}

/// One effect at a place of a list.
pub fn run_effect(
    parts: &mut Parts,
    asked: &mut Outcome,
    at: At,
    place: Place,
    effect: &Effect,
) -> Result<(), Memory>
    requires alive { parts.old.document.spent ≡ false }
    requires moment { at.now ≤ last_moment }
    ensures ok { OnOk result (scene_in parts.new asked.new ≡ effect_on at place (scene_in parts.old asked.old) effect.now) }
    ensures alive { OnOk result (parts.new.document.spent ≡ false) }
{
    match effect {
        Effect::Remove { node } => {
            changes::remove(&mut parts.document, NodeId::of(*node));
            Ok(())
        }
        Effect::Insert {
            node,
            parent,
            place,
        } => changes::insert(
            &mut parts.document,
            NodeId::of(*node),
            NodeId::of(*parent),
            *place,
        ),
        Effect::Attr { node, name, value } => {
            changes::set_attribute(&mut parts.document, NodeId::of(*node), name, value)
        }
        Effect::Text { node, text } => {
            changes::set_text(&mut parts.document, NodeId::of(*node), text)
        }
        Effect::Value { node, text } => {
            changes::set_value(&mut parts.document, NodeId::of(*node), text)
        }
        Effect::Pixels { node, pixels } => {
            changes::set_box(&mut parts.document, NodeId::of(*node), *pixels);
            Ok(())
        }
        Effect::Layer { node, layer } => {
            changes::set_layer(&mut parts.document, NodeId::of(*node), *layer);
            Ok(())
        }
        Effect::Hidden { node, hidden } => {
            changes::set_hidden(&mut parts.document, NodeId::of(*node), *hidden);
            Ok(())
        }
        Effect::Checked { node, checked } => {
            changes::set_checked(&mut parts.document, NodeId::of(*node), *checked);
            Ok(())
        }
        // The focus comes with element interaction.
        Effect::Focus { .. } => Ok(()),
        Effect::Go { address } => go(parts, asked, address),
        Effect::Open { address } => open(parts, asked, address),
        Effect::Prompt {
            kind,
            text,
            answer,
            accepted,
            dismissed,
        } => {
            if !place.prompts {
                return Ok(());
            }
            ask(parts, asked, *kind, text, answer, accepted, dismissed)
        }
        Effect::After { ms, effects } => {
            if !place.afters || !has_timer(parts, asked, at) {
                return Ok(());
            }
            start(parts, asked, at, *ms, effects)
        }
    }
}

/// Asks for a navigation.
fn go(parts: &Parts, asked: &mut Outcome, address: &WdText) -> Result<(), Memory>
    ensures { OnOk result (scene_in parts.now asked.new ≡ going (scene_in parts.now asked.old) address.now) }
{
    asked.go = Some(address.copy(parts.alloc)?);
    Ok(())
}

/// Asks for a window.
fn open(parts: &Parts, asked: &mut Outcome, address: &WdText) -> Result<(), Memory>
    ensures { OnOk result (scene_in parts.now asked.new ≡ opening (scene_in parts.now asked.old) address.now) }
{
    asked.opens.push(address.copy(parts.alloc)?)
}

/// Asks for a prompt, where none was asked for.
fn ask(
    parts: &Parts,
    asked: &mut Outcome,
    kind: PromptKind,
    text: &WdText,
    answer: &WdText,
    accepted: &EffectList,
    dismissed: &EffectList,
) -> Result<(), Memory>
    ensures { OnOk result (scene_in parts.now asked.new
        ≡ asking (scene_in parts.now asked.old) (record { kind = kind; text = text.now; answer = answer.now; accepted = accepted.now; dismissed = dismissed.now })) }
{
    if asked.prompt.is_some() {
        return Ok(());
    }
    asked.prompt = Some(Prompt {
        kind,
        text: text.copy(parts.alloc)?,
        answer: answer.copy(parts.alloc)?,
        accepted: copy_effects(parts.alloc, accepted)?,
        dismissed: copy_effects(parts.alloc, dismissed)?,
    });
    Ok(())
}

/// Whether there is room for one more timer, and a number for it.
fn has_timer(parts: &Parts, asked: &Outcome, at: At) -> bool
    ensures { result ≡ has_timer at (scene_in parts.now asked.now) }
{
    parts.pending.len() < MAX_TIMERS && at.first.saturating_add(asked.made) < LAST_MOMENT
}

/// Starts a timer, due so many milliseconds later.
fn start(
    parts: &mut Parts,
    asked: &mut Outcome,
    at: At,
    ms: u64,
    effects: &EffectList,
) -> Result<(), Memory>
    requires moment { at.now ≤ last_moment }
    requires room { has_timer at (scene_in parts.old asked.old) ≡ true }
    ensures ok { OnOk result (scene_in parts.new asked.new ≡ starting at (scene_in parts.old asked.old) ms effects.now) }
    ensures document { parts.new.document ≡ parts.old.document }
{
    let effects = copy_effects(parts.alloc, effects)?;
    let due = (plus(at.now, ms), at.first + asked.made);
    parts.pending.insert(due, effects)?;
    asked.made += 1;
    Ok(())
}
