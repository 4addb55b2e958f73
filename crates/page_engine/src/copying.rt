//! Equal copies of effects and handlers.

ghost use Rattle.std.specs.Prelude.{◌≡◌, map, IfOk};

use crate::effect::{Effect, EffectList};
use crate::page_def::{HandlerList, NodeDefList};
use std::alloc::Global;
use wd_json::{Memory, WdList, WdText};

/// An equal list. `Memory` where there is no memory for it. It goes over the list once.
#[cycle(copied)]
pub fn copy_effects(alloc: Global, effects: &EffectList) -> Result<EffectList, Memory>
    ensures { IfOk result (λ copied. copied ≡ effects.now) }
{
    let mut copied = Vec::with_capacity(alloc, effects.len())?;
    for effect in effects.as_slice() {
        copied.push(copied_effect(alloc, effect)?)?;
    }
    Ok(WdList::from_vec(copied))
}

/// An equal effect.
#[cycle(copied)]
fn copied_effect(alloc: Global, effect: &Effect) -> Result<Effect, Memory>
    ensures { IfOk result (λ copied. copied ≡ effect.now) }
{
    match effect {
        Effect::Attr { node, name, value } => Ok(Effect::Attr {
            node: *node,
            name: name.copy(alloc)?,
            value: copied_text(alloc, value)?,
        }),
        Effect::Text { node, text } => Ok(Effect::Text {
            node: *node,
            text: text.copy(alloc)?,
        }),
        Effect::Value { node, text } => Ok(Effect::Value {
            node: *node,
            text: text.copy(alloc)?,
        }),
        Effect::Prompt {
            kind,
            text,
            answer,
            accepted,
            dismissed,
        } => Ok(Effect::Prompt {
            kind: *kind,
            text: text.copy(alloc)?,
            answer: answer.copy(alloc)?,
            accepted: copy_effects(alloc, accepted)?,
            dismissed: copy_effects(alloc, dismissed)?,
        }),
        Effect::Go { address } => Ok(Effect::Go {
            address: address.copy(alloc)?,
        }),
        Effect::Open { address } => Ok(Effect::Open {
            address: address.copy(alloc)?,
        }),
        Effect::After { ms, effects } => Ok(Effect::After {
            ms: *ms,
            effects: copy_effects(alloc, effects)?,
        }),
        Effect::Remove { node } => Ok(Effect::Remove { node: *node }),
        Effect::Insert {
            node,
            parent,
            place,
        } => Ok(Effect::Insert {
            node: *node,
            parent: *parent,
            place: *place,
        }),
        Effect::Pixels { node, pixels } => Ok(Effect::Pixels {
            node: *node,
            pixels: *pixels,
        }),
        Effect::Layer { node, layer } => Ok(Effect::Layer {
            node: *node,
            layer: *layer,
        }),
        Effect::Hidden { node, hidden } => Ok(Effect::Hidden {
            node: *node,
            hidden: *hidden,
        }),
        Effect::Checked { node, checked } => Ok(Effect::Checked {
            node: *node,
            checked: *checked,
        }),
        Effect::Focus { node } => Ok(Effect::Focus { node: *node }),
    }
}

/// An equal text, where there is one.
fn copied_text(alloc: Global, text: &Option<WdText>) -> Result<Option<WdText>, Memory>
    ensures { IfOk result (λ copied. copied ≡ text.now) }
{
    match text {
        Some(text) => Ok(Some(text.copy(alloc)?)),
        None => Ok(None),
    }
}

/// The handlers of each node.
pub fn copied_handlers(alloc: Global, nodes: &NodeDefList) -> Result<Vec<HandlerList>, Memory>
    ensures { IfOk result (λ copied. copied.items ≡ map (λ d. d.on) nodes.now) }
{
    let mut copied = Vec::with_capacity(alloc, nodes.len())?;
    for node in nodes.as_slice() {
        copied.push(copied_list(alloc, &node.on)?)?;
    }
    Ok(copied)
}

/// An equal list of handlers.
fn copied_list(alloc: Global, handlers: &HandlerList) -> Result<HandlerList, Memory>
    ensures { IfOk result (λ copied. copied ≡ handlers.now) }
{
    let mut copied = Vec::with_capacity(alloc, handlers.len())?;
    for handler in handlers.as_slice() {
        copied.push((handler.0, copy_effects(alloc, &handler.1)?))?;
    }
    Ok(WdList::from_vec(copied))
}
