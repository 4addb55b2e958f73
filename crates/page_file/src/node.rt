//! One node that an object's members spell, its handlers apart.

ghost use Rattle.std.specs.Prelude.{◌≡◌, IfOk, IfSome, is_some, true};
ghost use Rattle.std.specs.Option.{option_map};
ghost use Rattle.page_engine.specs.Fitting.{is_box_or_none, is_layer};
ghost use Rattle.page_engine.specs.Names.{is_tag};
ghost use Rattle.page_engine.specs.Nodes.{has_fields};
ghost use Rattle.page_engine.specs.declared.page_def.NodeKind.TheVariants.{Chars};
ghost use Rattle.page_file.specs.Values.{text_of};
ghost use Rattle.page_file.specs.NodeValues.{element_of, root_of, kind_in, up_in, pixels_in, layer_in, hidden_in, look_in, on_in, has_names, bare, dressed, node_with, node_in, IsTagged};

use crate::attributes::attributes;
use crate::members::has_only;
use crate::names::is_tag;
use crate::values::{as_bool, as_box, as_optional_number, as_text, as_within};
use page_engine::{AttrList, HandlerList, NodeDef, NodeKind};
use page_tree::PixelBox;
use std::alloc::Global;
use wd_json::{Json, JsonMap, Memory, WdText};

// ---- what the node is

fn element(alloc: Global, value: &Json) -> Result<Option<NodeKind>, Memory>
    ensures same { IfOk result (λ k. k ≡ element_of value.now) }
    ensures tagged { IfOk result (λ k. IfSome k IsTagged) }
{
    match value {
        Json::Text(text) if is_tag(text) => Ok(Some(NodeKind::Element(text.copy(alloc)?))),
        _ => Ok(None),
    }
}

fn characters(alloc: Global, value: &Json) -> Result<Option<NodeKind>, Memory>
    ensures same { IfOk result (λ k. k ≡ option_map Chars (text_of value.now)) }
    ensures tagged { IfOk result (λ k. IfSome k IsTagged) }
{
    match value {
        Json::Text(text) => Ok(Some(NodeKind::Chars(text.copy(alloc)?))),
        _ => Ok(None),
    }
}

fn root(value: &Json) -> Option<NodeKind>
    ensures same { result ≡ root_of value.now }
    ensures tagged { IfSome result IsTagged }
{
    let mode = as_text(value)?.as_str();
    if mode == "open" || mode == "closed" {
        Some(NodeKind::Shadow)
    } else {
        None
    }
}

fn kind(alloc: Global, members: &JsonMap) -> Result<Option<NodeKind>, Memory>
    ensures same { IfOk result (λ k. k ≡ kind_in members.now) }
    ensures tagged { IfOk result (λ k. IfSome k IsTagged) }
{
    match (
        members.get("tag"),
        members.get("text"),
        members.get("shadow"),
    ) {
        (Some(tag), None, None) => element(alloc, tag),
        (None, Some(text), None) => characters(alloc, text),
        (None, None, Some(shadow)) => Ok(root(shadow)),
        _ => Ok(None),
    }
}

// ---- where it stands

fn up(members: &JsonMap) -> Option<Option<u32>>
    ensures { result ≡ up_in members.now }
{
    match members.get("up") {
        Some(value) => as_optional_number(value),
        None => Some(None),
    }
}

// ---- what only elements have

fn pixels(members: &JsonMap) -> Option<Option<PixelBox>>
    ensures same { result ≡ pixels_in members.now }
    ensures within { IfSome result (λ b. is_box_or_none b ≡ true) }
{
    match members.get("box") {
        Some(value) => Some(Some(as_box(value)?)),
        None => Some(None),
    }
}

fn layer(members: &JsonMap) -> Option<i32>
    ensures same { result ≡ layer_in members.now }
    ensures within { IfSome result (λ z. is_layer z ≡ true) }
{
    match members.get("layer") {
        Some(value) => as_within(value, 1000),
        None => Some(0),
    }
}

fn hidden(members: &JsonMap) -> Option<bool>
    ensures { result ≡ hidden_in members.now }
{
    match members.get("hidden") {
        Some(value) => as_bool(value),
        None => Some(false),
    }
}

// The box, the layer, and whether the element is hidden.
type Look = (Option<PixelBox>, i32, bool);

fn look(members: &JsonMap) -> Option<Look>
    ensures same { result ≡ look_in members.now }
    ensures pixels { IfSome result (λ look. is_box_or_none look.0 ≡ true) }
    ensures layer { IfSome result (λ look. is_layer look.1 ≡ true) }
{
    let pixels = pixels(members)?;
    let layer = layer(members)?;
    Some((pixels, layer, hidden(members)?))
}

// ---- the node

// Whether there is no member that the kind doesn't have.
fn has_names(kind: &NodeKind, members: &JsonMap) -> bool
    ensures { result ≡ has_names kind.now members.now }
{
    match kind {
        NodeKind::Element(_) => has_only(
            &["tag", "up", "attrs", "box", "layer", "hidden", "on"],
            members,
        ),
        NodeKind::Chars(_) => has_only(&["text", "up"], members),
        NodeKind::Shadow => has_only(&["shadow", "up"], members),
    }
}

// Whether the handlers, where there are some, stand in an object.
fn has_handler_object(members: &JsonMap) -> bool
    ensures { result ≡ is_some (on_in members.now) }
{
    matches!(members.get("on"), None | Some(Json::Object(_)))
}

// An element whose tag and place are known.
fn dressed(
    alloc: Global,
    members: &JsonMap,
    tag: WdText,
    up: Option<u32>,
) -> Result<Option<NodeDef>, Memory>
    ensures same { IfOk result (λ d. d ≡ dressed members.now tag up) }
    ensures fields { is_tag tag ≡ true → IfOk result (λ d. IfSome d (λ d. has_fields d.kind d ≡ true)) }
{
    let Some((pixels, layer, hidden)) = look(members) else {
        return Ok(None);
    };
    if !has_handler_object(members) {
        return Ok(None);
    }
    let Some(attrs) = attributes(alloc, members)? else {
        return Ok(None);
    };
    Ok(Some(NodeDef {
        kind: NodeKind::Element(tag),
        up,
        attrs,
        pixels,
        layer,
        hidden,
        on: HandlerList::new(alloc),
    }))
}

// A text or a shadow root.
fn bare(alloc: Global, kind: NodeKind, up: Option<u32>) -> NodeDef
    ensures { result ≡ bare kind up }
{
    NodeDef {
        kind,
        up,
        attrs: AttrList::new(alloc),
        pixels: None,
        layer: 0,
        hidden: false,
        on: HandlerList::new(alloc),
    }
}

// A node whose kind and place are known.
fn node_with(
    alloc: Global,
    members: &JsonMap,
    kind: NodeKind,
    up: Option<u32>,
) -> Result<Option<NodeDef>, Memory>
    ensures same { IfOk result (λ d. d ≡ node_with members.now kind up) }
    ensures fields { IsTagged kind → IfOk result (λ d. IfSome d (λ d. has_fields d.kind d ≡ true)) }
{
    match kind {
        NodeKind::Element(tag) => dressed(alloc, members, tag, up),
        NodeKind::Chars(text) => Ok(Some(bare(alloc, NodeKind::Chars(text), up))),
        NodeKind::Shadow => Ok(Some(bare(alloc, NodeKind::Shadow, up))),
    }
}

/// The node that an object's members spell, its handlers apart. `None` where they spell none: not
/// exactly one of `tag`, `text` and `shadow`, a member of another type or out of its range, or one
/// that such a node doesn't have.
pub fn node(alloc: Global, members: &JsonMap) -> Result<Option<NodeDef>, Memory>
    ensures same { IfOk result (λ d. d ≡ node_in members.now) }
    ensures fields { IfOk result (λ d. IfSome d (λ d. has_fields d.kind d ≡ true)) }
{
    let Some(kind) = kind(alloc, members)? else {
        return Ok(None);
    };
    if !has_names(&kind, members) {
        return Ok(None);
    }
    match up(members) {
        Some(up) => node_with(alloc, members, kind, up),
        None => Ok(None),
    }
}
