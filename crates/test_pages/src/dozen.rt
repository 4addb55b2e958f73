//! A page of twelve nodes, with fields to fill and one timer.

ghost use Rattle.std.specs.Prelude.{◌≡◌, ◌∷◌, ◌++◌, [], Some, None, false, true, pos, codes, IfOk, OnOk};
ghost use Rattle.page_engine.specs.BuiltIn.{an_element, a_text, a_box};
ghost use Rattle.page_engine.specs.Pages.{IsLawfulPage};
ghost use Rattle.page_engine.specs.declared.effect.Effect.TheVariants.{Layer, Hidden};
ghost use Rattle.page_engine.specs.declared.event.EventKind.TheVariants.{Click};
ghost use Rattle.page_engine.specs.declared.page_def.NodeKind.TheVariants.{Shadow};

use crate::elements::{ascii, element, one, sized, text};
use page_engine::{
    AttrList, Book, Effect, EffectList, EventKind, HandlerList, NodeDef, NodeDefList, NodeKind,
    PageDef, TimerDef, TimerList,
};
use std::alloc::Global;
use wd_json::Memory;

/// 0 html, in it 1 body, in it 2 div with an attribute, a box and a layer, which is hidden.
fn frame(alloc: Global) -> Result<NodeDefList, Memory>
    ensures { IfOk result (λ nodes. nodes ≡ an_element (codes "html") None [] None ∷ an_element (codes "body") (Some 0) [] None ∷ (record (an_element (codes "div") (Some 1) ((codes "id", codes "main") ∷ []) (a_box 1 2 30 40)) { layer = pos 3; hidden = true }) ∷ []) }
{
    let mut nodes = NodeDefList::new(alloc);
    nodes.push(element(alloc, "html", None, AttrList::new(alloc), None)?)?;
    nodes.push(element(alloc, "body", Some(0), AttrList::new(alloc), None)?)?;
    let id = one(alloc, "id", "main")?;
    let mut div = element(alloc, "div", Some(1), id, sized(1, 2, 30, 40))?;
    div.layer = 3;
    div.hidden = true;
    nodes.push(div)?;
    Ok(nodes)
}

/// 3, the shadow root of 2, and in it 4 b, whose click puts 2 into another layer.
fn shadow(alloc: Global, nodes: &mut NodeDefList) -> Result<(), Memory>
    ensures { OnOk result (nodes.new ≡ nodes.old ++ (record { kind = Shadow; up = Some 2; attrs = []; pixels = None; layer = pos 0; hidden = false; on = [] }) ∷ (record (an_element (codes "b") (Some 3) [] None) { on = (Click, Layer 2 (pos 5) ∷ []) ∷ [] }) ∷ []) }
{
    nodes.push(NodeDef {
        kind: NodeKind::Shadow,
        up: Some(2),
        attrs: AttrList::new(alloc),
        pixels: None,
        layer: 0,
        hidden: false,
        on: HandlerList::new(alloc),
    })?;
    let mut effects = EffectList::new(alloc);
    effects.push(Effect::Layer { node: 2, layer: 5 })?;
    let mut button = element(alloc, "b", Some(3), AttrList::new(alloc), None)?;
    button.on.push((EventKind::Click, effects))?;
    nodes.push(button)?;
    Ok(())
}

/// 5, a checked input with a value.
fn input(alloc: Global, nodes: &mut NodeDefList) -> Result<(), Memory>
    ensures { OnOk result (nodes.new ≡ nodes.old ++ an_element (codes "input") (Some 1) ((codes "value", codes "v") ∷ (codes "checked", codes "no") ∷ []) None ∷ []) }
{
    let mut attrs = one(alloc, "value", "v")?;
    attrs.push((ascii(alloc, "checked")?, ascii(alloc, "no")?))?;
    nodes.push(element(alloc, "input", Some(1), attrs, None)?)?;
    Ok(())
}

/// 6, a textarea.
fn textarea(alloc: Global, nodes: &mut NodeDefList) -> Result<(), Memory>
    ensures { OnOk result (nodes.new ≡ nodes.old ++ an_element (codes "textarea") (Some 1) [] None ∷ []) }
{
    nodes.push(element(alloc, "textarea", Some(1), AttrList::new(alloc), None)?)?;
    Ok(())
}

/// The texts 7 and 8 in it.
fn texts(alloc: Global, nodes: &mut NodeDefList) -> Result<(), Memory>
    ensures { OnOk result (nodes.new ≡ nodes.old ++ a_text (codes "ab") 6 ∷ a_text (codes "cd") 6 ∷ []) }
{
    nodes.push(text(alloc, "ab", 6)?)?;
    nodes.push(text(alloc, "cd", 6)?)?;
    Ok(())
}

/// 9, a p with editable content that stands alone.
fn editable(alloc: Global, nodes: &mut NodeDefList) -> Result<(), Memory>
    ensures { OnOk result (nodes.new ≡ nodes.old ++ an_element (codes "p") None ((codes "contenteditable", codes "true") ∷ []) None ∷ []) }
{
    let attrs = one(alloc, "contenteditable", "true")?;
    nodes.push(element(alloc, "p", None, attrs, None)?)?;
    Ok(())
}

/// The text 10 in it.
fn editable_text(alloc: Global, nodes: &mut NodeDefList) -> Result<(), Memory>
    ensures { OnOk result (nodes.new ≡ nodes.old ++ a_text (codes "x") 9 ∷ []) }
{
    nodes.push(text(alloc, "x", 9)?)?;
    Ok(())
}

/// 11, a selected option.
fn option(alloc: Global, nodes: &mut NodeDefList) -> Result<(), Memory>
    ensures { OnOk result (nodes.new ≡ nodes.old ++ an_element (codes "option") (Some 1) ((codes "selected", codes "no") ∷ []) None ∷ []) }
{
    let attrs = one(alloc, "selected", "no")?;
    nodes.push(element(alloc, "option", Some(1), attrs, None)?)?;
    Ok(())
}

/// One timer, 40 milliseconds after the page was opened, which shows 2.
fn timers(alloc: Global) -> Result<TimerList, Memory>
    ensures { IfOk result (λ timers. timers ≡ (record { at = 40; effects = Hidden 2 false ∷ [] }) ∷ []) }
{
    let mut effects = EffectList::new(alloc);
    effects.push(Effect::Hidden {
        node: 2,
        hidden: false,
    })?;
    let mut timers = TimerList::new(alloc);
    timers.push(TimerDef { at: 40, effects })?;
    Ok(timers)
}

/// A page of a dozen nodes with one timer.
pub fn a_dozen(alloc: Global) -> Result<PageDef, Memory>
    ensures { IfOk result IsLawfulPage }
{
    let mut nodes = frame(alloc)?;
    shadow(alloc, &mut nodes)?;
    input(alloc, &mut nodes)?;
    textarea(alloc, &mut nodes)?;
    texts(alloc, &mut nodes)?;
    editable(alloc, &mut nodes)?;
    editable_text(alloc, &mut nodes)?;
    option(alloc, &mut nodes)?;
    Ok(PageDef {
        address: ascii(alloc, "http://page.test/")?,
        nodes,
        timers: timers(alloc)?,
        book: Book::new(alloc),
        eager: 0,
        load: 0,
    })
}
