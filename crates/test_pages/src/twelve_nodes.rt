//! A page of twelve nodes with a shadow tree, on which effects take place.

ghost use Rattle.std.specs.Prelude.{◌≡◌, ◌∷◌, ◌++◌, [], IfOk, OnOk};
ghost use Rattle.page_engine.specs.Pages.{IsLawfulPage};
ghost use Rattle.page_engine.specs.declared.effect.Effect.TheVariants.{Remove, After, Layer};
ghost use Rattle.test_pages.specs.TwelveNodes.{head_and_body, input_and_div, shadow_tree, em_and_ul, lone_text, twelve, timers};

use crate::elements::{ascii, element, text};
use page_engine::{
    AttrList, Book, Effect, EffectList, EventKind, HandlerList, NodeDef, NodeDefList, NodeKind,
    Page, PageDef, TimerDef, TimerList, copy_effects, effects_fit,
};
use std::alloc::Global;
use std::process::Abort;
use std::test::Fail;
use wd_json::Memory;

/// 0 html, in it 1 head and 2 body, in the body 3 p, and in that the text 4.
#[tactic(auto, unfolding(crate::specs::TwelveNodes::head_and_body))]
fn head_and_body(alloc: Global) -> Result<NodeDefList, Memory>
    ensures { IfOk result (λ nodes. nodes ≡ head_and_body) }
{
    let mut nodes = NodeDefList::new(alloc);
    nodes.push(element(alloc, "html", None, AttrList::new(alloc), None)?)?;
    nodes.push(element(alloc, "head", Some(0), AttrList::new(alloc), None)?)?;
    nodes.push(element(alloc, "body", Some(0), AttrList::new(alloc), None)?)?;
    nodes.push(element(alloc, "p", Some(2), AttrList::new(alloc), None)?)?;
    nodes.push(text(alloc, "one", 3)?)?;
    Ok(nodes)
}

/// What a click on 6 does: 8 is taken out, and a timer is started that does nothing.
fn clicked(alloc: Global) -> Result<EffectList, Memory>
    ensures { IfOk result (λ effects. effects ≡ Remove 8 ∷ After 10 [] ∷ []) }
{
    let mut effects = EffectList::new(alloc);
    effects.push(Effect::Remove { node: 8 })?;
    effects.push(Effect::After {
        ms: 10,
        effects: EffectList::new(alloc),
    })?;
    Ok(effects)
}

/// In the body 5 input and 6 div, which hears clicks.
#[tactic(auto, unfolding(crate::specs::TwelveNodes::input_and_div))]
fn input_and_div(alloc: Global, nodes: &mut NodeDefList) -> Result<(), Memory>
    ensures { OnOk result (nodes.new ≡ nodes.old ++ input_and_div) }
{
    nodes.push(element(alloc, "input", Some(2), AttrList::new(alloc), None)?)?;
    let mut div = element(alloc, "div", Some(2), AttrList::new(alloc), None)?;
    div.on.push((EventKind::Click, clicked(alloc)?))?;
    nodes.push(div)?;
    Ok(())
}

/// 7, the shadow root of 6, and in it 8 b.
#[tactic(auto, unfolding(crate::specs::TwelveNodes::shadow_tree))]
fn shadow(alloc: Global, nodes: &mut NodeDefList) -> Result<(), Memory>
    ensures { OnOk result (nodes.new ≡ nodes.old ++ shadow_tree) }
{
    nodes.push(NodeDef {
        kind: NodeKind::Shadow,
        up: Some(6),
        attrs: AttrList::new(alloc),
        pixels: None,
        layer: 0,
        hidden: false,
        on: HandlerList::new(alloc),
    })?;
    nodes.push(element(alloc, "b", Some(7), AttrList::new(alloc), None)?)?;
    Ok(())
}

/// 9 em, which stands alone, and in the body 10 ul.
#[tactic(auto, unfolding(crate::specs::TwelveNodes::em_and_ul))]
fn em_and_ul(alloc: Global, nodes: &mut NodeDefList) -> Result<(), Memory>
    ensures { OnOk result (nodes.new ≡ nodes.old ++ em_and_ul) }
{
    nodes.push(element(alloc, "em", None, AttrList::new(alloc), None)?)?;
    nodes.push(element(alloc, "ul", Some(2), AttrList::new(alloc), None)?)?;
    Ok(())
}

/// The text 11, which stands alone.
#[tactic(auto, unfolding(crate::specs::TwelveNodes::lone_text))]
fn lone_text(alloc: Global, nodes: &mut NodeDefList) -> Result<(), Memory>
    ensures { OnOk result (nodes.new ≡ nodes.old ++ lone_text) }
{
    let mut lone = text(alloc, "x", 0)?;
    lone.up = None;
    nodes.push(lone)?;
    Ok(())
}

/// A timer that puts 3 into a layer.
fn timer(alloc: Global, at: u64, layer: i32) -> Result<TimerDef, Memory>
    ensures { IfOk result (λ timer. timer ≡ record { at = at; effects = Layer 3 layer ∷ [] }) }
{
    let mut effects = EffectList::new(alloc);
    effects.push(Effect::Layer { node: 3, layer })?;
    Ok(TimerDef { at, effects })
}

/// Two timers, of which the second is due first.
#[tactic(auto, unfolding(crate::specs::TwelveNodes::timers))]
fn timers(alloc: Global) -> Result<TimerList, Memory>
    ensures { IfOk result (λ list. list ≡ timers) }
{
    let mut timers = TimerList::new(alloc);
    timers.push(timer(alloc, 60, 2)?)?;
    timers.push(timer(alloc, 40, 1)?)?;
    Ok(timers)
}

fn nodes(alloc: Global) -> Result<NodeDefList, Memory>
    ensures { IfOk result (λ nodes. nodes ≡ twelve) }
{
    let mut nodes = head_and_body(alloc)?;
    input_and_div(alloc, &mut nodes)?;
    shadow(alloc, &mut nodes)?;
    em_and_ul(alloc, &mut nodes)?;
    lone_text(alloc, &mut nodes)?;
    Ok(nodes)
}

fn twelve_nodes(alloc: Global) -> Result<PageDef, Memory>
    ensures { IfOk result IsLawfulPage }
{
    Ok(PageDef {
        address: ascii(alloc, "http://page.test/")?,
        nodes: nodes(alloc)?,
        timers: timers(alloc)?,
        book: Book::new(alloc),
        eager: 0,
        load: 0,
    })
}

/// The page of these nodes, opened at moment 0 with its timers numbered from 7.
pub fn opened(alloc: Global) -> Result<Page, Fail> {
    let def = twelve_nodes(alloc)?;
    Ok(Page::open(alloc, &def, 0, 7, false)?)
}

/// That page once this effect took place.
pub fn applied(rt: &impl Abort, alloc: Global, effect: Effect) -> Result<Page, Fail> {
    let mut page = opened(alloc)?;
    let mut effects = EffectList::new(alloc);
    effects.push(effect)?;
    let effects = copy_effects(alloc, &effects)?;
    assert!(rt; !page.spent());
    assert!(rt; effects_fit(&effects));
    drop(page.apply(&effects, 5, 9)?);
    assert!(rt; !page.spent());
    Ok(page)
}
