//! Where the addresses of a page lead, and the first page that leads to no page.

ghost use Rattle.std.specs.Prelude.{◌≡◌, ◌≤◌, All, IfOk, length};
ghost use Rattle.std.specs.List.{list_all, flat_map};
ghost use Rattle.std.specs.Option.{option_map};
ghost use Rattle.std.specs.Str.{encode_utf8_all};
ghost use Rattle.url.specs.Parser.{parse_url};
ghost use Rattle.page_engine.specs.Links.{leads_of, parsed, is_frame, source_of, frame_of};
ghost use Rattle.page_file.specs.Leading.{target_from, frame_from, all_lead, effects_lead, handlers_lead, rest_leads, page_leads};
ghost use Rattle.page_file.specs.Members.{each_of};
ghost use Rattle.page_file.specs.Weighing.{IsLoadOrNone, AreLoadsOrFirst};

use crate::load::{Load, LoadList, TargetList};
use crate::pages::Pages;
use page_engine::{Effect, EffectList, HandlerList, NodeDef, NodeKind, PageDef, Target};
use std::alloc::Global;
use url::{ParseError, Position, Url};
use wd_json::{Memory, WdList, WdText};

// Where a text leads on the page with the address `base`; nowhere where that is no URL.
fn target(base: &Option<Url>, pages: &Pages, text: &WdText) -> Result<Option<Target>, Memory>
    ensures { IfOk result (λ t. t ≡ target_from pages.now base.now text.now) }
{
    let Some(base) = base else {
        return Ok(None);
    };
    match base.join(text.as_str()) {
        Ok(url) => Ok(pages.target_at(url.slice(Position::BeforeScheme, Position::AfterQuery))),
        Err(ParseError::OutOfMemory) => Err(Memory),
        Err(ParseError::Overflow) => Err(Memory),
        Err(_) => Ok(None),
    }
}

// Whether all addresses that effects ask for lead somewhere.
#[cycle(leading)]
fn effects_lead(base: &Option<Url>, pages: &Pages, effects: &EffectList) -> Result<bool, Memory>
    ensures { IfOk result (λ all. all ≡ effects_lead pages.now base.now effects.now) }
{
    for effect in effects.as_slice() {
        if !effect_leads(base, pages, effect)? {
            return Ok(false);
        }
    }
    Ok(true)
}

#[cycle(leading)]
#[tactic(auto, using(crate::proofs::Leads::leads_inside))]
fn effect_leads(base: &Option<Url>, pages: &Pages, effect: &Effect) -> Result<bool, Memory>
    ensures { IfOk result (λ all. all ≡ all_lead pages.now base.now (leads_of effect.now)) }
{
    match effect {
        Effect::Go { address } => Ok(target(base, pages, address)?.is_some()),
        Effect::Open { address } => Ok(target(base, pages, address)?.is_some()),
        Effect::After { effects, .. } => Ok(effects_lead(base, pages, effects)?),
        Effect::Prompt {
            accepted,
            dismissed,
            ..
        } => {
            if !effects_lead(base, pages, accepted)? {
                return Ok(false);
            }
            Ok(effects_lead(base, pages, dismissed)?)
        }
        _ => Ok(true),
    }
}

// Whether all addresses that the handlers of a node ask for lead somewhere.
fn handlers_lead(base: &Option<Url>, pages: &Pages, handlers: &HandlerList) -> Result<bool, Memory>
    ensures { IfOk result (λ all. all ≡ handlers_lead pages.now base.now handlers.now) }
{
    for (_, effects) in handlers.as_slice() {
        if !effects_lead(base, pages, effects)? {
            return Ok(false);
        }
    }
    Ok(true)
}

// Whether all addresses that the handlers of the nodes ask for lead somewhere.
fn nodes_lead(base: &Option<Url>, pages: &Pages, nodes: &[NodeDef]) -> Result<bool, Memory>
    ensures { IfOk result (λ all. all ≡ list_all (λ d. handlers_lead pages.now base.now d.on) nodes.now) }
{
    for node in nodes {
        if !handlers_lead(base, pages, &node.on)? {
            return Ok(false);
        }
    }
    Ok(true)
}

// Whether all addresses that timers and scripts ask for lead somewhere.
fn rest_leads(base: &Option<Url>, pages: &Pages, page: &PageDef) -> Result<bool, Memory>
    ensures { IfOk result (λ all. all ≡ rest_leads pages.now base.now page.now) }
{
    for timer in page.timers.as_slice() {
        if !effects_lead(base, pages, &timer.effects)? {
            return Ok(false);
        }
    }
    for entry in page.book.as_slice() {
        if !effects_lead(base, pages, &entry.effects)? {
            return Ok(false);
        }
    }
    Ok(true)
}

// Whether all addresses of the page, those of its iframes apart, lead somewhere.
fn effects_of_page_lead(base: &Option<Url>, pages: &Pages, page: &PageDef) -> Result<bool, Memory>
    ensures { IfOk result (λ all. all ≡ page_leads pages.now base.now page.now) }
{
    if !nodes_lead(base, pages, page.nodes.as_slice())? {
        return Ok(false);
    }
    Ok(rest_leads(base, pages, page)?)
}

// ---- frames

fn is_frame(node: &NodeDef) -> bool
    ensures { result ≡ is_frame node.now }
{
    match &node.kind {
        NodeKind::Element(tag) => tag.as_str() == "iframe",
        _ => false,
    }
}

// The source of an iframe.
fn source(node: &NodeDef) -> Option<&WdText>
    ensures { option_map (λ t. t.now) result ≡ source_of node.now }
{
    for (name, value) in node.attrs.as_slice() {
        if name.as_str() == "src" {
            return Some(value);
        }
    }
    None
}

// Where an iframe leads.
fn frame_target(base: &Option<Url>, pages: &Pages, node: &NodeDef) -> Result<Option<Target>, Memory>
    ensures { IfOk result (λ t. t ≡ frame_from pages.now base.now (source_of node.now)) }
{
    match source(node) {
        Some(source) => target(base, pages, source),
        None => Ok(Some(Target::Blank)),
    }
}

// Where the iframes lead; `None` where one of them leads to no page.
fn frame_targets(
    alloc: Global,
    base: &Option<Url>,
    pages: &Pages,
    nodes: &[NodeDef],
) -> Result<Option<TargetList>, Memory>
    ensures { IfOk result (λ ts. ts ≡ each_of (frame_from pages.now base.now) (flat_map frame_of nodes.now)) }
{
    let mut targets = Vec::new(alloc);
    for node in nodes {
        if is_frame(node) {
            let Some(target) = frame_target(base, pages, node)? else {
                return Ok(None);
            };
            targets.push(target)?;
        }
    }
    Ok(Some(WdList::from_vec(targets)))
}

// ---- a page

// The page's own address as a URL.
fn base(alloc: Global, address: &WdText) -> Result<Option<Url>, Memory>
    ensures { IfOk result (λ base. base ≡ parsed (parse_url None (encode_utf8_all address.now))) }
{
    match Url::parse(alloc, address.as_str()) {
        Ok(url) => Ok(Some(url)),
        Err(ParseError::OutOfMemory) => Err(Memory),
        Err(ParseError::Overflow) => Err(Memory),
        Err(_) => Ok(None),
    }
}

// How many nodes the page has and where its frames lead; `None` exactly where it leads to no page.
fn load(alloc: Global, pages: &Pages, page: &PageDef) -> Result<Option<Load>, Memory>
    requires { length page.now.nodes ≤ 50000 }
    ensures { IfOk result (IsLoadOrNone pages.now page.now) }
{
    let base = base(alloc, &page.address)?;
    let Some(frames) = frame_targets(alloc, &base, pages, page.nodes.as_slice())? else {
        return Ok(None);
    };
    if !effects_of_page_lead(&base, pages, page)? {
        return Ok(None);
    }
    let nodes = page.nodes.len() as u32;
    Ok(Some(Load { nodes, frames }))
}

/// The loads of the pages, or the place of the first page that leads to no page.
pub fn loads(alloc: Global, pages: &Pages) -> Result<Result<LoadList, usize>, Memory>
    requires { All (λ page. length page.nodes ≤ 50000) pages.now }
    ensures { IfOk result (AreLoadsOrFirst pages.now) }
{
    let mut loads = Vec::new(alloc);
    for page in pages.as_slice() {
        let place = loads.len();
        let Some(load) = load(alloc, pages, page)? else {
            return Ok(Err(place));
        };
        loads.push(load)?;
    }
    Ok(Ok(WdList::from_vec(loads)))
}
