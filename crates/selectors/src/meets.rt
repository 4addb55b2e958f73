ghost use Rattle.std.specs.Prelude.{◌≡◌, ◌+◌, ◌<◌, false, IfOk};
ghost use Rattle.std.specs.List.{list_all};
ghost use Rattle.page_tree.specs.Places.{kids_of};
ghost use Rattle.page_tree.specs.Rows.{count};
ghost use Rattle.selectors.specs.Meets.{meets_plain, meets, meets_all, is_blank, place};
ghost use Rattle.selectors.specs.Nth.{is_reached, is_nth};

use crate::attributes::{attribute_passes, has_attribute};
use crate::forms::{is_checked, is_control, is_disabled};
use crate::places::{earlier, is_element, later};
use crate::selector::{Compound, Simple};
use crate::texts::{attribute_is, attribute_names, fits_tag, has_characters};
use page_tree::Document;
use std::alloc::Global;
use wd_json::{Memory, NodeId};

/// Whether the node is an element that meets each of the simples.
#[tactic(auto, using(crate::proofs::Lists::all_steps))]
pub fn meets_all(
    alloc: Global,
    document: &Document,
    compound: &Compound,
    node: NodeId,
) -> Result<bool, Memory>
    requires alive { document.now.spent ≡ false }
    requires node_in { node < count document.now.rows }
    ensures { IfOk result (λ met. met ≡ meets_all document.now.rows compound.now node) }
{
    if !is_element(document, node) {
        return Ok(false);
    }
    for simple in compound.as_slice() {
        if !meets(alloc, document, simple, node)? {
            return Ok(false);
        }
    }
    Ok(true)
}

fn meets(alloc: Global, document: &Document, simple: &Simple, node: NodeId) -> Result<bool, Memory>
    requires alive { document.now.spent ≡ false }
    requires node_in { node < count document.now.rows }
    ensures { IfOk result (λ met. met ≡ meets document.now.rows node simple.now) }
{
    match simple {
        Simple::Not(compound) => Ok(!meets_each_plain(alloc, document, compound, node)?),
        _ => meets_plain(alloc, document, simple, node),
    }
}

#[tactic(auto, using(crate::proofs::Lists::all_steps))]
fn meets_each_plain(
    alloc: Global,
    document: &Document,
    compound: &Compound,
    node: NodeId,
) -> Result<bool, Memory>
    requires alive { document.now.spent ≡ false }
    requires node_in { node < count document.now.rows }
    ensures { IfOk result (λ met. met ≡ list_all (meets_plain document.now.rows node) compound.now) }
{
    for simple in compound.as_slice() {
        if !meets_plain(alloc, document, simple, node)? {
            return Ok(false);
        }
    }
    Ok(true)
}

fn meets_plain(
    alloc: Global,
    document: &Document,
    simple: &Simple,
    node: NodeId,
) -> Result<bool, Memory>
    requires alive { document.now.spent ≡ false }
    requires node_in { node < count document.now.rows }
    ensures { IfOk result (λ met. met ≡ meets_plain document.now.rows node simple.now) }
{
    match simple {
        Simple::Tag(text) => Ok(fits_tag(document, node, text)),
        Simple::Any => Ok(true),
        Simple::Id(text) => Ok(attribute_is(document, node, "id", text)),
        Simple::Class(word) => Ok(attribute_names(document, node, "class", word)),
        Simple::Has(name) => Ok(has_attribute(document, node, name)),
        Simple::Attr(name, test, text) => Ok(attribute_passes(document, node, name, *test, text)),
        Simple::Not(_) => Ok(false),
        Simple::FirstChild => Ok(earlier(alloc, document, node)?.len() == 0),
        Simple::LastChild => Ok(later(alloc, document, node)?.len() == 0),
        Simple::Nth(a, b) => Ok(is_nth(*a, *b, earlier(alloc, document, node)?.len())),
        Simple::Empty => is_empty(document, node),
        Simple::Root => Ok(node == NodeId::of(0)),
        Simple::Checked => Ok(is_checked(document, node)),
        Simple::Enabled => Ok(is_control(document, node) && !is_disabled(document, node)),
        Simple::Disabled => Ok(is_disabled(document, node)),
    }
}

// Whether the place after so many is a * n + b for some n of 0 or more.
fn is_nth(a: i64, b: i64, before: usize) -> bool
    ensures { result ≡ is_nth a b (before + 1) }
{
    let way = before as i128 + 1 - b as i128;
    if a >= 0 {
        way >= 0 && is_reached(a.unsigned_abs(), way.unsigned_abs())
    } else {
        way <= 0 && is_reached(a.unsigned_abs(), way.unsigned_abs())
    }
}

fn is_reached(step: u64, way: u128) -> bool
    ensures { result ≡ is_reached step way }
{
    if step == 0 {
        way == 0
    } else {
        way % step as u128 == 0
    }
}

// Whether the node has neither child elements nor texts that aren't empty.
#[tactic(auto, using(crate::proofs::Lists::all_steps))]
fn is_empty(document: &Document, node: NodeId) -> Result<bool, Memory>
    requires alive { document.now.spent ≡ false }
    requires node_in { node < count document.now.rows }
    ensures { IfOk result (λ empty. empty ≡ list_all (is_blank document.now.rows) (kids_of document.now.rows.kids node)) }
{
    let kids = document.children(node)?;
    for kid in kids.as_slice() {
        if !is_blank(document, *kid) {
            return Ok(false);
        }
    }
    Ok(true)
}

fn is_blank(document: &Document, node: NodeId) -> bool
    requires alive { document.now.spent ≡ false }
    requires node_in { node < count document.now.rows }
    ensures { result ≡ is_blank document.now.rows node }
{
    !is_element(document, node)
        && match document.text(node) {
            Some(text) => !has_characters(text),
            None => true,
        }
}
