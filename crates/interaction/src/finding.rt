//! The elements of a scope that a selector, a link's text or a tag finds, in document order.

ghost use Rattle.std.specs.Prelude.{◌≡◌, ℕ, ◌<◌, ◌↔◌, false, Some, IfOk, IfErr, IsTrue};
ghost use Rattle.std.specs.List.{All};
ghost use Rattle.std.specs.Str.{chars, bytes_eq, encode_utf8_all};
ghost use Rattle.page_tree.specs.Places.{contains, AreInOrder};
ghost use Rattle.page_tree.specs.Rows.{count, tag_of, paths_of};
ghost use Rattle.selectors.specs.Passes.{holds as stands_in};
ghost use Rattle.selectors.specs.Scopes.{IsWithin, is_in};
ghost use Rattle.selectors.specs.Texts.{fits_tag as fits};
ghost use Rattle.interaction.specs.Found.{is_a, is_link, is_partial_link, is_tagged, is_named, named, Finds, IsFound, Refuses};

use crate::blocks::is_word;
use crate::by::{By, Words};
use crate::rendered::rendered_text;
use page_tree::Document;
use selectors::{Scope, SelFault, in_scope, parse, select};
use std::alloc::Global;
use wd_json::{Memory, NodeId, NodeList, WdText};

/// The elements of the scope that are found by the value, in document order (W3C WebDriver, section
/// 12.2, "Find"): below a node its proper descendants in its own tree alone. `Invalid` exactly where
/// they are looked for by a selector and the grammar has none for the value; `Memory` where there is
/// none for a list or a text. It goes over the nodes of the scope once, and for links over what is
/// below each `a`: links inside one another are gone over once for each link around them.
#[tactic(auto, unfolding(crate::specs::Found::Finds, crate::specs::Found::IsFound, crate::specs::Found::Refuses))]
pub fn find(
    alloc: Global,
    document: &Document,
    scope: Scope,
    by: By,
    value: &str,
) -> Result<NodeList, SelFault>
    requires alive { document.now.spent ≡ false }
    requires scope_in { IsWithin document.now.rows scope }
    ensures nodes { IfOk result (Finds document.now.rows scope by (chars value.now)) }

    // each path comes before all later ones, so that no node comes twice
    ensures by_paths { IfOk result (λ list. AreInOrder (paths_of document.now.rows list)) }
    ensures exactly { (n : ℕ) → IfOk result (λ list. IsTrue (contains n list) ↔ (IsTrue (is_in document.now.rows scope n) × IsFound document.now.rows by (chars value.now) n)) }
    ensures within { IfOk result (All (λ node. node < count document.now.rows)) }
    ensures cause { IfErr result (Refuses by (chars value.now)) }
{
    match by {
        By::Css => by_selector(alloc, document, scope, value),
        By::Link => Ok(by_words(alloc, document, scope, Words::Link, value)?),
        By::PartialLink => Ok(by_words(alloc, document, scope, Words::PartialLink, value)?),
        By::Tag => Ok(by_words(alloc, document, scope, Words::Tag, value)?),
    }
}

#[tactic(auto, unfolding(crate::specs::Found::Finds, crate::specs::Found::Refuses))]
fn by_selector(
    alloc: Global,
    document: &Document,
    scope: Scope,
    text: &str,
) -> Result<NodeList, SelFault>
    requires alive { document.now.spent ≡ false }
    requires scope_in { IsWithin document.now.rows scope }
    ensures nodes { IfOk result (Finds document.now.rows scope By.Css (chars text.now)) }
    ensures by_paths { IfOk result (λ list. AreInOrder (paths_of document.now.rows list)) }
    ensures exactly { (n : ℕ) → IfOk result (λ list. IsTrue (contains n list) ↔ (IsTrue (is_in document.now.rows scope n) × IsFound document.now.rows By.Css (chars text.now) n)) }
    ensures within { IfOk result (All (λ node. node < count document.now.rows)) }
    ensures cause { IfErr result (Refuses By.Css (chars text.now)) }
{
    let selector = parse(alloc, text)?;
    Ok(select(alloc, document, scope, &selector)?)
}

fn by_words(
    alloc: Global,
    document: &Document,
    scope: Scope,
    words: Words,
    text: &str,
) -> Result<NodeList, Memory>
    requires alive { document.now.spent ≡ false }
    requires scope_in { IsWithin document.now.rows scope }
    ensures list { IfOk result (λ list. list ≡ named document.now.rows scope words (chars text.now)) }
    ensures by_paths { IfOk result (λ list. AreInOrder (paths_of document.now.rows list)) }
    ensures exactly { (n : ℕ) → IfOk result (λ list. IsTrue (contains n list) ↔ (IsTrue (is_in document.now.rows scope n) × IsTrue (is_named document.now.rows words (chars text.now) n))) }
    ensures within { IfOk result (All (λ node. node < count document.now.rows)) }
{
    let mut found = NodeList::new(alloc);
    let nodes = in_scope(alloc, document, scope)?;
    for node in nodes.as_slice() {
        if is_named(alloc, document, words, text, *node)? {
            found.push(*node)?;
        }
    }
    Ok(found)
}

fn is_named(
    alloc: Global,
    document: &Document,
    words: Words,
    text: &str,
    node: NodeId,
) -> Result<bool, Memory>
    requires alive { document.now.spent ≡ false }
    requires node_in { node < count document.now.rows }
    ensures { IfOk result (λ is. is ≡ is_named document.now.rows words (chars text.now) node) }
{
    match words {
        Words::Link => is_link(alloc, document, text, node),
        Words::PartialLink => is_partial_link(alloc, document, text, node),
        Words::Tag => Ok(is_tagged(document, text, node)),
    }
}

fn is_link(alloc: Global, document: &Document, text: &str, node: NodeId) -> Result<bool, Memory>
    requires alive { document.now.spent ≡ false }
    requires node_in { node < count document.now.rows }
    ensures { IfOk result (λ is. is ≡ is_link document.now.rows (chars text.now) node) }
{
    if !is_a(document, node) {
        return Ok(false);
    }
    let rendered = rendered_text(alloc, document, node)?;
    Ok(rendered.is(text))
}

fn is_partial_link(
    alloc: Global,
    document: &Document,
    text: &str,
    node: NodeId,
) -> Result<bool, Memory>
    requires alive { document.now.spent ≡ false }
    requires node_in { node < count document.now.rows }
    ensures { IfOk result (λ is. is ≡ is_partial_link document.now.rows (chars text.now) node) }
{
    if !is_a(document, node) {
        return Ok(false);
    }
    let rendered = rendered_text(alloc, document, node)?;
    Ok(holds(&rendered, text))
}

fn is_tagged(document: &Document, text: &str, node: NodeId) -> bool
    requires alive { document.now.spent ≡ false }
    requires node_in { node < count document.now.rows }
    ensures { result ≡ is_tagged document.now.rows (chars text.now) node }
{
    match document.tag(node) {
        Some(tag) => is_word("*", text) || fits_tag(tag, text),
        None => false,
    }
}

// Whether the node is an `a` element.
fn is_a(document: &Document, node: NodeId) -> bool
    requires alive { document.now.spent ≡ false }
    requires node_in { node < count document.now.rows }
    ensures { result ≡ is_a (tag_of document.now.rows node) }
{
    match document.tag(node) {
        Some(tag) => is_word("a", tag),
        None => false,
    }
}

// Whether the text stands somewhere in the other.
fn holds(rendered: &WdText, text: &str) -> bool
    ensures { result ≡ stands_in (encode_utf8_all (chars text.now)) (encode_utf8_all rendered.now) }
{
    rendered.as_str().contains(text)
}

// Whether the tag is that text without regard to ASCII case.
fn fits_tag(tag: &str, text: &str) -> bool
    ensures { result ≡ fits (chars text.now) (Some (chars tag.now)) }
{
    tag.eq_ignore_ascii_case(text)
}
