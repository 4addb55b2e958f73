//! The text of a node as a user sees it.

ghost use Rattle.std.specs.Prelude.{◌≡◌, ◌<◌, false, true, IfOk, OnOk};
ghost use Rattle.page_tree.specs.Rows.{IsTree, count, tag_of, text_of};
ghost use Rattle.page_tree.specs.Display.{is_shown};
ghost use Rattle.interaction.specs.RenderedText.{breaks_before, breaks_after, break_if, characters, marks, rendered_text};
ghost use Rattle.interaction.specs.Writing.{written};

use crate::blocks::{is_block_tag, is_word};
use crate::lines::Lines;
use page_tree::{Document, MAX_DEPTH};
use std::alloc::Global;
use wd_json::{Memory, NodeId, WdText};

/// The text of a node as a user sees it (W3C WebDriver, section 13.5, "Get Element Text", by the
/// page format's own rules): nothing where the node isn't shown; else the texts below it in document
/// order, without shadow trees and without what isn't shown. A `br` breaks the line, and so does a
/// block element before and after. In each line white space is run together and the ends are
/// trimmed, empty lines go, and LF joins the rest. `Memory` where there is none for the text, or for
/// a list of children. It goes over what is below the node once.
pub fn rendered_text(alloc: Global, document: &Document, node: NodeId) -> Result<WdText, Memory>
    requires alive { document.now.spent ≡ false }
    requires node_in { node < count document.now.rows }
    ensures text { IfOk result (λ text. text ≡ rendered_text document.now.rows node) }
{
    document.law();
    if !document.shown(node) {
        return Ok(WdText::new(alloc));
    }
    let mut lines = Lines::new(alloc);
    add(document, node, MAX_DEPTH, &mut lines)?;
    Ok(lines.text)
}

// Writes the node, which is shown, and what is below it.
fn add(document: &Document, node: NodeId, levels: usize, lines: &mut Lines) -> Result<(), Memory>
    requires alive { document.now.spent ≡ false }
    requires node_in { node < count document.now.rows }
    requires tree { IsTree document.now.rows }
    requires shown { is_shown document.now.rows node ≡ true }
    ensures { OnOk result (lines.new ≡ written lines.old (marks levels document.now.rows node)) }
{
    if levels == 0 {
        return Ok(());
    }
    begin(document, node, lines);
    write_own(document, node, lines)?;
    let kids = document.children(node)?;
    for kid in kids.as_slice() {
        if !document.hides(*kid) {
            add(document, *kid, levels - 1, lines)?;
        }
    }
    finish(document, node, lines);
    Ok(())
}

// Breaks the line before what is in the node.
#[tactic(auto, unfolding(crate::specs::Writing::written))]
fn begin(document: &Document, node: NodeId, lines: &mut Lines)
    requires alive { document.now.spent ≡ false }
    requires node_in { node < count document.now.rows }
    ensures { lines.new ≡ written lines.old (break_if (breaks_before (tag_of document.now.rows node))) }
{
    if breaks_before(document, node) {
        lines.end_line();
    }
}

// Breaks the line after what is in the node.
#[tactic(auto, unfolding(crate::specs::Writing::written))]
fn finish(document: &Document, node: NodeId, lines: &mut Lines)
    requires alive { document.now.spent ≡ false }
    requires node_in { node < count document.now.rows }
    ensures { lines.new ≡ written lines.old (break_if (breaks_after (tag_of document.now.rows node))) }
{
    if breaks_after(document, node) {
        lines.end_line();
    }
}

fn breaks_before(document: &Document, node: NodeId) -> bool
    requires alive { document.now.spent ≡ false }
    requires node_in { node < count document.now.rows }
    ensures { result ≡ breaks_before (tag_of document.now.rows node) }
{
    match document.tag(node) {
        Some(tag) => is_word("br", tag) || is_block_tag(tag),
        None => false,
    }
}

fn breaks_after(document: &Document, node: NodeId) -> bool
    requires alive { document.now.spent ≡ false }
    requires node_in { node < count document.now.rows }
    ensures { result ≡ breaks_after (tag_of document.now.rows node) }
{
    match document.tag(node) {
        Some(tag) => is_block_tag(tag),
        None => false,
    }
}

// Writes the characters of a text.
#[tactic(auto, unfolding(crate::specs::Writing::written))]
fn write_own(document: &Document, node: NodeId, lines: &mut Lines) -> Result<(), Memory>
    requires alive { document.now.spent ≡ false }
    requires node_in { node < count document.now.rows }
    ensures { OnOk result (lines.new ≡ written lines.old (characters (text_of document.now.rows node))) }
{
    match document.text(node) {
        Some(text) => lines.write(text),
        None => Ok(()),
    }
}
