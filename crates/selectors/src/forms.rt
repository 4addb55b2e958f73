ghost use Rattle.std.specs.Prelude.{◌≡◌, ◌<◌, false};
ghost use Rattle.std.specs.List.{list_any};
ghost use Rattle.std.specs.Str.{chars};
ghost use Rattle.page_tree.specs.Rows.{count};
ghost use Rattle.selectors.specs.Siblings.{above};
ghost use Rattle.selectors.specs.Forms.{has_disabled, is_option, is_fieldset, is_select, is_listed, is_control, is_disabled_fieldset, is_switched_off, is_disabled_select, is_disabled, is_checkable, is_checked, has_type};

use crate::texts::{attribute_spells, is_tag};
use page_tree::{Document, MAX_DEPTH};
use wd_json::NodeId;

/// Whether the node is an element that can be disabled.
pub fn is_control(document: &Document, node: NodeId) -> bool
    requires alive { document.now.spent ≡ false }
    requires node_in { node < count document.now.rows }
    ensures { result ≡ is_control document.now.rows node }
{
    is_listed(document, node) || is_tag(document, node, "fieldset")
}

/// Whether the node is an element that is disabled: by its own attribute, by a disabled fieldset
/// around it, or as an option by a disabled select or optgroup around it (HTML, "disabled").
pub fn is_disabled(document: &Document, node: NodeId) -> bool
    requires alive { document.now.spent ≡ false }
    requires node_in { node < count document.now.rows }
    ensures { result ≡ is_disabled document.now.rows node }
{
    is_switched_off(document, node)
        || (is_tag(document, node, "option") && is_in_disabled_select(document, node))
}

/// Whether the node is a checkbox, a radio button or an option whose state is true. Tags and types
/// are compared exactly.
pub fn is_checked(document: &Document, node: NodeId) -> bool
    requires alive { document.now.spent ≡ false }
    requires node_in { node < count document.now.rows }
    ensures { result ≡ is_checked document.now.rows node }
{
    is_checkable(document, node) && document.checked(node)
}

fn is_checkable(document: &Document, node: NodeId) -> bool
    requires alive { document.now.spent ≡ false }
    requires node_in { node < count document.now.rows }
    ensures { result ≡ is_checkable document.now.rows node }
{
    is_tag(document, node, "option")
        || (is_tag(document, node, "input")
            && (has_type(document, node, "checkbox") || has_type(document, node, "radio")))
}

fn has_type(document: &Document, node: NodeId, name: &str) -> bool
    requires alive { document.now.spent ≡ false }
    requires node_in { node < count document.now.rows }
    ensures { result ≡ has_type document.now.rows node (chars name.now) }
{
    attribute_spells(document, node, "type", name)
}

fn has_disabled(document: &Document, node: NodeId) -> bool
    requires alive { document.now.spent ≡ false }
    requires node_in { node < count document.now.rows }
    ensures { result ≡ has_disabled document.now.rows node }
{
    document.attr(node, "disabled").is_some()
}

fn is_select(document: &Document, node: NodeId) -> bool
    requires alive { document.now.spent ≡ false }
    requires node_in { node < count document.now.rows }
    ensures { result ≡ is_select document.now.rows node }
{
    is_tag(document, node, "select") || is_tag(document, node, "optgroup")
}

fn is_listed(document: &Document, node: NodeId) -> bool
    requires alive { document.now.spent ≡ false }
    requires node_in { node < count document.now.rows }
    ensures { result ≡ is_listed document.now.rows node }
{
    is_tag(document, node, "button")
        || is_tag(document, node, "input")
        || is_tag(document, node, "textarea")
        || is_select(document, node)
        || is_tag(document, node, "option")
}

fn is_disabled_fieldset(document: &Document, node: NodeId) -> bool
    requires alive { document.now.spent ≡ false }
    requires node_in { node < count document.now.rows }
    ensures { result ≡ is_disabled_fieldset document.now.rows node }
{
    is_tag(document, node, "fieldset") && has_disabled(document, node)
}

fn is_switched_off(document: &Document, node: NodeId) -> bool
    requires alive { document.now.spent ≡ false }
    requires node_in { node < count document.now.rows }
    ensures { result ≡ is_switched_off document.now.rows node }
{
    is_control(document, node)
        && (has_disabled(document, node)
            || (is_listed(document, node) && is_in_disabled_fieldset(document, node)))
}

fn is_disabled_select(document: &Document, node: NodeId) -> bool
    requires alive { document.now.spent ≡ false }
    requires node_in { node < count document.now.rows }
    ensures { result ≡ is_disabled_select document.now.rows node }
{
    is_select(document, node) && is_switched_off(document, node)
}

// Whether a disabled fieldset is above the node, through hosts.
fn is_in_disabled_fieldset(document: &Document, node: NodeId) -> bool
    requires alive { document.now.spent ≡ false }
    requires node_in { node < count document.now.rows }
    ensures { result ≡ list_any (is_disabled_fieldset document.now.rows) (above document.now.rows node) }
{
    let mut at = node;
    for _i in 0..MAX_DEPTH {
        match document.parent(at) {
            Some(up) => {
                if is_disabled_fieldset(document, up) {
                    return true;
                }
                at = up;
            }
            None => return false,
        }
    }
    false
}

// Whether a disabled select or optgroup is above the node, through hosts.
fn is_in_disabled_select(document: &Document, node: NodeId) -> bool
    requires alive { document.now.spent ≡ false }
    requires node_in { node < count document.now.rows }
    ensures { result ≡ list_any (is_disabled_select document.now.rows) (above document.now.rows node) }
{
    let mut at = node;
    for _i in 0..MAX_DEPTH {
        match document.parent(at) {
            Some(up) => {
                if is_disabled_select(document, up) {
                    return true;
                }
                at = up;
            }
            None => return false,
        }
    }
    false
}
