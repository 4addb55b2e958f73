//! One look of a find: the nodes that it gives on the page, and whether it goes on after that.

ghost use Rattle.std.specs.Prelude.{◌≡◌, ◌<◌, ◌≤◌, [], true, false, Some, None, IfOk, IfErr};
ghost use Rattle.std.specs.Str.{chars};
ghost use Rattle.interaction.specs.Found.{Refuses};
ghost use Rattle.remote_end.specs.FindSpans.{Gives, GivesFrom, EndsAt};

use crate::lookups::is_current;
use crate::waiting::FindWait;
use interaction::{By, find as find_nodes};
use page_tree::Document;
use references::NodeName;
use selectors::{Scope, SelFault};
use std::alloc::Global;
use wd_json::{NodeId, NodeList};

/// The nodes that a find gives on a page below a node, which gives none where it isn't connected to the page's
/// document.
fn look_below(
    alloc: Global,
    page: &Document,
    name: NodeName,
    by: By,
    text: &str,
) -> Result<NodeList, SelFault>
    requires { page.now.spent ≡ false }
    ensures gives { IfOk result (GivesFrom (Some name) page.now.rows by (chars text.now)) }
    ensures cause { IfErr result (Refuses by (chars text.now)) }
{
    if is_current(page, name) {
        find_nodes(alloc, page, Scope::Under(NodeId::of(name.node)), by, text)
    } else {
        Ok(NodeList::new(alloc))
    }
}

/// The nodes that a find gives on a page. `Invalid` exactly where its text is to be a selector and is none, and
/// it looked.
pub(crate) fn look(alloc: Global, page: &Document, find: &FindWait) -> Result<NodeList, SelFault>
    requires { page.now.spent ≡ false }
    ensures gives { IfOk result (Gives find.now page.now.rows) }
    ensures cause { IfErr result (Refuses find.now.by find.now.text) }
{
    match find.start {
        Some(name) => look_below(alloc, page, name, find.by, find.text.as_str()),
        None => find_nodes(alloc, page, Scope::Document, find.by, find.text.as_str()),
    }
}

/// Whether a find that gives these nodes at a moment goes on.
pub(crate) fn goes_on(nodes: &NodeList, moment: u64, find: &FindWait) -> bool
    ensures on { result ≡ true → (nodes.now ≡ []) × (moment < find.now.until) }
    ensures over { moment ≤ find.now.until → result ≡ false → EndsAt find.now nodes.now moment }
{
    nodes.is_empty() && moment < find.until
}
