//! The dispatch of an event: its line in the log, its path, and the handlers that run on it.

ghost use Rattle.std.specs.Prelude.{◌≡◌, ◌≤◌, [], false, if◌then◌else◌, IfOk, OnOk};
ghost use Rattle.page_tree.specs.Places.{lineage, up_of};
ghost use Rattle.waits.specs.Moments.{last_moment};
ghost use Rattle.page_engine.specs.Dispatch.{dispatched, effects_along, effects_at, effects_for, event_path};
ghost use Rattle.page_engine.specs.Effects.{effects_on};
ghost use Rattle.page_engine.specs.Fitting.{anywhere};
ghost use Rattle.page_engine.specs.Kinds.{is_same_kind};
ghost use Rattle.page_engine.specs.Lines.{logged};
ghost use Rattle.page_engine.specs.Scene.{scene_in};

use crate::at::At;
use crate::effect::EffectList;
use crate::effects::run_effects;
use crate::event::{Event, EventKind};
use crate::lines::line;
use crate::outcome::Outcome;
use crate::page_def::HandlerList;
use crate::parts::Parts;
use crate::place::ANYWHERE;
use page_tree::{Document, MAX_DEPTH};
use std::alloc::Global;
use wd_json::{Memory, NodeId, TextList, WdText};

/// How many lines a log keeps.
const MAX_LINES: usize = 10_000;

/// Dispatches an event: its line is logged, and the handlers on its path run.
pub fn dispatch(
    parts: &mut Parts,
    asked: &mut Outcome,
    handlers: &[HandlerList],
    at: At,
    event: &Event,
) -> Result<(), Memory>
    requires alive { parts.old.document.spent ≡ false }
    requires moment { at.now ≤ last_moment }
    ensures ok { OnOk result (scene_in parts.new asked.new ≡ dispatched handlers.now at event.now (scene_in parts.old asked.old)) }
    ensures alive { OnOk result (parts.new.document.spent ≡ false) }
{
    let text = line(parts.alloc, event)?;
    let path = path(parts.alloc, &parts.document, event.kind(), event.target())?;
    add_line(&mut parts.log, text)?;
    run_path(parts, asked, handlers, at, event.kind(), path.as_slice())?;
    // The default action comes with element interaction.
    Ok(())
}

/// Adds a line to a log that has fewer than 10,000.
pub fn add_line(log: &mut TextList, text: WdText) -> Result<(), Memory>
    ensures { OnOk result (log.new ≡ logged text log.old) }
{
    if log.len() < MAX_LINES {
        log.push(text)
    } else {
        Ok(())
    }
}

/// The path of an event: the target and all nodes above it, or the target alone.
fn path(
    alloc: Global,
    document: &Document,
    kind: EventKind,
    target: NodeId,
) -> Result<Vec<NodeId>, Memory>
    requires { document.now.spent ≡ false }
    ensures { IfOk result (λ path. path.items ≡ event_path document.now.rows kind target) }
{
    if kind.stays_at_target() {
        let mut path = Vec::new(alloc);
        path.push(target)?;
        Ok(path)
    } else {
        lineage(alloc, document, target)
    }
}

/// The node and all nodes above it, through hosts.
#[tactic(auto, using(page_tree::proofs::Chains::chain_steps))]
fn lineage(alloc: Global, document: &Document, node: NodeId) -> Result<Vec<NodeId>, Memory>
    requires { document.now.spent ≡ false }
    ensures { IfOk result (λ nodes. nodes.items ≡ lineage document.now.rows.ups node) }
{
    let mut nodes = Vec::new(alloc);
    let mut at = node;
    for _i in 0..MAX_DEPTH {
        nodes.push(at)?;
        match parent(document, at) {
            Some(up) => at = up,
            None => return Ok(nodes),
        }
    }
    nodes.push(at)?;
    Ok(nodes)
}

/// The parent of a node; a number that no node has has none.
fn parent(document: &Document, node: NodeId) -> Option<NodeId>
    requires { document.now.spent ≡ false }
    ensures { result ≡ up_of document.now.rows.ups node }
{
    if node.number() < document.count() {
        document.parent(node)
    } else {
        None
    }
}

/// Runs the handlers of each node on a path.
fn run_path(
    parts: &mut Parts,
    asked: &mut Outcome,
    handlers: &[HandlerList],
    at: At,
    kind: EventKind,
    path: &[NodeId],
) -> Result<(), Memory>
    requires alive { parts.old.document.spent ≡ false }
    requires moment { at.now ≤ last_moment }
    ensures ok { OnOk result (scene_in parts.new asked.new ≡ effects_on at anywhere (scene_in parts.old asked.old) (effects_along handlers.now kind path.now)) }
    ensures alive { OnOk result (parts.new.document.spent ≡ false) }
{
    for node in path {
        run_node(parts, asked, handlers, at, kind, *node)?;
    }
    Ok(())
}

/// Runs the handlers of a node.
fn run_node(
    parts: &mut Parts,
    asked: &mut Outcome,
    handlers: &[HandlerList],
    at: At,
    kind: EventKind,
    node: NodeId,
) -> Result<(), Memory>
    requires alive { parts.old.document.spent ≡ false }
    requires moment { at.now ≤ last_moment }
    ensures ok { OnOk result (scene_in parts.new asked.new ≡ effects_on at anywhere (scene_in parts.old asked.old) (effects_at handlers.now kind node)) }
    ensures alive { OnOk result (parts.new.document.spent ≡ false) }
{
    match handlers.get(node.index()) {
        Some(list) => run_handlers(parts, asked, list, at, kind),
        None => Ok(()),
    }
}

/// Runs those handlers of a list that are for this type of event.
fn run_handlers(
    parts: &mut Parts,
    asked: &mut Outcome,
    handlers: &HandlerList,
    at: At,
    kind: EventKind,
) -> Result<(), Memory>
    requires alive { parts.old.document.spent ≡ false }
    requires moment { at.now ≤ last_moment }
    ensures ok { OnOk result (scene_in parts.new asked.new ≡ effects_on at anywhere (scene_in parts.old asked.old) (effects_for kind handlers.now)) }
    ensures alive { OnOk result (parts.new.document.spent ≡ false) }
{
    for handler in handlers.as_slice() {
        run_handler(parts, asked, handler, at, kind)?;
    }
    Ok(())
}

/// Runs a handler if it is for this type of event.
fn run_handler(
    parts: &mut Parts,
    asked: &mut Outcome,
    handler: &(EventKind, EffectList),
    at: At,
    kind: EventKind,
) -> Result<(), Memory>
    requires alive { parts.old.document.spent ≡ false }
    requires moment { at.now ≤ last_moment }
    ensures ok { OnOk result (scene_in parts.new asked.new ≡ effects_on at anywhere (scene_in parts.old asked.old) (if is_same_kind handler.now.0 kind then handler.now.1 else [])) }
    ensures alive { OnOk result (parts.new.document.spent ≡ false) }
{
    if handler.0.is(kind) {
        run_effects(parts, asked, at, ANYWHERE, &handler.1)
    } else {
        Ok(())
    }
}
