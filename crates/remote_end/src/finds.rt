//! The commands that find: what each looks for and where, and what it answers or waits for.

ghost use Rattle.std.specs.Prelude.{◌≡◌, ◌≤◌, [], true, IsTrue, IfOk, OnOk};
ghost use Rattle.references.specs.Handed.{is_node_kind};
ghost use Rattle.selectors.specs.Named.{first_of_list};
ghost use Rattle.waits.specs.Moments.{last_moment};
ghost use Rattle.wd_http.specs.Sent.{is_status};
ghost use Rattle.remote_end.specs.Elements.{looked_up};
ghost use Rattle.remote_end.specs.Finds.{strategy_of, strategy_in, value_in, first_plan, nodes_plan, find_of, IsFind, FindsFrom};
ghost use Rattle.remote_end.specs.Advance.{NoneDue};
ghost use Rattle.remote_end.specs.FindSpans.{StartsIn};
ghost use Rattle.remote_end.specs.declared.setting.Setting.{Setting};
ghost use Rattle.remote_end.specs.Plan.{at_once};
ghost use Rattle.remote_end.specs.Step.{RowComes};
ghost use Rattle.remote_end.specs.Waits.{RowLeaves};
ghost use Rattle.remote_end.specs.State.{Leaves, IsWhole, IsSameBut};
ghost use Rattle.remote_end.specs.Values.{reference_values};

use crate::handing::{handed_reply, reference_value};
use crate::looks::{goes_on, look};
use crate::lookups::looked_up;
use crate::outcome::Outcome;
use crate::parameter::text_at;
use crate::reply::{Reply, failure, success};
use crate::session::Session;
use crate::waiting::{FindWait, Waiting};
use interaction::By;
use references::{IdFault, IdList, Kind, NodeName, lists_are_handed_out_whole};
use selectors::SelFault;
use std::alloc::Global;
use waits::plus;
use wd_errors::Code;
use wd_json::{Json, JsonList, Memory, NodeId, NodeList, WdText};

/// How many of the nodes that are found a find answers.
#[derive(Clone, Copy)]
pub enum Wanted {
    /// The first; that there is none is an error.
    First,
    /// All, and there may be none.
    All,
}

/// The location strategy of a word (Recommendation, section 12.1).
fn strategy_of(word: &str) -> By
    ensures { result ≡ strategy_of word.now }
{
    if word == "css selector" {
        By::Css
    } else if word == "link text" {
        By::Link
    } else if word == "partial link text" {
        By::PartialLink
    } else {
        By::Tag
    }
}

/// The location strategy of a find.
fn strategy_in(parameters: &Json) -> By
    ensures { result ≡ strategy_in parameters.now }
{
    match text_at(parameters, "using") {
        Some(word) => strategy_of(word),
        None => By::Tag,
    }
}

/// The value of a find.
fn value_in(parameters: &Json) -> &str
    ensures { result.now ≡ value_in parameters.now }
{
    match text_at(parameters, "value") {
        Some(value) => value,
        None => "",
    }
}

fn first_of(nodes: &NodeList) -> Option<NodeId>
    ensures { result ≡ first_of_list nodes.now }
{
    match nodes.as_slice() {
        [first, ..] => Some(*first),
        [] => None,
    }
}

/// The first node that was found.
fn first_reply(alloc: Global, session: &mut Session, nodes: &NodeList) -> Result<Reply, Memory>
    requires { IsWhole session.old }
    ensures turn { IfOk result (λ reply. first_plan session.old (first_of_list nodes.now) ≡ at_once reply (Leaves session.new)) }
    ensures whole { OnOk result (IsWhole session.new) }
    ensures kept { OnOk result (IsSameBut session.old session.new) }
    ensures status { IfOk result (λ reply. IsTrue (is_status reply.status)) }
{
    match first_of(nodes) {
        Some(node) => handed_reply(alloc, session, Kind::Element, node),
        None => failure(alloc, Code::NoSuchElement),
    }
}

fn reference_list(alloc: Global, ids: &IdList) -> Result<JsonList, Memory>
    ensures { IfOk result (λ list. list ≡ reference_values ids.now) }
{
    let mut list = JsonList::new(alloc);
    for id in ids.as_slice() {
        list.push(reference_value(alloc, *id)?)?;
    }
    Ok(list)
}

/// All nodes that were found.
fn all_reply(alloc: Global, session: &mut Session, nodes: &NodeList) -> Result<Reply, Memory>
    requires { IsWhole session.old }
    ensures turn { IfOk result (λ reply. nodes_plan Wanted.All session.old nodes.now ≡ at_once reply (Leaves session.new)) }
    ensures whole { OnOk result (IsWhole session.new) }
    ensures kept { OnOk result (IsSameBut session.old session.new) }
    ensures status { IfOk result (λ reply. IsTrue (is_status reply.status)) }
{
    session.known.are_issued();
    lists_are_handed_out_whole();
    match session.known.hand_out_all(Kind::Element, 0, nodes) {
        Ok(ids) => success(alloc, Json::List(reference_list(alloc, &ids)?)),
        Err(IdFault::Full) => failure(alloc, Code::UnknownError),
        Err(IdFault::Memory) => Err(Memory),
    }
}

/// Answers the nodes that were found.
pub(crate) fn nodes_reply(
    alloc: Global,
    session: &mut Session,
    wanted: Wanted,
    nodes: &NodeList,
) -> Result<Reply, Memory>
    requires { IsWhole session.old }
    ensures turn { IfOk result (λ reply. nodes_plan wanted session.old nodes.now ≡ at_once reply (Leaves session.new)) }
    ensures whole { OnOk result (IsWhole session.new) }
    ensures kept { OnOk result (IsSameBut session.old session.new) }
    ensures status { IfOk result (λ reply. IsTrue (is_status reply.status)) }
{
    match wanted {
        Wanted::First => first_reply(alloc, session, nodes),
        Wanted::All => all_reply(alloc, session, nodes),
    }
}

/// Begins a find: `invalid selector` where its text is to be a selector and is none; else it answers what it gives,
/// or waits where it gives nothing and its span isn't over.
fn begin_find(alloc: Global, session: &mut Session, find: FindWait) -> Result<Outcome, Memory>
    requires whole { IsWhole session.old }
    requires idle { session.old.waiting ≡ None }
    requires still { NoneDue session.old.page.pending session.old.at }
    requires starts { StartsIn find.start session.old.page.rows }
    requires onwards { session.old.at ≤ find.until }
    requires within { find.until ≤ last_moment }
    ensures comes { (setting : Setting) → IfOk result (λ outcome. RowComes setting (IsFind setting find session.old []) outcome session.new) }
    ensures leaves { IfOk result (λ outcome. RowLeaves outcome session.new) }
    ensures kept { OnOk result (IsWhole session.new × (session.new.number ≡ session.old.number)) }
{
    match look(alloc, session.page.document(), &find) {
        Ok(nodes) => {
            if goes_on(&nodes, session.at, &find) {
                session.waiting = Some(Waiting::Find(find));
                Ok(Outcome::Waits)
            } else {
                let reply = nodes_reply(alloc, session, find.wanted, &nodes)?;
                Ok(Outcome::Replied(reply))
            }
        }
        Err(SelFault::Invalid) => {
            let reply = failure(alloc, Code::InvalidSelector)?;
            Ok(Outcome::Replied(reply))
        }
        Err(SelFault::Memory) => Err(Memory),
    }
}

/// The find that a command asks for, below a node or in the document.
fn find_of(
    alloc: Global,
    session: &Session,
    wanted: Wanted,
    start: Option<NodeName>,
    parameters: &Json,
) -> Result<FindWait, Memory>
    requires { session.now.at ≤ last_moment }
    ensures find { IfOk result (λ find. find ≡ find_of wanted session.now start parameters.now) }
    ensures within { IfOk result (λ find. find.until ≤ last_moment) }
{
    let text = WdText::of(alloc, value_in(parameters))?;
    Ok(FindWait {
        wanted,
        start,
        by: strategy_in(parameters),
        text,
        until: plus(session.at, session.matched.timeouts.implicit),
    })
}

/// A find in the document (Recommendation, section 12.1).
pub(crate) fn find_in(
    alloc: Global,
    session: &mut Session,
    wanted: Wanted,
    start: Option<NodeName>,
    parameters: &Json,
) -> Result<Outcome, Memory>
    requires whole { IsWhole session.old }
    requires idle { session.old.waiting ≡ None }
    requires still { NoneDue session.old.page.pending session.old.at }
    requires starts { StartsIn start session.old.page.rows }
    ensures comes { (setting : Setting) → IfOk result (λ outcome. RowComes setting (IsFind setting (find_of wanted session.old start parameters.now) session.old []) outcome session.new) }
    ensures leaves { IfOk result (λ outcome. RowLeaves outcome session.new) }
    ensures kept { OnOk result (IsWhole session.new × (session.new.number ≡ session.old.number)) }
{
    let find = find_of(alloc, session, wanted, start, parameters)?;
    let outcome = begin_find(alloc, session, find)?;
    Ok(outcome)
}

/// A find below an element or a shadow root, which is looked up first.
pub(crate) fn find_from(
    alloc: Global,
    session: &mut Session,
    wanted: Wanted,
    kind: Kind,
    item: &str,
    parameters: &Json,
) -> Result<Outcome, Memory>
    requires whole { IsWhole session.old }
    requires idle { session.old.waiting ≡ None }
    requires still { NoneDue session.old.page.pending session.old.at }
    requires node_kind { is_node_kind kind ≡ true }
    ensures comes { (setting : Setting) → IfOk result (λ outcome. RowComes setting (FindsFrom setting wanted session.old (looked_up kind session.old item.now) parameters.now) outcome session.new) }
    ensures leaves { IfOk result (λ outcome. RowLeaves outcome session.new) }
    ensures kept { OnOk result (IsWhole session.new × (session.new.number ≡ session.old.number)) }
{
    match looked_up(session, kind, item) {
        Ok(name) => {
            let outcome = find_in(alloc, session, wanted, Some(name), parameters)?;
            Ok(outcome)
        }
        Err(code) => {
            let reply = failure(alloc, code)?;
            Ok(Outcome::Replied(reply))
        }
    }
}
