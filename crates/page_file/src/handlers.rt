//! The handlers of an element that its members spell.

ghost use Rattle.std.specs.Prelude.{◌≡◌, IfOk, IfSome, true};
ghost use Rattle.page_engine.specs.Fitting.{anywhere, fit_at};
ghost use Rattle.page_engine.specs.Nodes.{are_handlers};
ghost use Rattle.page_file.specs.Members.{each_of};
ghost use Rattle.page_file.specs.NodeValues.{kind_named, handler_of, handlers_in, handlers_of};

use crate::each::{Spelling, each};
use crate::reading::effects;
use page_engine::{EffectList, EventKind, HandlerList, NodeKind};
use std::alloc::Global;
use wd_json::{Json, JsonMap, Memory, WdText};

const KINDS: [EventKind; 12] = [
    EventKind::PointerMove,
    EventKind::PointerDown,
    EventKind::PointerUp,
    EventKind::Click,
    EventKind::KeyDown,
    EventKind::KeyUp,
    EventKind::Input,
    EventKind::Change,
    EventKind::Focus,
    EventKind::Blur,
    EventKind::Submit,
    EventKind::Reset,
];

// The type of events that has this name.
#[tactic(auto, unfolding(crate::specs::NodeValues::kind_named))]
fn kind_named(name: &str) -> Option<EventKind>
    ensures { result ≡ kind_named name.now }
{
    KINDS.iter().copied().find(|kind| kind.name() == name)
}

struct OneHandler;

impl Spelling for OneHandler {
    type Value = (WdText, Json);

    type Item = (EventKind, EffectList);

    ghost spelled = { handler_of };

    ghost fits = { λ handler. fit_at anywhere handler.1 };

    fn read(
        alloc: Global,
        member: &(WdText, Json),
    ) -> Result<Option<(EventKind, EffectList)>, Memory> {
        let Some(kind) = kind_named(member.0.as_str()) else {
            return Ok(None);
        };
        Ok(effects(alloc, &member.1)?.map(|effects| (kind, effects)))
    }
}

fn handlers_among(alloc: Global, members: &JsonMap) -> Result<Option<HandlerList>, Memory>
    ensures same { IfOk result (λ hs. hs ≡ each_of handler_of members.now) }
    ensures good { IfOk result (λ hs. IfSome hs (λ hs. are_handlers hs ≡ true)) }
{
    each::<OneHandler>(alloc, members.as_slice())
}

fn handlers_in(alloc: Global, members: &JsonMap) -> Result<Option<HandlerList>, Memory>
    ensures same { IfOk result (λ hs. hs ≡ handlers_in members.now) }
    ensures good { IfOk result (λ hs. IfSome hs (λ hs. are_handlers hs ≡ true)) }
{
    match members.get("on") {
        Some(Json::Object(on)) => handlers_among(alloc, on),
        Some(_) => Ok(None),
        None => Ok(Some(HandlerList::new(alloc))),
    }
}

/// The handlers among the members of a node of that kind; none where there is no such member.
/// `None` where a type of events is unknown, or its value spells no list of effects.
pub fn handlers(
    alloc: Global,
    kind: &NodeKind,
    members: &JsonMap,
) -> Result<Option<HandlerList>, Memory>
    ensures same { IfOk result (λ hs. hs ≡ handlers_of kind.now members.now) }
    ensures good { IfOk result (λ hs. IfSome hs (λ hs. are_handlers hs ≡ true)) }
{
    match kind {
        NodeKind::Element(_) => handlers_in(alloc, members),
        _ => Ok(Some(HandlerList::new(alloc))),
    }
}
