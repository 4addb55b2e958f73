//! A page as a file spells it: its nodes, handlers, timers and loading times.

use crate::book::Book;
use crate::effect::EffectList;
use crate::event::EventKind;
use page_tree::PixelBox;
use wd_json::{WdList, WdText};

/// A page as a file spells it. Its nodes are numbered by their places.
#[derive(Debug, Drop)]
pub struct PageDef {
    /// The serialised address.
    pub address: WdText,
    pub nodes: NodeDefList,
    pub timers: TimerList,
    pub book: Book,
    /// How many milliseconds a navigation to the page takes until it is interactive.
    pub eager: u64,
    /// How many milliseconds a navigation to the page takes until it is complete.
    pub load: u64,
}

/// A node of a page: what it is, its parent (that of a shadow root is its host), and an element's
/// attributes, box, layer, whether it is hidden, and its handlers.
#[derive(Debug, Drop)]
pub struct NodeDef {
    pub kind: NodeKind,
    pub up: Option<u32>,
    pub attrs: AttrList,
    pub pixels: Option<PixelBox>,
    pub layer: i32,
    pub hidden: bool,
    pub on: HandlerList,
}

/// An element with its tag, a text with its characters, or a shadow root.
#[derive(Debug, Drop)]
pub enum NodeKind {
    Element(WdText),
    Chars(WdText),
    Shadow,
}

/// A timer that a page starts with: how many milliseconds after the page was opened it is due, and
/// its effects.
#[derive(Debug, Drop)]
pub struct TimerDef {
    pub at: u64,
    pub effects: EffectList,
}

/// Nodes by their numbers.
pub type NodeDefList = WdList<NodeDef>;

/// The attributes of an element: names and values.
pub type AttrList = WdList<(WdText, WdText)>;

/// The handlers of an element: the type of the event, and the effects.
pub type HandlerList = WdList<(EventKind, EffectList)>;

/// Timers in order.
pub type TimerList = WdList<TimerDef>;
