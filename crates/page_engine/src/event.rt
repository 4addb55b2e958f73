//! The events that a page can handle, by their types.

ghost use Rattle.std.specs.Prelude.{◌≡◌};
ghost use Rattle.page_engine.specs.Dispatch.{kind_of, target_of, stays_at_target};
ghost use Rattle.page_engine.specs.Kinds.{kind_number, is_same_kind};
ghost use Rattle.page_engine.specs.Lines.{kind_name};

use page_tree::Point;
use wd_json::{NodeId, WdText};

/// The types of events that a page can handle.
#[derive(Clone, Copy, Debug, PartialEq, Eq)]
pub enum EventKind {
    PointerMove,
    PointerDown,
    PointerUp,
    Click,
    KeyDown,
    KeyUp,
    Input,
    Change,
    Focus,
    Blur,
    Submit,
    Reset,
}

/// An event that is dispatched at a node. A pointer event has the kind PointerMove, PointerDown or
/// PointerUp, a key event KeyDown or KeyUp, and a plain event one of the others.
#[derive(Debug, Drop)]
pub enum Event {
    /// `at` is a point of the viewport, in pixels.
    Pointer {
        kind: EventKind,
        target: NodeId,
        at: Point,
        button: u64,
    },
    /// `key` is the name of the key, and the flags are the modifiers that are down.
    Key {
        kind: EventKind,
        target: NodeId,
        key: WdText,
        shift: bool,
        control: bool,
        alt: bool,
        meta: bool,
    },
    Plain {
        kind: EventKind,
        target: NodeId,
    },
}

impl EventKind {
    // The kind's place in the table.
    fn number(self) -> u8
        ensures { result ≡ kind_number self }
    {
        match self {
            EventKind::PointerMove => 0,
            EventKind::PointerDown => 1,
            EventKind::PointerUp => 2,
            EventKind::Click => 3,
            EventKind::KeyDown => 4,
            EventKind::KeyUp => 5,
            EventKind::Input => 6,
            EventKind::Change => 7,
            EventKind::Focus => 8,
            EventKind::Blur => 9,
            EventKind::Submit => 10,
            EventKind::Reset => 11,
        }
    }

    /// Whether the two are the same.
    pub fn is(self, other: EventKind) -> bool
        ensures { result ≡ is_same_kind self other }
    {
        self.number() == other.number()
    }

    /// The name of the type.
    pub fn name(self) -> &'static str
        ensures { result.now ≡ kind_name self }
    {
        match self {
            EventKind::PointerMove => "pointermove",
            EventKind::PointerDown => "pointerdown",
            EventKind::PointerUp => "pointerup",
            EventKind::Click => "click",
            EventKind::KeyDown => "keydown",
            EventKind::KeyUp => "keyup",
            EventKind::Input => "input",
            EventKind::Change => "change",
            EventKind::Focus => "focus",
            EventKind::Blur => "blur",
            EventKind::Submit => "submit",
            EventKind::Reset => "reset",
        }
    }

    /// Whether an event of this type goes to its target alone.
    pub fn stays_at_target(self) -> bool
        ensures { result ≡ stays_at_target self }
    {
        self.is(EventKind::Focus) || self.is(EventKind::Blur)
    }
}

impl Event {
    /// The type of the event.
    pub fn kind(&self) -> EventKind
        ensures { result ≡ kind_of self.now }
    {
        match self {
            Event::Pointer { kind, .. } => *kind,
            Event::Key { kind, .. } => *kind,
            Event::Plain { kind, .. } => *kind,
        }
    }

    /// The node at which the event is dispatched.
    pub fn target(&self) -> NodeId
        ensures { result ≡ target_of self.now }
    {
        match self {
            Event::Pointer { target, .. } => *target,
            Event::Key { target, .. } => *target,
            Event::Plain { target, .. } => *target,
        }
    }
}
