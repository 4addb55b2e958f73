//! What an identifier stands for: a session, a window, an element or a shadow root.

ghost use Rattle.std.specs.Prelude.{◌≡◌, ◌<◌};
ghost use Rattle.references.specs.Identifier.{kind_number};

/// What an identifier stands for. Its number stands in the identifier.
#[derive(Clone, Copy, Debug, PartialEq, Eq, Hash)]
pub enum Kind {
    /// A session, number 0.
    Session,
    /// A window, number 1.
    Window,
    /// An element, number 2.
    Element,
    /// A shadow root, number 3.
    Shadow,
}

impl Kind {
    // The kind's number.
    pub(crate) fn number(self) -> u64
        ensures number { result ≡ kind_number self }
        ensures small { result < 4 }
    {
        match self {
            Kind::Session => 0,
            Kind::Window => 1,
            Kind::Element => 2,
            Kind::Shadow => 3,
        }
    }
}
