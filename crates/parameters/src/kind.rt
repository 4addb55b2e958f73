//! The kinds of parameters, by the values that each takes.

/// The kinds of parameters: which values each takes.
#[derive(Clone, Copy, Debug, PartialEq, Eq)]
pub enum Kind {
    /// A text.
    Text,
    /// A text that names a way to find elements.
    Using,
    /// A list.
    List,
    /// A text that is an address.
    Address,
    /// Null, a whole number of 0 to 65,535, or an object that refers to an element.
    Frame,
    /// Absent, null, or a whole number of -2^31 to 2^31 - 1.
    Place,
    /// Absent, null, or a whole number of 0 to 2^31 - 1.
    Size,
    /// Absent, or a whole number of 0 to 2^53 - 1.
    Span,
}
