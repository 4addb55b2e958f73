use wd_json::{NodeId, WdList, WdText};

/// One condition on an element (Selectors Level 4, "simple selector").
#[derive(Debug, Drop)]
pub enum Simple {
    /// The element has this tag, without regard to ASCII case. It stands first only.
    Tag(WdText),
    /// Any element. It stands first only.
    Any,
    /// The attribute `id` is this text.
    Id(WdText),
    /// The attribute `class` has this word.
    Class(WdText),
    /// There is an attribute of this name, without regard to ASCII case.
    Has(WdText),
    /// There is an attribute of this name, without regard to ASCII case, whose value passes the test
    /// against the text: the name, the test, the text.
    Attr(WdText, Test, WdText),
    /// The element doesn't meet the compound, which has no `Not`.
    Not(Compound),
    /// It has no sibling element before it.
    FirstChild,
    /// It has no sibling element after it.
    LastChild,
    /// Its place among its sibling elements, from 1, is `a * n + b` for some n of 0 or more: a, then b.
    Nth(i64, i64),
    /// It has no child elements, and no text among its children that isn't empty.
    Empty,
    /// It is the root of the document.
    Root,
    /// It is a checkbox, a radio button or an option whose state is true.
    Checked,
    /// It is a form control, an option or the like that isn't disabled.
    Enabled,
    /// It is a form control, an option or the like that is disabled.
    Disabled,
}

/// How the value of an attribute is compared with a text, exactly (Selectors Level 4, section 6).
#[derive(Clone, Copy, Debug, PartialEq, Eq)]
pub enum Test {
    /// It is the text.
    Equal,
    /// The text is one of its words, which white space parts.
    Word,
    /// It is the text, or begins with the text and a `-`.
    Dash,
    /// It begins with the text, which isn't empty.
    Starts,
    /// It ends with the text, which isn't empty.
    Ends,
    /// It holds the text, which isn't empty.
    Holds,
}

/// Conditions that one element meets together; there is at least one.
pub type Compound = WdList<Simple>;

/// Where the elements on the left stand (Selectors Level 4, "combinators").
#[derive(Clone, Copy, Debug, PartialEq, Eq)]
pub enum Combinator {
    /// Somewhere above.
    Descendant,
    /// The parent.
    Child,
    /// The sibling element just before.
    Next,
    /// A sibling element before.
    Later,
}

/// Each combinator with the compound on its right.
pub type JoinList = WdList<(Combinator, Compound)>;

/// Compounds joined by combinators, from left to right (Selectors Level 4, "complex selector").
#[derive(Debug, Drop)]
pub struct Complex {
    pub first: Compound,
    pub rest: JoinList,
}

/// Alternatives; there is at least one (Selectors Level 4, "selector list").
pub type Selector = WdList<Complex>;

/// Where nodes are looked for.
#[derive(Clone, Copy, Debug, PartialEq, Eq)]
pub enum Scope {
    /// The whole document tree.
    Document,
    /// What is below a node in the node's own tree, the node left out.
    Under(NodeId),
}
