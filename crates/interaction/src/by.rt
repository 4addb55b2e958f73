//! The ways in which elements are looked for.

/// How elements are looked for (W3C WebDriver, section 12.3, "locator strategies").
#[derive(Clone, Copy, Debug, PartialEq, Eq)]
pub enum By {
    /// The selector names them.
    Css,
    /// They are `a` elements whose rendered text is the text.
    Link,
    /// They are `a` elements in whose rendered text the text stands.
    PartialLink,
    /// They have this tag, without regard to ASCII case; `*` is any tag.
    Tag,
}

/// The strategies that every text fits.
#[derive(Clone, Copy, Debug, PartialEq, Eq)]
pub enum Words {
    Link,
    PartialLink,
    Tag,
}
