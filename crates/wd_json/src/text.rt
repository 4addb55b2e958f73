//! A text, as a list of characters that keeps its allocator.

ghost use Rattle.std.specs.Prelude.{◌≡◌, [], ◌∷◌, ◌++◌, ◌<◌, Some, true, length, slice_get, IfOk, OnOk, OnErr};
ghost use Rattle.std.specs.Str.{all_scalars, bytes_eq, chars, encode_utf8_all, IsAscii};

use crate::list::WdList;
use crate::memory::Memory;
use std::alloc::Global;
use std::marker::Model;

/// A text, seen by contracts as the list of its characters, each a Unicode scalar value. It keeps
/// its allocator, so what grows it takes none.
#[derive(Debug, Drop)]
pub struct WdText {
    text: String,
}

impl Model for WdText {
    ghost use Rattle.std.specs.Prelude.{ℕ, List, string_bytes};
    ghost use Rattle.std.specs.Str.{chars};

    ghost Value = { List ℕ };

    ghost view = { λ t. chars (string_bytes t.text) };
}

impl WdText {
    /// The empty text. It takes no memory.
    pub fn new(alloc: Global) -> WdText
        ensures { result ≡ [] }
    {
        WdText {
            text: String::new(alloc),
        }
    }

    /// A copy of this text. `Memory` where there is no memory for it.
    pub fn of(alloc: Global, text: &str) -> Result<WdText, Memory>
        ensures characters { IfOk result (λ t. t ≡ chars text.now) }
        ensures bytes { IfOk result (λ t. encode_utf8_all t ≡ text.now) }
        ensures ascii { IsAscii text.now → IfOk result (λ t. t ≡ text.now) }
    {
        Ok(WdText {
            text: String::from_str(alloc, text)?,
        })
    }

    /// The text as it is written in UTF-8.
    pub fn as_str(&self) -> &str
        ensures bytes { result.now ≡ encode_utf8_all self.now }
        ensures characters { chars result.now ≡ self.now }
        ensures scalars { all_scalars self.now ≡ true }
    {
        self.text.as_str()
    }

    /// An equal text. `Memory` where there is no memory for it.
    pub fn copy(&self, alloc: Global) -> Result<WdText, Memory>
        ensures { IfOk result (λ t. t ≡ self.now) }
    {
        Ok(WdText {
            text: String::from_str(alloc, self.text.as_str())?,
        })
    }

    /// How many characters there are. It goes over the text.
    pub fn len(&self) -> usize
        ensures { result ≡ length self.now }
    {
        self.text.chars().count()
    }

    /// The character at place `i`, counted from 0. It goes over the text up to there, so a loop
    /// over all characters goes over `as_str().chars()`.
    pub fn at(&self, i: usize) -> char
        requires { i < length self.now }
        ensures { slice_get self.now i ≡ Some result }
    {
        self.text.chars().nth(i).unwrap()
    }

    /// Whether it is that text.
    pub fn is(&self, text: &str) -> bool
        ensures { result ≡ bytes_eq self.now (chars text.now) }
    {
        is_same(self.text.as_str(), text)
    }

    /// Adds a text at the end. After `Memory` this text is as it was.
    pub fn extend(&mut self, text: &str) -> Result<(), Memory>
        ensures ok { OnOk result (self.new ≡ self.old ++ chars text.now) }
        ensures err { OnErr result (self.new ≡ self.old) }
    {
        self.text.push_str(text)?;
        Ok(())
    }

    /// Adds a character at the end. After `Memory` the text is as it was.
    pub fn push(&mut self, character: char) -> Result<(), Memory>
        ensures ok { OnOk result (self.new ≡ self.old ++ character ∷ []) }
        ensures err { OnErr result (self.new ≡ self.old) }
    {
        self.text.push(character)?;
        Ok(())
    }
}

/// Whether the two texts have the same characters.
pub fn is_same(text: &str, other: &str) -> bool
    ensures characters { result ≡ bytes_eq (chars text.now) (chars other.now) }
    ensures ascii { IsAscii other.now → result ≡ bytes_eq (chars text.now) other.now }
{
    text == other
}

/// Texts in order.
pub type TextList = WdList<WdText>;
