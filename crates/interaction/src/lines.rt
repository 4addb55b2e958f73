//! Lines as they are written: white space run together, ends trimmed, no line empty.

ghost use Rattle.std.specs.Prelude.{◌≡◌, [], ◌++◌, Some, None, map, OnOk};
ghost use Rattle.std.specs.Str.{chars};
ghost use Rattle.interaction.specs.RenderedText.{is_blank};
ghost use Rattle.interaction.specs.Writing.{broken, spaced, lead, with_character, with_mark, written};
ghost use Rattle.interaction.specs.declared.lines.Gap.TheVariants.{Start};

use std::alloc::Global;
use wd_json::{Memory, WdText};

/// What stands between the last character that was written and the next.
#[derive(Clone, Copy, Debug, PartialEq, Eq)]
pub enum Gap {
    /// Nothing was written.
    Start,
    /// Nothing.
    Tight,
    /// White space.
    Space,
    /// A line break.
    Break,
}

/// Lines as they are written: words with one space between them, and no empty line.
#[derive(Drop)]
pub struct Lines {
    pub text: WdText,
    pub gap: Gap,
}

impl Lines {
    /// No lines. It takes no memory.
    pub fn new(alloc: Global) -> Lines
        ensures { result ≡ record { text = []; gap = Start } }
    {
        Lines {
            text: WdText::new(alloc),
            gap: Gap::Start,
        }
    }

    /// Ends the line.
    pub fn end_line(&mut self)
        ensures { self.new ≡ with_mark self.old None }
    {
        self.gap = broken(self.gap);
    }

    /// Writes a text.
    pub fn write(&mut self, text: &str) -> Result<(), Memory>
        ensures { OnOk result (self.new ≡ written self.old (map Some (chars text.now))) }
    {
        for character in text.chars() {
            self.push(character)?;
        }
        Ok(())
    }

    fn push(&mut self, character: char) -> Result<(), Memory>
        ensures { OnOk result (self.new ≡ with_character self.old character) }
    {
        if is_blank(character) {
            self.gap = spaced(self.gap);
            return Ok(());
        }
        self.fill()?;
        self.text.push(character)?;
        self.gap = Gap::Tight;
        Ok(())
    }

    // Writes what stands before the next character.
    fn fill(&mut self) -> Result<(), Memory>
        ensures text { OnOk result (self.new.text ≡ self.old.text ++ lead self.old.gap) }
    {
        match self.gap {
            Gap::Start => Ok(()),
            Gap::Tight => Ok(()),
            Gap::Space => self.text.push(' '),
            Gap::Break => self.text.push('\n'),
        }
    }
}

// After a line break.
fn broken(gap: Gap) -> Gap
    ensures { result ≡ broken gap }
{
    match gap {
        Gap::Start => Gap::Start,
        Gap::Tight => Gap::Break,
        Gap::Space => Gap::Break,
        Gap::Break => Gap::Break,
    }
}

// After white space.
fn spaced(gap: Gap) -> Gap
    ensures { result ≡ spaced gap }
{
    match gap {
        Gap::Start => Gap::Start,
        Gap::Tight => Gap::Space,
        Gap::Space => Gap::Space,
        Gap::Break => Gap::Break,
    }
}

// Whether it is a space, a tab, a line feed, a form feed or a carriage return.
fn is_blank(character: char) -> bool
    ensures { result ≡ is_blank character }
{
    character == ' '
        || character == '\t'
        || character == '\n'
        || character == '\u{c}'
        || character == '\r'
}
