//! A page's answers to scripts: results made of cells, delays and effects.

use crate::effect::EffectList;
use wd_json::{WdList, WdText};

/// What a page answers to one script: the cells of the result, of which `root` is the one that is
/// answered, whether it is thrown, how many milliseconds later (never where `None`), and the effects
/// that the script has.
#[derive(Debug, Drop)]
pub struct BookEntry {
    pub script: WdText,
    pub cells: BookCells,
    pub root: u32,
    pub thrown: bool,
    pub after: Option<u64>,
    pub effects: EffectList,
}

/// One cell of a script's result. Lists and objects name other cells by their places.
#[derive(Debug, Drop)]
pub enum BookCell {
    Null,
    Bool(bool),
    Int(i64),
    /// A number that isn't whole, as it is written.
    Fraction(WdText),
    Text(WdText),
    /// The element with this number.
    Node(u32),
    /// The shadow root with this number.
    Shadow(u32),
    List(CellRefs),
    Object(CellPairs),
    /// The document's log, as a list of texts.
    Log,
    /// The script's argument at this place.
    Arg(u32),
}

/// The cells of a list, by their places.
pub type CellRefs = WdList<u32>;

/// The members of an object: names, and the places of their cells.
pub type CellPairs = WdList<(WdText, u32)>;

/// Cells by their places.
pub type BookCells = WdList<BookCell>;

/// A page's answers to scripts.
pub type Book = WdList<BookEntry>;
