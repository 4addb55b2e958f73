//! The cells of a script's result that a value spells.

ghost use Rattle.std.specs.Prelude.{◌≡◌, IfOk, true};
ghost use Rattle.std.specs.Option.{option_map};
ghost use Rattle.page_file.specs.Cells.{cell_row_of, bare_cell, plain_cell, pair_of, cell_with_value, cell_of, cells_of};
ghost use Rattle.page_file.specs.Values.{number_of};

use crate::cell_word::{CellWord, as_cell_word};
use crate::each::{Spelling, list};
use crate::plain::text;
use crate::values::{as_bool, as_list, as_number, as_whole};
use page_engine::{BookCell, BookCells};
use std::alloc::Global;
use wd_json::{Json, Memory, WdText};

// The list that begins with a word: the word, and the values after it.
fn as_cell_row(value: &Json) -> Option<(CellWord, &[Json])>
    ensures { option_map (λ row. (row.0, row.1.now)) result ≡ cell_row_of value.now }
{
    match as_list(value)? {
        [head, rest @ ..] => Some((as_cell_word(head)?, rest)),
        _ => None,
    }
}

// ---- lists and objects

// The places of cells.
struct OnePlace;

impl Spelling for OnePlace {
    type Value = Json;

    type Item = u32;

    ghost spelled = { number_of };

    ghost fits = { λ _. true };

    fn read(_alloc: Global, value: &Json) -> Result<Option<u32>, Memory> {
        Ok(as_number(value))
    }
}

// A key and a place.
struct OnePair;

impl Spelling for OnePair {
    type Value = Json;

    type Item = (WdText, u32);

    ghost spelled = { pair_of };

    ghost fits = { λ _. true };

    fn read(alloc: Global, value: &Json) -> Result<Option<(WdText, u32)>, Memory> {
        let Some([Json::Text(key), place]) = as_list(value) else {
            return Ok(None);
        };
        let Some(place) = as_number(place) else {
            return Ok(None);
        };
        Ok(Some((key.copy(alloc)?, place)))
    }
}

// ---- cells

// A word alone.
fn bare(word: CellWord) -> Option<BookCell>
    ensures { result ≡ bare_cell word }
{
    match word {
        CellWord::Null => Some(BookCell::Null),
        CellWord::Log => Some(BookCell::Log),
        _ => None,
    }
}

// A word and one value that takes no memory.
fn plain(word: CellWord, value: &Json) -> Option<BookCell>
    ensures { result ≡ plain_cell word value.now }
{
    match word {
        CellWord::Bool => Some(BookCell::Bool(as_bool(value)?)),
        CellWord::Int => Some(BookCell::Int(as_whole(value)?)),
        CellWord::Node => Some(BookCell::Node(as_number(value)?)),
        CellWord::Shadow => Some(BookCell::Shadow(as_number(value)?)),
        CellWord::Arg => Some(BookCell::Arg(as_number(value)?)),
        _ => None,
    }
}

// A word and one value.
fn with_value(alloc: Global, word: CellWord, value: &Json) -> Result<Option<BookCell>, Memory>
    ensures { IfOk result (λ c. c ≡ cell_with_value word value.now) }
{
    match word {
        CellWord::Fraction => Ok(text(alloc, value)?.map(|t| BookCell::Fraction(t))),
        CellWord::Text => Ok(text(alloc, value)?.map(|t| BookCell::Text(t))),
        CellWord::List => Ok(list::<OnePlace>(alloc, value)?.map(|ps| BookCell::List(ps))),
        CellWord::Object => Ok(list::<OnePair>(alloc, value)?.map(|ps| BookCell::Object(ps))),
        _ => Ok(plain(word, value)),
    }
}

struct OneCell;

impl Spelling for OneCell {
    type Value = Json;

    type Item = BookCell;

    ghost spelled = { cell_of };

    ghost fits = { λ _. true };

    fn read(alloc: Global, value: &Json) -> Result<Option<BookCell>, Memory> {
        match as_cell_row(value) {
            Some((word, [])) => Ok(bare(word)),
            Some((word, [value])) => with_value(alloc, word, value),
            _ => Ok(None),
        }
    }
}

/// The cells that the value spells: a list of lists, each a word and what it takes.
pub fn cells(alloc: Global, value: &Json) -> Result<Option<BookCells>, Memory>
    ensures { IfOk result (λ cs. cs ≡ cells_of value.now) }
{
    list::<OneCell>(alloc, value)
}
