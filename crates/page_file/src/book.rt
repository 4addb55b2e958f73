//! Whether the answer to a script keeps the rules: places of cells, and keys that differ.

ghost use Rattle.std.specs.Prelude.{◌≡◌, ◌<◌, IfOk, length, nat_lt, true};
ghost use Rattle.std.specs.List.{list_all};
ghost use Rattle.page_engine.specs.Books.{are_pairs, is_cell, is_entry, is_end};
ghost use Rattle.page_engine.specs.Fitting.{anywhere, fit_at};

use crate::seen::note;
use page_engine::{BookCell, BookEntry, CellPairs, CellRefs};
use std::alloc::Global;
use std::collections::BTreeSet;
use wd_json::{MAX_WHOLE, Memory};

// Whether the places are those of cells.
fn are_places(count: usize, places: &CellRefs) -> bool
    ensures { result ≡ list_all (λ place. nat_lt place count) places.now }
{
    for place in places.as_slice() {
        if *place as usize >= count {
            return false;
        }
    }
    true
}

// Whether the places are those of cells, and the keys differ.
fn are_pairs(alloc: Global, count: usize, pairs: &CellPairs) -> Result<bool, Memory>
    ensures { IfOk result (λ b. b ≡ are_pairs count pairs.now) }
{
    let mut seen = BTreeSet::new(alloc);
    for pair in pairs.as_slice() {
        if pair.1 as usize >= count {
            return Ok(false);
        }
        if !note(alloc, &mut seen, &pair.0)? {
            return Ok(false);
        }
    }
    Ok(true)
}

fn is_cell(alloc: Global, count: usize, cell: &BookCell) -> Result<bool, Memory>
    ensures { IfOk result (λ b. b ≡ is_cell count cell.now) }
{
    match cell {
        BookCell::Int(n) => Ok(n.unsigned_abs() <= MAX_WHOLE as u64),
        BookCell::List(places) => Ok(are_places(count, places)),
        BookCell::Object(pairs) => are_pairs(alloc, count, pairs),
        _ => Ok(true),
    }
}

fn are_cells(alloc: Global, cells: &[BookCell]) -> Result<bool, Memory>
    ensures { IfOk result (λ b. b ≡ list_all (is_cell (length cells.now)) cells.now) }
{
    let count = cells.len();
    for cell in cells {
        if !is_cell(alloc, count, cell)? {
            return Ok(false);
        }
    }
    Ok(true)
}

/// Whether the root and the places in cells are those of cells, and the keys of an object differ.
pub fn is_entry(alloc: Global, entry: &BookEntry) -> Result<bool, Memory>
    requires end { is_end entry.now.after ≡ true }
    requires fit { fit_at anywhere entry.now.effects ≡ true }
    ensures { IfOk result (λ b. b ≡ is_entry entry.now) }
{
    let cells = entry.cells.as_slice();
    if entry.root as usize >= cells.len() {
        return Ok(false);
    }
    are_cells(alloc, cells)
}
