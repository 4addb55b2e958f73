//! The first page that is too heavy with its frames.

ghost use Rattle.std.specs.Prelude.{◌≡◌, ◌≤◌, List, All, IfOk, map, nat_lt};
ghost use Rattle.std.specs.List.{position};
ghost use Rattle.page_engine.specs.declared.page_def.PageDef.{PageDef};
ghost use Rattle.page_file.specs.Weighing.{frame_load, page_load, is_heavy, AreLoadsOf};

use crate::load::Load;
use page_engine::Target;
use std::alloc::Global;
use wd_json::Memory;

/// More nodes than a page with its frames may have. Weights are counted up to here.
const TOO_HEAVY: u32 = 100_001;

/// The nodes of `about:blank`.
const BLANK: u32 = 3;

/// Frames stand at depths 1 to 8.
const LEVELS: u32 = 8;

// What a frame weighs, by the weights of the pages.
fn frame_load(known: &[u32], target: Target) -> u32
    requires { All (λ n. n ≤ 100001) known.now }
    ensures load { result ≡ frame_load known.now target }
    ensures few { result ≤ 100001 }
{
    match target {
        Target::Blank => BLANK,
        Target::Page(place) => match known.get(place as usize) {
            Some(weight) => *weight,
            None => BLANK,
        },
    }
}

// What a page weighs with its frames.
fn page_load(known: &[u32], load: &Load) -> u32
    requires { All (λ n. n ≤ 100001) known.now }
    ensures load { result ≡ page_load known.now load.now }
    ensures few { result ≤ 100001 }
{
    let mut weight = load.nodes.min(TOO_HEAVY);
    for target in load.frames.as_slice() {
        weight = (weight + frame_load(known, *target)).min(TOO_HEAVY);
    }
    weight
}

// The weights of the pages where frames stand on one level more.
fn heavier(alloc: Global, known: &[u32], loads: &[Load]) -> Result<Vec<u32>, Memory>
    requires { All (λ n. n ≤ 100001) known.now }
    ensures weights { IfOk result (λ weights. weights.items ≡ map (page_load known.now) loads.now) }
    ensures few { IfOk result (λ weights. All (λ n. n ≤ 100001) weights.items) }
{
    let mut weights = Vec::with_capacity(alloc, loads.len())?;
    for load in loads {
        weights.push(page_load(known, load))?;
    }
    Ok(weights)
}

// The place of the first weight that is too heavy.
fn first_over(known: &[u32]) -> Option<usize>
    ensures { result ≡ position (λ n. nat_lt 100000 n) known.now }
{
    known.iter().position(|weight| *weight > 100_000)
}

/// The place of the first page that has too many nodes with those of its frames.
pub fn first_heavy(alloc: Global, loads: &[Load]) -> Result<Option<usize>, Memory>
    ensures { (pages : List PageDef) → AreLoadsOf pages loads.now → IfOk result (λ place. place ≡ position (is_heavy pages) pages) }
{
    let mut known = vec![in alloc; BLANK; loads.len()]?;
    for _ in 0..LEVELS {
        known = heavier(alloc, &known, loads)?;
    }
    Ok(first_over(&known))
}
