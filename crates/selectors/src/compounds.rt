ghost use Rattle.std.specs.Prelude.{◌≡◌, IfOk};
ghost use Rattle.std.specs.Option.{option_map};
ghost use Rattle.selectors.specs.ReadingSimples.{plain_at, marks, row_at, in_front, compound_at, not_at, is_not, past_word, simple_at};

use crate::escapes::without_white;
use crate::pseudo::{behind, is_word, split_word};
use crate::selector::{Compound, Simple};
use crate::simples::{is_mark_next, plain, start};
use std::alloc::Global;
use wd_json::Memory;

/// Adds the simples that stand one behind another, none of them a `:not`.
fn plain_row(
    alloc: Global,
    front: Compound,
    text: &[char],
) -> Result<Option<(Compound, &[char])>, Memory>
    ensures { IfOk result (λ read. option_map (λ x. (x.0, x.1.now)) read ≡ in_front front (row_at marks plain_at text.now)) }
{
    let mut simples = front;
    let mut rest = text;
    'row: while is_mark_next(rest) {
        let Some((simple, after)) = plain(alloc, rest)? else {
            return Ok(None);
        };
        simples.push(simple)?;
        rest = after;
    }
    Ok(Some((simples, rest)))
}

#[tactic(auto, unfolding(crate::specs::ReadingSimples::compound_at))]
fn plain_compound(alloc: Global, text: &[char]) -> Result<Option<(Compound, &[char])>, Memory>
    ensures { IfOk result (λ read. option_map (λ x. (x.0, x.1.now)) read ≡ compound_at plain_at text.now) }
{
    let Some((simples, rest)) = start(alloc, text)? else {
        return Ok(None);
    };
    plain_row(alloc, simples, rest)
}

/// Reads what stands behind the word `not`.
#[tactic(auto, unfolding(crate::specs::ReadingSimples::not_at))]
fn negation(alloc: Global, text: &[char]) -> Result<Option<(Simple, &[char])>, Memory>
    ensures { IfOk result (λ read. option_map (λ x. (x.0, x.1.now)) read ≡ not_at text.now) }
{
    let Some(inside) = behind('(', text) else {
        return Ok(None);
    };
    let Some((simples, end)) = plain_compound(alloc, without_white(inside))? else {
        return Ok(None);
    };
    let Some(rest) = behind(')', without_white(end)) else {
        return Ok(None);
    };
    Ok(Some((Simple::Not(simples), rest)))
}

fn is_not_next(text: &[char]) -> bool
    ensures { result ≡ is_not text.now }
{
    match text {
        [':', rest @ ..] => is_word(split_word(rest).0, "not"),
        _ => false,
    }
}

/// Reads a simple that may stand anywhere, and the text behind it.
#[tactic(auto, unfolding(crate::specs::ReadingSimples::simple_at))]
fn simple(alloc: Global, text: &[char]) -> Result<Option<(Simple, &[char])>, Memory>
    ensures { IfOk result (λ read. option_map (λ x. (x.0, x.1.now)) read ≡ simple_at text.now) }
{
    let Some((_, rest)) = text.split_first() else {
        return Ok(None);
    };
    if is_not_next(text) {
        negation(alloc, split_word(rest).1)
    } else {
        plain(alloc, text)
    }
}

/// Adds the simples that stand one behind another.
fn row(alloc: Global, front: Compound, text: &[char]) -> Result<Option<(Compound, &[char])>, Memory>
    ensures { IfOk result (λ read. option_map (λ x. (x.0, x.1.now)) read ≡ in_front front (row_at marks simple_at text.now)) }
{
    let mut simples = front;
    let mut rest = text;
    'row: while is_mark_next(rest) {
        let Some((simple, after)) = simple(alloc, rest)? else {
            return Ok(None);
        };
        simples.push(simple)?;
        rest = after;
    }
    Ok(Some((simples, rest)))
}

/// Reads a compound, and the text behind it.
#[tactic(auto, unfolding(crate::specs::ReadingSimples::compound_at))]
pub fn compound(alloc: Global, text: &[char]) -> Result<Option<(Compound, &[char])>, Memory>
    ensures { IfOk result (λ read. option_map (λ x. (x.0, x.1.now)) read ≡ compound_at simple_at text.now) }
{
    let Some((simples, rest)) = start(alloc, text)? else {
        return Ok(None);
    };
    row(alloc, simples, rest)
}
