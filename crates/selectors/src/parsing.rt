ghost use Rattle.std.specs.Prelude.{◌≡◌, ◌==◌, true, IfOk, IfErr};
ghost use Rattle.std.specs.List.{list_any};
ghost use Rattle.std.specs.Option.{option_map};
ghost use Rattle.std.specs.Str.{chars};
ghost use Rattle.selectors.specs.Characters.{begins, is_white};
ghost use Rattle.selectors.specs.Grammar.{GrammarIs, IsCause};
ghost use Rattle.selectors.specs.ReadingSimples.{row_at, in_front};
ghost use Rattle.selectors.specs.WellFormed.{is_selector};
ghost use Rattle.selectors.specs.ReadingSelectors.{sign_of, right_at, join_at, goes_on, alternative_at, next_at, has_more, alternatives_at, selector_in};

use crate::characters::characters;
use crate::compounds::compound;
use crate::escapes::{is_white_space, without_white};
use crate::fault::SelFault;
use crate::pseudo::behind;
use crate::selector::{Combinator, Complex, Compound, JoinList, Selector};
use std::alloc::Global;
use wd_json::Memory;

/// The combinator of a sign.
fn sign(c: char) -> Option<Combinator>
    ensures { result ≡ sign_of c }
{
    match c {
        '>' => Some(Combinator::Child),
        '+' => Some(Combinator::Next),
        '~' => Some(Combinator::Later),
        _ => None,
    }
}

#[tactic(auto, unfolding(crate::specs::ReadingSelectors::right_at))]
fn right(
    alloc: Global,
    combinator: Combinator,
    text: &[char],
) -> Result<Option<((Combinator, Compound), &[char])>, Memory>
    ensures { IfOk result (λ read. option_map (λ x. (x.0, x.1.now)) read ≡ right_at combinator text.now) }
{
    let Some((simples, rest)) = compound(alloc, without_white(text))? else {
        return Ok(None);
    };
    Ok(Some(((combinator, simples), rest)))
}

fn is_white_next(text: &[char]) -> bool
    ensures { result ≡ begins is_white text.now }
{
    match text {
        [first, ..] => is_white_space(*first),
        [] => false,
    }
}

/// Reads a combinator and the compound on its right.
#[tactic(auto, unfolding(crate::specs::ReadingSelectors::join_at))]
fn join(alloc: Global, text: &[char]) -> Result<Option<((Combinator, Compound), &[char])>, Memory>
    ensures { IfOk result (λ read. option_map (λ x. (x.0, x.1.now)) read ≡ join_at text.now) }
{
    let start = without_white(text);
    let Some((first, rest)) = start.split_first() else {
        return Ok(None);
    };
    match sign(*first) {
        Some(combinator) => right(alloc, combinator, rest),
        None => {
            if is_white_next(text) {
                right(alloc, Combinator::Descendant, start)
            } else {
                Ok(None)
            }
        }
    }
}

/// Whether a further compound is joined: neither a `,` nor the end comes next.
fn goes_on(text: &[char]) -> bool
    ensures { result ≡ goes_on text.now }
{
    match without_white(text) {
        [first, ..] => *first != ',',
        [] => false,
    }
}

fn joins(alloc: Global, text: &[char]) -> Result<Option<(JoinList, &[char])>, Memory>
    ensures { IfOk result (λ read. option_map (λ x. (x.0, x.1.now)) read ≡ row_at goes_on join_at text.now) }
{
    let mut joins = JoinList::new(alloc);
    let mut rest = text;
    'row: while goes_on(rest) {
        let Some((next, after)) = join(alloc, rest)? else {
            return Ok(None);
        };
        joins.push(next)?;
        rest = after;
    }
    Ok(Some((joins, rest)))
}

/// Reads joined compounds with white space around them, and the text behind it.
#[tactic(auto, unfolding(crate::specs::ReadingSelectors::alternative_at))]
fn alternative(alloc: Global, text: &[char]) -> Result<Option<(Complex, &[char])>, Memory>
    ensures { IfOk result (λ read. option_map (λ x. (x.0, x.1.now)) read ≡ alternative_at text.now) }
{
    let Some((first, after)) = compound(alloc, without_white(text))? else {
        return Ok(None);
    };
    let Some((rest, end)) = joins(alloc, after)? else {
        return Ok(None);
    };
    Ok(Some((Complex { first, rest }, without_white(end))))
}

#[tactic(auto, unfolding(crate::specs::ReadingSelectors::next_at))]
fn next(alloc: Global, text: &[char]) -> Result<Option<(Complex, &[char])>, Memory>
    ensures { IfOk result (λ read. option_map (λ x. (x.0, x.1.now)) read ≡ next_at text.now) }
{
    match behind(',', text) {
        Some(rest) => alternative(alloc, rest),
        None => Ok(None),
    }
}

/// Whether a further alternative comes.
fn has_more(text: &[char]) -> bool
    ensures { result ≡ has_more text.now }
{
    match text {
        [first, ..] => *first == ',',
        [] => false,
    }
}

fn further(
    alloc: Global,
    front: Selector,
    text: &[char],
) -> Result<Option<(Selector, &[char])>, Memory>
    ensures { IfOk result (λ read. option_map (λ x. (x.0, x.1.now)) read ≡ in_front front (row_at has_more next_at text.now)) }
{
    let mut alternatives = front;
    let mut rest = text;
    'row: while has_more(rest) {
        let Some((complex, after)) = next(alloc, rest)? else {
            return Ok(None);
        };
        alternatives.push(complex)?;
        rest = after;
    }
    Ok(Some((alternatives, rest)))
}

#[tactic(auto, unfolding(crate::specs::ReadingSelectors::alternatives_at))]
fn alternatives(alloc: Global, text: &[char]) -> Result<Option<Selector>, Memory>
    ensures { IfOk result (λ read. read ≡ alternatives_at text.now) }
{
    let Some((complex, after)) = alternative(alloc, text)? else {
        return Ok(None);
    };
    let mut first = Selector::new(alloc);
    first.push(complex)?;
    let Some((selector, _)) = further(alloc, first, after)? else {
        return Ok(None);
    };
    Ok(Some(selector))
}

fn has_zero(text: &[char]) -> bool
    ensures { result ≡ list_any (λ c. c == 0) text.now }
{
    text.iter().any(|c| *c == '\0')
}

#[tactic(auto, unfolding(crate::specs::ReadingSelectors::selector_in))]
fn selector_of(alloc: Global, text: &[char]) -> Result<Option<Selector>, Memory>
    ensures { IfOk result (λ read. read ≡ selector_in text.now) }
{
    if has_zero(text) {
        return Ok(None);
    }
    alternatives(alloc, text)
}

fn read(alloc: Global, text: &str) -> Result<Option<Selector>, Memory>
    ensures { IfOk result (λ read. read ≡ selector_in (chars text.now)) }
{
    let list = characters(alloc, text)?;
    selector_of(alloc, list.as_slice())
}

/// The selector that the text is, by the grammar (Selectors Level 4, section 4, in this project's
/// profile): compounds joined by combinators, and alternatives with `,` between. It goes over the
/// text once, and takes memory in proportion to it.
///
/// `Invalid` exactly where the grammar has no selector for the text. `Memory` where there is none.
pub fn parse(alloc: Global, text: &str) -> Result<Selector, SelFault>
    ensures read { IfOk result (GrammarIs (chars text.now)) }
    ensures rules { IfOk result (λ selector. is_selector selector ≡ true) }
    ensures cause { IfErr result (IsCause (chars text.now)) }
{
    match read(alloc, text)? {
        Some(selector) => Ok(selector),
        None => Err(SelFault::Invalid),
    }
}
