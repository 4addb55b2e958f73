ghost use Rattle.std.specs.Prelude.{◌≡◌, IfOk};
ghost use Rattle.std.specs.Option.{option_map};
ghost use Rattle.selectors.specs.Grammar.{is_mark};
ghost use Rattle.selectors.specs.ReadingSimples.{named_at, nth_at, pseudo_at, plain_at, marks, start_at};
ghost use Rattle.selectors.specs.declared.selector.Simple.TheVariants.{Id as IdSimple, Class as ClassSimple};

use crate::attribute_parts::bracket;
use crate::names::identifier;
use crate::pseudo::{behind, is_word, pseudo_class, split_word};
use crate::selector::{Compound, Simple};
use crate::steps::argument;
use std::alloc::Global;
use wd_json::Memory;

#[tactic(auto, unfolding(crate::specs::ReadingSimples::named_at))]
fn id(alloc: Global, text: &[char]) -> Result<Option<(Simple, &[char])>, Memory>
    ensures { IfOk result (λ read. option_map (λ x. (x.0, x.1.now)) read ≡ named_at IdSimple text.now) }
{
    let Some((value, rest)) = identifier(alloc, text)? else {
        return Ok(None);
    };
    Ok(Some((Simple::Id(value), rest)))
}

#[tactic(auto, unfolding(crate::specs::ReadingSimples::named_at))]
fn class(alloc: Global, text: &[char]) -> Result<Option<(Simple, &[char])>, Memory>
    ensures { IfOk result (λ read. option_map (λ x. (x.0, x.1.now)) read ≡ named_at ClassSimple text.now) }
{
    let Some((value, rest)) = identifier(alloc, text)? else {
        return Ok(None);
    };
    Ok(Some((Simple::Class(value), rest)))
}

#[tactic(auto, unfolding(crate::specs::ReadingSimples::nth_at))]
fn nth(text: &[char]) -> Option<(Simple, &[char])>
    ensures { option_map (λ x. (x.0, x.1.now)) result ≡ nth_at text.now }
{
    let inside = behind('(', text)?;
    let ((a, b), rest) = argument(inside)?;
    Some((Simple::Nth(a, b), rest))
}

/// Reads a pseudo-class behind its `:`, but for `:not`.
#[tactic(auto, unfolding(crate::specs::ReadingSimples::pseudo_at))]
fn pseudo(text: &[char]) -> Option<(Simple, &[char])>
    ensures { option_map (λ x. (x.0, x.1.now)) result ≡ pseudo_at text.now }
{
    let (word, rest) = split_word(text);
    if is_word(word, "nth-child") {
        return nth(rest);
    }
    let simple = pseudo_class(word)?;
    Some((simple, rest))
}

/// Reads a simple that may stand anywhere, but for `:not`, and the text behind it.
#[tactic(auto, unfolding(crate::specs::ReadingSimples::plain_at))]
pub fn plain(alloc: Global, text: &[char]) -> Result<Option<(Simple, &[char])>, Memory>
    ensures { IfOk result (λ read. option_map (λ x. (x.0, x.1.now)) read ≡ plain_at text.now) }
{
    let Some((first, rest)) = text.split_first() else {
        return Ok(None);
    };
    match *first {
        '#' => id(alloc, rest),
        '.' => class(alloc, rest),
        '[' => bracket(alloc, rest),
        ':' => Ok(pseudo(rest)),
        _ => Ok(None),
    }
}

fn is_mark(c: char) -> bool
    ensures { result ≡ is_mark c }
{
    c == '#' || c == '.' || c == '[' || c == ':'
}

/// Whether a simple begins here that may stand anywhere.
pub fn is_mark_next(text: &[char]) -> bool
    ensures { result ≡ marks text.now }
{
    match text {
        [first, ..] => is_mark(*first),
        [] => false,
    }
}

/// Reads the simple that may stand first only: a compound of it, or one of none before a mark.
#[tactic(auto, unfolding(crate::specs::ReadingSimples::start_at))]
pub fn start(alloc: Global, text: &[char]) -> Result<Option<(Compound, &[char])>, Memory>
    ensures { IfOk result (λ read. option_map (λ x. (x.0, x.1.now)) read ≡ start_at text.now) }
{
    let Some((first, rest)) = text.split_first() else {
        return Ok(None);
    };
    let mut simples = Compound::new(alloc);
    if *first == '*' {
        simples.push(Simple::Any)?;
        return Ok(Some((simples, rest)));
    }
    if is_mark(*first) {
        return Ok(Some((simples, text)));
    }
    let Some((tag, after)) = identifier(alloc, text)? else {
        return Ok(None);
    };
    simples.push(Simple::Tag(tag))?;
    Ok(Some((simples, after)))
}
