ghost use Rattle.std.specs.Prelude.{◌≡◌, IfOk};
ghost use Rattle.std.specs.Option.{option_map};
ghost use Rattle.selectors.specs.Characters.{begins};
ghost use Rattle.selectors.specs.Reading.{is_quote};
ghost use Rattle.selectors.specs.ReadingSimples.{marked_test, test_at, text_at, compared_at, bracket_end_at, bracket_at};

use crate::escapes::without_white;
use crate::names::identifier;
use crate::pseudo::behind;
use crate::selector::{Simple, Test};
use crate::strings::string;
use std::alloc::Global;
use wd_json::{Memory, WdText};

/// The test that this character begins, before a `=`.
fn marked_test(mark: char) -> Option<Test>
    ensures { result ≡ marked_test mark }
{
    match mark {
        '~' => Some(Test::Word),
        '|' => Some(Test::Dash),
        '^' => Some(Test::Starts),
        '$' => Some(Test::Ends),
        '*' => Some(Test::Holds),
        _ => None,
    }
}

fn test(text: &[char]) -> Option<(Test, &[char])>
    ensures { option_map (λ x. (x.0, x.1.now)) result ≡ test_at text.now }
{
    let (first, after) = text.split_first()?;
    if *first == '=' {
        return Some((Test::Equal, after));
    }
    let test = marked_test(*first)?;
    let rest = behind('=', after)?;
    Some((test, rest))
}

fn is_quote_next(text: &[char]) -> bool
    ensures { result ≡ begins is_quote text.now }
{
    match text {
        [first, ..] => *first == '"' || *first == '\'',
        [] => false,
    }
}

/// Reads a string or an identifier.
#[tactic(auto, unfolding(crate::specs::ReadingSimples::text_at))]
fn text_value(alloc: Global, text: &[char]) -> Result<Option<(WdText, &[char])>, Memory>
    ensures { IfOk result (λ read. option_map (λ x. (x.0, x.1.now)) read ≡ text_at text.now) }
{
    if is_quote_next(text) {
        string(alloc, text)
    } else {
        identifier(alloc, text)
    }
}

/// Reads what stands behind the name of an attribute that is compared, the `]` too.
#[tactic(auto, unfolding(crate::specs::ReadingSimples::compared_at))]
fn compared(alloc: Global, name: WdText, text: &[char]) -> Result<Option<(Simple, &[char])>, Memory>
    ensures { IfOk result (λ read. option_map (λ x. (x.0, x.1.now)) read ≡ compared_at name text.now) }
{
    let Some((test, after)) = test(text) else {
        return Ok(None);
    };
    let Some((value, end)) = text_value(alloc, without_white(after))? else {
        return Ok(None);
    };
    let Some(rest) = behind(']', without_white(end)) else {
        return Ok(None);
    };
    Ok(Some((Simple::Attr(name, test, value), rest)))
}

#[tactic(auto, unfolding(crate::specs::ReadingSimples::bracket_end_at))]
fn bracket_end(
    alloc: Global,
    name: WdText,
    text: &[char],
) -> Result<Option<(Simple, &[char])>, Memory>
    ensures { IfOk result (λ read. option_map (λ x. (x.0, x.1.now)) read ≡ bracket_end_at name text.now) }
{
    let Some((first, rest)) = text.split_first() else {
        return Ok(None);
    };
    if *first == ']' {
        return Ok(Some((Simple::Has(name), rest)));
    }
    compared(alloc, name, text)
}

/// Reads a condition on an attribute behind its `[`, the `]` too, and the text behind it.
#[tactic(auto, unfolding(crate::specs::ReadingSimples::bracket_at))]
pub fn bracket(alloc: Global, text: &[char]) -> Result<Option<(Simple, &[char])>, Memory>
    ensures { IfOk result (λ read. option_map (λ x. (x.0, x.1.now)) read ≡ bracket_at text.now) }
{
    let Some((name, after)) = identifier(alloc, without_white(text))? else {
        return Ok(None);
    };
    bracket_end(alloc, name, without_white(after))
}
