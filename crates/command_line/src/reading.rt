//! What words give, by the rule on words.
ghost use Rattle.std.specs.Prelude.{◌≡◌, IfOk, IfSome, None, true, map};
ghost use Rattle.std.specs.List.{list_all};
ghost use Rattle.std.specs.Option.{option_map};
ghost use Rattle.std.specs.Str.{all_scalars, encode_utf8_all};
ghost use Rattle.command_line.specs.Given.{Given, given_of};
ghost use Rattle.command_line.specs.Words.{SpellOne, Spells};
ghost use Rattle.command_line.specs.Reading.{given_by};

use crate::command::command_of;
use crate::found::given_in;
use crate::matches::Matches;
use clap::error::ErrorKind;
use std::alloc::{AllocError, Global};
use wd_json::{Memory, WdText};

/// The words as texts, for as long as the words themselves: what clap finds lies in this list. So the list is never given
/// back.
fn texts_of<'a>(alloc: Global, words: &'a [WdText]) -> Result<&'a [&'a str], AllocError>
    ensures same { IfOk result (λ texts. map (λ text. text.now) texts.now ≡ map encode_utf8_all words.now) }
    ensures texts { IfOk result (λ _. list_all all_scalars words.now ≡ true) }
{
    let mut texts = Vec::new(alloc);
    for word in words {
        texts.push(word.as_str())?;
    }
    Ok(texts.leak())
}

/// What the words give: for options of these names their values, and at most one positional. `None` exactly where they
/// spell nothing. `Memory` where there is no memory. `clap` reads the words; that it reads them by this rule is proved.
///
/// An option stands as `--name value` or `--name=value`, at most once, in any order. A value or positional isn't empty, and
/// in a word of its own it doesn't begin with `-`, unless it is `-` alone. A word `--` makes all later words positionals.
pub fn read<'a>(
    alloc: Global,
    options: &'a [&'a str],
    words: &'a [WdText],
) -> Result<Option<Matches<'a>>, Memory>
    ensures given { IfOk result (λ r. option_map given_of r ≡ given_by (map (λ option. option.now) options.now) (map encode_utf8_all words.now)) }
    ensures spelled { IfOk result (λ r. IfSome r (λ m. Spells (map (λ option. option.now) options.now) (map encode_utf8_all words.now) (given_of m))) }
    ensures none { IfOk result (λ r. r ≡ None → (g : Given) → Spells (map (λ option. option.now) options.now) (map encode_utf8_all words.now) g → ⊥) }
{
    let texts = texts_of(alloc, words)?;
    match command_of(alloc, options)?.try_get_matches_from(texts) {
        Ok(found) => Ok(Some(given_in(alloc, &found)?)),
        Err(error) => match error.kind() {
            ErrorKind::OutOfMemory => Err(Memory),
            _ => Ok(None),
        },
    }
}

/// A law: words spell one thing at most.
pub fn words_spell_one()
    ensures { SpellOne }
{}
