//! Rows of effects as values: a word, and what it takes.

ghost use Rattle.std.specs.Prelude.{◌≡◌, [], ◌∷◌, IfOk, Some, true};
ghost use Rattle.wd_json.specs.Json.{data_of};
ghost use Rattle.wd_json.specs.Whole.{is_whole};
ghost use Rattle.page_file.specs.Words.{row_of, word_of, kind_of};

use crate::word::{Word, kind_text, word_text};
use page_engine::PromptKind;
use std::alloc::Global;
use wd_json::{Json, Memory, WdList, WdText};

// The word as a value.
#[tactic(auto, using(crate::proofs::WholeValues::whole_values))]
fn word_value(alloc: Global, word: Word) -> Result<Json, Memory>
    ensures same { IfOk result (λ v. word_of v ≡ Some word) }
    ensures whole { IfOk result (λ v. is_whole (data_of v) ≡ true) }
{
    Ok(Json::Text(WdText::of(alloc, word_text(word))?))
}

#[tactic(auto, using(crate::proofs::WholeValues::whole_values))]
pub fn kind_value(alloc: Global, kind: PromptKind) -> Result<Json, Memory>
    ensures same { IfOk result (λ v. kind_of v ≡ Some kind) }
    ensures whole { IfOk result (λ v. is_whole (data_of v) ≡ true) }
{
    Ok(Json::Text(WdText::of(alloc, kind_text(kind))?))
}

/// A word and one value.
#[tactic(auto, using(crate::proofs::WholeValues::whole_values))]
pub fn one(alloc: Global, word: Word, a: Json) -> Result<Json, Memory>
    ensures row { IfOk result (λ v. row_of v ≡ Some (word, a ∷ [])) }
    ensures whole { is_whole (data_of a) ≡ true → IfOk result (λ v. is_whole (data_of v) ≡ true) }
{
    let mut row = Vec::with_capacity(alloc, 2)?;
    row.push(word_value(alloc, word)?)?;
    row.push(a)?;
    Ok(Json::List(WdList::from_vec(row)))
}

/// A word and two values.
#[tactic(auto, using(crate::proofs::WholeValues::whole_values))]
pub fn two(alloc: Global, word: Word, a: Json, b: Json) -> Result<Json, Memory>
    ensures row { IfOk result (λ v. row_of v ≡ Some (word, a ∷ b ∷ [])) }
    ensures whole { is_whole (data_of a) ≡ true → is_whole (data_of b) ≡ true → IfOk result (λ v. is_whole (data_of v) ≡ true) }
{
    let mut row = Vec::with_capacity(alloc, 3)?;
    row.push(word_value(alloc, word)?)?;
    row.push(a)?;
    row.push(b)?;
    Ok(Json::List(WdList::from_vec(row)))
}

/// A word and three values.
#[tactic(auto, using(crate::proofs::WholeValues::whole_values))]
pub fn three(alloc: Global, word: Word, a: Json, b: Json, c: Json) -> Result<Json, Memory>
    ensures row { IfOk result (λ v. row_of v ≡ Some (word, a ∷ b ∷ c ∷ [])) }
    ensures whole { is_whole (data_of a) ≡ true → is_whole (data_of b) ≡ true → is_whole (data_of c) ≡ true
        → IfOk result (λ v. is_whole (data_of v) ≡ true) }
{
    let mut row = Vec::with_capacity(alloc, 4)?;
    row.push(word_value(alloc, word)?)?;
    row.push(a)?;
    row.push(b)?;
    row.push(c)?;
    Ok(Json::List(WdList::from_vec(row)))
}

/// A word and five values.
#[tactic(auto, using(crate::proofs::WholeValues::whole_values))]
pub fn five(
    alloc: Global,
    word: Word,
    a: Json,
    b: Json,
    c: Json,
    d: Json,
    e: Json,
) -> Result<Json, Memory>
    ensures row { IfOk result (λ v. row_of v ≡ Some (word, a ∷ b ∷ c ∷ d ∷ e ∷ [])) }
    ensures whole { is_whole (data_of a) ≡ true → is_whole (data_of b) ≡ true → is_whole (data_of c) ≡ true
        → is_whole (data_of d) ≡ true → is_whole (data_of e) ≡ true → IfOk result (λ v. is_whole (data_of v) ≡ true) }
{
    let mut row = Vec::with_capacity(alloc, 6)?;
    row.push(word_value(alloc, word)?)?;
    row.push(a)?;
    row.push(b)?;
    row.push(c)?;
    row.push(d)?;
    row.push(e)?;
    Ok(Json::List(WdList::from_vec(row)))
}
