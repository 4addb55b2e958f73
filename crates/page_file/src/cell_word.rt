//! The words with which the cells of a script's result begin.

ghost use Rattle.std.specs.Prelude.{◌≡◌};
ghost use Rattle.page_file.specs.Cells.{cell_text, cell_with, cell_word_of};

use wd_json::Json;

/// The words with which the cells of a script's result begin.
#[derive(Clone, Copy, Debug, PartialEq, Eq)]
pub enum CellWord {
    Null,
    Bool,
    Int,
    Fraction,
    Text,
    Node,
    Shadow,
    List,
    Object,
    Log,
    Arg,
}

const WORDS: [CellWord; 11] = [
    CellWord::Null,
    CellWord::Bool,
    CellWord::Int,
    CellWord::Fraction,
    CellWord::Text,
    CellWord::Node,
    CellWord::Shadow,
    CellWord::List,
    CellWord::Object,
    CellWord::Log,
    CellWord::Arg,
];

// The word, as a file spells it.
fn cell_text(word: CellWord) -> &'static str
    ensures { result.now ≡ cell_text word }
{
    match word {
        CellWord::Null => "null",
        CellWord::Bool => "bool",
        CellWord::Int => "int",
        CellWord::Fraction => "fraction",
        CellWord::Text => "text",
        CellWord::Node => "node",
        CellWord::Shadow => "shadow",
        CellWord::List => "list",
        CellWord::Object => "object",
        CellWord::Log => "log",
        CellWord::Arg => "arg",
    }
}

#[tactic(auto, unfolding(crate::specs::Cells::cell_with))]
fn cell_with(text: &str) -> Option<CellWord>
    ensures { result ≡ cell_with text.now }
{
    WORDS.iter().copied().find(|word| cell_text(*word) == text)
}

/// The word that the value is.
pub fn as_cell_word(value: &Json) -> Option<CellWord>
    ensures { result ≡ cell_word_of value.now }
{
    match value {
        Json::Text(text) => cell_with(text.as_str()),
        _ => None,
    }
}
