//! The words with which effects begin, and the kinds of prompts.

ghost use Rattle.std.specs.Prelude.{◌≡◌};
ghost use Rattle.std.specs.Option.{option_map};
ghost use Rattle.page_file.specs.Words.{word_text, word_with, word_of, kind_text, kind_with, kind_of};

use page_engine::PromptKind;
use wd_json::Json;

/// The words with which the lists of effects begin.
#[derive(Clone, Copy, Debug, PartialEq, Eq)]
pub enum Word {
    Remove,
    Insert,
    Attr,
    Text,
    Pixels,
    Layer,
    Hidden,
    Value,
    Checked,
    Focus,
    Prompt,
    Go,
    Open,
    After,
}

const WORDS: [Word; 14] = [
    Word::Remove,
    Word::Insert,
    Word::Attr,
    Word::Text,
    Word::Pixels,
    Word::Layer,
    Word::Hidden,
    Word::Value,
    Word::Checked,
    Word::Focus,
    Word::Prompt,
    Word::Go,
    Word::Open,
    Word::After,
];

const KINDS: [PromptKind; 3] = [PromptKind::Alert, PromptKind::Confirm, PromptKind::Prompt];

/// The word, as a file spells it.
pub fn word_text(word: Word) -> &'static str
    ensures { result.now ≡ word_text word }
{
    match word {
        Word::Remove => "remove",
        Word::Insert => "insert",
        Word::Attr => "attr",
        Word::Text => "text",
        Word::Pixels => "box",
        Word::Layer => "layer",
        Word::Hidden => "hidden",
        Word::Value => "value",
        Word::Checked => "checked",
        Word::Focus => "focus",
        Word::Prompt => "prompt",
        Word::Go => "go",
        Word::Open => "open",
        Word::After => "after",
    }
}

#[tactic(auto, unfolding(crate::specs::Words::word_with))]
fn word_with(text: &str) -> Option<Word>
    ensures { result ≡ word_with text.now }
{
    WORDS.iter().copied().find(|word| word_text(*word) == text)
}

/// The word that the value is.
pub fn as_word(value: &Json) -> Option<Word>
    ensures { result ≡ word_of value.now }
{
    match value {
        Json::Text(text) => word_with(text.as_str()),
        _ => None,
    }
}

/// The kind of a prompt, as a file spells it.
pub fn kind_text(kind: PromptKind) -> &'static str
    ensures { result.now ≡ kind_text kind }
{
    match kind {
        PromptKind::Alert => "alert",
        PromptKind::Confirm => "confirm",
        PromptKind::Prompt => "prompt",
    }
}

#[tactic(auto, unfolding(crate::specs::Words::kind_with))]
fn kind_with(text: &str) -> Option<PromptKind>
    ensures { result ≡ kind_with text.now }
{
    KINDS.iter().copied().find(|kind| kind_text(*kind) == text)
}

/// The kind of prompt that the value is.
pub fn as_kind(value: &Json) -> Option<PromptKind>
    ensures { result ≡ kind_of value.now }
{
    match value {
        Json::Text(text) => kind_with(text.as_str()),
        _ => None,
    }
}
