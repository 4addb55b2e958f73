//! The tags whose elements stand on lines of their own.

ghost use Rattle.std.specs.Prelude.{◌≡◌};
ghost use Rattle.std.specs.Str.{chars};
ghost use Rattle.interaction.specs.RenderedText.{is_word, is_heading, is_section, is_group, is_list_part, is_table_part, is_form_part, is_block_tag};

use wd_json::is_same;

/// Whether the text is this word.
pub fn is_word(word: &str, text: &str) -> bool
    ensures { result ≡ is_word word.now (chars text.now) }
{
    is_same(text, word)
}

/// Whether elements with this tag stand on lines of their own.
pub fn is_block_tag(tag: &str) -> bool
    ensures { result ≡ is_block_tag (chars tag.now) }
{
    is_heading(tag)
        || is_section(tag)
        || is_group(tag)
        || is_list_part(tag)
        || is_table_part(tag)
        || is_form_part(tag)
}

fn is_heading(tag: &str) -> bool
    ensures { result ≡ is_heading (chars tag.now) }
{
    is_word("h1", tag)
        || is_word("h2", tag)
        || is_word("h3", tag)
        || is_word("h4", tag)
        || is_word("h5", tag)
        || is_word("h6", tag)
}

fn is_section(tag: &str) -> bool
    ensures { result ≡ is_section (chars tag.now) }
{
    is_word("address", tag)
        || is_word("article", tag)
        || is_word("aside", tag)
        || is_word("body", tag)
        || is_word("footer", tag)
        || is_word("header", tag)
        || is_word("html", tag)
        || is_word("main", tag)
        || is_word("nav", tag)
        || is_word("section", tag)
}

fn is_group(tag: &str) -> bool
    ensures { result ≡ is_group (chars tag.now) }
{
    is_word("blockquote", tag) || is_word("div", tag) || is_word("p", tag) || is_word("pre", tag)
}

fn is_list_part(tag: &str) -> bool
    ensures { result ≡ is_list_part (chars tag.now) }
{
    is_word("dd", tag)
        || is_word("dl", tag)
        || is_word("dt", tag)
        || is_word("li", tag)
        || is_word("ol", tag)
        || is_word("ul", tag)
}

fn is_table_part(tag: &str) -> bool
    ensures { result ≡ is_table_part (chars tag.now) }
{
    is_word("table", tag) || is_word("td", tag) || is_word("th", tag) || is_word("tr", tag)
}

fn is_form_part(tag: &str) -> bool
    ensures { result ≡ is_form_part (chars tag.now) }
{
    is_word("fieldset", tag) || is_word("form", tag) || is_word("option", tag)
}
