ghost use Rattle.std.specs.Prelude.{◌≡◌, ◌≤◌, true, false, ◌++◌, ◌∷◌, ℕ, List, OnOk};
ghost use Rattle.std.specs.List.{flat_map};
ghost use Rattle.selectors.specs.Names.{begins_name, IdentifierIs, StringIs};
ghost use Rattle.selectors.specs.Texted.{is_text, is_name};
ghost use Rattle.selectors.specs.Printing.{digits_text, escaped, name_written, first_written, printed_identifier, string_written, printed_string};

use crate::characters::characters;
use crate::escapes::is_line_break;
use crate::names::is_of_name;
use std::alloc::Global;
use wd_json::{Memory, WdText};

/// Adds a number in digits of a base of 2 to 36, and nothing for 0. After `Memory` a part may stand
/// there.
pub fn push_digits(base: u32, number: u32, out: &mut WdText) -> Result<(), Memory>
    requires some { 2 ≤ base }
    requires few { base ≤ 36 }
    ensures { OnOk result (out.new ≡ out.old ++ digits_text base number) }
{
    if number == 0 {
        return Ok(());
    }
    push_digits(base, number / base, out)?;
    out.push(char::from_digit(number % base, base).unwrap())
}

/// Adds a character as an escape.
fn push_escaped(c: char, out: &mut WdText) -> Result<(), Memory>
    ensures { OnOk result (out.new ≡ out.old ++ escaped c) }
{
    out.push('\\')?;
    push_digits(16, c as u32, out)?;
    out.push(' ')
}

/// Adds a character of a name.
fn push_of_name(c: char, out: &mut WdText) -> Result<(), Memory>
    ensures { OnOk result (out.new ≡ out.old ++ name_written c) }
{
    if is_of_name(c) {
        out.push(c)
    } else {
        push_escaped(c, out)
    }
}

/// Adds a character of a name where no digit may stand.
fn push_first(c: char, out: &mut WdText) -> Result<(), Memory>
    ensures { OnOk result (out.new ≡ out.old ++ first_written c) }
{
    if c.is_ascii_digit() {
        push_escaped(c, out)
    } else {
        push_of_name(c, out)
    }
}

/// Adds the characters of a name behind its first.
fn push_others(text: &[char], out: &mut WdText) -> Result<(), Memory>
    ensures { OnOk result (out.new ≡ out.old ++ flat_map name_written text.now) }
{
    for c in text {
        push_of_name(*c, out)?;
    }
    Ok(())
}

/// Adds the characters of an identifier.
fn push_identifier(text: &[char], out: &mut WdText) -> Result<(), Memory>
    ensures { OnOk result (out.new ≡ out.old ++ printed_identifier text.now) }
{
    match text {
        ['-'] => push_escaped('-', out),
        ['-', second, rest @ ..] => {
            out.push('-')?;
            push_first(*second, out)?;
            push_others(rest, out)
        }
        [first, rest @ ..] => {
            push_first(*first, out)?;
            push_others(rest, out)
        }
        [] => Ok(()),
    }
}

/// Adds a name as an identifier that reads as it: each character that can't stand as an escape in
/// hex. After `Memory` a part may stand there.
pub fn print_identifier(alloc: Global, name: &WdText, out: &mut WdText) -> Result<(), Memory>
    requires { is_name name.now ≡ true }
    ensures form { OnOk result (out.new ≡ out.old ++ printed_identifier name.now) }
    ensures reads { OnOk result ((rest : List ℕ) → begins_name rest ≡ false → IdentifierIs (printed_identifier name.now ++ rest) name.now rest) }
{
    let text = characters(alloc, name.as_str())?;
    push_identifier(&text, out)
}

/// Adds a character of a string in `"`.
fn push_of_string(c: char, out: &mut WdText) -> Result<(), Memory>
    ensures { OnOk result (out.new ≡ out.old ++ string_written c) }
{
    if c == '"' || c == '\\' || is_line_break(c) {
        push_escaped(c, out)
    } else {
        out.push(c)
    }
}

/// Adds the characters of a string.
fn push_all_of_string(text: &[char], out: &mut WdText) -> Result<(), Memory>
    ensures { OnOk result (out.new ≡ out.old ++ flat_map string_written text.now) }
{
    for c in text {
        push_of_string(*c, out)?;
    }
    Ok(())
}

/// Adds a text as a string in `"` that reads as it. After `Memory` a part may stand there.
pub fn print_string(alloc: Global, text: &WdText, out: &mut WdText) -> Result<(), Memory>
    requires { is_text text.now ≡ true }
    ensures form { OnOk result (out.new ≡ out.old ++ printed_string text.now) }
    ensures reads { OnOk result ((rest : List ℕ) → StringIs (printed_string text.now ++ rest) text.now rest) }
{
    let characters = characters(alloc, text.as_str())?;
    out.push('"')?;
    push_all_of_string(&characters, out)?;
    out.push('"')
}
