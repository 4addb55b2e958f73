ghost use Rattle.std.specs.Prelude.{◌≡◌, ◌<◌, true, false, MatchOption};
ghost use Rattle.std.specs.Option.{option_map};
ghost use Rattle.std.specs.Char.{is_ascii_hexdigit, digit_value};
ghost use Rattle.std.specs.Str.Parse.{digits_value};
ghost use Rattle.selectors.specs.Characters.{is_break, is_white};
ghost use Rattle.selectors.specs.Escapes.{scalar_of};
ghost use Rattle.selectors.specs.Reading.{front, behind, after_one, after_blank, after_white, escape_at};

/// Whether this is LF, FF or CR.
pub fn is_line_break(c: char) -> bool
    ensures { result ≡ is_break c }
{
    c == '\n' || c == '\u{c}' || c == '\r'
}

/// Whether this is a space, a tab, LF, FF or CR.
pub fn is_white_space(c: char) -> bool
    ensures { result ≡ is_white c }
{
    c == ' ' || c == '\t' || is_line_break(c)
}

/// What a hex digit stands for, and None for any other character.
fn hex_digit(c: char) -> Option<u32>
    ensures { MatchOption result (is_ascii_hexdigit c ≡ false) (λ digit. (is_ascii_hexdigit c ≡ true) × (digit ≡ digit_value c) × (digit < 16)) }
{
    if c.is_ascii_hexdigit() {
        c.to_digit(16)
    } else {
        None
    }
}

/// The number that up to six hex digits at the front write, and the text behind them.
#[tactic(auto, using(crate::proofs::Fronts::front_steps))]
fn hex_number(text: &[char]) -> (u32, &[char])
    ensures number { result.0 ≡ digits_value 16 (front is_ascii_hexdigit 6 text.now) }
    ensures rest { result.1.now ≡ behind is_ascii_hexdigit 6 text.now }
{
    let mut number = 0;
    let mut rest = text;
    for _i in 0..6u32 {
        let Some((first, after)) = rest.split_first() else {
            return (number, rest);
        };
        let Some(digit) = hex_digit(*first) else {
            return (number, rest);
        };
        number = number * 16 + digit;
        rest = after;
    }
    (number, rest)
}

/// The character of this number, and U+FFFD for zero, a surrogate or a number that is too large.
fn scalar(number: u32) -> char
    ensures { result ≡ scalar_of number }
{
    if number == 0 {
        return '\u{fffd}';
    }
    char::from_u32(number).unwrap_or('\u{fffd}')
}

/// The text behind this character: an LF behind a CR goes with it.
pub fn without_one(c: char, text: &[char]) -> &[char]
    ensures { result.now ≡ after_one c text.now }
{
    match text {
        ['\n', rest @ ..] if c == '\r' => rest,
        _ => text,
    }
}

/// The text without one white space at the front, CR LF as one.
fn without_blank(text: &[char]) -> &[char]
    ensures { result.now ≡ after_blank text.now }
{
    match text {
        [first, rest @ ..] if is_white_space(*first) => without_one(*first, rest),
        _ => text,
    }
}

/// The text without the white space at its front.
pub fn without_white(text: &[char]) -> &[char]
    ensures { result.now ≡ after_white text.now }
{
    let mut rest = text;
    while let Some((first, after)) = rest.split_first() {
        if !is_white_space(*first) {
            return rest;
        }
        rest = after;
    }
    rest
}

/// Reads an escape behind its backslash (CSS Syntax, "consume an escaped code point"): the character
/// that it means, and the text behind it. None where there is no escape.
pub fn escape(text: &[char]) -> Option<(char, &[char])>
    ensures { option_map (λ x. (x.0, x.1.now)) result ≡ escape_at text.now }
{
    let (first, after) = text.split_first()?;
    if first.is_ascii_hexdigit() {
        let (number, rest) = hex_number(text);
        Some((scalar(number), without_blank(rest)))
    } else if is_line_break(*first) {
        None
    } else {
        Some((*first, after))
    }
}
