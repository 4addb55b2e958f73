ghost use Rattle.std.specs.Prelude.{true, false, ◌≡◌, ℤ, ℕ, List, ◌<◌, length, MatchOption};
ghost use Rattle.std.specs.Option.{option_map};
ghost use Rattle.std.specs.Char.{is_ascii_digit, digit_value};
ghost use Rattle.selectors.specs.Reading.{front, behind};
ghost use Rattle.selectors.specs.Steps.{signed as signed_by, number, ArgumentIs};
ghost use Rattle.selectors.specs.ReadingSteps.{word_at, closed_at, ends_at, added_at, second_at, unsigned_at, signed_at, argument_at};

use crate::escapes::without_white;

/// The sign of a number of an+b.
#[derive(Clone, Copy, Debug)]
pub enum Sign {
    /// There is none.
    NoSign,
    /// A `+`.
    Plus,
    /// A `-`.
    Minus,
}

/// What an+b means, a and then b, and the text behind it.
pub type Argument<'a> = ((i64, i64), &'a [char]);

/// Up to nine digits at the front of a text.
#[derive(Drop)]
struct Read<'a> {
    /// The number that they write.
    value: u32,
    /// How many there are.
    count: usize,
    /// The text behind them.
    rest: &'a [char],
}

/// The digits at the front, at most nine.
#[tactic(auto, using(crate::proofs::Fronts::front_steps))]
fn digits(text: &[char]) -> Read<'_>
    ensures value { result.value ≡ number (front is_ascii_digit 9 text.now) }
    ensures count { result.count ≡ length (front is_ascii_digit 9 text.now) }
    ensures rest { result.rest.now ≡ behind is_ascii_digit 9 text.now }
{
    let mut value = 0;
    let mut count = 0;
    let mut rest = text;
    for _i in 0..9u32 {
        let Some((first, after)) = rest.split_first() else {
            return Read { value, count, rest };
        };
        let Some(digit) = decimal_digit(*first) else {
            return Read { value, count, rest };
        };
        value = value * 10 + digit;
        count += 1;
        rest = after;
    }
    Read { value, count, rest }
}

/// What a decimal digit stands for, and None for any other character.
fn decimal_digit(c: char) -> Option<u32>
    ensures { MatchOption result (is_ascii_digit c ≡ false) (λ digit. (is_ascii_digit c ≡ true) × (digit ≡ digit_value c) × (digit < 10)) }
{
    if c.is_ascii_digit() {
        c.to_digit(10)
    } else {
        None
    }
}

/// A number with its sign.
fn signed(sign: Sign, value: u32) -> i64
    ensures { result ≡ signed_by sign value }
{
    match sign {
        Sign::Minus => -i64::from(value),
        Sign::NoSign | Sign::Plus => i64::from(value),
    }
}

/// The text behind a word, ASCII case ignored. None where the text doesn't begin with it.
pub fn without_word<'a>(word: &[char], text: &'a [char]) -> Option<&'a [char]>
    ensures { option_map (λ rest. rest.now) result ≡ word_at word.now text.now }
{
    let mut rest = text;
    for letter in word {
        let (first, after) = rest.split_first()?;
        if !first.eq_ignore_ascii_case(letter) {
            return None;
        }
        rest = after;
    }
    Some(rest)
}

/// The text behind a closing bracket.
fn closed(text: &[char]) -> Option<&[char]>
    ensures { option_map (λ rest. rest.now) result ≡ closed_at text.now }
{
    match text {
        [')', rest @ ..] => Some(rest),
        _ => None,
    }
}

/// a and b, where only white space stands before the closing bracket.
fn ends(a: i64, b: i64, text: &[char]) -> Option<Argument<'_>>
    ensures { option_map (λ x. (x.0, x.1.now)) result ≡ ends_at a b text.now }
{
    let rest = closed(without_white(text))?;
    Some(((a, b), rest))
}

/// Reads the digits of b, behind its sign, and the end.
fn added(a: i64, sign: Sign, text: &[char]) -> Option<Argument<'_>>
    ensures { option_map (λ x. (x.0, x.1.now)) result ≡ added_at a sign text.now }
{
    let read = digits(text);
    if read.count == 0 {
        return None;
    }
    ends(a, signed(sign, read.value), read.rest)
}

/// Reads b with its sign, or no b, and the end: the text behind the n, without its white space.
fn second(a: i64, text: &[char]) -> Option<Argument<'_>>
    ensures { option_map (λ x. (x.0, x.1.now)) result ≡ second_at a text.now }
{
    let (first, after) = text.split_first()?;
    if *first == '+' {
        added(a, Sign::Plus, without_white(after))
    } else if *first == '-' {
        added(a, Sign::Minus, without_white(after))
    } else {
        ends(a, 0, text)
    }
}

/// Reads digits, an n or none, and what follows: the text behind the first sign.
fn unsigned(sign: Sign, text: &[char]) -> Option<Argument<'_>>
    ensures { option_map (λ x. (x.0, x.1.now)) result ≡ unsigned_at sign text.now }
{
    let read = digits(text);
    if let Some(rest) = without_word(&['n'], read.rest) {
        let factor = if read.count == 0 { 1 } else { read.value };
        return second(signed(sign, factor), without_white(rest));
    }
    if read.count == 0 {
        return None;
    }
    ends(0, signed(sign, read.value), read.rest)
}

/// Reads an+b that is no word, and the end.
fn with_sign(text: &[char]) -> Option<Argument<'_>>
    ensures { option_map (λ x. (x.0, x.1.now)) result ≡ signed_at text.now }
{
    let (first, after) = text.split_first()?;
    if *first == '+' {
        unsigned(Sign::Plus, after)
    } else if *first == '-' {
        unsigned(Sign::Minus, after)
    } else {
        unsigned(Sign::NoSign, text)
    }
}

/// Reads what stands in the brackets of `:nth-child(` (CSS Syntax, "The An+B microsyntax"), and the
/// closing bracket. None exactly where the text doesn't begin so. Both numbers are within plus or
/// minus 999,999,999.
pub fn argument(text: &[char]) -> Option<Argument<'_>>
    ensures exact { MatchOption result ((a b : ℤ) (rest : List ℕ) → ArgumentIs text.now a b rest → ⊥) (λ x. ArgumentIs text.now x.0.0 x.0.1 x.1.now) }
    ensures reads { option_map (λ x. (x.0, x.1.now)) result ≡ argument_at text.now }
{
    let text = without_white(text);
    if let Some(rest) = without_word(&['e', 'v', 'e', 'n'], text) {
        return ends(2, 0, rest);
    }
    if let Some(rest) = without_word(&['o', 'd', 'd'], text) {
        return ends(2, 1, rest);
    }
    with_sign(text)
}
