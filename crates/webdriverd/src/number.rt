//! The number that digits spell, up to a limit.

ghost use Rattle.std.specs.Prelude.{◌≡◌, ◌≤◌, ◌+◌, IsTrue, IfSome, min};
ghost use Rattle.std.specs.List.{list_all};
ghost use Rattle.std.specs.Char.{is_ascii_digit};
ghost use Rattle.std.specs.Str.Parse.{digits_value};
ghost use Rattle.webdriverd.specs.Numbers.{number_of};

/// The most digits of a number.
const MOST_DIGITS: usize = 10;

/// Whether all bytes are ASCII digits.
fn are_digits(word: &[u8]) -> bool
    ensures { result ≡ list_all is_ascii_digit word.now }
{
    word.iter().all(|byte| byte.is_ascii_digit())
}

/// The number that digits spell, or the one after the limit where it is more.
fn value_of(digits: &[u8], limit: u32) -> u64
    requires { IsTrue (list_all is_ascii_digit digits.now) }
    ensures { result ≡ min (digits_value 10 digits.now) (limit + 1) }
{
    let end = u64::from(limit) + 1;
    let mut value = 0;
    for digit in digits {
        value = (value * 10 + u64::from(*digit - b'0')).min(end);
    }
    value
}

/// The number from 1 to the limit that one to ten digits spell.
pub(crate) fn number_of(limit: u32, word: &str) -> Option<u32>
    ensures number { result ≡ number_of limit word.now }
    ensures bound { IfSome result (λ n. n ≤ limit) }
{
    let digits = word.as_bytes();
    if digits.is_empty() || digits.len() > MOST_DIGITS || !are_digits(digits) {
        return None;
    }
    let value = value_of(digits, limit);
    if value == 0 || value > u64::from(limit) {
        return None;
    }
    Some(value as u32)
}
