//! Whole numbers, from their numerals.

ghost use Rattle.std.specs.Prelude.{◌≡◌, ◌==◌, slice_index, Some, true, false, IfSome};
ghost use Rattle.serde_json.specs.Find.{of_integer};
ghost use Rattle.serde_json.specs.Read.{number_of, number_from};
ghost use Rattle.wd_json.specs.Whole.{is_whole_number};

use fast_float::Numeral;

/// The largest whole number that is read, 2^53 - 1, as in ECMAScript; the least is its negative.
pub const MAX_WHOLE: i64 = 9_007_199_254_740_991;

// A numeral without sign.
fn not_below_zero(numeral: &Numeral<'_>) -> Option<i64>
    ensures same { IfSome result (λ n. number_from false numeral.now ≡ Some (of_integer n)) }
    ensures whole { IfSome result (λ n. is_whole_number (of_integer n) ≡ true) }
{
    match numeral.to_u64() {
        Some(n) if n <= MAX_WHOLE as u64 => Some(n as i64),
        _ => None,
    }
}

// A numeral after a minus; `-0` isn't whole.
fn below_zero(numeral: &Numeral<'_>) -> Option<i64>
    ensures same { IfSome result (λ n. number_from true numeral.now ≡ Some (of_integer n)) }
    ensures whole { IfSome result (λ n. is_whole_number (of_integer n) ≡ true) }
{
    match numeral.to_u64() {
        Some(n) if 0 < n && n <= MAX_WHOLE as u64 => Some(-(n as i64)),
        _ => None,
    }
}

fn has_minus(bytes: &[u8]) -> bool
    ensures { result ≡ (slice_index bytes.now 0 == 45) }
{
    !bytes.is_empty() && bytes[0] == b'-'
}

/// The number that a number's text writes, where it is whole and within plus or minus 2^53 - 1.
pub fn integer(text: &str) -> Option<i64>
    ensures same { IfSome result (λ n. number_of text.now ≡ Some (of_integer n)) }
    ensures whole { IfSome result (λ n. is_whole_number (of_integer n) ≡ true) }
{
    let bytes = text.as_bytes();
    if has_minus(bytes) {
        below_zero(&Numeral::scan(&bytes[1..]))
    } else {
        not_below_zero(&Numeral::scan(bytes))
    }
}
