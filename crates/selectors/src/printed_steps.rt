ghost use Rattle.std.specs.Prelude.{◌≡◌, ◌<◌, true, pos, neg_ℤ, ◌++◌, ◌∷◌, OnOk};
ghost use Rattle.selectors.specs.Steps.{StepIs};
ghost use Rattle.selectors.specs.Texted.{is_small};
ghost use Rattle.selectors.specs.Printing.{number_text, first_text, second_text, printed_step};

use crate::printed_names::push_digits;
use wd_json::{Memory, WdText};

/// Adds a number in decimal.
fn push_number(number: u32, out: &mut WdText) -> Result<(), Memory>
    ensures { OnOk result (out.new ≡ out.old ++ number_text number) }
{
    if number == 0 {
        out.push('0')
    } else {
        push_digits(10, number, out)
    }
}

/// Adds a number with a `-` where it is below 0.
fn push_factor(a: i64, out: &mut WdText) -> Result<(), Memory>
    requires { is_small a ≡ true }
    ensures { OnOk result (out.new ≡ out.old ++ first_text a) }
{
    if a < 0 {
        out.push('-')?;
    }
    push_number(a.unsigned_abs() as u32, out)
}

/// Adds a number with its sign.
fn push_added(b: i64, out: &mut WdText) -> Result<(), Memory>
    requires { is_small b ≡ true }
    ensures { OnOk result (out.new ≡ out.old ++ second_text b) }
{
    let sign = if b < 0 { '-' } else { '+' };
    out.push(sign)?;
    push_number(b.unsigned_abs() as u32, out)
}

/// Adds an+b with both numbers and the sign of b, which reads as the two. Both are within plus or
/// minus 999,999,999. After `Memory` a part may stand there.
pub fn print_step(a: i64, b: i64, out: &mut WdText) -> Result<(), Memory>
    requires a { is_small a ≡ true }
    requires b { is_small b ≡ true }
    ensures form { OnOk result (out.new ≡ out.old ++ printed_step a b) }
    ensures reads { StepIs (printed_step a b) a b }
{
    push_factor(a, out)?;
    out.push('n')?;
    push_added(b, out)
}
