ghost use Rattle.std.specs.Prelude.{◌≡◌, ◌∷◌, ◌++◌, true, codes, IfOk, OnOk};
ghost use Rattle.std.specs.List.{flat_map, list_all};
ghost use Rattle.selectors.specs.Grammar.{test_text, GrammarIs};
ghost use Rattle.selectors.specs.Printing.{printed_identifier, printed_string, printed_step};
ghost use Rattle.selectors.specs.PrintingSelectors.{printed_plain, printed_simple, printed_compound, combinator_text, printed_join, printed_complex, printed_next, printed_selector};
ghost use Rattle.selectors.specs.Texted.{is_text, is_name, is_small};
ghost use Rattle.selectors.specs.WellFormed.{is_compound_of, is_plain, is_simple, is_compound, is_joined, is_complex, is_selector};

use crate::printed_names::{print_identifier, print_string};
use crate::printed_steps::print_step;
use crate::selector::{Combinator, Complex, Compound, JoinList, Selector, Simple, Test};
use std::alloc::Global;
use wd_json::{Memory, WdText};

/// Adds a text of ASCII.
fn push_text(text: &str, out: &mut WdText) -> Result<(), Memory>
    ensures { OnOk result (out.new ≡ out.old ++ text.now) }
{
    for byte in text.as_bytes() {
        out.push(char::from(*byte))?;
    }
    Ok(())
}

fn print_test(test: Test, out: &mut WdText) -> Result<(), Memory>
    ensures { OnOk result (out.new ≡ out.old ++ test_text test) }
{
    match test {
        Test::Equal => push_text("=", out),
        Test::Word => push_text("~=", out),
        Test::Dash => push_text("|=", out),
        Test::Starts => push_text("^=", out),
        Test::Ends => push_text("$=", out),
        Test::Holds => push_text("*=", out),
    }
}

fn print_has(alloc: Global, name: &WdText, out: &mut WdText) -> Result<(), Memory>
    requires { is_name name.now ≡ true }
    ensures { OnOk result (out.new ≡ out.old ++ (91 ∷ printed_identifier name.now ++ codes "]")) }
{
    out.push('[')?;
    print_identifier(alloc, name, out)?;
    push_text("]", out)
}

fn print_attribute(
    alloc: Global,
    name: &WdText,
    test: Test,
    text: &WdText,
    out: &mut WdText,
) -> Result<(), Memory>
    requires name { is_name name.now ≡ true }
    requires text { is_text text.now ≡ true }
    ensures { OnOk result (out.new ≡ out.old ++ (91 ∷ printed_identifier name.now ++ test_text test ++ printed_string text.now ++ codes "]")) }
{
    out.push('[')?;
    print_identifier(alloc, name, out)?;
    print_test(test, out)?;
    print_string(alloc, text, out)?;
    push_text("]", out)
}

fn print_marked(alloc: Global, mark: char, name: &WdText, out: &mut WdText) -> Result<(), Memory>
    requires { is_name name.now ≡ true }
    ensures { OnOk result (out.new ≡ out.old ++ (mark ∷ printed_identifier name.now)) }
{
    out.push(mark)?;
    print_identifier(alloc, name, out)
}

fn print_nth(a: i64, b: i64, out: &mut WdText) -> Result<(), Memory>
    requires a { is_small a ≡ true }
    requires b { is_small b ≡ true }
    ensures { OnOk result (out.new ≡ out.old ++ (codes ":nth-child(" ++ printed_step a b ++ codes ")")) }
{
    push_text(":nth-child(", out)?;
    print_step(a, b, out)?;
    push_text(")", out)
}

fn print_plain(alloc: Global, simple: &Simple, out: &mut WdText) -> Result<(), Memory>
    requires { is_plain simple.now ≡ true }
    ensures { OnOk result (out.new ≡ out.old ++ printed_plain simple.now) }
{
    match simple {
        Simple::Tag(text) => print_identifier(alloc, text, out),
        Simple::Any => push_text("*", out),
        Simple::Id(text) => print_marked(alloc, '#', text, out),
        Simple::Class(word) => print_marked(alloc, '.', word, out),
        Simple::Has(name) => print_has(alloc, name, out),
        Simple::Attr(name, test, text) => print_attribute(alloc, name, *test, text, out),
        Simple::Not(_) => Ok(()),
        Simple::FirstChild => push_text(":first-child", out),
        Simple::LastChild => push_text(":last-child", out),
        Simple::Nth(a, b) => print_nth(*a, *b, out),
        Simple::Empty => push_text(":empty", out),
        Simple::Root => push_text(":root", out),
        Simple::Checked => push_text(":checked", out),
        Simple::Enabled => push_text(":enabled", out),
        Simple::Disabled => push_text(":disabled", out),
    }
}

fn print_each_plain(alloc: Global, compound: &Compound, out: &mut WdText) -> Result<(), Memory>
    requires { list_all is_plain compound.now ≡ true }
    ensures { OnOk result (out.new ≡ out.old ++ flat_map printed_plain compound.now) }
{
    for simple in compound.as_slice() {
        print_plain(alloc, simple, out)?;
    }
    Ok(())
}

fn print_not(alloc: Global, compound: &Compound, out: &mut WdText) -> Result<(), Memory>
    requires { is_compound_of is_plain compound.now ≡ true }
    ensures { OnOk result (out.new ≡ out.old ++ (codes ":not(" ++ flat_map printed_plain compound.now ++ codes ")")) }
{
    push_text(":not(", out)?;
    print_each_plain(alloc, compound, out)?;
    push_text(")", out)
}

fn print_simple(alloc: Global, simple: &Simple, out: &mut WdText) -> Result<(), Memory>
    requires { is_simple simple.now ≡ true }
    ensures { OnOk result (out.new ≡ out.old ++ printed_simple simple.now) }
{
    match simple {
        Simple::Not(compound) => print_not(alloc, compound, out),
        _ => print_plain(alloc, simple, out),
    }
}

fn print_compound(alloc: Global, compound: &Compound, out: &mut WdText) -> Result<(), Memory>
    requires { is_compound compound.now ≡ true }
    ensures { OnOk result (out.new ≡ out.old ++ printed_compound compound.now) }
{
    for simple in compound.as_slice() {
        print_simple(alloc, simple, out)?;
    }
    Ok(())
}

fn print_combinator(combinator: Combinator, out: &mut WdText) -> Result<(), Memory>
    ensures { OnOk result (out.new ≡ out.old ++ combinator_text combinator) }
{
    match combinator {
        Combinator::Descendant => push_text(" ", out),
        Combinator::Child => push_text(" > ", out),
        Combinator::Next => push_text(" + ", out),
        Combinator::Later => push_text(" ~ ", out),
    }
}

fn print_join(alloc: Global, join: &(Combinator, Compound), out: &mut WdText) -> Result<(), Memory>
    requires { is_joined join.now ≡ true }
    ensures { OnOk result (out.new ≡ out.old ++ printed_join join.now) }
{
    print_combinator(join.0, out)?;
    print_compound(alloc, &join.1, out)
}

fn print_joins(alloc: Global, joins: &JoinList, out: &mut WdText) -> Result<(), Memory>
    requires { list_all is_joined joins.now ≡ true }
    ensures { OnOk result (out.new ≡ out.old ++ flat_map printed_join joins.now) }
{
    for join in joins.as_slice() {
        print_join(alloc, join, out)?;
    }
    Ok(())
}

fn print_complex(alloc: Global, complex: &Complex, out: &mut WdText) -> Result<(), Memory>
    requires { is_complex complex.now ≡ true }
    ensures { OnOk result (out.new ≡ out.old ++ printed_complex complex.now) }
{
    print_compound(alloc, &complex.first, out)?;
    print_joins(alloc, &complex.rest, out)
}

fn print_next(alloc: Global, complex: &Complex, out: &mut WdText) -> Result<(), Memory>
    requires { is_complex complex.now ≡ true }
    ensures { OnOk result (out.new ≡ out.old ++ printed_next complex.now) }
{
    push_text(", ", out)?;
    print_complex(alloc, complex, out)
}

fn print_others(alloc: Global, others: &[Complex], out: &mut WdText) -> Result<(), Memory>
    requires { list_all is_complex others.now ≡ true }
    ensures { OnOk result (out.new ≡ out.old ++ flat_map printed_next others.now) }
{
    for complex in others {
        print_next(alloc, complex, out)?;
    }
    Ok(())
}

fn print_all(alloc: Global, selector: &[Complex], out: &mut WdText) -> Result<(), Memory>
    requires { is_selector selector.now ≡ true }
    ensures { OnOk result (out.new ≡ out.old ++ printed_selector selector.now) }
{
    match selector {
        [first, others @ ..] => {
            print_complex(alloc, first, out)?;
            print_others(alloc, others, out)
        }
        [] => Ok(()),
    }
}

/// A text that is the selector: compounds without spaces, ` > `, ` + `, ` ~ ` or one space between
/// them, and `, ` between alternatives. Strings stand in `"`, an+b has both numbers, and each
/// character that can't stand is an escape in hex. `Memory` where there is no memory for it.
#[tactic(auto, using(crate::proofs::PrintedSelectors::reads_from))]
pub fn print(alloc: Global, selector: &Selector) -> Result<WdText, Memory>
    requires { is_selector selector.now ≡ true }
    ensures form { IfOk result (λ text. text ≡ printed_selector selector.now) }
    ensures reads { IfOk result (λ text. GrammarIs text selector.now) }
{
    let mut out = WdText::new(alloc);
    print_all(alloc, selector.as_slice(), &mut out)?;
    Ok(out)
}
