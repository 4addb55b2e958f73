//! Identifiers, escapes, strings and steps that are spelled by hand, as tests.

use crate::shown::{prints, refuses};
use std::test::Fail;

#[test]
fn identifiers_by_hand(rt: HostRuntime) -> Result<(), Fail> {
    prints(
        &rt,
        rt.alloc(),
        &[
            ("_x-1 y", "_x-1 y"),
            ("a1", "a1"),
            ("\u{80}x", "\u{80}x"),
            ("_\u{e9}", "_\u{e9}"),
            ("-\\.", "-\\2e "),
            ("\\\"", "\\22 "),
            ("#\\30", "#\\30 "),
        ],
    )?;
    refuses(
        &rt,
        rt.alloc(),
        &["-.", "-1", "#*", "\u{7f}", "\\\n", "\\\u{c}"],
    )
}

const ESCAPES: [(&str, &str); 24] = [
    ("-\\-", "--"),
    ("-\\31 x", "-\\31 x"),
    // what follows the one white space is a combinator
    ("\\31  x", "\\31  x"),
    ("\\31\n\rx", "\\31  x"),
    ("\\31\r\rx", "\\31  x"),
    ("\\31\tx", "\\31 x"),
    ("\\31\u{c}x", "\\31 x"),
    ("\\31\r\nx", "\\31 x"),
    // six digits at most
    ("\\0000031", "\\3 1"),
    ("\\000000a", "\u{fffd}a"),
    ("\\9", "\\9 "),
    ("\\a", "\\a "),
    ("\\7f", "\\7f "),
    ("\\e9", "\u{e9}"),
    ("\\20ac", "\u{20ac}"),
    ("\\1F600", "\u{1f600}"),
    ("\\10ffff", "\u{10ffff}"),
    ("\\110000", "\u{fffd}"),
    ("\\d7ff", "\u{d7ff}"),
    ("\\d800 a", "\u{fffd}a"),
    ("\\dfff", "\u{fffd}"),
    ("\\g", "g"),
    ("\\ x", "\\20 x"),
    ("\\\\", "\\5c "),
];

#[test]
fn escapes_by_hand(rt: HostRuntime) -> Result<(), Fail> {
    prints(&rt, rt.alloc(), &ESCAPES)
}

#[test]
fn strings_by_hand(rt: HostRuntime) -> Result<(), Fail> {
    prints(
        &rt,
        rt.alloc(),
        &[
            ("[a='b\"']", "[a=\"b\\22 \"]"),
            ("[a=\"b'\"]", "[a=\"b'\"]"),
            ("[a=\"b\\\rc\"]", "[a=\"bc\"]"),
            ("[a=\"b\\\u{c}c\"]", "[a=\"bc\"]"),
            ("[a=\"\\31\"]", "[a=\"1\"]"),
            ("[a=\"\\61\n\"]", "[a=\"a\"]"),
            ("[a=\"\\\"\"]", "[a=\"\\22 \"]"),
            ("[a=\"\\g\t\"]", "[a=\"g\t\"]"),
            ("[a=\"1 b\"]", "[a=\"1 b\"]"),
            ("[a=\"\\d\\c\"]", "[a=\"\\d \\c \"]"),
            ("[a=\"'\t\"]", "[a=\"'\t\"]"),
        ],
    )
}

#[test]
fn no_strings_by_hand(rt: HostRuntime) -> Result<(), Fail> {
    refuses(
        &rt,
        rt.alloc(),
        &[
            "[a=\"b\"c]",
            "[a=''\"]",
            "[a=\"b",
            "[a=\"b']",
            "[a=\"]",
            "[a=\"b\rc\"]",
            "[a=\"b\u{c}c\"]",
            "[a=\"b\\\n\rc\"]",
            "[a='\\']",
            "[a=\"\\",
        ],
    )
}

#[test]
fn steps_by_hand(rt: HostRuntime) -> Result<(), Fail> {
    prints(
        &rt,
        rt.alloc(),
        &[
            (":nth-child(even)", ":nth-child(2n+0)"),
            (":nth-child(ODD ).x", ":nth-child(2n+1).x"),
            (":nth-child( \t3)", ":nth-child(0n+3)"),
            (":nth-child(+3)", ":nth-child(0n+3)"),
            (":nth-child(-3 )", ":nth-child(0n-3)"),
            (":nth-child(-N)", ":nth-child(-1n+0)"),
            (":nth-child(+n)", ":nth-child(1n+0)"),
            (":nth-child(2n)", ":nth-child(2n+0)"),
            (":nth-child(2n + 1 )", ":nth-child(2n+1)"),
            (":nth-child(2n- 1)", ":nth-child(2n-1)"),
            (":nth-child(-2n -3)", ":nth-child(-2n-3)"),
            (":nth-child(-n-3)", ":nth-child(-1n-3)"),
            (":nth-child(n-1)", ":nth-child(1n-1)"),
            (":nth-child(-0n+0)", ":nth-child(0n+0)"),
            (":nth-child(2n\t+\n1)", ":nth-child(2n+1)"),
            (":nth-child(000000001)", ":nth-child(0n+1)"),
        ],
    )
}

#[test]
fn no_steps_by_hand(rt: HostRuntime) -> Result<(), Fail> {
    refuses(
        &rt,
        rt.alloc(),
        &[
            ":nth-child(2n 1)",
            ":nth-child(2n+)",
            ":nth-child(2n++1)",
            ":nth-child(+ 3)",
            ":nth-child(- n)",
            ":nth-child(0000000001)",
            ":nth-child(n+1000000000)",
            ":nth-child(e)",
            ":nth-child(evenn)",
            ":nth-child(+even)",
            ":nth-child(n1)",
            ":nth-child(2nn)",
            ":nth-child(n+1n)",
            ":nth-child(\\6e)",
            ":nth-child(",
            ":nth-child(3",
            ":nth-child(odd",
        ],
    )
}
