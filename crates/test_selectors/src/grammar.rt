//! What the grammar of selectors reads and how it is printed, and what it refuses: as tests.

use crate::shown::{prints, refuses};
use selectors::one_selector;
use std::test::Fail;

const SIMPLES: [(&str, &str); 31] = [
    ("*", "*"),
    ("div", "div"),
    ("DIV", "DIV"),
    ("#a", "#a"),
    (".b", ".b"),
    ("*.b", "*.b"),
    ("div#a.b", "div#a.b"),
    (".a.b.c", ".a.b.c"),
    (":root", ":root"),
    (":ROOT", ":root"),
    (":first-child", ":first-child"),
    (":Last-Child", ":last-child"),
    (":empty", ":empty"),
    (":checked", ":checked"),
    (":enabled", ":enabled"),
    (":disabled", ":disabled"),
    ("a:first-child:last-child", "a:first-child:last-child"),
    (":not(.a)", ":not(.a)"),
    (":NOT( .a )", ":not(.a)"),
    (":not(div.a[b])", ":not(div.a[b])"),
    (":not(*)", ":not(*)"),
    ("p:not(.a):not(.b)", "p:not(.a):not(.b)"),
    (":nth-child(2n+1)", ":nth-child(2n+1)"),
    (":nth-child(odd)", ":nth-child(2n+1)"),
    (":nth-child( EVEN )", ":nth-child(2n+0)"),
    (":nth-child(3)", ":nth-child(0n+3)"),
    (":nth-child(n)", ":nth-child(1n+0)"),
    (":nth-child(-n + 3)", ":nth-child(-1n+3)"),
    (":nth-child( +2N - 1 )", ":nth-child(2n-1)"),
    (":nth-child(-5)", ":nth-child(0n-5)"),
    (
        ":nth-child(999999999n-999999999)",
        ":nth-child(999999999n-999999999)",
    ),
];

#[test]
fn simples(rt: HostRuntime) -> Result<(), Fail> {
    prints(&rt, rt.alloc(), &SIMPLES)
}

#[test]
fn attributes(rt: HostRuntime) -> Result<(), Fail> {
    prints(
        &rt,
        rt.alloc(),
        &[
            ("[id]", "[id]"),
            ("[ id ]", "[id]"),
            ("[id=a]", "[id=\"a\"]"),
            ("[id=\"a\\31 b\"]", "[id=\"a1b\"]"),
            ("[\tid = 'a' ]", "[id=\"a\"]"),
            ("[id~=a]", "[id~=\"a\"]"),
            ("[id|=a]", "[id|=\"a\"]"),
            ("[id^=a]", "[id^=\"a\"]"),
            ("[id$=a]", "[id$=\"a\"]"),
            ("[id*=a]", "[id*=\"a\"]"),
            ("[id=\"\"]", "[id=\"\"]"),
            ("[id='a\"b']", "[id=\"a\\22 b\"]"),
            ("[id=\"a'b\"]", "[id=\"a'b\"]"),
            ("[id=\"a\\\nb\"]", "[id=\"ab\"]"),
            ("[id=\"a\\\r\nb\"]", "[id=\"ab\"]"),
            ("[id=\"a\\a b\"]", "[id=\"a\\a b\"]"),
            ("[id=\"\\\\\"]", "[id=\"\\5c \"]"),
            ("[a=b][c]", "[a=\"b\"][c]"),
            ("div:not([id])", "div:not([id])"),
        ],
    )
}

#[test]
fn names(rt: HostRuntime) -> Result<(), Fail> {
    prints(
        &rt,
        rt.alloc(),
        &[
            ("#\\31 x", "#\\31 x"),
            ("#\\31x", "#\\31 x"),
            ("#\\000031x", "#\\31 x"),
            ("a-b", "a-b"),
            ("-a", "-a"),
            ("--", "--"),
            ("_a1", "_a1"),
            ("\u{e9}", "\u{e9}"),
            ("\\-", "\\2d "),
            ("-\\31 ", "-\\31 "),
            ("a\\.b", "a\\2e b"),
            ("a\\ b", "a\\20 b"),
            ("\\61 b", "ab"),
            ("\\61\r\nb", "ab"),
            ("\\61  b", "a b"),
            ("a\\0000412", "aA2"),
            ("\\0 a", "\u{fffd}a"),
            ("a\\d800 b", "a\u{fffd}b"),
            ("a\\110000 b", "a\u{fffd}b"),
        ],
    )
}

#[test]
fn combinators_and_alternatives(rt: HostRuntime) -> Result<(), Fail> {
    one_selector();
    prints(
        &rt,
        rt.alloc(),
        &[
            ("a b", "a b"),
            ("a \t\n b", "a b"),
            ("a\rb", "a b"),
            ("a\u{c}b", "a b"),
            ("a>b", "a > b"),
            ("a > b", "a > b"),
            ("a+b", "a + b"),
            ("a ~b", "a ~ b"),
            ("nav > ul li", "nav > ul li"),
            ("a > b + c ~ d e", "a > b + c ~ d e"),
            ("a,b", "a, b"),
            (" a , b ", "a, b"),
            ("\na\n", "a"),
            ("#a #b", "#a #b"),
            ("a.b > #c[d],*:root", "a.b > #c[d], *:root"),
            ("a :not( b ) c", "a :not(b) c"),
        ],
    )
}

#[test]
fn refused_lists_and_names(rt: HostRuntime) -> Result<(), Fail> {
    refuses(
        &rt,
        rt.alloc(),
        &[
            "", " ", ",", "a,", ",a", "a,,b", "div >", "> div", "a > > b", "a +", "~", "#", ".",
            "# a", ". a", "#1", "#-1", "-", "#-", "1a", "a*", "**", "*a", "a|b", "a/**/b", "a)",
            "a{", "a\\", "a\\\nb", "\\", "a\0", "a\0b", "a!", "@a", "a#", "a..b", "a>b,", "\"a\"",
        ],
    )
}

const REFUSED_CONDITIONS: [&str; 37] = [
    "[",
    "[]",
    "[id",
    "[id=]",
    "[id=\"a]",
    "[id=\"a\nb\"]",
    "[id=a b]",
    "[1]",
    "[id=1]",
    "[id==a]",
    "[id!=a]",
    "[id ~ =a]",
    "[id=a i]",
    ":",
    ": root",
    ":hover",
    "::before",
    ":root()",
    ":rooted",
    ":r\\6f ot",
    ":not",
    ":not()",
    ":not(",
    ":not(a",
    ":not(:not(a))",
    ":not(a,b)",
    ":not(a b)",
    ":not (a)",
    ":nth-child",
    ":nth-child()",
    ":nth-child(2n +)",
    ":nth-child(2n+1",
    ":nth-child(1000000000)",
    ":nth-child (1)",
    ":nth-child(2 n)",
    ":nth-child(n 1)",
    ":nth-last-child(1)",
];

#[test]
fn refused_conditions(rt: HostRuntime) -> Result<(), Fail> {
    refuses(&rt, rt.alloc(), &REFUSED_CONDITIONS)
}
