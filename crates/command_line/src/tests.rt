use crate::{read, words_spell_one};
use std::process::Abort;
use std::test::Fail;
use wd_json::WdText;

static OPTIONS: [&str; 2] = ["name", "port"];

#[test]
fn words_give_values_and_a_positional(rt: HostRuntime) -> Result<(), Fail> {
    words_spell_one();
    let mut words = Vec::new(rt.alloc());
    for word in ["--port=44", "w.site", "--name", "a b"] {
        words.push(WdText::of(rt.alloc(), word)?)?;
    }
    let given = read(rt.alloc(), OPTIONS.as_slice(), words.as_slice())?.expect(
        &rt,
        "the words are of the rule",
    );
    assert_eq!(rt; given.value("name"), Some("a b"));
    assert_eq!(rt; given.value("port"), Some("44"));
    assert_eq!(rt; given.value("connections"), None);
    assert_eq!(rt; given.positional, Some("w.site"));
    Ok(())
}

#[test]
fn a_word_behind_two_dashes_is_a_positional(rt: HostRuntime) -> Result<(), Fail> {
    let mut words = Vec::new(rt.alloc());
    for word in ["--name=a=b", "--", "--port"] {
        words.push(WdText::of(rt.alloc(), word)?)?;
    }
    let given = read(rt.alloc(), OPTIONS.as_slice(), words.as_slice())?.expect(
        &rt,
        "the words are of the rule",
    );
    assert_eq!(rt; given.value("name"), Some("a=b"));
    assert_eq!(rt; given.value("port"), None);
    assert_eq!(rt; given.positional, Some("--port"));
    Ok(())
}

#[test]
fn other_words_give_nothing(rt: HostRuntime) -> Result<(), Fail> {
    let cases: [&[&str]; 12] = [
        &["--help"],
        &["--version"],
        &["-h"],
        &["--name"],
        &["--name="],
        &["--name", ""],
        &["--name", "-x"],
        &["--name", "--"],
        &["--name=a", "--name", "b"],
        &["a", "--", "b"],
        &["--", "a", "b"],
        &["--", ""],
    ];
    for case in cases {
        let mut words = Vec::new(rt.alloc());
        for word in case {
            words.push(WdText::of(rt.alloc(), word)?)?;
        }
        assert!(rt; read(rt.alloc(), OPTIONS.as_slice(), words.as_slice())?.is_none());
    }
    Ok(())
}
