//! Which values spell effects, and how effects are written again, as tests.

use page_engine::{Effect, PromptKind, effects_fit};
use page_file::{EffectFault, effects_json, effects_of};
use std::alloc::Global;
use std::test::Fail;
use wd_json::{JsonFault, WdBytes, WdList, WdText, read, write};

/// The lists of effects, one of each word, and lists inside one another.
const SPELLED: [&[u8]; 12] = [
    b"[]",
    b"[[\"remove\",2]]",
    b"[[\"insert\",2,1,4294967295],[\"focus\",0]]",
    b"[[\"attr\",1,\"Id\",\"a\"],[\"attr\",1,\"id\",null]]",
    b"[[\"text\",3,\"t\"],[\"value\",3,\"\"]]",
    b"[[\"box\",1,[-1000000,1000000,0,1000000]],[\"box\",1,null]]",
    b"[[\"layer\",1,-1000],[\"layer\",1,1000]]",
    b"[[\"hidden\",1,true],[\"checked\",1,false]]",
    b"[[\"go\",\"/\"],[\"open\",\"http://a.test/\"]]",
    b"[[\"prompt\",\"alert\",\"Sure?\",\"\",[],[[\"remove\",2]]]]",
    b"[[\"after\",1,[[\"prompt\",\"confirm\",\"q\",\"\",[[\"focus\",1]],[]]]]]",
    b"[[\"after\",1099511627776,[]],[\"prompt\",\"prompt\",\"\",\"d\",[],[]]]",
];

/// Values that spell no list of effects.
const OTHERS: [&[u8]; 22] = [
    b"null",
    b"{}",
    b"[\"remove\",2]",
    b"[[]]",
    b"[[2,\"remove\"]]",
    b"[[\"Remove\",2]]",
    b"[[\"remove\"]]",
    b"[[\"remove\",2,3]]",
    b"[[\"remove\",-1]]",
    b"[[\"remove\",4294967296]]",
    b"[[\"remove\",2],[\"remove\",null]]",
    b"[[\"attr\",1,\"id\",2]]",
    b"[[\"box\",1,[0,0,1000001,0]]]",
    b"[[\"box\",1,[0,0,0,-1]]]",
    b"[[\"box\",1,[0,0,0]]]",
    b"[[\"layer\",1,1001]]",
    b"[[\"hidden\",1,null]]",
    b"[[\"after\",0,[]]]",
    b"[[\"after\",1099511627777,[]]]",
    b"[[\"after\",1,[[\"after\",1,[]]]]]",
    b"[[\"prompt\",\"alert\",\"\",\"\",[[\"after\",1,[]]],[]]]",
    b"[[\"prompt\",\"alert\",\"\",\"\",[],[[\"prompt\",\"alert\",\"\",\"\",[],[]]]]]",
];

/// What the text's value spells: how many effects, or why it spells none.
fn count_of(alloc: Global, text: &[u8]) -> Result<Result<usize, EffectFault>, JsonFault> {
    let value = read(alloc, text)?;
    match effects_of(alloc, &value) {
        Ok(effects) => Ok(Ok(effects.len())),
        Err(EffectFault::Memory) => Err(JsonFault::Memory),
        Err(fault) => Ok(Err(fault)),
    }
}

#[test]
fn lists_of_effects_are_read(rt: HostRuntime) -> Result<(), Fail> {
    let counts: [usize; 12] = [0, 1, 2, 2, 2, 2, 2, 2, 2, 1, 1, 2];
    for (text, count) in SPELLED.iter().zip(counts.iter()) {
        assert!(rt;
            count_of(rt.alloc(), text)? == Ok(*count),
            "another count of effects"
        );
    }
    Ok(())
}

#[test]
fn other_values_spell_no_effects(rt: HostRuntime) -> Result<(), Fail> {
    for text in OTHERS {
        assert!(rt;
            count_of(rt.alloc(), text)? == Err(EffectFault::Form),
            "it spells effects"
        );
    }
    Ok(())
}

/// The text of the value that spells the effects which the text's value spells.
fn written_again(alloc: Global, text: &[u8]) -> Result<WdBytes, Fail> {
    let value = read(alloc, text)?;
    let effects = effects_of(alloc, &value)?;
    Ok(write(alloc, &effects_json(alloc, &effects)?)?)
}

#[test]
fn lists_of_effects_are_written_as_they_were_read(rt: HostRuntime) -> Result<(), Fail> {
    for text in SPELLED {
        let again = written_again(rt.alloc(), text)?;
        assert_eq!(rt; again.as_slice(), text);
    }
    Ok(())
}

#[test]
fn a_prompt_in_an_after_is_written(rt: HostRuntime) -> Result<(), Fail> {
    let alloc = rt.alloc();
    let mut accepted = WdList::new(alloc);
    accepted.push(Effect::Insert {
        node: 3,
        parent: 2,
        place: 1,
    })?;
    let mut dismissed = WdList::new(alloc);
    dismissed.push(Effect::Pixels {
        node: 4,
        pixels: None,
    })?;
    let mut timed = WdList::new(alloc);
    timed.push(Effect::Prompt {
        kind: PromptKind::Confirm,
        text: WdText::of(alloc, "q")?,
        answer: WdText::new(alloc),
        accepted,
        dismissed,
    })?;
    let mut effects = WdList::new(alloc);
    effects.push(Effect::After {
        ms: 5,
        effects: timed,
    })?;
    assert!(rt; effects_fit(&effects));
    let text = write(alloc, &effects_json(alloc, &effects)?)?;
    assert_eq!(rt;
        text.as_slice(),
        b"[[\"after\",5,[[\"prompt\",\"confirm\",\"q\",\"\",[[\"insert\",3,2,1]],[[\"box\",4,null]]]]]]".as_slice()
    );
    Ok(())
}
