//! What effects ask of the world: the last address and the first prompt count, as a test.

use crate::twelve_nodes::opened;
use page_engine::{Effect, EffectList, Outcome, PromptKind};
use std::alloc::Global;
use std::process::Abort;
use std::test::Fail;
use wd_json::WdText;

/// A prompt with that text, in the lists of which nothing stands.
fn prompt(alloc: Global, text: &str) -> Result<Effect, Fail> {
    Ok(Effect::Prompt {
        kind: PromptKind::Confirm,
        text: WdText::of(alloc, text)?,
        answer: WdText::new(alloc),
        accepted: EffectList::new(alloc),
        dismissed: EffectList::new(alloc),
    })
}

fn go(alloc: Global, address: &str) -> Result<Effect, Fail> {
    Ok(Effect::Go {
        address: WdText::of(alloc, address)?,
    })
}

fn open(alloc: Global, address: &str) -> Result<Effect, Fail> {
    Ok(Effect::Open {
        address: WdText::of(alloc, address)?,
    })
}

fn after(alloc: Global, ms: u64) -> Effect {
    Effect::After {
        ms,
        effects: EffectList::new(alloc),
    }
}

/// Two of each.
fn asking(alloc: Global) -> Result<EffectList, Fail> {
    let mut effects = EffectList::new(alloc);
    effects.push(go(alloc, "one")?)?;
    effects.push(open(alloc, "a")?)?;
    effects.push(prompt(alloc, "Sure?")?)?;
    effects.push(after(alloc, 10))?;
    effects.push(prompt(alloc, "No?")?)?;
    effects.push(open(alloc, "b")?)?;
    effects.push(go(alloc, "two")?)?;
    effects.push(after(alloc, 20))?;
    effects.push(Effect::Focus { node: 5 })?;
    Ok(effects)
}

/// What was asked as a text: the navigation, the windows, the prompt and the number of timers made.
fn asked(rt: &impl Abort, alloc: Global, outcome: &Outcome) -> Result<String, Fail> {
    let address = match &outcome.go {
        Some(address) => address.as_str(),
        None => "-",
    };
    let text = match &outcome.prompt {
        Some(prompt) => prompt.text.as_str(),
        None => "-",
    };
    let windows = outcome.opens.len();
    assert!(rt; windows == 2);
    let first = outcome.opens.at(0).as_str();
    let second = outcome.opens.at(1).as_str();
    let made = outcome.made;
    Ok(format!(in alloc; "{address} {first} {second} {text} {made}")?)
}

#[test]
fn the_last_address_and_the_first_prompt_count(rt: HostRuntime) -> Result<(), Fail> {
    let alloc = rt.alloc();
    let effects = asking(alloc)?;
    // the number of the first timer, and what is asked: the last number that a timer may have is 2^62 - 1
    let steps: [(u64, &str); 3] = [
        (9, "two a b Sure? 2"),
        ((1 << 62) - 1, "two a b Sure? 1"),
        (1 << 62, "two a b Sure? 0"),
    ];
    for (first, expected) in steps {
        let mut page = opened(alloc)?;
        assert!(rt; !page.spent());
        let outcome = page.apply(&effects, 5, first)?;
        let found = asked(&rt, alloc, &outcome)?;
        assert_eq!(rt; found.as_str(), expected);
    }
    Ok(())
}
