//! A prompt that is closed, with its line in the log and its effects, as a test.

use crate::twelve_nodes::opened;
use page_engine::{Due, Effect, EffectList, Page, Prompt, PromptKind};
use std::alloc::Global;
use std::process::Abort;
use std::test::Fail;
use wd_json::{NodeId, WdText};

/// Effects that put node 3 into that layer, start a timer and ask for a prompt: in the list of a prompt
/// the first alone takes place.
fn effects(alloc: Global, layer: i32) -> Result<EffectList, Fail> {
    let mut effects = EffectList::new(alloc);
    effects.push(Effect::Layer { node: 3, layer })?;
    effects.push(Effect::After {
        ms: 10,
        effects: EffectList::new(alloc),
    })?;
    effects.push(Effect::Prompt {
        kind: PromptKind::Alert,
        text: WdText::of(alloc, "Again?")?,
        answer: WdText::new(alloc),
        accepted: EffectList::new(alloc),
        dismissed: EffectList::new(alloc),
    })?;
    Ok(effects)
}

fn prompt(alloc: Global) -> Result<Prompt, Fail> {
    Ok(Prompt {
        kind: PromptKind::Prompt,
        text: WdText::of(alloc, "Name?")?,
        answer: WdText::of(alloc, "Ann")?,
        accepted: effects(alloc, 5)?,
        dismissed: effects(alloc, 6)?,
    })
}

/// A page whose prompt was closed.
fn closed(rt: &impl Abort, alloc: Global, accepted: bool) -> Result<Page, Fail> {
    let prompt = prompt(alloc)?;
    let mut page = opened(alloc)?;
    assert!(rt; !page.spent());
    let outcome = page.close_prompt(&prompt, accepted, 5)?;
    assert_eq!(rt; outcome.made, 0);
    assert!(rt; outcome.prompt.is_none());
    Ok(page)
}

/// Its log has this line alone, node 3 is in this layer, and the first timer is the one that was there.
fn is_left_so(rt: &impl Abort, page: &Page, line: &str, layer: i32) {
    assert!(rt; !page.spent());
    assert_eq!(rt; page.log().len(), 1);
    assert!(rt; page.log().len() > 0);
    assert_eq!(rt; page.log().at(0).as_str(), line);
    assert!(rt; page.document().count() > 3);
    assert_eq!(rt; page.document().layer(NodeId::of(3)), layer);
    let due = Due {
        moment: 40,
        number: 8,
    };
    assert_eq!(rt; page.next_due(), Some(due));
}

#[test]
fn a_prompt_is_closed_with_its_line_and_its_effects(rt: HostRuntime) -> Result<(), Fail> {
    let alloc = rt.alloc();
    for (accepted, line, layer) in [(true, "accept Ann", 5), (false, "dismiss", 6)] {
        let page = closed(&rt, alloc, accepted)?;
        is_left_so(&rt, &page, line, layer);
    }
    Ok(())
}
