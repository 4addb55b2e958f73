//! The lines of a page's log: those of events and of prompts that are closed.

ghost use Rattle.std.specs.Prelude.{◌≡◌, ◌++◌, codes, IfOk};
ghost use Rattle.std.specs.Fmt.{decimal};
ghost use Rattle.page_engine.specs.Closing.{closing_line};
ghost use Rattle.page_engine.specs.Lines.{line, head_of, place_text};

use crate::effect::Prompt;
use crate::event::{Event, EventKind};
use std::alloc::Global;
use wd_json::{Memory, WdText};

/// The line of an event: its type and its node, and the place of a move, the button, or the key.
pub fn line(alloc: Global, event: &Event) -> Result<WdText, Memory>
    ensures { IfOk result (λ text. text ≡ line event.now) }
{
    match event {
        Event::Pointer {
            kind,
            target,
            at,
            button,
        } => {
            if kind.is(EventKind::PointerMove) {
                place_line(alloc, *kind, target.number(), at.x, at.y)
            } else {
                button_line(alloc, *kind, target.number(), *button)
            }
        }
        Event::Key {
            kind,
            target,
            key,
            ..
        } => key_line(alloc, *kind, target.number(), key),
        Event::Plain { kind, target } => plain_line(alloc, *kind, target.number()),
    }
}

fn plain_line(alloc: Global, kind: EventKind, target: u32) -> Result<WdText, Memory>
    ensures { IfOk result (λ text. text ≡ head_of kind target) }
{
    let text = format!(in alloc; "{} {}", kind.name(), target)?;
    WdText::of(alloc, text.as_str())
}

fn place_line(alloc: Global, kind: EventKind, target: u32, x: i64, y: i64) -> Result<WdText, Memory>
    ensures { IfOk result (λ text. text ≡ head_of kind target ++ codes " " ++ place_text x y) }
{
    let text = format!(in alloc; "{} {} {},{}", kind.name(), target, x, y)?;
    WdText::of(alloc, text.as_str())
}

fn button_line(alloc: Global, kind: EventKind, target: u32, button: u64) -> Result<WdText, Memory>
    ensures { IfOk result (λ text. text ≡ head_of kind target ++ codes " " ++ decimal button) }
{
    let text = format!(in alloc; "{} {} {}", kind.name(), target, button)?;
    WdText::of(alloc, text.as_str())
}

fn key_line(alloc: Global, kind: EventKind, target: u32, key: &WdText) -> Result<WdText, Memory>
    ensures { IfOk result (λ text. text ≡ head_of kind target ++ codes " " ++ key.now) }
{
    let text = format!(in alloc; "{} {} {}", kind.name(), target, key.as_str())?;
    WdText::of(alloc, text.as_str())
}

/// The line of a prompt that is closed: `accept` with its answer, or `dismiss`.
pub fn closing_line(alloc: Global, prompt: &Prompt, accepted: bool) -> Result<WdText, Memory>
    ensures { IfOk result (λ text. text ≡ closing_line prompt.now accepted) }
{
    if accepted {
        accept_line(alloc, &prompt.answer)
    } else {
        WdText::of(alloc, "dismiss")
    }
}

fn accept_line(alloc: Global, answer: &WdText) -> Result<WdText, Memory>
    ensures { IfOk result (λ text. text ≡ codes "accept " ++ answer.now) }
{
    let mut text = WdText::of(alloc, "accept ")?;
    text.extend(answer.as_str())?;
    Ok(text)
}
