//! Pages that are run: a site's pages as they are spelled, the effects of their handlers and timers,
//! and a `Page`, which is a document with its log and its pending timers. What an event or a timer
//! changes is one definition by cases over the document's rows.
#![tactic(auto)]

mod at;
mod blank;
mod book;
mod built_in;
mod changes;
mod copying;
mod dispatch;
mod due;
mod effect;
mod effects;
mod event;
mod first;
mod fitting;
mod lines;
mod nodes;
mod outcome;
mod page;
mod page_def;
mod parts;
mod place;
mod site;
mod starting;
mod target;
mod timers;
mod values;

pub use blank::blank_page;
pub use book::{Book, BookCell, BookCells, BookEntry, CellPairs, CellRefs};
pub use copying::copy_effects;
pub use due::Due;
pub use effect::{Effect, EffectList, Prompt, PromptKind};
pub use event::{Event, EventKind};
pub use fitting::effects_fit;
pub use outcome::Outcome;
pub use page::Page;
pub use page_def::{
    AttrList, HandlerList, NodeDef, NodeDefList, NodeKind, PageDef, TimerDef, TimerList,
};
pub use site::{PageList, Site};
pub use target::Target;
