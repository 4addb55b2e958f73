//! Files of pages: which site files spell, or the first thing that is wrong with them; which page a
//! JSON value spells; which effects one spells, and the value that spells them. It stands on
//! `wd_http` for files, on `wd_json` for values and on `page_engine` for sites, pages and effects.
#![tactic(auto)]

mod attributes;
mod book;
mod cell_word;
mod cells;
mod each;
mod entries;
mod entry;
mod fault;
mod handlers;
mod laws;
mod links;
mod listing;
mod load;
mod members;
mod names;
mod node;
mod nodes;
mod page;
mod page_fault;
mod pages;
mod parts;
mod places;
mod plain;
mod prompt;
mod read_file;
mod read_listing;
mod reading;
mod row;
mod scripts;
mod seen;
mod site_fault;
mod site_reader;
mod spelling;
mod standing;
mod timers;
mod values;
mod weights;
mod why;
mod word;
mod writing;

pub use fault::EffectFault;
pub use laws::{no_site_at_fault, spelled_is_lawful};
pub use page_fault::PageFault;
pub use reading::effects_of;
pub use site_fault::SiteFault;
pub use site_reader::read_site;
pub use why::Why;
pub use writing::effects_json;
