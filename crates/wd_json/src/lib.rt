//! JSON values with whole numbers, read and written as `serde_json` does, and the small list types
//! that every other crate uses. A value means the data that `serde_json` reads or writes for it.
#![tactic(auto)]

mod bytes;
mod copying;
mod fault;
mod integer;
mod list;
mod map;
mod memory;
mod node;
mod reading;
mod text;
mod tokens;
mod value;
mod writing;

pub use bytes::WdBytes;
pub use copying::copy;
pub use fault::{Fault, JsonFault};
pub use integer::MAX_WHOLE;
pub use list::WdList;
pub use map::WdMap;
pub use memory::Memory;
pub use node::{NodeId, NodeList};
pub use reading::{JsonReader, read};
pub use text::{TextList, WdText, is_same};
pub use value::{Json, JsonList, JsonMap};
pub use writing::write;

#[cfg(test)]
mod tests;
