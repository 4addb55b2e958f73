//! Between the bytes of a connection and the protocol: whole requests out of bytes, however they were cut
//! (the grammar of a head is httparse's), the bytes of responses, and the outside world as traits (files,
//! lines of connections, sinks, clocks), each with a form in memory.
#![tactic(auto)]

mod bytes_list;
mod call;
mod call_count;
mod clock;
mod connections;
mod entry;
mod fault;
mod files;
mod framer;
mod front;
mod head;
mod headers;
mod laws;
mod line;
mod list_clock;
mod lists;
mod mark;
mod memory_files;
mod memory_line;
mod memory_sink;
mod request;
mod response;
mod sink;
mod virtual_clock;
mod words;

pub use bytes_list::BytesList;
pub use call::Call;
pub use clock::Clock;
pub use fault::{Failed, FileFault, WriteFault};
pub use files::Files;
pub use framer::{Framer, Next};
pub use laws::heard_once;
pub use line::Line;
pub use list_clock::ListClock;
pub use lists::{CallList, FileList, TimeList};
pub use memory_files::MemoryFiles;
pub use memory_line::MemoryLine;
pub use memory_sink::MemorySink;
pub use request::{BadHead, Request};
pub use response::response_bytes;
pub use sink::Sink;
pub use virtual_clock::VirtualClock;
