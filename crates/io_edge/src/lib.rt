//! Where bytes come in and go out: sources, sinks and the words of a command line.
#![tactic(auto)]

mod memory;
mod sink;
mod source;
mod standard;
mod word;

pub use base_types::{Failed, OutOfMemory};
pub use memory::{MemSink, MemSource};
pub use sink::Sink;
pub use source::Source;
pub use standard::{StdSink, StdSource};
pub use word::Word;
