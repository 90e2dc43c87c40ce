//! Sources and sinks of bytes that count their faults, and whole inputs and outputs over them.
#![tactic(auto)]

mod memory_sink;
mod memory_source;
mod read;
mod standard;
mod traits;
mod write;

pub use memory_sink::MemorySink;
pub use memory_source::MemorySource;
pub use read::{INPUT_LIMIT, InputFault, read_all};
pub use standard::{StdSink, StdSource};
pub use traits::{Failed, Sink, Source};
pub use write::write_all;
