//! Streams of bytes that may fail: sources, sinks, and reading and writing whole byte strings.
#![tactic(auto)]

mod mem_sink;
mod mem_source;
mod read_all;
mod sink;
mod source;
mod std_stream;
mod sure;
mod write_all;

pub use mem_sink::MemSink;
pub use mem_source::MemSource;
pub use read_all::read_to_end;
pub use sink::Sink;
pub use source::Source;
pub use std_stream::{StdSink, StdSource};
pub use sure::{SureSink, SureSource};
pub use write_all::write_whole;
