//! Where bytes come from and where they go: sources and sinks, in memory and over std's readers and writers.
#![tactic(auto)]

mod adapters;
mod mem_sink;
mod mem_source;
mod schedule;
mod sink;
mod source;

pub use adapters::{StdSink, StdSource};
pub use mem_sink::MemSink;
pub use mem_source::MemSource;
pub use sink::{Sink, put_all};
pub use source::{ReadError, Source, read_front};
