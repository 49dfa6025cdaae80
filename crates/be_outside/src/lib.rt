//! The program's edge: where its bytes come from, where they go, and where a test may hold it up.
//!
//! A source tells from its making on what it has left, or never does, and so does a sink what it
//! holds. A clause on bytes says something where they are told. The source and the sink in memory
//! tell theirs, those over a reader and a writer don't.
#![tactic(auto)]

mod calls;
mod gate;
mod memory_sink;
mod memory_source;
mod reader_source;
mod sink;
mod source;
mod writer_sink;

pub use gate::{Gate, OpenGate, Spot};
pub use memory_sink::{MemorySink, SinkFault};
pub use memory_source::MemorySource;
pub use reader_source::ReaderSource;
pub use sink::Sink;
pub use source::{Failed, Source};
pub use writer_sink::WriterSink;
