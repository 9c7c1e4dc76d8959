//! Byte sources and sinks whose faults are counted, whole reads and writes over them, and gates for workers.
#![tactic(auto)]

mod failed;
mod gate;
mod memory_sink;
mod memory_source;
mod sink;
mod source;
mod std_sink;
mod std_source;
mod whole_read;
mod whole_write;

pub use failed::Failed;
pub use gate::{Gate, OpenGate};
pub use memory_sink::MemorySink;
pub use memory_source::MemorySource;
pub use sink::Sink;
pub use source::Source;
pub use std_sink::StdSink;
pub use std_source::StdSource;
pub use whole_read::{ReadRefusal, read_all};
pub use whole_write::{WriteFault, write_whole};
