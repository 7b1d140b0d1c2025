//! Bytes into and out of the blob store: sources, sinks, and the lines of a source.
#![tactic(auto)]

mod ahead;
mod copies;
pub mod count;
mod filled;
pub mod find;
mod line_buffer;
pub mod line_reader;
pub mod line_step;
pub mod memory_sink;
pub mod memory_source;
mod piece;
pub mod put;
pub mod read_source;
pub mod schedule;
pub mod sink;
pub mod source;
mod take;
pub mod write_sink;

pub use count::counted;
pub use find::find_byte;
pub use line_reader::LineReader;
pub use line_step::LineStep;
pub use memory_sink::MemorySink;
pub use memory_source::MemorySource;
pub use put::put_all;
pub use read_source::ReadSource;
pub use schedule::Schedule;
pub use sink::Sink;
pub use source::Source;
pub use write_sink::WriteSink;
