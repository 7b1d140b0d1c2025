//! Sources and sinks in memory.

use blob_source::{MemorySink, MemorySource};
use blob_words::{NoMemory, Octets, Octets64};
use std::alloc::Global;

/// The calls that fail: one, or none.
pub fn failing_at(alloc: Global, call: Option<u64>) -> Result<Octets64, NoMemory> {
    let mut failing = Octets64::new(alloc);
    if let Some(number) = call {
        failing.push(number)?;
    }
    Ok(failing)
}

/// A source that gives at most so many bytes a read; 0 for all at once.
pub fn source_of(bytes: Octets, failing: Octets64, most: usize) -> MemorySource {
    if most == 0 {
        return MemorySource::new(bytes, failing);
    }
    MemorySource::with_most(bytes, failing, most)
}

/// A sink that takes at most so many bytes a write; 0 for all at once.
pub fn sink_of(
    alloc: Global,
    room: usize,
    failing: Octets64,
    most: usize,
) -> Result<MemorySink, NoMemory> {
    if most == 0 {
        return MemorySink::new(alloc, room, failing);
    }
    MemorySink::with_most(alloc, room, failing, most)
}
