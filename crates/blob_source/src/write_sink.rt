ghost use Rattle.std.specs.Prelude.{◌≡◌};

use crate::count::counted_write;
use crate::sink::Sink;
use blob_words::Failed;
use std::io::Write;

/// A sink over a writer of std. It counts each `Err` of the writer, whatever its kind, and each
/// write that took no byte of a piece that has one.
#[derive(Debug, Drop)]
pub struct WriteSink<W: Write> {
    inner: W,
    faults: u64,
}

impl<W: Write> WriteSink<W> {
    pub fn new(inner: W) -> Self
        ensures held { ⟦<WriteSink<W> as Sink>⟧.held result ≡ W.contents inner }
        ensures faults { ⟦<WriteSink<W> as Sink>⟧.faults result ≡ 0 }
    {
        WriteSink { inner, faults: 0 }
    }
}

impl<W: Write> Sink for WriteSink<W> {
    ghost held = { λ sink. W.contents sink.inner };

    ghost faults = { λ sink. sink.faults };

    fn write(&mut self, bytes: &[u8]) -> Result<usize, Failed> {
        counted_write(self.inner.write(bytes), bytes.len(), &mut self.faults)
    }
}
