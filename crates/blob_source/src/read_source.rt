ghost use Rattle.std.specs.Prelude.{◌≡◌};

use crate::count::counted;
use crate::source::Source;
use blob_words::Failed;
use std::io::Read;

/// A source over a reader of std. It counts each `Err` of the reader, whatever its kind.
#[derive(Debug, Drop)]
pub struct ReadSource<R: Read> {
    inner: R,
    faults: u64,
}

impl<R: Read> ReadSource<R> {
    pub fn new(inner: R) -> Self
        ensures left { ⟦<ReadSource<R> as Source>⟧.left result ≡ R.remaining inner }
        ensures faults { ⟦<ReadSource<R> as Source>⟧.faults result ≡ 0 }
    {
        ReadSource { inner, faults: 0 }
    }
}

impl<R: Read> Source for ReadSource<R> {
    ghost left = { λ source. R.remaining source.inner };

    ghost faults = { λ source. source.faults };

    fn read(&mut self, out: &mut [u8]) -> Result<usize, Failed> {
        counted(self.inner.read(out), &mut self.faults)
    }
}
