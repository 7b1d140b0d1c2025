//! A sink that knows what was written last.

use blob_source::Sink;
use blob_words::Failed;

// More bytes than the line of a refusal has.
const SIZE: usize = 32;

/// A sink that keeps the last bytes that another took from it.
#[derive(Drop)]
pub struct LastBytes<K: Sink> {
    inner: K,
    last: [u8; SIZE],
}

// Puts the end of some bytes at the end of the last ones.
fn keep(last: &mut [u8; SIZE], taken: &[u8]) {
    let count = taken.len().min(SIZE);
    let (_, kept) = taken.split_at(taken.len() - count);
    last.rotate_left(count);
    last[SIZE - count..].copy_from_slice(kept);
}

impl<K: Sink> LastBytes<K> {
    pub fn new(inner: K) -> Self {
        LastBytes {
            inner,
            last: [0; SIZE],
        }
    }

    /// The number and the word of the refused line, where that was written last.
    pub fn refusal(&self) -> Option<(&str, &str)> {
        let text = str::from_utf8(&self.last).ok()?;
        let (_, refusal) = text.rsplit_once("! ")?;
        refusal.trim_end().split_once(' ')
    }
}

impl<K: Sink> Sink for LastBytes<K> {
    ghost held = { λ sink. K.held sink.inner };

    ghost faults = { λ sink. K.faults sink.inner };

    fn write(&mut self, bytes: &[u8]) -> Result<usize, Failed> {
        let count = self.inner.write(bytes)?;
        let (taken, _) = bytes.split_at(count);
        keep(&mut self.last, taken);
        Ok(count)
    }
}
