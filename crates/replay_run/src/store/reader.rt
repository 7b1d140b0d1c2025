ghost use Rattle.std.specs.Prelude.{◌≡◌, ◌+◌, ◌-◌, ◌≤◌};

use blob_words::{BlobName, ReaderId};

/// An open reader: a range of a blob with the place of the next byte to give.
#[derive(Clone, Copy, Debug, PartialEq, Eq)]
pub struct Reader {
    pub number: ReaderId,
    pub blob: BlobName,
    /// From the start of the blob.
    pub place: u64,
    /// Where the range ends, from the start of the blob.
    pub end: u64,
}

impl Reader {
    /// How many bytes of the range it has not given.
    pub fn left(&self) -> u64
        ensures { result ≡ self.now.end - self.now.place }
    {
        self.end.saturating_sub(self.place)
    }

    /// The place after `count` of the bytes left.
    pub fn place_after(&self, count: u64) -> u64
        requires { count ≤ self.now.end - self.now.place }
        ensures { result ≡ self.now.place + count }
    {
        let _end = self.end; // says that the sum is below 2^64
        self.place + count
    }
}
