//! A sink over bytes that grow.

ghost use Rattle.std.specs.Prelude.{◌≡◌};
ghost use Rattle.text_fields.specs.declared.growing.Growing.{Growing};

use blob_source::Sink;
use blob_words::{Failed, NoMemory, Octets};

/// Bytes that grow with what is written. A write fails only for want of memory.
#[derive(Drop)]
pub struct Growing {
    bytes: Octets,
    faults: u64,
}

impl Growing {
    /// What is written comes behind these bytes.
    pub fn new(bytes: Octets) -> Growing
        ensures { result.bytes ≡ bytes }
    {
        Growing { bytes, faults: 0 }
    }

    pub fn into_bytes(self) -> Octets
        ensures { result ≡ self.bytes }
    {
        self.bytes
    }
}

impl Sink for Growing {
    ghost use Rattle.std.specs.Prelude.{Some};

    ghost held = { λ growing. Some growing.bytes };

    ghost faults = { λ growing. growing.faults };

    fn write(&mut self, bytes: &[u8]) -> Result<usize, Failed> {
        match self.bytes.extend_from_slice(bytes) {
            Ok(()) => Ok(bytes.len()),
            Err(NoMemory) => {
                self.faults = self.faults.saturating_add(1);
                Err(Failed)
            }
        }
    }
}
