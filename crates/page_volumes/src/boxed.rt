ghost use Rattle.std.specs.Prelude.{◌≡◌};

use crate::volume::Volume;
use blob_words::{Failed, PageNo};
use page_disk::PutFault;

/// A volume in a box.
#[derive(Drop)]
pub struct BoxedVolume {
    object: Box<dyn Volume>,
}

impl BoxedVolume {
    /// Puts a box into the form of a group.
    pub fn new(object: Box<dyn Volume>) -> BoxedVolume
        ensures { ⟦<BoxedVolume as Volume>⟧.seen result ≡ seen object }
    {
        BoxedVolume { object }
    }
}

impl Volume for BoxedVolume {
    ghost seen = { λ boxed. (Volume-box boxed.object).seen boxed.object.value };

    fn faults(&self) -> u64 {
        self.object.faults()
    }

    fn begin(&mut self, page: PageNo, len: u64) -> Result<(), PutFault> {
        self.object.begin(page, len)
    }

    fn append(&mut self, bytes: &[u8]) -> Result<(), Failed> {
        self.object.append(bytes)
    }

    fn seal(&mut self) -> Result<(), Failed> {
        self.object.seal()
    }

    fn get(&mut self, page: PageNo, off: u64, out: &mut [u8]) -> Result<(), Failed> {
        self.object.get(page, off, out)
    }

    fn remove(&mut self, page: PageNo) -> Result<(), Failed> {
        self.object.remove(page)
    }
}
