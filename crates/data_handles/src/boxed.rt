ghost use Rattle.std.specs.Prelude.{◌≡◌};

use crate::handle::DataHandle;
use blob_words::Failed;

/// An object in a box.
#[derive(Drop)]
pub struct Boxed {
    object: Box<dyn DataHandle>,
}

impl Boxed {
    /// Puts a box into a table's form.
    pub fn new(object: Box<dyn DataHandle>) -> Boxed
        ensures { ⟦<Boxed as DataHandle>⟧.seen result ≡ seen object }
    {
        Boxed { object }
    }
}

impl DataHandle for Boxed {
    ghost seen = { λ boxed. (DataHandle-box boxed.object).seen boxed.object.value };

    fn size(&self) -> u64 {
        self.object.size()
    }

    fn faults(&self) -> u64 {
        self.object.faults()
    }

    fn read(&mut self, off: u64, out: &mut [u8]) -> Result<(), Failed> {
        self.object.read(off, out)
    }
}
