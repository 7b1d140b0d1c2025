ghost use Rattle.std.specs.Prelude.{◌≡◌, ◌+◌, ◌≤◌, ◌++◌, [], length, IfOk};
ghost use Rattle.blob_words.specs.declared.bounds.TheConstants.{LONGEST_LINE};

use blob_words::NoMemory;
use blob_words::bounds::LONGEST_LINE;
use std::alloc::Global;
use std::marker::Model;

// The bytes of a line, with room for the longest line and one more byte.
#[derive(Debug, Drop)]
pub struct LineBuffer {
    bytes: Vec<u8>,
}

impl Model for LineBuffer {
    ghost use Rattle.std.specs.Prelude.{ℕ, ◌+◌, ◌≤◌, List};
    ghost use Rattle.std.specs.Vec.{vec_capacity};
    ghost use Rattle.blob_words.specs.declared.bounds.TheConstants.{LONGEST_LINE};

    ghost Value = { List ℕ };

    ghost view = { λ line. line.bytes.items };

    ghost invariant = { λ line. LONGEST_LINE + 1 ≤ vec_capacity line.bytes };
}

impl LineBuffer {
    pub fn new(alloc: Global) -> Result<LineBuffer, NoMemory>
        ensures { IfOk result (λ line. line ≡ []) }
    {
        let bytes = Vec::with_capacity(alloc, LONGEST_LINE + 1)?;
        Ok(LineBuffer { bytes })
    }

    pub fn as_slice(&self) -> &[u8]
        ensures { result.now ≡ self.now }
    {
        self.bytes.as_slice()
    }

    pub fn clear(&mut self)
        ensures { self.new ≡ [] }
    {
        self.bytes.clear();
    }

    pub fn append(&mut self, part: &[u8])
        requires { length self.old + length part.now ≤ LONGEST_LINE + 1 }
        ensures { self.new ≡ self.old ++ part.now }
    {
        self.bytes.extend_from_slice(part).unwrap();
    }
}
