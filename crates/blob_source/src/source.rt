ghost use Rattle.std.specs.Prelude.{◌≡◌, ◌≤◌, OnErr, OnOk};
ghost use Rattle.std.specs.Io.{ReadsAtMost};
ghost use Rattle.std.specs.Io.KnownBytes.{ReadConsumes};
ghost use Rattle.blob_source.specs.Faults.{Rose};

use blob_words::Failed;

/// Where bytes come from.
pub trait Source {
    ghost use Rattle.std.specs.Prelude.{ℕ, List, Option};

    // The bytes still to come, where the source tells them.
    ghost left: { Self → Option (List ℕ) };

    // How many calls failed, as far as a `u64` counts.
    ghost faults: { Self → ℕ };

    /// Reads some bytes to the front of `out` and answers how many. No byte comes only at the
    /// end, or where `out` is empty. After `Failed` no byte was taken. The count rises where a call
    /// fails, and nowhere else.
    fn read(&mut self, out: &mut [u8]) -> Result<usize, Failed>
        ensures bound { ReadsAtMost result out.new }
        ensures bytes { ReadConsumes (left self.old) (left self.new) result out.new }
        ensures good { OnOk result (faults self.new ≡ faults self.old) }
        ensures failed { OnErr result (Rose (faults self.old) (faults self.new)) }
        ensures later { faults self.old ≤ faults self.new };
}
