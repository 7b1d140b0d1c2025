ghost use Rattle.std.specs.Prelude.{◌≡◌, ◌<◌, ◌≤◌, length, IfOk, OnErr, OnOk};
ghost use Rattle.std.specs.Io.KnownBytes.{WriteAppends};
ghost use Rattle.blob_source.specs.Faults.{Rose};

use blob_words::Failed;

/// Where bytes go.
pub trait Sink {
    ghost use Rattle.std.specs.Prelude.{ℕ, List, Option};

    // The bytes taken, where the sink tells them.
    ghost held: { Self → Option (List ℕ) };

    // How many calls failed, as far as a `u64` counts.
    ghost faults: { Self → ℕ };

    /// Takes some bytes of the front of `bytes`, at least one where there is one, and answers how
    /// many. After `Failed` no byte was taken. The count rises where a call fails, and nowhere
    /// else.
    fn write(&mut self, bytes: &[u8]) -> Result<usize, Failed>
        ensures progress { IfOk result
            (λ n. (n ≤ length bytes.now) × (0 < length bytes.now → 0 < n)) }
        ensures bytes { WriteAppends (held self.old) (held self.new) result bytes.now }
        ensures good { OnOk result (faults self.new ≡ faults self.old) }
        ensures failed { OnErr result (Rose (faults self.old) (faults self.new)) }
        ensures later { faults self.old ≤ faults self.new };
}
