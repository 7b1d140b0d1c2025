ghost use Rattle.std.specs.Prelude.{◌≡◌, ◌+◌, ◌≤◌, drop, length, take, IfSome, OnErr, OnOk};
ghost use Rattle.blob_source.specs.Faults.{Rose};
ghost use Rattle.data_handles.specs.Handles.{with_faults, Handle};

use blob_words::Failed;

/// An object of the outside that holds bytes, as a file does. Its size and its bytes don't change.
/// No call takes memory.
pub trait DataHandle: Drop {
    // Its size, its bytes where it tells them, and its count of faults.
    ghost seen: { Self → Handle };

    /// The size in bytes.
    fn size(&self) -> u64
        ensures value { result ≡ (seen self.now).size }
        ensures told { IfSome (seen self.now).told (λ bytes. length bytes ≡ result) };

    /// How many reads failed, as far as a `u64` counts.
    fn faults(&self) -> u64
        ensures { result ≡ (seen self.now).faults };

    /// Fills `out` with the bytes from `off` on. The count rises where this fails, and nowhere
    /// else.
    fn read(&mut self, off: u64, out: &mut [u8]) -> Result<(), Failed>
        requires { off + length out.old ≤ (seen self.old).size }
        ensures same { seen self.new ≡ with_faults (seen self.old) (seen self.new).faults }
        ensures bytes { OnOk result (IfSome (seen self.old).told
            (λ bytes. out.new ≡ take (length out.old) (drop off bytes))) }
        ensures failed { OnErr result (Rose (seen self.old).faults (seen self.new).faults) }
        ensures good { OnOk result (seen self.new ≡ seen self.old) }
        ensures later { (seen self.old).faults ≤ (seen self.new).faults };
}
