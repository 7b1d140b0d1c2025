ghost use Rattle.std.specs.Prelude.{◌≡◌, ◌<◌, ◌≤◌, IfOk, IsErr, OnErr};
ghost use Rattle.blob_source.specs.Faults.{next_count};

use blob_words::Failed;
use std::io;

/// Passes on what a call of std gave, and counts its `Err`, whatever its kind. A good answer is
/// no fault, and nor is the 0 with which a reader tells its end.
pub fn counted<T>(answer: io::Result<T>, faults: &mut u64) -> Result<T, Failed>
    ensures good { IfOk answer (λ value. (result ≡ Ok value) × (faults.new ≡ faults.old)) }
    ensures failed { OnErr answer (IsErr result × (faults.new ≡ next_count faults.old)) }
    ensures later { faults.old ≤ faults.new }
{
    match answer {
        Ok(value) => Ok(value),
        Err(_) => {
            *faults = faults.saturating_add(1);
            Err(Failed)
        }
    }
}

// As `counted`, for a write of `len` bytes: that it took none of some bytes is a fault too.
pub fn counted_write(
    answer: io::Result<usize>,
    len: usize,
    faults: &mut u64,
) -> Result<usize, Failed>
    ensures good { IfOk answer (λ count. (count ≡ 0 → len ≡ 0) →
        (result ≡ Ok count) × (faults.new ≡ faults.old)) }
    ensures none { IfOk answer (λ count. count ≡ 0 → 0 < len →
        IsErr result × (faults.new ≡ next_count faults.old)) }
    ensures failed { OnErr answer (IsErr result × (faults.new ≡ next_count faults.old)) }
    ensures later { faults.old ≤ faults.new }
{
    let count = counted(answer, faults)?;
    if count == 0 && len > 0 {
        *faults = faults.saturating_add(1);
        return Err(Failed);
    }
    Ok(count)
}
