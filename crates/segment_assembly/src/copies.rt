ghost use Rattle.std.specs.Prelude.{◌≡◌, ◌+◌, ◌≤◌, length, replicate, false, IfOk};
ghost use Rattle.blob_words.specs.Bytes.{spliced};

use std::alloc::{AllocError, Global};

/// So many segments of which none has come.
pub fn none_came(alloc: Global, count: usize) -> Result<Vec<bool>, AllocError>
    ensures { IfOk result (λ came. came.items ≡ replicate count false) }
{
    vec![in alloc; false; count]
}

/// Writes the bytes over those that stand from the place `start` on.
pub fn write_at(buffer: &mut [u8], start: usize, bytes: &[u8])
    requires { start + length bytes.now ≤ length buffer.old }
    ensures { buffer.new ≡ spliced start bytes.now buffer.old }
{
    let end = start + bytes.len();
    buffer[start..end].copy_from_slice(bytes);
}
