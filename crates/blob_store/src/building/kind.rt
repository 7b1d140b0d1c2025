//! The content type of a blob.
ghost use Rattle.std.specs.Prelude.{◌≡◌, IfOk};
ghost use Rattle.slice_rule.specs.Kind.{kept_type};

use blob_words::{NoMemory, Octets};
use slice_rule::normal_type;
use std::alloc::Global;

/// The content type that is kept of the one in a line.
pub fn kept_kind(alloc: Global, kind: &[u8]) -> Result<Octets, NoMemory>
    ensures { IfOk result (λ kept. kept ≡ kept_type kind.now) }
{
    let mut kept = Octets::from_slice(alloc, kind)?;
    let len = normal_type(kept.as_mut_slice());
    kept.truncate(len);
    Ok(kept)
}
