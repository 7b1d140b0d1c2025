ghost use Rattle.std.specs.Prelude.{◌≡◌, [], IfOk};

use crate::counts::Counts;
use blob_words::{NoMemory, Origin};
use std::alloc::Global;

/// A living renderer.
#[derive(Debug, Drop)]
pub struct Living {
    /// The origin of its pages.
    pub origin: Origin,
    /// Its handles.
    pub counts: Counts,
}

impl Living {
    /// A renderer without handles.
    pub fn new(alloc: Global, origin: &Origin) -> Result<Living, NoMemory>
        ensures { IfOk result (λ one. one ≡ record { origin = origin.now; counts = [] }) }
    {
        let origin = origin.copy(alloc)?;
        Ok(Living {
            origin,
            counts: Counts::new(alloc),
        })
    }
}
