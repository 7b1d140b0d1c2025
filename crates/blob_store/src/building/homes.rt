//! The slots of pieces.
ghost use Rattle.std.specs.Prelude.{◌≡◌, ◌++◌, map, replicate, OnOk};
ghost use Rattle.blob_store.specs.Laying.{slot_of};

use blob_items::View;
use blob_words::{ItemList, NoMemory};

/// Each piece has its home in the slot of its view.
pub fn push_homes(homes: &mut ItemList<usize>, views: &[View]) -> Result<(), NoMemory>
    ensures { OnOk result (homes.new ≡ homes.old ++ map slot_of views.now) }
{
    for view in views {
        homes.push(view.slot)?;
    }
    Ok(())
}

/// So many pieces have no home yet.
pub fn push_homeless(homes: &mut ItemList<usize>, count: u64) -> Result<(), NoMemory>
    ensures { OnOk result (homes.new ≡ homes.old ++ replicate count 0) }
{
    for done in 0..count {
        homes.push(0)?;
    }
    Ok(())
}
