//! The data handles that parts name.
ghost use Rattle.std.specs.Prelude.{ℕ, ◌≡◌, ◌&&◌, fold, not, true};
ghost use Rattle.std.specs.List.{list_any};
ghost use Rattle.data_handles.specs.Boxes.{of_table};
ghost use Rattle.store_laws.specs.Claiming.{claimed_by, is_ranged, AreFree, IsFree};
ghost use Rattle.blob_store.specs.Unheld.{HasObject};

use data_handles::{Boxed, DataHandle, HandleTable};
use session_script::Part;

// Claims the handle of a part; nothing is to view the object where the blob broke, or no byte is
// named.
fn claim_one(handles: &mut HandleTable, part: &Part, is_broken: bool)
    requires { IsFree (of_table ⟦<Boxed as DataHandle>⟧.seen handles.old) part.now }
    ensures claimed { of_table ⟦<Boxed as DataHandle>⟧.seen handles.new
        ≡ claimed_by is_broken (of_table ⟦<Boxed as DataHandle>⟧.seen handles.old) part.now }
    ensures keeps { (k : ℕ) → HasObject (of_table ⟦<Boxed as DataHandle>⟧.seen handles.old) k
        → HasObject (of_table ⟦<Boxed as DataHandle>⟧.seen handles.new) k }
    ensures has { (k : ℕ) → (not is_broken && is_ranged k part.now) ≡ true
        → HasObject (of_table ⟦<Boxed as DataHandle>⟧.seen handles.new) k }
{
    if let Part::HandleRange { k, len, .. } = part {
        handles.claim(*k).unwrap();
        if is_broken || *len == 0 {
            handles.release(*k);
        }
    }
}

/// Claims the handles that the parts name, one after the other.
pub fn claim_all(handles: &mut HandleTable, parts: &[Part], is_broken: bool)
    requires { AreFree is_broken (of_table ⟦<Boxed as DataHandle>⟧.seen handles.old) parts.now }
    ensures claimed { of_table ⟦<Boxed as DataHandle>⟧.seen handles.new
        ≡ fold (claimed_by is_broken) (of_table ⟦<Boxed as DataHandle>⟧.seen handles.old)
        parts.now }
    ensures keeps { (k : ℕ) → HasObject (of_table ⟦<Boxed as DataHandle>⟧.seen handles.old) k
        → HasObject (of_table ⟦<Boxed as DataHandle>⟧.seen handles.new) k }
    ensures has { (k : ℕ) → (not is_broken && list_any (is_ranged k) parts.now) ≡ true
        → HasObject (of_table ⟦<Boxed as DataHandle>⟧.seen handles.new) k }
{
    for part in parts {
        claim_one(handles, part, is_broken);
    }
}
