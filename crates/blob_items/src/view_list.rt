ghost use Rattle.std.specs.Prelude.{◌≡◌, ◌+◌, ◌-◌, ◌^◌, ◌≤◌, [], ◌∷◌, ◌++◌, length, take, drop, IfOk, IfSome, OnOk, OnErr, MatchOption};
ghost use Rattle.blob_items.specs.Cells.{cells, total, IsPlaceOf};

use crate::starts::{begun, push_starts};
use crate::view::View;
use blob_words::NoMemory;
use std::alloc::Global;
use std::marker::Model;

/// Views, one after the other. Contracts see the list of them; its meaning is the list of their
/// cells, which are the slot and the place in the item of each byte.
#[derive(Debug, Drop)]
pub struct ViewList {
    alloc: Global,
    views: Vec<View>,
    /// Where each view begins, in bytes from the first one of the list.
    starts: Vec<u64>,
    size: u64,
}

impl Model for ViewList {
    ghost use Rattle.std.specs.Prelude.{◌≡◌, List};
    ghost use Rattle.blob_items.specs.declared.view.View.{View};
    ghost use Rattle.blob_items.specs.Cells.{total};
    ghost use Rattle.blob_items.specs.Starts.{starts_from};

    ghost Value = { List View };

    ghost view = { λ list. list.views.items };

    ghost invariant = { λ list. (list.starts.items ≡ starts_from 0 list.views.items)
        × (list.size ≡ total list.views.items) };
}

impl ViewList {
    /// No views; takes no memory.
    pub fn new(alloc: Global) -> ViewList
        ensures { result ≡ [] }
    {
        ViewList {
            alloc,
            views: Vec::new(alloc),
            starts: Vec::new(alloc),
            size: 0,
        }
    }

    pub fn as_slice(&self) -> &[View]
        ensures { result.now ≡ self.now }
    {
        self.views.as_slice()
    }

    /// The number of bytes.
    pub fn total(&self) -> u64
        ensures { result ≡ total self.now }
    {
        self.size
    }

    /// Puts a view at the end.
    pub fn push(&mut self, view: View) -> Result<(), NoMemory>
        requires { total self.old + view.len ≤ 2 ^ 64 - 1 }
        ensures ok { OnOk result (self.new ≡ self.old ++ view ∷ []) }
        ensures err { OnErr result (self.new ≡ self.old) }
    {
        self.starts.reserve(1)?;
        self.views.push(view)?;
        self.starts.push(self.size).unwrap();
        self.size += view.len;
        Ok(())
    }

    /// Puts the views of another list at the end.
    pub fn append(&mut self, other: &ViewList) -> Result<(), NoMemory>
        requires { total self.old + total other.now ≤ 2 ^ 64 - 1 }
        ensures ok { OnOk result (self.new ≡ self.old ++ other.now) }
        ensures err { OnErr result (self.new ≡ self.old) }
    {
        self.starts.reserve(other.views.len())?;
        self.views.extend_from_slice(other.views.as_slice())?;
        push_starts(&mut self.starts, self.size, other.views.as_slice());
        self.size += other.size;
        Ok(())
    }

    /// The place of the view that has the byte at `off`, and the place of the byte in it.
    pub fn find(&self, off: u64) -> Option<(usize, u64)>
        ensures { MatchOption result (total self.now ≤ off) (IsPlaceOf self.now off) }
    {
        if off >= self.size {
            return None;
        }
        let place = begun(self.starts.as_slice(), off) - 1;
        Some((place, off - self.starts[place]))
    }

    // The place of the byte at `off` in the view at `place`, where it is there.
    fn place_in(&self, place: usize, off: u64) -> Option<u64>
        ensures { IfSome result (λ skipped. IsPlaceOf self.now off (place, skipped)) }
    {
        if place >= self.views.len() {
            return None;
        }
        let start = self.starts[place];
        let len = self.views[place].len;
        if off < start || off - start >= len {
            return None;
        }
        Some(off - start)
    }

    /// As `find`, by a look at the view at `near` and at the one behind it before a search.
    pub fn find_near(&self, near: usize, off: u64) -> Option<(usize, u64)>
        ensures { MatchOption result (total self.now ≤ off) (IsPlaceOf self.now off) }
    {
        if let Some(skipped) = self.place_in(near, off) {
            return Some((near, skipped));
        }
        let next = near.saturating_add(1);
        if let Some(skipped) = self.place_in(next, off) {
            return Some((next, skipped));
        }
        self.find(off)
    }

    /// The `len` bytes from `off` on, as views of their own.
    pub fn cut(&self, off: u64, len: u64) -> Result<ViewList, NoMemory>
        requires { off + len ≤ total self.now }
        ensures cells { IfOk result (λ list. cells list ≡ take len (drop off (cells self.now))) }
        ensures total { IfOk result (λ list. total list ≡ len) }
        ensures count { IfOk result (λ list. length list ≤ length self.now) }
    {
        let mut list = ViewList::new(self.alloc);
        let Some((first, skipped)) = self.find(off) else {
            return Ok(list);
        };
        let mut place = first;
        let mut skip = skipped;
        let mut left = len;
        while left > 0 {
            let view = self.views[place];
            let size = left.min(view.len - skip);
            list.push(View {
                slot: view.slot,
                off: view.off + skip,
                len: size,
            })?;
            place += 1;
            skip = 0;
            left -= size;
        }
        Ok(list)
    }
}
