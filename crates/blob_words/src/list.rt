ghost use Rattle.std.specs.Prelude.{◌≡◌, ◌+◌, ◌<◌, [], ◌∷◌, ◌++◌, drop, length, slice_index_or, take, IfOk, IsSome, OnOk, OnErr, ◌↔◌};
ghost use Rattle.std.specs.Borrow.{sem};
ghost use Rattle.std.specs.Option.{option_to_list};
ghost use Rattle.blob_words.specs.Lends.{LendsItems};

use crate::fault::NoMemory;
use crate::number::PieceNo;
use std::alloc::Global;
use std::marker::Model;

/// A list that grows at its end. Contracts see the list of its items.
#[derive(Debug, Drop)]
pub struct ItemList<T> {
    items: Vec<T>,
}

/// Bytes.
pub type Octets = ItemList<u8>;

/// Numbers, as of the calls of an object that are to fail.
pub type Octets64 = ItemList<u64>;

/// Pieces, in an order that matters.
pub type PieceList = ItemList<PieceNo>;

impl<T> Model for ItemList<T> {
    ghost use Rattle.std.specs.Prelude.{List};
    ghost use Rattle.std.specs.Coded.{coded_list};

    ghost Value = { List T };

    ghost coded = { coded_list T.code };

    ghost view = { λ list. list.items.items };
}

impl<T> ItemList<T> {
    /// The empty list; takes no memory.
    pub fn new(alloc: Global) -> Self
        ensures { result ≡ [] }
    {
        ItemList {
            items: Vec::new(alloc),
        }
    }

    /// The items of a vector, as they stand.
    pub fn from_vec(items: Vec<T>) -> Self
        ensures { result ≡ items.items }
    {
        ItemList { items }
    }

    pub fn as_slice(&self) -> &[T]
        ensures { result.now ≡ self.now }
    {
        self.items.as_slice()
    }

    /// The items, to be written over in their places.
    pub fn as_mut_slice(&mut self) -> &mut [T]
        ensures* writes_back { sem 𝓛 (LendsItems T.row self.entry result) }
        ensures value { result.now ≡ self.old }
    {
        self.items.as_mut_slice()
    }

    /// The items as a vector.
    pub fn into_vec(self) -> Vec<T>
        ensures { result.items ≡ self }
    {
        self.items
    }

    pub fn len(&self) -> usize
        ensures { result ≡ length self.now }
    {
        self.items.len()
    }
}

impl<T: Drop> ItemList<T> {
    /// Puts an item at the end.
    pub fn push(&mut self, item: T) -> Result<(), NoMemory>
        ensures ok { OnOk result (self.new ≡ self.old ++ item ∷ []) }
        ensures err { OnErr result (self.new ≡ self.old) }
    {
        self.items.push(item)?;
        Ok(())
    }

    /// Takes the last item, where there is one.
    pub fn pop(&mut self) -> Option<T>
        ensures items { self.old ≡ self.new ++ option_to_list result }
        ensures some { IsSome result ↔ (0 < length self.old) }
    {
        self.items.pop()
    }

    /// Takes the item at a place. Those behind it move up by one.
    pub fn remove(&mut self, place: usize) -> T
        requires { place < length self.old }
        ensures item { result ≡ slice_index_or self.old place result }
        ensures rest { self.new ≡ take place self.old ++ drop (place + 1) self.old }
    {
        self.items.remove(place)
    }

    /// Keeps the first `len` items.
    pub fn truncate(&mut self, len: usize)
        ensures { self.new ≡ take len self.old }
    {
        self.items.truncate(len);
    }
}

impl<T: Copy> ItemList<T> {
    /// A copy of the items.
    pub fn from_slice(alloc: Global, items: &[T]) -> Result<Self, NoMemory>
        ensures { IfOk result (λ list. list ≡ items.now) }
    {
        let items = Vec::from_slice(alloc, items)?;
        Ok(ItemList { items })
    }

    /// Puts a copy of the items at the end.
    pub fn extend_from_slice(&mut self, items: &[T]) -> Result<(), NoMemory>
        ensures ok { OnOk result (self.new ≡ self.old ++ items.now) }
        ensures err { OnErr result (self.new ≡ self.old) }
    {
        self.items.extend_from_slice(items)?;
        Ok(())
    }
}
