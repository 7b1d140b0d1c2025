ghost use Rattle.std.specs.Prelude.{◌≡◌, [], drop, slice_get, OnErr, OnOk};
ghost use Rattle.std.specs.Ordering.{nat_cmp};
ghost use Rattle.std.specs.Set.{remove_key};
ghost use Rattle.std.specs.BTreeMap.{is_at};
ghost use Rattle.std.specs.BTreeSet.{insert_key};

use blob_words::NoMemory;
use std::alloc::Global;
use std::collections::BTreeSet;
use std::marker::Model;

/// Some numbers. Contracts see them in rising order.
#[derive(Debug, Drop)]
pub struct Numbers {
    numbers: BTreeSet<u32>,
}

impl Model for Numbers {
    ghost use Rattle.std.specs.Prelude.{ℕ, List};

    ghost Value = { List ℕ };

    ghost view = { λ numbers. numbers.numbers.keys };
}

impl Numbers {
    /// No number.
    pub fn new(alloc: Global) -> Numbers
        ensures { result ≡ [] }
    {
        Numbers {
            numbers: BTreeSet::new(alloc),
        }
    }

    /// Puts a number to its place.
    pub fn insert(&mut self, number: u32) -> Result<(), NoMemory>
        ensures ok { OnOk result (self.new ≡ insert_key nat_cmp self.old number) }
        ensures err { OnErr result (self.new ≡ self.old) }
    {
        self.numbers.insert(number)?;
        Ok(())
    }

    /// Takes a number out, where it is there.
    pub fn remove(&mut self, number: u32)
        ensures { self.new ≡ remove_key (is_at (nat_cmp number)) self.old }
    {
        let _ = self.numbers.remove(&number);
    }

    /// Takes out the least number.
    pub fn pop_first(&mut self) -> Option<u32>
        ensures first { result ≡ slice_get self.old 0 }
        ensures rest { self.new ≡ drop 1 self.old }
    {
        self.numbers.pop_first()
    }
}
