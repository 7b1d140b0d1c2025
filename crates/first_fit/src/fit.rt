ghost use Rattle.std.specs.Prelude.{◌≡◌, ◌-◌, ◌<◌, ◌++◌, [], ◌∷◌, length, nat_le, set, take, OnErr, OnOk};
ghost use Rattle.std.specs.List.{position};

use crate::tree::Tree;
use blob_words::NoMemory;
use std::alloc::Global;
use std::marker::Model;

/// A list of values. Contracts see the list.
#[derive(Debug, Drop)]
pub struct FirstFit {
    alloc: Global,
    // What stands behind the last value counts for nothing.
    tree: Tree,
    len: usize,
}

impl Model for FirstFit {
    ghost use Rattle.std.specs.Prelude.{ℕ, ◌≤◌, List, length, take};

    ghost Value = { List ℕ };

    ghost view = { λ values. take values.len values.tree };

    ghost invariant = { λ values. values.len ≤ length values.tree };
}

impl FirstFit {
    /// No values. It takes no memory.
    pub fn new(alloc: Global) -> FirstFit
        ensures { result ≡ [] }
    {
        FirstFit {
            alloc,
            tree: Tree::new(alloc),
            len: 0,
        }
    }

    /// Puts a value at the end.
    pub fn push(&mut self, value: u64) -> Result<(), NoMemory>
        ensures ok { OnOk result (self.new ≡ self.old ++ value ∷ []) }
        ensures err { OnErr result (self.new ≡ self.old) }
    {
        if self.len == self.tree.len() {
            self.tree.grow(self.alloc)?;
        }
        self.tree.set(self.len, value);
        self.len += 1;
        Ok(())
    }

    /// Takes the last value away.
    pub fn pop(&mut self)
        requires { 0 < length self.old }
        ensures { self.new ≡ take (length self.old - 1) self.old }
    {
        self.len -= 1;
    }

    /// Puts a value in the place of another.
    pub fn set(&mut self, index: usize, value: u64)
        requires { index < length self.old }
        ensures { self.new ≡ set self.old index value }
    {
        self.tree.set(index, value);
    }

    /// The place of the first value that is at most `most`.
    pub fn first(&self, most: u64) -> Option<usize>
        ensures { result ≡ position (λ value. nat_le value most) self.now }
    {
        let index = self.tree.first(most);
        (index < self.len).then_some(index)
    }
}
