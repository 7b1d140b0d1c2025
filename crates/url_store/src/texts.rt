ghost use Rattle.std.specs.Prelude.{◌≡◌, [], drop, slice_get, OnErr, OnOk};
ghost use Rattle.std.specs.Option.{option_map};
ghost use Rattle.std.specs.Ordering.{nat_cmp};
ghost use Rattle.std.specs.Cmp.Lexicographic.{slice_cmp};
ghost use Rattle.std.specs.Str.{bytes_eq};
ghost use Rattle.std.specs.Set.{remove_key};
ghost use Rattle.std.specs.BTreeSet.{insert_key};

use blob_words::NoMemory;
use std::alloc::Global;
use std::collections::BTreeSet;
use std::marker::Model;

/// Some texts. Contracts see them in their order.
#[derive(Debug, Drop)]
pub struct Texts {
    // Texts come from outside: an ordered set, so that no choice of them makes a look-up slow.
    texts: BTreeSet<Vec<u8>>,
}

impl Model for Texts {
    ghost use Rattle.std.specs.Prelude.{ℕ, List, map};

    ghost Value = { List (List ℕ) };

    ghost view = { λ texts. map (λ text. text.items) texts.texts.keys };
}

impl Texts {
    /// No text.
    pub fn new(alloc: Global) -> Texts
        ensures { result ≡ [] }
    {
        Texts {
            texts: BTreeSet::new(alloc),
        }
    }

    /// Puts a text to its place.
    pub fn insert(&mut self, text: Vec<u8>) -> Result<(), NoMemory>
        ensures ok { OnOk result (self.new ≡ insert_key (slice_cmp nat_cmp) self.old text.items) }
        ensures err { OnErr result (self.new ≡ self.old) }
    {
        self.texts.insert(text)?;
        Ok(())
    }

    /// Takes a text out, where it is there.
    pub fn remove(&mut self, text: &[u8])
        ensures { self.new ≡ remove_key (bytes_eq text.now) self.old }
    {
        let _ = self.texts.remove(text);
    }

    /// Takes out the least text.
    pub fn pop_first(&mut self) -> Option<Vec<u8>>
        ensures first { option_map (λ text. text.items) result ≡ slice_get self.old 0 }
        ensures rest { self.new ≡ drop 1 self.old }
    {
        self.texts.pop_first()
    }
}
