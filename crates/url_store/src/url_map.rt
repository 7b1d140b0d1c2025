ghost use Rattle.std.specs.Prelude.{◌≡◌, [], None, length, OnErr, OnOk, OnSome};
ghost use Rattle.std.specs.Option.{option_copied};
ghost use Rattle.std.specs.List.Sorted.{IsStrictlySortedBy};
ghost use Rattle.std.specs.Ordering.{nat_cmp};
ghost use Rattle.std.specs.Cmp.Lexicographic.{slice_cmp};
ghost use Rattle.std.specs.Map.{keys_of};
ghost use Rattle.url_store.specs.Urls.{url_at, with_url, without};
ghost use Rattle.url_store.specs.Changes.{Comes, Goes};

use crate::url::Url;
use blob_words::NoMemory;
use std::alloc::Global;
use std::collections::BTreeMap;
use std::marker::Model;

/// URLs by their texts. Contracts see them in the order of the texts.
#[derive(Debug, Drop)]
pub struct UrlMap {
    // Texts come from outside: an ordered map, so that no choice of them makes a look-up slow.
    urls: BTreeMap<Vec<u8>, Url>,
}

impl Model for UrlMap {
    ghost use Rattle.std.specs.Prelude.{ℕ, List, map};
    ghost use Rattle.url_store.specs.declared.url.Url.{Url};

    ghost Value = { List (List ℕ × Url) };

    ghost view = { λ urls. map (λ entry. (entry.0.items, entry.1)) urls.urls.entries };
}

impl UrlMap {
    /// No URL.
    pub fn new(alloc: Global) -> UrlMap
        ensures { result ≡ [] }
    {
        UrlMap {
            urls: BTreeMap::new(alloc),
        }
    }

    /// How many there are.
    pub fn len(&self) -> usize
        ensures { result ≡ length self.now }
    {
        self.urls.len()
    }

    /// The URL of a text.
    pub fn find(&self, text: &[u8]) -> Option<&Url>
        ensures { option_copied result ≡ url_at text.now self.now }
    {
        self.urls.get(text)
    }

    /// Puts a URL to its place.
    pub fn insert(&mut self, text: Vec<u8>, url: Url) -> Result<(), NoMemory>
        ensures ok { OnOk result (self.new ≡ with_url text.items url self.old) }
        ensures comes { OnOk result (url_at text.items self.old ≡ None
            → Comes text.items url self.old self.new) }
        ensures err { OnErr result (self.new ≡ self.old) }
        ensures ordered { IsStrictlySortedBy (slice_cmp nat_cmp) (keys_of self.old) }
    {
        let _count = self.urls.len(); // says that the keys are in order
        self.urls.insert(text, url)?;
        Ok(())
    }

    /// Takes out the URL of a text.
    pub fn remove(&mut self, text: &[u8]) -> Option<Url>
        ensures value { result ≡ url_at text.now self.old }
        ensures rest { self.new ≡ without text.now self.old }
        ensures goes { OnSome result (Goes text.now self.old self.new) }
        ensures ordered { IsStrictlySortedBy (slice_cmp nat_cmp) (keys_of self.old) }
    {
        let _count = self.urls.len(); // says that the keys are in order
        self.urls.remove(text)
    }
}
