ghost use Rattle.std.specs.Prelude.{ℕ, ◌≡◌, ◌<◌, ◌≤◌, List, [], Some, None, is_some, length, slice_get, IfErr, IfNone, IfOk, IfSome, IsSomeAnd, MatchOption, MatchResult, OnErr, OnOk, OnSome};
ghost use Rattle.std.specs.Option.{option_map};
ghost use Rattle.std.specs.Str.{bytes_eq};
ghost use Rattle.blob_words.specs.declared.bounds.TheConstants.{MOST_URLS};
ghost use Rattle.url_store.specs.Urls.{own_url, owned_by, resolved, url_at, with_url, without, without_first, IsBlobUrl, IsCause};
ghost use Rattle.url_store.specs.Changes.{Comes, Goes, GoesFrom};

use crate::fault::{NoUrl, UrlFault};
use crate::form::{is_blob_url, without_fragment};
use crate::owners::{Owners, pop_text, put_text, take_text};
use crate::url::Url;
use crate::url_map::UrlMap;
use blob_words::bounds::MOST_URLS;
use blob_words::{BlobName, NoMemory, Origin, RendererId, UrlText};
use std::alloc::Global;
use std::collections::BTreeMap;
use std::marker::Model;

/// The blob URLs. Contracts see them by their texts, in the order of the texts.
#[derive(Debug, Drop)]
pub struct UrlStore {
    alloc: Global,
    urls: UrlMap,
    // An index of the texts, so that an owner's URLs are found without those of others.
    owners: Owners,
}

impl Model for UrlStore {
    ghost use Rattle.std.specs.Prelude.{ℕ, ◌≤◌, List, length};
    ghost use Rattle.blob_words.specs.declared.bounds.TheConstants.{MOST_URLS};
    ghost use Rattle.url_store.specs.declared.url.Url.{Url};
    ghost use Rattle.url_store.specs.Owners.{Agree};

    ghost Value = { List (List ℕ × Url) };

    ghost view = { λ store. store.urls };

    ghost invariant = { λ store. Agree store.urls store.owners.entries
        × (length store.urls ≤ MOST_URLS) };
}

fn is_same(one: &[u8], other: &[u8]) -> bool
    ensures { result ≡ bytes_eq one.now other.now }
{
    one == other
}

impl UrlStore {
    /// No URLs.
    pub fn new(alloc: Global) -> Result<UrlStore, NoMemory>
        ensures { IfOk result (λ store. store ≡ []) }
    {
        Ok(UrlStore {
            alloc,
            urls: UrlMap::new(alloc),
            owners: BTreeMap::new(alloc),
        })
    }

    /// How many URLs there are.
    pub fn count(&self) -> usize
        ensures value { result ≡ length self.now }
        ensures most { result ≤ MOST_URLS }
    {
        self.urls.len()
    }

    // Puts a URL under a text that has none.
    fn put(&mut self, text: &UrlText, url: Url) -> Result<(), NoMemory>
        requires absent { url_at text.now self.old ≡ None }
        requires room { length self.old < MOST_URLS }
        ensures ok { OnOk result (self.new ≡ with_url text.now url self.old) }
        ensures comes { OnOk result (Comes text.now url self.old self.new) }
        ensures err { OnErr result (self.new ≡ self.old) }
    {
        let key = Vec::from_slice(self.alloc, text.as_slice())?;
        let own_text = Vec::from_slice(self.alloc, text.as_slice())?;
        let owner = url.owner;
        self.urls.insert(key, url)?;
        if put_text(&mut self.owners, self.alloc, owner.0, own_text).is_err() {
            let _ = self.urls.remove(text.as_slice());
            return Err(NoMemory);
        }
        Ok(())
    }

    /// A new URL of a renderer that has this origin.
    pub fn add(
        &mut self,
        owner: RendererId,
        origin: &Origin,
        blob: BlobName,
        text: &UrlText,
    ) -> Result<(), UrlFault>
        ensures ok { OnOk result (self.new ≡ with_url text.now
            (record { blob = blob; owner = owner; origin = origin.now }) self.old) }
        ensures comes { OnOk result (Comes text.now
            (record { blob = blob; owner = owner; origin = origin.now }) self.old self.new) }
        ensures none_due { OnOk result (IsBlobUrl origin.now text.now
            × (url_at text.now self.old ≡ None) × (length self.old < MOST_URLS)) }
        ensures fault { IfErr result (λ fault. (self.new ≡ self.old)
            × IsCause fault origin.now text.now self.old) }
    {
        if !is_blob_url(origin.as_slice(), text.as_slice()) {
            return Err(UrlFault::Form);
        }
        if self.urls.find(text.as_slice()).is_some() {
            return Err(UrlFault::Taken);
        }
        if self.count() >= MOST_URLS {
            return Err(UrlFault::Full);
        }
        let Ok(origin) = origin.copy(self.alloc) else {
            return Err(UrlFault::NoMemory);
        };
        let url = Url {
            blob,
            owner,
            origin,
        };
        if self.put(text, url).is_err() {
            return Err(UrlFault::NoMemory);
        }
        Ok(())
    }

    // Whether the URL of a text is this owner's.
    fn is_own(&self, owner: RendererId, text: &UrlText) -> bool
        ensures { result ≡ is_some (own_url owner.0 text.now self.now) }
    {
        match self.urls.find(text.as_slice()) {
            Some(url) => url.owner.0 == owner.0,
            None => false,
        }
    }

    // Takes a URL of an owner out.
    fn take(&mut self, owner: RendererId, text: &[u8]) -> Option<BlobName>
        requires { own_url owner.0 text.now self.old ≡ url_at text.now self.old }
        ensures blob { result ≡ option_map (λ url. url.blob) (url_at text.now self.old) }
        ensures rest { self.new ≡ without text.now self.old }
        ensures goes { OnSome result (Goes text.now self.old self.new) }
    {
        let url = self.urls.remove(text)?;
        take_text(&mut self.owners, owner.0, text);
        Some(url.blob)
    }

    /// Takes a URL out where this renderer owns it, and answers its blob.
    pub fn remove(&mut self, owner: RendererId, text: &UrlText) -> Option<BlobName>
        ensures cases { MatchOption result
            ((own_url owner.0 text.now self.old ≡ None) × (self.new ≡ self.old))
            (λ blob. IsSomeAnd (own_url owner.0 text.now self.old) (λ url. url.blob ≡ blob)
            × (self.new ≡ without text.now self.old)) }
        ensures goes { OnSome result (Goes text.now self.old self.new) }
    {
        if !self.is_own(owner, text) {
            return None;
        }
        self.take(owner, text.as_slice())
    }

    /// The blob that a text leads a renderer of this origin to; a fragment is left out.
    pub fn resolve(&self, origin: &Origin, text: &UrlText) -> Result<BlobName, NoUrl>
        ensures { MatchResult result
            (λ blob. resolved origin.now text.now self.now ≡ Some blob)
            (λ _. resolved origin.now text.now self.now ≡ None) }
    {
        let Some(url) = self.urls.find(without_fragment(text.as_slice())) else {
            return Err(NoUrl);
        };
        if !is_same(url.origin.as_slice(), origin.as_slice()) {
            return Err(NoUrl);
        }
        Ok(url.blob)
    }

    /// Takes out the URL of a renderer that has the least text, and answers its blob.
    pub fn remove_owner(&mut self, owner: RendererId) -> Option<BlobName>
        ensures first { result ≡ option_map (λ entry. entry.1.blob)
            (slice_get (owned_by owner.0 self.old) 0) }
        ensures rest { self.new ≡ without_first owner.0 self.old }
        ensures goes { IfSome result (λ blob. GoesFrom owner.0 blob self.old self.new) }
        ensures none { IfNone result ((self.new ≡ self.old)
            × ((text : List ℕ) → own_url owner.0 text self.old ≡ None)) }
    {
        let text = pop_text(&mut self.owners, owner.0)?;
        let url = self.urls.remove(text.as_slice())?;
        Some(url.blob)
    }
}
