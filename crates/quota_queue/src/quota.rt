ghost use Rattle.std.specs.Prelude.{◌≡◌, ◌+◌, ◌-◌, ◌^◌, ◌<◌, ◌≤◌, ◌++◌, ◌==◌, [], ◌∷◌, false, drop, length, nat_eq, nat_le, slice_get, IfNone, IfOk, IfSome, IsSomeAnd, OnErr, OnOk};
ghost use Rattle.std.specs.List.{IsDistinct, position};
ghost use Rattle.std.specs.Map.{keys_of};
ghost use Rattle.quota_queue.specs.Queue.{is_waiting, without};

use blob_words::{BlobName, NoMemory};
use std::alloc::Global;
use std::collections::VecDeque;
use std::marker::Model;

/// A limit on bytes, the bytes charged to it, and the blobs that wait for room, first come first.
#[derive(Debug, Drop)]
pub struct Quota {
    used: u64,
    limit: u64,
    waiting: VecDeque<(BlobName, u64)>,
}

impl Model for Quota {
    ghost use Rattle.std.specs.Prelude.{◌≤◌, nat_eq};
    ghost use Rattle.std.specs.List.{IsDistinct};
    ghost use Rattle.std.specs.Map.{keys_of};
    ghost use Rattle.quota_queue.specs.Queue.{Queue};

    ghost Value = { Queue };

    ghost view = { λ quota. record {
      used = quota.used;
      limit = quota.limit;
      waiting = quota.waiting.items;
    } };

    ghost invariant = { λ quota. (quota.used ≤ quota.limit)
        × IsDistinct nat_eq (keys_of quota.waiting.items) };
}

impl Quota {
    /// Nothing used of so many bytes, and nobody waits.
    pub fn new(alloc: Global, limit: u64) -> Result<Quota, NoMemory>
        ensures { IfOk result (λ quota. quota ≡ record { used = 0; limit = limit; waiting = [] }) }
    {
        Ok(Quota {
            used: 0,
            limit,
            waiting: VecDeque::new(alloc),
        })
    }

    /// The bytes charged, at most the limit.
    pub fn used(&self) -> u64
        ensures value { result ≡ self.now.used }
        ensures bound { self.now.used ≤ self.now.limit }
    {
        self.used
    }

    /// How many blobs wait; each name waits once.
    pub fn waiting(&self) -> usize
        ensures value { result ≡ length self.now.waiting }
        ensures small { length self.now.waiting < 2 ^ 63 }
        ensures apart { IsDistinct nat_eq (keys_of self.now.waiting) }
    {
        self.waiting.len()
    }

    /// The blob that waits longest, and for how many bytes.
    pub fn head(&self) -> Option<(BlobName, u64)>
        ensures { result ≡ slice_get self.now.waiting 0 }
    {
        self.waiting.front().copied()
    }

    /// Whether there is room for so many bytes more.
    pub fn fits(&self, bytes: u64) -> bool
        ensures { result ≡ nat_le (self.now.used + bytes) self.now.limit }
    {
        bytes <= self.limit - self.used
    }

    /// Charges bytes, for which there is room.
    pub fn charge(&mut self, bytes: u64)
        requires { self.old.used + bytes ≤ self.old.limit }
        ensures { self.new ≡ record self.old { used = self.old.used + bytes } }
    {
        self.used += bytes;
    }

    /// Takes bytes back that were charged.
    pub fn discharge(&mut self, bytes: u64)
        requires { bytes ≤ self.old.used }
        ensures { self.new ≡ record self.old { used = self.old.used - bytes } }
    {
        self.used -= bytes;
    }

    /// Puts a blob that doesn't wait yet at the end of the queue.
    #[tactic(auto, using(crate::proofs::Waiting::apart_more))]
    pub fn wait(&mut self, name: BlobName, bytes: u64) -> Result<(), NoMemory>
        requires { is_waiting name self.old.waiting ≡ false }
        ensures ok { OnOk result (self.new ≡ record self.old {
          waiting = self.old.waiting ++ (name, bytes) ∷ [];
        }) }
        ensures err { OnErr result (self.new ≡ self.old) }
    {
        self.waiting.push_back((name, bytes))?;
        Ok(())
    }

    // The place of a blob in the queue.
    fn place_of(&self, name: BlobName) -> Option<usize>
        ensures { result ≡ position (λ blob. nat_eq name blob.0) self.now.waiting }
    {
        self.waiting.iter().position(|blob| name == blob.0)
    }

    /// Takes a blob out of the queue, and tells whether it waited.
    pub fn leave(&mut self, name: BlobName) -> bool
        ensures waited { result ≡ is_waiting name self.old.waiting }
        ensures left { self.new ≡ record self.old { waiting = without name self.old.waiting } }
    {
        match self.place_of(name) {
            Some(place) => {
                let _ = self.waiting.remove(place);
                true
            }
            None => false,
        }
    }

    /// Takes the head out of the queue and charges its bytes, if there is room for them.
    #[tactic(auto, using(crate::proofs::Waiting::apart_rest))]
    pub fn next_grant(&mut self) -> Option<BlobName>
        ensures none { IfNone result ((self.new ≡ self.old)
            × IfSome (slice_get self.old.waiting 0)
            (λ blob. self.old.limit < self.old.used + blob.1)) }
        ensures some { IfSome result (λ name. IsSomeAnd (slice_get self.old.waiting 0) (λ blob.
            (blob.0 ≡ name) × (self.old.used + blob.1 ≤ self.old.limit)
            × (self.new ≡ record self.old {
              used = self.old.used + blob.1;
              waiting = drop 1 self.old.waiting;
            }))) }
    {
        let (name, bytes) = self.head()?;
        if !self.fits(bytes) {
            return None;
        }
        self.charge(bytes);
        let _ = self.waiting.pop_front();
        Some(name)
    }
}
