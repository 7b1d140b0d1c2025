ghost use Rattle.std.specs.Prelude.{ℕ, ◌≡◌, ◌<◌, ◌++◌, [], ◌∷◌, false, length, map, min, nat_eq, IfOk, OnErr, OnOk};
ghost use Rattle.std.specs.List.{IsDistinct};
ghost use Rattle.std.specs.Map.{keys_of};
ghost use Rattle.blob_words.specs.declared.bounds.TheConstants.{MOST_PIECES};
ghost use Rattle.recent_items.specs.Recent.{is_there, touched, victims, without};

use blob_words::{NoMemory, PieceList, PieceNo};
use lru::LruCache;
use std::alloc::Global;
use std::marker::Model;

/// Pieces by their last use. Contracts see the number of each piece with its length in bytes, the
/// one with the earliest last use first.
#[derive(Debug, Drop)]
pub struct Recent {
    alloc: Global,
    order: LruCache<u32, u64>,
}

impl Model for Recent {
    ghost use Rattle.std.specs.Prelude.{ℕ, ◌≡◌, ◌-◌, ◌^◌, List, reverse};

    ghost Value = { List (ℕ × ℕ) };

    ghost view = { λ recent. reverse recent.order.entries };

    ghost invariant = { λ recent. recent.order.cap ≡ 2 ^ 64 - 1 };
}

impl Recent {
    /// No pieces.
    pub fn new(alloc: Global) -> Result<Recent, NoMemory>
        ensures { IfOk result (λ recent. recent ≡ []) }
    {
        let order = LruCache::unbounded(alloc)?;
        Ok(Recent { alloc, order })
    }

    /// Puts a piece that isn't there, with its length, as the most recently used.
    #[tactic(auto, using(crate::proofs::Order::entered_reverse))]
    pub fn enter(&mut self, piece: PieceNo, len: u64) -> Result<(), NoMemory>
        requires absent { is_there piece.0 self.old ≡ false }
        requires room { length self.old < MOST_PIECES }
        ensures ok { OnOk result (self.new ≡ self.old ++ (piece.0, len) ∷ []) }
        ensures err { OnErr result (self.new ≡ self.old) }
    {
        let _count = self.order.len(); // says that the keys are apart
        self.order.put(piece.0, len)?;
        Ok(())
    }

    /// Makes a piece the most recently used, where it is there.
    #[tactic(auto, using(crate::proofs::Order::touched_reverse))]
    pub fn touch(&mut self, piece: PieceNo)
        ensures { self.new ≡ touched piece.0 self.old }
    {
        let _count = self.order.len(); // says that the keys are apart
        let _ = self.order.promote(&piece.0);
    }

    /// Takes a piece out, where it is there.
    #[tactic(auto, using(crate::proofs::Order::without_reverse))]
    pub fn leave(&mut self, piece: PieceNo)
        ensures { self.new ≡ without piece.0 self.old }
    {
        let _count = self.order.len(); // says that the keys are apart
        let _ = self.order.pop(&piece.0);
    }

    /// The pieces to page, earliest last use first: as few as have `need` bytes together, or all,
    /// cut before the first with which they would pass `page` or `room` bytes. No piece is there
    /// twice.
    #[tactic(auto, using(crate::proofs::Order::apart_reverse))]
    pub fn victims(&self, need: u64, page: u64, room: u64) -> Result<PieceList, NoMemory>
        ensures apart { IsDistinct nat_eq (keys_of self.now) }
        ensures value { IfOk result (λ pieces. map (λ piece. piece.0) pieces
            ≡ victims need (min page room) self.now) }
    {
        let _count = self.order.len(); // says that the keys are apart
        let mut pieces = PieceList::new(self.alloc);
        let mut missing = need;
        let mut free = page.min(room);
        let mut rest = self.order.iter();
        while missing > 0 {
            let Some((piece, len)) = rest.next_back() else {
                return Ok(pieces);
            };
            if *len > free {
                return Ok(pieces);
            }
            pieces.push(PieceNo(*piece))?;
            missing = missing.saturating_sub(*len);
            free -= *len;
        }
        Ok(pieces)
    }
}
