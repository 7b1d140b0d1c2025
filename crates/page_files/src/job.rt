ghost use Rattle.std.specs.Prelude.{◌≡◌, ◌+◌};
ghost use Rattle.page_files.specs.Pieces.{bytes_of, without};

use crate::piece_table::PieceTable;
use blob_words::{JobNo, PageNo, PieceNo};

/// A job that waits for the disk.
#[derive(Debug, Drop)]
pub struct Job {
    pub number: JobNo,
    /// The page that it moves pieces out of; none where it writes pieces of memory.
    pub source: Option<PageNo>,
    /// The pieces left in it, in its order.
    pub pieces: PieceTable,
}

impl Job {
    /// Takes a piece out, where it is in it; how many bytes fewer it has then.
    #[tactic(auto, using(crate::proofs::Lists::without_bytes))]
    pub fn strike(&mut self, piece: PieceNo) -> u64
        ensures value { self.new ≡ record self.old { pieces = without piece self.old.pieces } }
        ensures bytes { result + bytes_of self.new.pieces ≡ bytes_of self.old.pieces }
    {
        let before = self.pieces.bytes();
        self.pieces.remove(piece);
        before - self.pieces.bytes()
    }
}
