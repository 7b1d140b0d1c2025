ghost use Rattle.std.specs.Prelude.{◌≡◌};
ghost use Rattle.page_files.specs.Pages.{is_held, is_unasked, released, size_of};
ghost use Rattle.page_files.specs.Keys.{due_key, thin_key};

use crate::piece_table::PieceTable;
use blob_words::PieceNo;

/// What became of a page number that was used.
#[derive(Debug, Drop)]
pub enum Page {
    /// Its write failed, or is under way.
    Torn,
    /// It was written with so many bytes, and these pieces in it are reached.
    Whole { size: u64, pieces: PieceTable },
    /// Its removal was asked for.
    Asked,
}

impl Page {
    /// Takes a reached piece out.
    pub fn release(&mut self, piece: PieceNo)
        ensures { self.new ≡ released piece self.old }
    {
        if let Page::Whole { pieces, .. } = self {
            pieces.remove(piece);
        }
    }

    /// Whether a piece in it is reached.
    pub fn is_held(&self) -> bool
        ensures { result ≡ is_held self.now }
    {
        match self {
            Page::Whole { pieces, .. } => pieces.bytes() > 0,
            Page::Torn => false,
            Page::Asked => false,
        }
    }

    /// The bytes written to it.
    pub fn size(&self) -> u64
        ensures { result ≡ size_of self.now }
    {
        match self {
            Page::Whole { size, .. } => *size,
            Page::Torn => 0,
            Page::Asked => 0,
        }
    }

    /// Whether it was written, whole or not, and its removal was not asked for.
    pub fn is_unasked(&self) -> bool
        ensures { result ≡ is_unasked self.now }
    {
        match self {
            Page::Whole { .. } => true,
            Page::Torn => true,
            Page::Asked => false,
        }
    }

    /// The bytes of its reached pieces where it is thin, else the greatest number.
    pub fn thin_key(&self) -> u64
        ensures { result ≡ thin_key self.now }
    {
        match self {
            Page::Whole { size, pieces } => {
                let bytes = pieces.bytes();
                if bytes > 0 && 2 * u128::from(bytes) < u128::from(*size) {
                    bytes
                } else {
                    u64::MAX
                }
            }
            Page::Torn => u64::MAX,
            Page::Asked => u64::MAX,
        }
    }

    /// 0 where it was written and no piece in it is reached any more, else 1.
    pub fn due_key(&self) -> u64
        ensures { result ≡ due_key self.now }
    {
        match self {
            Page::Whole { pieces, .. } => u64::from(pieces.bytes() > 0),
            Page::Torn => 1,
            Page::Asked => 1,
        }
    }
}
