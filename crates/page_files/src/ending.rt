ghost use Rattle.std.specs.Prelude.{◌≡◌, ◌+◌, ◌^◌, ◌<◌};
ghost use Rattle.page_files.specs.Endings.{counted};

use blob_words::{PageNo, PieceList};

/// How a page job ended without a fault.
#[derive(Debug, Drop)]
pub enum JobEnd {
    /// Its pieces were written to this page, in this order.
    Paged(PageNo, PieceList),
    /// No piece of it was left, and nothing was written.
    Empty,
}

/// How a compact job ended without a fault.
#[derive(Debug, Drop)]
pub enum MoveEnd {
    /// Its pieces were moved to this page, in this order.
    Moved(PageNo, PieceList),
    /// No piece of it was left, and nothing was read or written.
    Empty,
}

/// How many pages were asked to be removed at the end.
#[derive(Clone, Copy, Debug, PartialEq, Eq)]
pub struct Closed {
    /// Those that went.
    pub removed: u32,
    /// Those that the disk left.
    pub left: u32,
}

impl Closed {
    // Counts a removal, where one was asked for; whether the page went.
    pub(crate) fn count(&mut self, goes: Option<bool>)
        requires { self.old.removed + self.old.left < 2 ^ 31 }
        ensures { self.new ≡ counted goes self.old }
    {
        match goes {
            Some(true) => self.removed += 1,
            Some(false) => self.left += 1,
            None => {}
        }
    }
}
