use crate::held::Held;
use crate::piece_table::PieceTable;
use blob_words::{PageNo, PieceList};

// The next page with the pieces that are to be written to it, and what is needed once they are.
#[derive(Debug, Drop)]
pub struct NextPage {
    pub page: PageNo,
    // Its bytes.
    pub size: u64,
    pub pieces: Vec<Held>,
    pub table: PieceTable,
    pub list: PieceList,
}
