//! What the endings of a pass leave: which pieces may be paged, and which go.
ghost use Rattle.store_laws.specs.EndLaws.{EndingsStand};
ghost use Rattle.store_laws.specs.Pageable.{PiecesAreEntered, PiecesMayBePaged};
ghost use Rattle.store_laws.specs.Unpinned.{UnpinnedStands};

/// A piece of a blob that is done may be paged where its item is in memory and no job has it.
pub fn pieces_may_be_paged()
    ensures { PiecesMayBePaged }
{}

/// Behind a pass the pieces that are entered are those of the blobs that got done which may be
/// paged, as the items in their homes say.
pub fn pieces_are_entered()
    ensures { PiecesAreEntered }
{}

/// The contents stand where items go that no entry views and no piece on its way is in.
pub fn unpinned_stands()
    ensures { UnpinnedStands }
{}

/// The endings that a pass tells are those owed, and behind them what is left of the parts stands,
/// with the same blobs.
pub fn endings_stand()
    ensures { EndingsStand }
{}
