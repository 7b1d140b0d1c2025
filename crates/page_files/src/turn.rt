ghost use Rattle.std.specs.Prelude.{ℕ, ◌≡◌};
ghost use Rattle.std.specs.List.{AllByRecursion};
ghost use Rattle.item_shares.specs.Shares.{share_at};
ghost use Rattle.page_files.specs.Items.{turned, IsPieceIn};

use crate::held::Held;
use blob_words::PageNo;
use item_shares::Shares;

// Says of each piece that it is now in the page. Its bytes in memory go.
pub fn turn_paged(shares: &mut Shares, page: PageNo, pieces: &[Held])
    requires { AllByRecursion (IsPieceIn shares.old) pieces.now }
    ensures { (slot : ℕ) → share_at shares.new slot
        ≡ turned page pieces.now slot (share_at shares.old slot) }
{
    for held in pieces {
        shares.turn_paged(held.slot, page, held.off);
    }
}
