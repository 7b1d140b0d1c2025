ghost use Rattle.std.specs.Prelude.{◌≡◌, IfOk};
ghost use Rattle.store_reach.specs.Reach.{reached};

use crate::walk::window_from;
use blob_registry::Registry;
use blob_words::{NoMemory, PieceList};
use item_shares::Shares;
use std::alloc::Global;

/// The pieces that a blob which stands and isn't broken has a byte of, rising.
pub fn reached_pieces(
    alloc: Global,
    registry: &Registry,
    shares: &Shares,
) -> Result<PieceList, NoMemory>
    ensures { IfOk result (λ list. list ≡ reached registry.now shares.now) }
{
    let mut list = PieceList::new(alloc);
    let mut start = 0;
    loop {
        let window = window_from(registry, shares, start);
        window.list(&mut list)?;
        match window.next() {
            Some(next) => start = next,
            None => return Ok(list),
        }
    }
}
