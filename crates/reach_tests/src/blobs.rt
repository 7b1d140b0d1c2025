//! Blobs of a few bytes.
ghost use Rattle.std.specs.Prelude.{◌≡◌, [], true, OnOk};
ghost use Rattle.blob_entries.specs.Book.{book_of};
ghost use Rattle.blob_entries.specs.Counted.{AreCounted};
ghost use Rattle.blob_entries.specs.Statuses.{is_pending};
ghost use Rattle.blob_entries.specs.Weights.{HasRoom};

use blob_entries::{Recipe, Step};
use blob_items::View;
use blob_registry::Registry;
use blob_words::{BlobName, PageNo, PieceNo, RendererId, Status};
use item_shares::{Item, Shares};
use std::alloc::Global;
use std::test::Fail;

/// The name of the blob with this number.
pub fn name(number: u32) -> BlobName
    ensures { result ≡ number }
{
    BlobName::from_number(u128::from(number))
}

/// Registers a blob of four bytes, which are a piece of its own.
pub fn put_own(
    alloc: Global,
    registry: &mut Registry,
    blob: u32,
    piece: PieceNo,
    first: Status,
) -> Result<(), Fail>
    requires { is_pending first ≡ true }
{
    let mut recipe = Recipe::new(alloc);
    recipe.push(Step::Own(piece, 4))?;
    registry.register(name(blob), RendererId(1), 4, b"", recipe, first)?;
    Ok(())
}

/// Registers a blob that is broken at once.
pub fn put_broken(alloc: Global, registry: &mut Registry, blob: u32) -> Result<(), Fail> {
    let recipe = Recipe::new(alloc);
    let status = Status::InvalidArguments;
    registry.register(name(blob), RendererId(1), 0, b"", recipe, status)?;
    Ok(())
}

/// Registers blob 1, which waits for quota, and blob 2, which takes two of its bytes.
pub fn put_source(alloc: Global, registry: &mut Registry) -> Result<(), Fail>
    requires { registry.old ≡ book_of [] [] }
{
    let mut own = Recipe::new(alloc);
    own.push(Step::Own(PieceNo(3), 4))?;
    let status = Status::PendingQuota;
    registry.register(name(1), RendererId(1), 4, b"", own, status)?;
    let mut range = Recipe::new(alloc);
    range.push(Step::Source(name(1), 1, 2))?;
    let status = Status::PendingReferencedBlobs;
    registry.register(name(2), RendererId(1), 2, b"", range, status)?;
    Ok(())
}

/// Registers blob 1, whose four bytes are a piece in a page.
pub fn put_paged(
    alloc: Global,
    registry: &mut Registry,
    shares: &mut Shares,
    piece: PieceNo,
) -> Result<(), Fail>
    requires { registry.old ≡ book_of [] [] }
    ensures counted { OnOk result (AreCounted registry.new.entries shares.new) }
    ensures room { OnOk result (HasRoom registry.new.names registry.new.entries) }
{
    let page = PageNo(0);
    let (off, len) = (0, 4);
    let paged = Item::Paged {
        piece,
        page,
        off,
        len,
    };
    let slot = shares.add(paged)?;
    let mut recipe = Recipe::new(alloc);
    recipe.push(Step::Fixed(View { slot, off, len }))?;
    let status = Status::PendingReferencedBlobs;
    registry.register(name(1), RendererId(1), 4, b"", recipe, status)?;
    Ok(())
}

/// One root more of a blob, where it stands.
pub fn hold(registry: &mut Registry, blob: u32) {
    let name = name(blob);
    if let Some(roots) = registry.roots_of(name) {
        if roots < 1_000 {
            registry.hold(name);
        }
    }
}
