ghost use Rattle.std.specs.Prelude.{◌≡◌, [], OnOk};
ghost use Rattle.blob_entries.specs.Book.{book_of};
ghost use Rattle.blob_entries.specs.Counted.{AreCounted};
ghost use Rattle.blob_entries.specs.Weights.{HasRoom};

use crate::bed::name;
use blob_entries::{Recipe, Step};
use blob_items::View;
use blob_registry::Registry;
use blob_words::{NoMemory, Octets, PieceNo, RendererId, Status};
use item_shares::{Item, Shares};
use std::alloc::Global;
use std::test::Fail;

// Blob 1 has the six bytes of an item, and blob 2 takes four of them from blob 1.
fn build_both(alloc: Global, registry: &mut Registry, shares: &mut Shares) -> Result<(), NoMemory>
    requires { registry.old ≡ book_of [] [] }
    ensures counted { OnOk result (AreCounted registry.new.entries shares.new) }
    ensures room { OnOk result (HasRoom registry.new.names registry.new.entries) }
{
    let bytes = Octets::from_slice(alloc, b"shared")?;
    let piece = PieceNo(0);
    let slot = shares.add(Item::Memory { piece, bytes })?;
    let mut whole = Recipe::new(alloc);
    let (off, len) = (0, 6);
    whole.push(Step::Fixed(View { slot, off, len }))?;
    let status = Status::PendingReferencedBlobs;
    if registry
        .register(name(1), RendererId(1), 6, b"", whole, status)
        .is_err()
    {
        return Err(NoMemory);
    }
    let mut range = Recipe::new(alloc);
    range.push(Step::Source(name(1), 1, 4))?;
    if registry
        .register(name(2), RendererId(1), 4, b"", range, status)
        .is_err()
    {
        return Err(NoMemory);
    }
    Ok(())
}

// One root more of a blob, where it stands.
fn hold(registry: &mut Registry, shares: &Shares, blob: u32)
    requires { AreCounted registry.old.entries shares.now }
    ensures { AreCounted registry.new.entries shares.now }
{
    let name = name(blob);
    if let Some(roots) = registry.roots_of(name) {
        if roots < 1_000 {
            registry.hold(name);
        }
    }
}

// One root fewer of a blob, where it has one.
fn let_go(registry: &mut Registry, shares: &Shares, blob: u32)
    requires { AreCounted registry.old.entries shares.now }
    ensures { AreCounted registry.new.entries shares.now }
{
    let name = name(blob);
    if let Some(roots) = registry.roots_of(name) {
        if roots > 0 {
            registry.let_go(name);
        }
    }
}

#[test]
fn an_item_goes_with_the_last_of_its_blobs(rt: HostRuntime) -> Result<(), Fail> {
    let heap = rt.alloc();
    let mut registry = Registry::new(heap)?;
    let mut shares = Shares::new(heap)?;
    build_both(heap, &mut registry, &mut shares)?;
    let endings = registry.finish_pass(&mut shares)?;
    assert_eq!(rt; endings.len(), 2);
    hold(&mut registry, &shares, 1);
    hold(&mut registry, &shares, 2);
    let_go(&mut registry, &shares, 1);
    let swept = registry.sweep(&mut shares)?;
    assert_eq!(rt; swept.freed.len(), 0);
    assert_eq!(rt; registry.len(), 1);
    let_go(&mut registry, &shares, 2);
    let swept = registry.sweep(&mut shares)?;
    assert_eq!(rt; swept.freed.len(), 1);
    assert_eq!(rt; registry.len(), 0);
    Ok(())
}
