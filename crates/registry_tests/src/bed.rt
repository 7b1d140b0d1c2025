//! Calls on a registry whose blobs have no bytes. The tests stand on them, and what times the
//! passes.
ghost use Rattle.std.specs.Prelude.{◌≡◌, [], true, length, sum_by, IfOk, OnOk};
ghost use Rattle.std.specs.List.{AllByRecursion};
ghost use Rattle.blob_entries.specs.Contents.{step_len};
ghost use Rattle.blob_entries.specs.Holdings.{fixed_views};
ghost use Rattle.blob_entries.specs.Sound.{StepFits};
ghost use Rattle.blob_entries.specs.Statuses.{is_broken};
ghost use Rattle.registry_tests.specs.Bare.{AreEmptySteps, HasNoViews};

use blob_entries::status::is_pending;
use blob_entries::{Recipe, Step};
use blob_registry::{Endings, RegisterFault, Registry, Swept};
use blob_words::{BlobName, NoMemory, RendererId, Status};
use item_shares::Shares;
use std::alloc::Global;

/// The name of the blob with this number.
pub fn name(number: u32) -> BlobName
    ensures { result ≡ number }
{
    BlobName::from_number(u128::from(number))
}

// Empty ranges of blobs that stand.
fn steps_of(alloc: Global, registry: &Registry, sources: &[u32]) -> Result<Recipe, NoMemory>
    ensures { IfOk result (AreEmptySteps registry.now) }
{
    let mut steps = Recipe::new(alloc);
    for source in sources {
        let source = name(*source);
        if registry.status_of(source).is_some() {
            steps.push(Step::Source(source, 0, 0))?;
        }
    }
    Ok(steps)
}

/// Registers a blob without bytes, of empty ranges of others. It waits for quota where it is to.
pub fn build(
    alloc: Global,
    registry: &mut Registry,
    blob: u32,
    sources: &[u32],
    waits: bool,
) -> Result<(), RegisterFault>
    requires { HasNoViews registry.old }
    ensures { HasNoViews registry.new }
{
    let Ok(steps) = steps_of(alloc, registry, sources) else {
        return Err(RegisterFault::NoMemory);
    };
    let first = if waits {
        Status::PendingQuota
    } else {
        Status::PendingReferencedBlobs
    };
    registry.register(name(blob), RendererId(1), 0, b"", steps, first)
}

/// One root more, where the blob stands.
pub fn hold(registry: &mut Registry, blob: u32)
    requires { HasNoViews registry.old }
    ensures { HasNoViews registry.new }
{
    let name = name(blob);
    if let Some(roots) = registry.roots_of(name) {
        if roots < 1_000 {
            registry.hold(name);
        }
    }
}

/// One root fewer, where the blob has one.
pub fn let_go(registry: &mut Registry, blob: u32)
    requires { HasNoViews registry.old }
    ensures { HasNoViews registry.new }
{
    let name = name(blob);
    if let Some(roots) = registry.roots_of(name) {
        if roots > 0 {
            registry.let_go(name);
        }
    }
}

/// Grants a blob that waits.
pub fn grant(registry: &mut Registry, blob: u32)
    requires { HasNoViews registry.old }
    ensures { HasNoViews registry.new }
{
    let name = name(blob);
    if let Some(Status::PendingQuota) = registry.status_of(name) {
        registry.set_transport(name);
    }
}

/// Marks a blob, where it is unfinished.
pub fn mark(registry: &mut Registry, blob: u32, why: Status)
    requires bare { HasNoViews registry.old }
    requires breaking { is_broken why ≡ true }
    ensures { HasNoViews registry.new }
{
    let name = name(blob);
    if let Some(status) = registry.status_of(name) {
        if is_pending(status) {
            registry.mark(name, why);
        }
    }
}

/// A pass over endings.
pub fn finish(registry: &mut Registry, shares: &mut Shares) -> Result<Endings, NoMemory>
    requires { HasNoViews registry.old }
    ensures { OnOk result (HasNoViews registry.new) }
{
    registry.finish_pass(shares)
}

/// A sweep.
pub fn sweep(registry: &mut Registry, shares: &mut Shares) -> Result<Swept, NoMemory>
    requires { HasNoViews registry.old }
    ensures { OnOk result (HasNoViews registry.new) }
{
    registry.sweep(shares)
}

/// Registers blobs from 0 on, each with a root, of which each has the one before it as its source
/// where they are a chain. The first waits for quota.
pub fn build_all(
    alloc: Global,
    registry: &mut Registry,
    count: u32,
    chain: bool,
) -> Result<(), NoMemory>
    requires { HasNoViews registry.old }
    ensures { OnOk result (HasNoViews registry.new) }
{
    for blob in 0..count {
        let before = [blob.saturating_sub(1)];
        let sources: &[u32] = if chain && blob > 0 { &before } else { &[] };
        if build(alloc, registry, blob, sources, blob == 0).is_err() {
            return Err(NoMemory);
        }
        hold(registry, blob);
    }
    Ok(())
}

/// One root fewer of each blob from 0 on.
pub fn let_all_go(registry: &mut Registry, count: u32)
    requires { HasNoViews registry.old }
    ensures { HasNoViews registry.new }
{
    for blob in 0..count {
        let_go(registry, blob);
    }
}
