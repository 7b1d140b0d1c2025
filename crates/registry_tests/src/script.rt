ghost use Rattle.std.specs.Prelude.{◌≡◌, OnOk};
ghost use Rattle.registry_tests.specs.Bare.{HasNoViews};

use crate::bed;
use blob_registry::{Endings, Names, RegisterFault, Registry, Swept};
use blob_words::{NoMemory, Status};
use item_shares::Shares;
use std::alloc::Global;

/// A call of the registry, with the answer that is expected. Blobs are told by their numbers; the
/// n-th that is built has the build number n.
#[derive(Clone, Copy, Debug)]
pub enum Call<'a> {
    /// A blob of empty ranges of others.
    Build(u32, &'a [u32]),
    /// The same; it waits for quota.
    Wait(u32, &'a [u32]),
    /// The name was used before.
    Used(u32),
    Grant(u32),
    Hold(u32),
    LetGo(u32),
    Fail(u32),
    Die(u32),
    /// These end, in this order.
    Finish(&'a [(u32, Status)]),
    /// These are dropped, in this order.
    Sweep(&'a [u32]),
    /// These need the blob.
    Needed(u32, &'a [u64]),
    /// So the blob stands.
    Stands(u32, Option<Status>),
    /// So many stand.
    Count(usize),
}

// Whether a blob was registered.
fn is_accepted(outcome: Result<(), RegisterFault>) -> Result<bool, NoMemory> {
    match outcome {
        Ok(()) => Ok(true),
        Err(RegisterFault::NoMemory) => Err(NoMemory),
        Err(_) => Ok(false),
    }
}

// Whether the endings are these.
fn ends_so(endings: &Endings, expected: &[(u32, Status)]) -> bool {
    let list = endings.as_slice();
    if list.len() != expected.len() {
        return false;
    }
    for i in 0..list.len() {
        if list[i].name != bed::name(expected[i].0) {
            return false;
        }
        if list[i].status != expected[i].1 {
            return false;
        }
    }
    true
}

// Whether the names dropped are these, and no item went.
fn drops_so(swept: &Swept, expected: &[u32]) -> bool {
    let list = swept.dropped.as_slice();
    if list.len() != expected.len() || swept.freed.len() != 0 {
        return false;
    }
    for i in 0..list.len() {
        if list[i] != bed::name(expected[i]) {
            return false;
        }
    }
    true
}

// Whether the blobs that need one are these.
fn is_needed_so(registry: &Registry, blob: u32, expected: &[u64]) -> bool {
    match registry.dependents_of(bed::name(blob)) {
        Some(list) => list.as_slice() == expected,
        None => false,
    }
}

// Makes a call, and tells whether the answer is the expected one.
fn answers(
    alloc: Global,
    registry: &mut Registry,
    shares: &mut Shares,
    call: Call<'_>,
) -> Result<bool, NoMemory>
    requires { HasNoViews registry.old }
    ensures { OnOk result (HasNoViews registry.new) }
{
    match call {
        Call::Build(blob, sources) => is_accepted(bed::build(
            alloc, registry, blob, sources, false,
        )),
        Call::Wait(blob, sources) => is_accepted(bed::build(alloc, registry, blob, sources, true)),
        Call::Used(blob) => {
            let accepted = is_accepted(bed::build(alloc, registry, blob, &[], false))?;
            Ok(!accepted && registry.was_registered(bed::name(blob)))
        }
        Call::Grant(blob) => {
            bed::grant(registry, blob);
            Ok(true)
        }
        Call::Hold(blob) => {
            bed::hold(registry, blob);
            Ok(true)
        }
        Call::LetGo(blob) => {
            bed::let_go(registry, blob);
            Ok(true)
        }
        Call::Fail(blob) => {
            bed::mark(registry, blob, Status::FileWriteFailed);
            Ok(true)
        }
        Call::Die(blob) => {
            bed::mark(registry, blob, Status::SourceDied);
            Ok(true)
        }
        Call::Finish(expected) => {
            let endings = bed::finish(registry, shares)?;
            Ok(ends_so(&endings, expected))
        }
        Call::Sweep(expected) => {
            let swept = bed::sweep(registry, shares)?;
            Ok(drops_so(&swept, expected))
        }
        Call::Needed(blob, expected) => Ok(is_needed_so(registry, blob, expected)),
        Call::Stands(blob, expected) => Ok(registry.status_of(bed::name(blob)) == expected),
        Call::Count(expected) => Ok(registry.len() == expected),
    }
}

/// Runs calls over a registry of no blobs, and tells the place of the first that is answered
/// otherwise.
pub fn run(alloc: Global, calls: &[Call<'_>]) -> Result<Option<usize>, NoMemory> {
    let mut registry = Registry::new(alloc)?;
    let mut shares = Shares::new(alloc)?;
    for place in 0..calls.len() {
        if !answers(alloc, &mut registry, &mut shares, calls[place])? {
            return Ok(Some(place));
        }
    }
    Ok(None)
}
