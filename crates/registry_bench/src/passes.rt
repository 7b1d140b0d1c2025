ghost use Rattle.std.specs.Prelude.{◌≡◌, OnOk};
ghost use Rattle.registry_tests.specs.Bare.{HasNoViews};

use blob_registry::Registry;
use item_shares::Shares;
use registry_tests::bed::{build_all, finish, grant, let_all_go, sweep};
use std::time::Instant;

// What so many blobs take, in microseconds.
#[derive(Clone, Copy)]
struct Times {
    registered: u128,
    finished: u128,
    swept: u128,
}

// Registers the blobs; gives how long it took.
fn time_builds(
    rt: &HostRuntime,
    registry: &mut Registry,
    count: u32,
    chain: bool,
) -> anyhow::Result<u128>
    requires { HasNoViews registry.old }
    ensures { OnOk result (HasNoViews registry.new) }
{
    let start = Instant::now(rt)?;
    build_all(rt.alloc(), registry, count, chain)?;
    Ok(start.elapsed(rt)?.as_micros())
}

// Ends the blobs by one pass; gives how long it took, where so many ended.
fn time_finish(
    rt: &HostRuntime,
    registry: &mut Registry,
    shares: &mut Shares,
    count: u32,
) -> anyhow::Result<u128>
    requires { HasNoViews registry.old }
    ensures { OnOk result (HasNoViews registry.new) }
{
    let start = Instant::now(rt)?;
    let ended = finish(registry, shares)?;
    let took = start.elapsed(rt)?.as_micros();
    if ended.len() != count as usize {
        println!(rt; "only {} ended", ended.len())?;
    }
    Ok(took)
}

// Drops the blobs by one sweep; gives how long it took, where none is left.
fn time_sweep(
    rt: &HostRuntime,
    registry: &mut Registry,
    shares: &mut Shares,
) -> anyhow::Result<u128>
    requires { HasNoViews registry.old }
{
    let start = Instant::now(rt)?;
    let _swept = sweep(registry, shares)?; // how many went isn't shown
    let took = start.elapsed(rt)?.as_micros();
    if registry.len() > 0 {
        println!(rt; "{} left", registry.len())?;
    }
    Ok(took)
}

// Registers blobs, ends them all by one pass and drops them all by one sweep.
fn run(
    rt: &HostRuntime,
    registry: &mut Registry,
    shares: &mut Shares,
    count: u32,
    chain: bool,
) -> anyhow::Result<Times>
    requires { HasNoViews registry.old }
{
    let registered = time_builds(rt, registry, count, chain)?;
    grant(registry, 0);
    let finished = time_finish(rt, registry, shares, count)?;
    let_all_go(registry, count);
    let swept = time_sweep(rt, registry, shares)?;
    Ok(Times {
        registered,
        finished,
        swept,
    })
}

/// Times the two passes over so many blobs, which are a chain of sources or stand apart.
pub fn time_passes(rt: &HostRuntime, count: u32, chain: bool) -> anyhow::Result<()> {
    let mut registry = Registry::new(rt.alloc())?;
    let mut shares = Shares::new(rt.alloc())?;
    let times = run(rt, &mut registry, &mut shares, count, chain)?;
    let form = if chain { "in a chain" } else { "apart" };
    println!(rt;
        "{count} blobs {form}: registered in {} us",
        times.registered
    )?;
    println!(rt;
        "    all ended in {} us, all dropped in {} us",
        times.finished, times.swept
    )?;
    Ok(())
}
