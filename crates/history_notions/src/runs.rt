//! The runs of a blob's content: their cells, and parts of them.
ghost use Rattle.std.specs.Prelude.{◌≡◌, ◌+◌, ◌≤◌, ◌<◌, ◌-◌, ◌^◌, ◌++◌, length, min, map, take, drop, IfOk, OnOk};
ghost use Rattle.std.specs.List.{range_with_len};
ghost use Rattle.history_notions.specs.Runs.{cell_at, run_cells, cells_of_runs};

use crate::run::{Run, Source};
use blob_words::{ItemList, NoMemory};
use std::alloc::Global;

/// Puts the cells of a source from an index on behind those of other runs.
#[tactic(auto, using(crate::proofs::RunCells::cells_push))]
pub fn put_run(
    source: Source,
    from: u128,
    len: u64,
    found: &mut ItemList<Run>,
) -> Result<(), NoMemory>
    requires { from + len < 2 ^ 66 }
    ensures { OnOk result (cells_of_runs found.new
        ≡ cells_of_runs found.old ++ map (cell_at source) (range_with_len from len)) }
{
    found.push(Run { source, from, len })?;
    Ok(())
}

/// Puts the cells of a run from its `skip`-th on behind others, at most `left` of them, and tells
/// how many these are.
fn put_begun(
    alloc: Global,
    run: &Run,
    skip: u64,
    left: u64,
    found: &mut ItemList<Run>,
) -> Result<u64, NoMemory>
    requires { skip < run.now.len }
    ensures size { IfOk result (λ size. size ≡ min left (run.now.len - skip)) }
    ensures cells { OnOk result (cells_of_runs found.new ≡ cells_of_runs found.old
        ++ map (cell_at run.now.source)
        (range_with_len (run.now.from + skip) (min left (run.now.len - skip)))) }
{
    let size = left.min(run.len - skip);
    let source = run.source.copy(alloc)?;
    put_run(source, run.from + u128::from(skip), size, found)?;
    Ok(size)
}

/// Puts `len` cells of runs, from the `off`-th on and as far as there are any, behind others.
pub fn put_slice(
    alloc: Global,
    runs: &[Run],
    off: u64,
    len: u64,
    found: &mut ItemList<Run>,
) -> Result<(), NoMemory>
    ensures { OnOk result (cells_of_runs found.new
        ≡ cells_of_runs found.old ++ take len (drop off (cells_of_runs runs.now))) }
{
    let mut skip = off;
    let mut left = len;
    for run in runs {
        if skip >= run.len {
            skip -= run.len;
        } else {
            left -= put_begun(alloc, run, skip, left, found)?;
            skip = 0;
        }
    }
    Ok(())
}

/// How many cells the runs have.
pub fn run_total(runs: &[Run]) -> u128
    ensures { result ≡ length (cells_of_runs runs.now) }
{
    let mut total: u128 = 0;
    for run in runs {
        total += u128::from(run.len);
    }
    total
}
