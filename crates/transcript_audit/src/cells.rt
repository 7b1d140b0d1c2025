//! The cells of a chunk, one by one.
ghost use Rattle.std.specs.Prelude.{◌≡◌, ◌+◌, ◌<◌, ◌^◌, ◌++◌, ◌∷◌, [], map, IfOk, OnOk};
ghost use Rattle.std.specs.List.{range_with_len};
ghost use Rattle.history_notions.specs.Runs.{cell_at, cells_of_runs};
ghost use Rattle.transcript_audit.specs.Cells.{cell_of};

use blob_words::{ItemList, NoMemory};
use history_notions::run::{Run, Source};
use std::alloc::Global;

/// A cell: an index of a source.
#[derive(Debug, Drop)]
pub struct At {
    pub source: Source,
    pub index: u128,
}

/// Puts a cell behind others.
#[tactic(auto, using(crate::proofs::GoodCells::cells_push))]
fn put_cell(
    alloc: Global,
    source: &Source,
    index: u128,
    found: &mut ItemList<At>,
) -> Result<(), NoMemory>
    ensures { OnOk result (map cell_of found.new
        ≡ map cell_of found.old ++ cell_at source.now index ∷ []) }
{
    let source = source.copy(alloc)?;
    found.push(At { source, index })?;
    Ok(())
}

/// Puts so many cells of a source behind others.
fn put_cells(
    alloc: Global,
    source: &Source,
    from: u128,
    len: u64,
    found: &mut ItemList<At>,
) -> Result<(), NoMemory>
    requires { from + len < 2 ^ 66 }
    ensures { OnOk result (map cell_of found.new
        ≡ map cell_of found.old ++ map (cell_at source.now) (range_with_len from len)) }
{
    for k in 0..len {
        put_cell(alloc, source, from + u128::from(k), found)?;
    }
    Ok(())
}

/// The cells of runs.
pub fn cells_of(alloc: Global, runs: &[Run]) -> Result<ItemList<At>, NoMemory>
    ensures { IfOk result (λ cells. map cell_of cells ≡ cells_of_runs runs.now) }
{
    let mut found = ItemList::new(alloc);
    for run in runs {
        put_cells(alloc, &run.source, run.from, run.len, &mut found)?;
    }
    Ok(found)
}
