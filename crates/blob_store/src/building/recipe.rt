//! The recipe of parts.
ghost use Rattle.std.specs.Prelude.{◌≡◌, ◌+◌, ◌<◌, ◌≤◌, ◌^◌, ◌++◌, drop, length, List, IfOk, ◌∷◌};
ghost use Rattle.std.specs.Int.{div_ceil};
ghost use Rattle.blob_model.specs.Parts.{own_length, own_lengths};
ghost use Rattle.transport_plan.specs.Spans.{piece_count};
ghost use Rattle.store_laws.specs.PartLaws.{own_steps, piece_lengths, recipe_of};
ghost use Rattle.blob_store.specs.NewItems.{range_rest, range_step};

use blob_entries::{Recipe, Step};
use blob_items::View;
use blob_words::{NoMemory, PieceNo};
use session_script::Part;
use std::alloc::Global;

// The steps of an own part, numbered from `first`; answers the number behind them.
fn push_own(recipe: &mut Recipe, page: u64, first: u32, len: u64) -> Result<u32, NoMemory>
    requires page { 0 < page }
    requires few { first + div_ceil len page < 2 ^ 32 }
    ensures { IfOk result (λ next. (next ≡ first + length (piece_lengths page len))
        × (recipe.new ≡ recipe.old ++ own_steps first (piece_lengths page len))) }
{
    let mut number = first;
    for k in 0..len.div_ceil(page) {
        let piece = PieceNo(number);
        recipe.push(Step::Own(piece, page.min(len - k * page)))?;
        number += 1;
    }
    Ok(number)
}

// The step of a range, which takes the next view where it isn't empty; answers how many were taken.
fn push_range(
    recipe: &mut Recipe,
    views: &[View],
    taken: usize,
    len: u64,
) -> Result<usize, NoMemory>
    ensures { IfOk result (λ next.
        (drop next views.now ≡ range_rest len (drop taken views.now))
        × (recipe.new ≡ recipe.old ++ range_step len (drop taken views.now))) }
{
    if len == 0 {
        return Ok(taken);
    }
    match views.get(taken) {
        Some(view) => {
            recipe.push(Step::Fixed(*view))?;
            Ok(taken + 1)
        }
        None => Ok(taken),
    }
}

// The steps of a part; answers the number of the next piece, and how many views were taken.
fn push_part(
    recipe: &mut Recipe,
    page: u64,
    number: u32,
    views: &[View],
    taken: usize,
    part: &Part,
) -> Result<(u32, usize), NoMemory>
    requires page { 0 < page }
    requires few { number + piece_count page (own_length part.now) < 2 ^ 32 }
    ensures steps { IfOk result (λ next. (after : List Part)
        → recipe.new ++ recipe_of page next.0 (drop next.1 views.now) after
        ≡ recipe.old ++ recipe_of page number (drop taken views.now) (part.now ∷ after)) }
    ensures number { IfOk result (λ next.
        next.0 ≡ number + piece_count page (own_length part.now)) }
{
    match part {
        Part::Embedded(bytes) => {
            let next = push_own(recipe, page, number, bytes.len() as u64)?;
            Ok((next, taken))
        }
        Part::Asked(len) => {
            let next = push_own(recipe, page, number, *len)?;
            Ok((next, taken))
        }
        Part::FileRange { len, .. } => {
            let next = push_range(recipe, views, taken, *len)?;
            Ok((number, next))
        }
        Part::BlobRange { b, off, len } => {
            recipe.push(Step::Source(*b, *off, *len))?;
            Ok((number, taken))
        }
        Part::HandleRange { len, .. } => {
            let next = push_range(recipe, views, taken, *len)?;
            Ok((number, next))
        }
    }
}

/// The recipe of parts: own pieces are numbered from `first`, and each range that isn't empty takes
/// the next view.
pub fn recipe(
    alloc: Global,
    page: u64,
    first: u32,
    views: &[View],
    parts: &[Part],
) -> Result<Recipe, NoMemory>
    requires page { 0 < page }
    requires few { first + piece_count page (own_lengths parts.now) < 2 ^ 32 }
    ensures { IfOk result (λ recipe. recipe ≡ recipe_of page first views.now parts.now) }
{
    let mut recipe = Recipe::new(alloc);
    let mut number = first;
    let mut taken = 0;
    for part in parts {
        let next = push_part(&mut recipe, page, number, views, taken, part)?;
        number = next.0;
        taken = next.1;
    }
    Ok(recipe)
}
