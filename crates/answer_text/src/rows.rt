//! The fields behind an answer's word, read all at once.

ghost use Rattle.std.specs.Prelude.{◌≡◌, ◌∷◌, ◌<◌, ◌^◌, decimal};
ghost use Rattle.text_fields.specs.Kind.{AllSpell};
ghost use Rattle.answer_text.specs.Fault.{form_of, ArePieces, IsJob, IsPaged, ReadsAs, TakesAs};
ghost use Rattle.answer_text.specs.Text.{piece_fields, PiecesHaveText};

use crate::text_fault::TextFault;
use blob_words::{JobNo, PageNo, PieceList, PieceNo};
use std::alloc::Global;
use text_fields::LineFault;
use text_fields::fields::Fields;
use text_fields::row::Row;

/// What a fault of a field means for an answer: want of memory, or no such text.
pub fn form_of(fault: LineFault) -> TextFault
    ensures { result ≡ form_of fault }
{
    match fault {
        LineFault::Memory => TextFault::Memory,
        LineFault::Word => TextFault::Form,
        LineFault::Fields => TextFault::Form,
        LineFault::Number => TextFault::Form,
        LineFault::Hex => TextFault::Form,
        LineFault::Name => TextFault::Form,
        LineFault::Type => TextFault::Form,
        LineFault::Limits => TextFault::Form,
    }
}

/// The values of a row.
pub fn read_row<R: Row>(alloc: Global, fields: &mut Fields<'_>) -> Result<R, TextFault>
    ensures { ReadsAs (AllSpell R.kinds) R.Fit R.spell fields.old result }
{
    match fields.row::<R>(alloc) {
        Ok(values) => Ok(values),
        Err(fault) => Err(form_of(fault)),
    }
}

/// The values of the first fields.
fn read_front<R: Row>(alloc: Global, fields: &mut Fields<'_>) -> Result<R, TextFault>
    ensures { TakesAs R.kinds R.Fit R.spell fields.old fields.new result }
{
    if fields.count() < R::COUNT {
        return Err(TextFault::Form);
    }
    match R::read(alloc, fields) {
        Ok(values) => Ok(values),
        Err(fault) => Err(form_of(fault)),
    }
}

/// The pieces that all fields spell, at least one.
pub fn read_pieces(alloc: Global, fields: &mut Fields<'_>) -> Result<PieceList, TextFault>
    ensures { ReadsAs ArePieces PiecesHaveText piece_fields fields.old result }
{
    if fields.count() == 0 {
        return Err(TextFault::Form);
    }
    let mut pieces = PieceList::new(alloc);
    while fields.count() != 0 {
        match fields.take::<PieceNo>(alloc) {
            Ok(piece) => match pieces.push(piece) {
                Ok(()) => {}
                Err(_) => return Err(TextFault::Memory),
            },
            Err(fault) => return Err(form_of(fault)),
        }
    }
    Ok(pieces)
}

/// A job and the pieces behind it.
pub fn read_job_pieces(
    alloc: Global,
    fields: &mut Fields<'_>,
) -> Result<(JobNo, PieceList), TextFault>
    ensures { ReadsAs IsJob (λ v. (v.0.0 < 2 ^ 32) × PiecesHaveText v.1)
        (λ v. decimal v.0.0 ∷ piece_fields v.1) fields.old result }
{
    let (j,) = match read_front::<(JobNo,)>(alloc, fields) {
        Ok(front) => front,
        Err(fault) => return Err(fault),
    };
    let pieces = read_pieces(alloc, fields)?;
    Ok((j, pieces))
}

/// A job, a page and the pieces behind them.
pub fn read_paged_pieces(
    alloc: Global,
    fields: &mut Fields<'_>,
) -> Result<(JobNo, PageNo, PieceList), TextFault>
    ensures { ReadsAs IsPaged (λ v. (v.0.0 < 2 ^ 32) × (v.1.0 < 2 ^ 32) × PiecesHaveText v.2)
        (λ v. decimal v.0.0 ∷ decimal v.1.0 ∷ piece_fields v.2) fields.old result }
{
    let (j, f) = match read_front::<(JobNo, PageNo)>(alloc, fields) {
        Ok(front) => front,
        Err(fault) => return Err(fault),
    };
    let pieces = read_pieces(alloc, fields)?;
    Ok((j, f, pieces))
}
