//! The plans of a transcript, read and put.

ghost use Rattle.std.specs.Prelude.{◌≡◌, ◌∷◌};
ghost use Rattle.text_fields.specs.Fields.{fields};
ghost use Rattle.text_fields.specs.Output.{IsPutTo};
ghost use Rattle.answer_text.specs.Fault.{IsPlan, ReadsAs};
ghost use Rattle.answer_text.specs.Text.{plan_fields, PlanHasText};
ghost use Rattle.answer_text.specs.Word.{plan_text};

use crate::plan_word::PlanWord;
use crate::rows::read_row;
use crate::text_fault::TextFault;
use blob_source::Sink;
use blob_words::{Failed, Plan};
use std::alloc::Global;
use text_fields::buffer::Buffer;
use text_fields::fields::Fields;
use text_fields::literal::Literal;
use text_fields::values::Values;

fn read_behind(alloc: Global, word: PlanWord, fields: &mut Fields<'_>) -> Result<Plan, TextFault>
    ensures { ReadsAs IsPlan PlanHasText plan_fields (plan_text word ∷ fields.old) result }
{
    match word {
        PlanWord::None => {
            if fields.count() == 0 {
                return Ok(Plan::None);
            }
            Err(TextFault::Form)
        }
        PlanWord::Inline => {
            if fields.count() == 0 {
                return Ok(Plan::Inline);
            }
            Err(TextFault::Form)
        }
        PlanWord::Shared => match read_row::<(u32,)>(alloc, fields) {
            Ok((segments,)) => Ok(Plan::Shared(segments)),
            Err(fault) => Err(fault),
        },
        PlanWord::File => match read_row::<(u32,)>(alloc, fields) {
            Ok((segments,)) => Ok(Plan::File(segments)),
            Err(fault) => Err(fault),
        },
    }
}

/// The plan that the fields spell.
pub fn read_plan(alloc: Global, fields: &mut Fields<'_>) -> Result<Plan, TextFault>
    ensures { ReadsAs IsPlan PlanHasText plan_fields fields.old result }
{
    let Some(first) = fields.next() else {
        return Err(TextFault::Form);
    };
    match PlanWord::from_text(first) {
        Some(word) => read_behind(alloc, word, fields),
        None => Err(TextFault::Form),
    }
}

/// Puts the plan's words, each behind a space; nothing for what is no plan that a blob has.
pub fn put_plan<K: Sink>(buffer: &mut Buffer, out: &mut K, plan: Plan) -> Result<(), Failed>
    ensures { IsPutTo K.Sink out.old out.new buffer.old buffer.new
        (fields 32 (plan_fields plan)) result }
{
    match plan {
        Plan::None => (Literal { text: b"none" },).put_all(buffer, out, b' '),
        Plan::Inline => (Literal { text: b"inline" },).put_all(buffer, out, b' '),
        Plan::Shared(n) => (Literal { text: b"shared" }, n).put_all(buffer, out, b' '),
        Plan::File(n) => (Literal { text: b"file" }, n).put_all(buffer, out, b' '),
        Plan::OutOfMemory => Ok(()),
        Plan::TooMany(_) => Ok(()),
    }
}
