//! The groups of a transcript, read.

ghost use Rattle.std.specs.Prelude.{◌≡◌, ◌∷◌, ◌++◌, ◌≤◌, ℕ, List, [], Err, codes, length};
ghost use Rattle.session_script.specs.Line.{HasSpelling};
ghost use Rattle.text_fields.specs.Reading.{split};
ghost use Rattle.answer_text.specs.Fault.{IsTally, ReadsAs};
ghost use Rattle.answer_text.specs.Groups.{HasNoGroup, ReadsBehind, ReadsEventLine, ReadsFurther};
ghost use Rattle.answer_text.specs.Groups.{ReadsGroup};
ghost use Rattle.answer_text.specs.Text.{tally_text, TallyHasText};
ghost use Rattle.answer_text.specs.declared.group_fault.GroupFault.TheVariants as group_faults;

use crate::answer::Answers;
use crate::answer_reader::read_answer;
use crate::further::Further;
use crate::group::Group;
use crate::group_fault::GroupFault;
use crate::lines::Lines;
use crate::rows::{form_of, read_row};
use crate::text_fault::TextFault;
use blob_words::Tally;
use session_script::{Event, read_line};
use std::alloc::Global;
use text_fields::fields::Fields;

fn read_event_line(alloc: Global, line: &[u8]) -> Result<Event, TextFault>
    ensures { ReadsEventLine line.now result }
{
    let Some(spelled) = line.strip_prefix(b"> ".as_slice()) else {
        return Err(TextFault::Form);
    };
    match read_line(alloc, spelled) {
        Ok(event) => Ok(event),
        Err(fault) => Err(form_of(fault)),
    }
}

fn read_tally(alloc: Global, line: &[u8]) -> Result<Tally, TextFault>
    ensures { ReadsAs (λ text. IsTally (split 32 text)) TallyHasText tally_text line.now result }
{
    let mut fields = Fields::new(b' ', line);
    let Some(first) = fields.next() else {
        return Err(TextFault::Form);
    };
    if first == b"=".as_slice() {
        return match read_row::<(u32, u64, u32, u64)>(alloc, &mut fields) {
            Ok((pieces, memory, files, disk)) => Ok(Tally {
                pieces,
                memory,
                files,
                disk,
            }),
            Err(fault) => Err(fault),
        };
    }
    Err(TextFault::Form)
}

fn read_further(alloc: Global, line: &[u8]) -> Result<Further, TextFault>
    ensures { ReadsFurther line.now result }
{
    match read_tally(alloc, line) {
        Ok(tally) => return Ok(Further::Tally(tally)),
        Err(TextFault::Form) => {}
        Err(TextFault::Memory) => return Err(TextFault::Memory),
    }
    match read_answer(alloc, line) {
        Ok(answer) => Ok(Further::Answer(answer)),
        Err(fault) => Err(fault),
    }
}

// The answers and the tally behind the line of the event.
fn read_behind(alloc: Global, lines: &mut Lines<'_>) -> Result<(Answers, Tally), GroupFault>
    requires { length lines.old.rest.now ≤ lines.old.total }
    ensures lines { ReadsBehind lines.old.rest.now lines.new.rest.now lines.old.total result }
    ensures total { lines.new.total ≡ lines.old.total }
    ensures room { length lines.new.rest.now ≤ lines.new.total }
{
    let mut answers = Answers::new(alloc);
    loop {
        let at = lines.at();
        let Some(line) = lines.next() else {
            return Err(GroupFault::Form(at));
        };
        match read_further(alloc, line) {
            Ok(Further::Answer(answer)) => match answers.push(answer) {
                Ok(()) => {}
                Err(_) => return Err(GroupFault::Memory),
            },
            Ok(Further::Tally(tally)) => return Ok((answers, tally)),
            Err(TextFault::Form) => return Err(GroupFault::Form(at)),
            Err(TextFault::Memory) => return Err(GroupFault::Memory),
        }
    }
}

/// The group in front of the text and its length, or the place where the text stops being that of
/// a group.
pub fn read_group(alloc: Global, text: &[u8]) -> Result<(Group, usize), GroupFault>
    ensures group { ReadsGroup text.now result }
    ensures none { (place : ℕ) → result ≡ Err (group_faults.Form place) → HasNoGroup text.now }
{
    let mut lines = Lines::new(text);
    let Some(line) = lines.next() else {
        return Err(GroupFault::Form(0));
    };
    let event = match read_event_line(alloc, line) {
        Ok(event) => event,
        Err(TextFault::Form) => return Err(GroupFault::Form(0)),
        Err(TextFault::Memory) => return Err(GroupFault::Memory),
    };
    match read_behind(alloc, &mut lines) {
        Ok((answers, tally)) => {
            let group = Group {
                event,
                answers,
                tally,
            };
            Ok((group, lines.at()))
        }
        Err(fault) => Err(fault),
    }
}
