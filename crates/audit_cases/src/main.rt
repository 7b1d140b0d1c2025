//! Cases of the judge of transcripts. A line of standard input behind `| ` is kept as a line of a
//! transcript, and one behind `+ ` as a line of another group. Any other line is a call, which is
//! printed behind what came of it; a remark begins with `#`.
#![tactic(auto)]

mod judging;

use crate::judging::judged;
use blob_source::{LineReader, LineStep, ReadSource};
use blob_words::{NoMemory, Octets, Octets64};
use case_lines::{number, numbers, word};
use std::alloc::Global;
use std::str;

// The transcript that is kept, the other group, and the sizes of the data handles.
#[derive(Drop)]
struct Kept {
    transcript: Octets,
    other: Octets,
    sizes: Octets64,
}

// Puts a line behind those that are kept.
fn keep(kept: &mut Octets, line: &[u8]) -> Result<(), NoMemory> {
    kept.extend_from_slice(line)?;
    kept.push(b'\n')
}

// The text without its last byte.
fn cut(text: &[u8]) -> &[u8] {
    match text.split_last() {
        Some((_, front)) => front,
        None => text,
    }
}

// What came of a call: `judge` of the kept transcript, `cut` of it without its last byte, and
// `other 5 REMARK` of it with the other group in the place of its fifth.
fn answer(alloc: Global, kept: &Kept, call: &str) -> anyhow::Result<String> {
    let transcript = kept.transcript.as_slice();
    let sizes = kept.sizes.as_slice();
    match word(call, 0) {
        "judge" => judged(alloc, sizes, transcript, 0, b""),
        "cut" => judged(alloc, sizes, cut(transcript), 0, b""),
        "other" => judged(
            alloc,
            sizes,
            transcript,
            number(call, 1),
            kept.other.as_slice(),
        ),
        _ => Ok(String::from_str(alloc, "no such call")?),
    }
}

// Takes a line of standard input. `new 3,5` begins a transcript over data handles of these sizes,
// `new -` over none.
fn take(rt: &HostRuntime, kept: &mut Kept, line: &[u8]) -> anyhow::Result<()> {
    if let Some(text) = line.strip_prefix(b"| ".as_slice()) {
        keep(&mut kept.transcript, text)?;
        return Ok(());
    }
    if let Some(text) = line.strip_prefix(b"+ ".as_slice()) {
        keep(&mut kept.other, text)?;
        return Ok(());
    }
    let case = str::from_utf8(line)?;
    if case.is_empty() || case.starts_with('#') {
        println!(rt; "{case}")?;
        return Ok(());
    }
    if word(case, 0) == "new" {
        kept.transcript.truncate(0);
        kept.sizes = numbers(rt.alloc(), word(case, 1))?;
        return Ok(());
    }
    let answer = answer(rt.alloc(), kept, case)?;
    kept.other.truncate(0);
    println!(rt; "{answer}: {case}")?;
    Ok(())
}

fn main(rt: HostRuntime) -> anyhow::Result<()> {
    let mut source = ReadSource::new(rt.stdin());
    let mut reader = LineReader::new(rt.alloc())?;
    let mut kept = Kept {
        transcript: Octets::new(rt.alloc()),
        other: Octets::new(rt.alloc()),
        sizes: Octets64::new(rt.alloc()),
    };
    for _ in 0..u64::MAX {
        if reader.next_line(&mut source) != LineStep::Line {
            break;
        }
        take(&rt, &mut kept, reader.line())?;
    }
    Ok(())
}
