//! Groups of a transcript: read, printed and streamed.

use answer_text::{Group, GroupFault, print_group, read_group, stream_group};
use blob_source::WriteSink;
use blob_words::Octets;
use std::alloc::Global;

// Whether the group has this text, printed and streamed.
fn has_text(alloc: Global, group: &Group, text: &[u8]) -> anyhow::Result<bool> {
    let mut printed = Octets::new(alloc);
    print_group(alloc, group, &mut printed)?;
    let mut streamed = Vec::new(alloc);
    stream_group(group, &mut WriteSink::new(&mut streamed))?;
    Ok(printed.as_slice() == text && streamed.as_slice() == text)
}

// The length of the group in front, where it has just that text; or why there is none.
fn front(alloc: Global, text: &[u8]) -> anyhow::Result<Result<usize, GroupFault>> {
    let (group, len) = match read_group(alloc, text) {
        Ok(front) => front,
        Err(fault) => return Ok(Err(fault)),
    };
    match text.get(..len) {
        Some(front) if has_text(alloc, &group, front)? => Ok(Ok(len)),
        _ => Ok(Ok(0)),
    }
}

/// `group TEXT`: the length of the group in front, which has just that text; or the place where no
/// group goes on.
pub fn group(alloc: Global, text: &[u8]) -> anyhow::Result<String> {
    let answer = match front(alloc, text)? {
        Ok(len) => format!(in alloc; "ok {len}")?,
        Err(GroupFault::Form(place)) => format!(in alloc; "form {place}")?,
        Err(GroupFault::Memory) => format!(in alloc; "memory")?,
    };
    Ok(answer)
}

/// `answer ANSWER`: `group` of an `end` line with this answer, and with the next group's first line
/// behind it.
pub fn answer(alloc: Global, answer: &[u8]) -> anyhow::Result<String> {
    let mut text = Octets::from_slice(alloc, b"> end\n")?;
    text.extend_from_slice(answer)?;
    text.extend_from_slice(b"\n= 1 2 3 4\n")?;
    let len = text.len();
    text.extend_from_slice(b"> end\n")?;
    match front(alloc, text.as_slice())? {
        Ok(front) if front == len => Ok(String::from_str(alloc, "ok")?),
        _ => group(alloc, text.as_slice()),
    }
}

/// `groups`: how many groups, at most 64, the kept text is, one after the other.
pub fn groups(alloc: Global, text: &[u8]) -> anyhow::Result<String> {
    let mut rest = text;
    for count in 0..64 {
        if rest.is_empty() {
            return Ok(format!(in alloc; "{count} groups")?);
        }
        let len = front(alloc, rest)??;
        let (_, behind) = rest.split_at(len.min(rest.len()));
        rest = behind;
    }
    Ok(String::from_str(alloc, "more groups")?)
}
