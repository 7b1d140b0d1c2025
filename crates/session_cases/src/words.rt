//! Names, origins, limits and lists.

use crate::numbers::number_and_rest;
use blob_words::{BlobName, Field, LimitFault, Limits, NameFault, Octets, Origin};
use std::alloc::Global;

/// `name TEXT`: the number of the name, where it is written back as the text and has the number
/// again; or `form`.
pub fn name(alloc: Global, text: &[u8]) -> anyhow::Result<String> {
    let name = match BlobName::from_text(text) {
        Ok(name) => name,
        Err(NameFault::Form) => return Ok(String::from_str(alloc, "form")?),
    };
    let mut spelled = [0u8; 36];
    name.write_text(&mut spelled);
    let number = name.number();
    if spelled.as_slice() != text || BlobName::from_number(number) != name {
        return Ok(String::from_str(alloc, "another name")?);
    }
    Ok(format!(in alloc; "{number}")?)
}

/// `origin TEXT`: `ok` where it is an origin with that text, or `form`.
pub fn origin(alloc: Global, text: &[u8]) -> anyhow::Result<String> {
    let word = match Origin::new(Octets::from_slice(alloc, text)?) {
        Ok(origin) => {
            if origin.as_slice() == text {
                "ok"
            } else {
                "another origin"
            }
        }
        Err(NameFault::Form) => "form",
    };
    Ok(String::from_str(alloc, word)?)
}

fn field_word(field: Field) -> &'static str {
    match field {
        Field::Memory => "memory",
        Field::Disk => "disk",
        Field::Big => "big",
        Field::InlineMax => "inline",
        Field::Segment => "segment",
        Field::Page => "page",
        Field::Chunk => "chunk",
    }
}

fn fault_text(alloc: Global, fault: LimitFault) -> anyhow::Result<String> {
    let text = match fault {
        LimitFault::Zero(field) => format!(in alloc; "zero {}", field_word(field))?,
        LimitFault::Large(field) => format!(in alloc; "large {}", field_word(field))?,
        LimitFault::Order => String::from_str(alloc, "order")?,
    };
    Ok(text)
}

// Seven numbers.
fn seven(text: &[u8]) -> [u64; 7] {
    let mut numbers = [0u64; 7];
    let mut rest = text;
    for number in numbers.iter_mut() {
        let (first, behind) = number_and_rest(rest);
        *number = first as u64;
        rest = behind;
    }
    numbers
}

/// `limits NUMBERS`: the limits of these seven numbers, or what is wrong with them.
pub fn limits(alloc: Global, text: &[u8]) -> anyhow::Result<String> {
    let [memory, disk, big, inline_max, segment, page, chunk] = seven(text);
    match Limits::new(memory, disk, big, inline_max, segment, page, chunk) {
        Ok(limits) => Ok(format!(in alloc; "page {} chunk {}", limits.page, limits.chunk)?),
        Err(fault) => fault_text(alloc, fault),
    }
}

/// `list`: what a list of bytes holds after each of its calls.
pub fn list(alloc: Global) -> anyhow::Result<String> {
    let mut bytes = Octets::from_slice(alloc, b"ab")?;
    bytes.push(b'c')?;
    bytes.extend_from_slice(b"de")?;
    let long = crate::escapes::shown(alloc, bytes.as_slice())?;
    bytes.truncate(2);
    let short = crate::escapes::shown(alloc, bytes.as_slice())?;
    let from_vec = Octets::from_vec(vec![in alloc; b'x', b'y']?);
    let other = crate::escapes::shown(alloc, from_vec.as_slice())?;
    let none = Octets::new(alloc).len();
    Ok(format!(in alloc; "{long} {short} {other} {none}")?)
}
