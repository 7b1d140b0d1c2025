//! Blob URLs.
ghost use Rattle.std.specs.Prelude.{◌≡◌, ℕ, ◌==◌, ◌&&◌, not, filter, find, position, bytes_eq, take, drop, length, IfOk, OnOk};
ghost use Rattle.std.specs.List.{list_any, list_all, enumerate_from};
ghost use Rattle.std.specs.Option.{option_copied};
ghost use Rattle.blob_model.specs.Entries.{entry_at, before_fragment, entries_after, is_name_digit, is_hyphen_place, is_name_byte, is_name_text, url_front, is_url_of};

use answer_text::Answer;
use blob_words::{BlobName, NoMemory, Octets, UrlText};
use session_script::Event;
use std::alloc::Global;
use std::marker::Model;

/// A URL entry: its text, its blob and the renderer that owns it.
#[derive(Debug, Drop)]
pub struct Entry {
    pub text: UrlText,
    pub blob: BlobName,
    pub owner: u32,
}

impl Model for Entry {
    ghost use Rattle.blob_model.specs.Entries as model;

    ghost Value = { model.Entry };

    ghost view = { λ one. record {
      text = one.text;
      blob = one.blob;
      owner = one.owner;
    } };
}

fn is_same(one: &[u8], other: &[u8]) -> bool
    ensures { result ≡ bytes_eq one.now other.now }
{
    one == other
}

/// Whether an entry names the blob.
pub fn is_named(entries: &[Entry], name: BlobName) -> bool
    ensures { result ≡ list_any (λ entry. entry.blob == name) entries.now }
{
    entries.iter().any(|entry| entry.blob == name)
}

/// The entry with this text.
pub fn entry_at<'a>(entries: &'a [Entry], text: &[u8]) -> Option<&'a Entry>
    ensures { option_copied result ≡ entry_at entries.now text.now }
{
    entries
        .iter()
        .find(|entry| is_same(entry.text.as_slice(), text))
}

/// Whether the renderer owns an entry with this text.
pub fn owns_entry(entries: &[Entry], owner: u32, text: &[u8]) -> bool
    ensures { result ≡ list_any
        (λ entry. bytes_eq entry.text text.now && entry.owner == owner) entries.now }
{
    entries.iter().any(|entry| is_same(entry.text.as_slice(), text) && entry.owner == owner)
}

// The place of the first `#`.
fn fragment_place(text: &[u8]) -> Option<usize>
    ensures { result ≡ position (λ byte. byte == 0x23) text.now }
{
    text.iter().position(|byte| *byte == b'#')
}

/// The text before its fragment, which begins at the first `#`.
pub fn before_fragment(text: &[u8]) -> &[u8]
    ensures { result.now ≡ before_fragment text.now }
{
    match fragment_place(text) {
        Some(place) => &text[..place],
        None => text,
    }
}

/// A `url` line adds an entry, a `revoke` line answered `revoked` takes it, and a renderer's
/// entries go when it dies.
pub fn hear(
    alloc: Global,
    event: &Event,
    answer: &Answer,
    entries: &mut Vec<Entry>,
) -> Result<(), NoMemory>
    ensures { OnOk result (entries.new.items
        ≡ entries_after event.now answer.now entries.old.items) }
{
    match event {
        Event::Url { r, b, text } => {
            let text = text.copy(alloc)?;
            entries.push(Entry {
                text,
                blob: *b,
                owner: r.0,
            })?;
        }
        Event::Revoke { text, .. } => {
            if let Answer::Revoked = answer {
                without_text(entries, text.as_slice());
            }
        }
        Event::Die { r } => without_owner(entries, r.0),
        Event::Finish => entries.clear(),
        _ => {}
    }
    Ok(())
}

fn without_text(entries: &mut Vec<Entry>, text: &[u8])
    ensures { entries.new.items
        ≡ filter (λ entry. not (bytes_eq entry.text text.now)) entries.old.items }
{
    entries.retain(|entry| !is_same(entry.text.as_slice(), text));
}

fn without_owner(entries: &mut Vec<Entry>, owner: u32)
    ensures { entries.new.items
        ≡ filter (λ entry. not (entry.owner == owner)) entries.old.items }
{
    entries.retain(|entry| entry.owner != owner);
}

/// A digit of a name's text: 0 to 9 and a to f.
fn is_name_digit(byte: u8) -> bool
    ensures { result ≡ is_name_digit byte }
{
    (0x30..=0x39).contains(&byte) || (0x61..=0x66).contains(&byte)
}

/// The text of a name has hyphens behind its digits 8, 12, 16 and 20.
fn is_hyphen_place(place: usize) -> bool
    ensures { result ≡ is_hyphen_place place }
{
    place == 8 || place == 13 || place == 18 || place == 23
}

fn is_name_byte(place: usize, byte: u8) -> bool
    ensures { result ≡ is_name_byte (place, byte) }
{
    if is_hyphen_place(place) {
        byte == 0x2d
    } else {
        is_name_digit(byte)
    }
}

fn has_name_bytes(text: &[u8]) -> bool
    ensures { result ≡ list_all is_name_byte (enumerate_from 0 text.now) }
{
    text.iter()
        .enumerate()
        .all(|(place, byte)| is_name_byte(place, *byte))
}

/// The text of a blob's name: 36 bytes, 32 of them lower-case hexadecimal digits.
pub fn is_name_text(text: &[u8]) -> bool
    ensures { result ≡ is_name_text text.now }
{
    if text.len() != 36 {
        return false;
    }
    has_name_bytes(text)
}

/// Whether the text begins so, and the text of a name follows.
#[tactic(auto, using(crate::proofs::Forms::short_form))]
fn has_form(front: &[u8], text: &[u8]) -> bool
    ensures { result ≡ (bytes_eq (take (length front.now) text.now) front.now
        && is_name_text (drop (length front.now) text.now)) }
{
    if text.len() < front.len() {
        return false;
    }
    is_same(&text[..front.len()], front) && is_name_text(&text[front.len()..])
}

/// What a blob URL of this origin begins with.
fn url_front(alloc: Global, origin: &[u8]) -> Result<Octets, NoMemory>
    ensures { IfOk result (λ front. front ≡ url_front origin.now) }
{
    let mut front = Octets::from_slice(alloc, b"blob:")?;
    front.extend_from_slice(origin)?;
    front.extend_from_slice(b"/")?;
    Ok(front)
}

/// Whether the text is a blob URL of this origin: `blob:`, the origin, `/` and the text of a name.
pub fn is_url_of(alloc: Global, origin: &[u8], text: &[u8]) -> Result<bool, NoMemory>
    ensures { IfOk result (λ is_one. is_one ≡ is_url_of origin.now text.now) }
{
    let front = url_front(alloc, origin)?;
    Ok(has_form(front.as_slice(), text))
}
