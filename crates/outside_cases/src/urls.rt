//! Calls on a store of blob URLs.
use blob_words::{BlobName, Octets, Origin, RendererId, UrlText};
use case_lines::{number, short_number, show, word};
use std::alloc::Global;
use std::io;
use url_store::UrlStore;

fn origin(alloc: Global, text: &str) -> anyhow::Result<Origin> {
    Ok(Origin::new(Octets::from_slice(alloc, text.as_bytes())?)?)
}

fn url(alloc: Global, text: &str) -> anyhow::Result<UrlText> {
    Ok(UrlText::new(Octets::from_slice(alloc, text.as_bytes())?)?)
}

// Adds a URL of a number; whether it was taken.
fn add_one(
    alloc: Global,
    urls: &mut UrlStore,
    origin: &Origin,
    number: u32,
    owners: u32,
) -> anyhow::Result<bool> {
    let text = format!(in alloc; "blob:https://a.test/00000000-0000-0000-0000-{number:012x}")?;
    let url = url(alloc, text.as_str())?;
    let owner = RendererId(number.checked_rem(owners).unwrap_or(0));
    let blob = BlobName::from_number(u128::from(number));
    Ok(urls.add(owner, origin, blob, &url).is_ok())
}

// Adds so many URLs, dealt out among so many renderers, and counts those that were taken.
fn fill(alloc: Global, urls: &mut UrlStore, count: u32, owners: u32) -> anyhow::Result<u32> {
    let origin = origin(alloc, "https://a.test")?;
    let mut added = 0u32;
    for number in 0..count {
        if add_one(alloc, urls, &origin, number, owners)? {
            added = added.saturating_add(1);
        }
    }
    Ok(added)
}

// Takes the URLs of so many renderers out, and counts them.
fn empty(urls: &mut UrlStore, owners: u32, each: u32) -> u32 {
    let mut taken = 0u32;
    for owner in 0..owners {
        for _ in 0..each {
            if urls.remove_owner(RendererId(owner)).is_some() {
                taken = taken.saturating_add(1);
            }
        }
    }
    taken
}

// Makes a call on a URL, with a renderer and a blob.
fn call_on(
    rt: &HostRuntime,
    urls: &mut UrlStore,
    origin: &Origin,
    text: &UrlText,
    line: &str,
) -> io::Result<()> {
    let owner = RendererId(short_number(line, 2));
    let blob = BlobName::from_number(u128::from(number(line, 3)));
    match word(line, 1) {
        "add" => show(rt, line, &urls.add(owner, origin, blob, text)),
        "resolve" => show(rt, line, &urls.resolve(origin, text)),
        "remove" => show(rt, line, &urls.remove(owner, text)),
        _ => show(rt, line, &"no such call"),
    }
}

// Makes a call with an origin and a URL.
fn call_with_url(rt: &HostRuntime, urls: &mut UrlStore, line: &str) -> anyhow::Result<()> {
    let origin = origin(rt.alloc(), word(line, 4))?;
    let text = url(rt.alloc(), word(line, 5))?;
    Ok(call_on(rt, urls, &origin, &text, line)?)
}

/// Makes a call on a store of blob URLs, with a renderer, a blob, an origin and a URL; or with two
/// counts.
pub fn call(rt: &HostRuntime, urls: &mut UrlStore, line: &str) -> anyhow::Result<()> {
    let (one, two) = (short_number(line, 2), short_number(line, 3));
    let shown = match word(line, 1) {
        "new" => {
            *urls = UrlStore::new(rt.alloc())?;
            Ok(())
        }
        "remove_owner" => show(rt, line, &urls.remove_owner(RendererId(one))),
        "fill" => show(rt, line, &fill(rt.alloc(), urls, one, two)?),
        "empty" => show(rt, line, &empty(urls, one, two)),
        "count" => show(rt, line, &urls.count()),
        _ => return call_with_url(rt, urls, line),
    };
    Ok(shown?)
}
