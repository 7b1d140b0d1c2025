ghost use Rattle.std.specs.Prelude.{ℕ, ◌≡◌, ◌≢◌, ◌==◌, ◌<◌, ◌++◌, List, position, MatchBool, MatchOption};
ghost use Rattle.url_store.specs.Urls.{without_fragment, IsBlobUrl};

use blob_words::BlobName;

// What follows a prefix.
fn after_prefix<'a>(text: &'a [u8], prefix: &[u8]) -> Option<&'a [u8]>
    ensures { MatchOption result ((rest : List ℕ) → text.now ≢ prefix.now ++ rest)
        (λ rest. text.now ≡ prefix.now ++ rest.now) }
{
    text.strip_prefix(prefix)
}

// Whether a text is of the form of a blob URL of the origin.
pub fn is_blob_url(origin: &[u8], text: &[u8]) -> bool
    ensures { MatchBool result (IsBlobUrl origin.now text.now) (¬ (IsBlobUrl origin.now text.now)) }
{
    let Some(place) = after_prefix(text, b"blob:") else {
        return false;
    };
    let Some(path) = after_prefix(place, origin) else {
        return false;
    };
    let Some(name) = after_prefix(path, b"/") else {
        return false;
    };
    match BlobName::from_text(name) {
        Ok(blob) => {
            let _number = blob.number(); // says that it is below 2^128
            true
        }
        Err(_) => false,
    }
}

// The place of the first `#`.
fn fragment_place(text: &[u8]) -> Option<usize>
    ensures { result ≡ position (λ byte. byte == 0x23) text.now }
{
    text.iter().position(|byte| *byte == b'#')
}

// The text up to its first `#`.
pub fn without_fragment(text: &[u8]) -> &[u8]
    ensures { result.now ≡ without_fragment text.now }
{
    match fragment_place(text) {
        Some(place) => &text[..place],
        None => text,
    }
}
