ghost use Rattle.std.specs.Prelude.{◌≡◌};
ghost use Rattle.std.specs.List.{list_all};
ghost use Rattle.blob_words.specs.UrlText.{is_visible_byte, is_url_text};

use crate::text::{Text, TextRule};

/// The text of a blob URL, as a line gives it: 1 to 512 of 0x21 to 0x7E.
pub type UrlText = Text<UrlTextRule>;

/// The rule of the text of a blob URL.
#[derive(Clone, Copy, Debug)]
pub struct UrlTextRule;

fn is_visible_byte(byte: u8) -> bool
    ensures { result ≡ is_visible_byte byte }
{
    (0x21..=0x7e).contains(&byte)
}

fn has_visible_bytes(bytes: &[u8]) -> bool
    ensures { result ≡ list_all is_visible_byte bytes.now }
{
    bytes.iter().all(|byte| is_visible_byte(*byte))
}

impl TextRule for UrlTextRule {
    ghost is_text = { is_url_text };

    fn is_text(bytes: &[u8]) -> bool {
        if bytes.is_empty() || bytes.len() > 512 {
            return false;
        }
        has_visible_bytes(bytes)
    }
}
