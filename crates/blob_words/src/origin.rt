ghost use Rattle.std.specs.Prelude.{◌≡◌};
ghost use Rattle.std.specs.List.{list_all};
ghost use Rattle.blob_words.specs.Origin.{is_origin_byte, is_origin};

use crate::text::{Text, TextRule};

/// The serialized origin of a renderer: 1 to 255 of 0x21 to 0x7E, none of them `#`, and not
/// `null`.
pub type Origin = Text<OriginRule>;

/// The rule of an origin.
#[derive(Clone, Copy, Debug)]
pub struct OriginRule;

fn is_origin_byte(byte: u8) -> bool
    ensures { result ≡ is_origin_byte byte }
{
    (0x21..=0x7e).contains(&byte) && byte != b'#'
}

fn has_origin_bytes(bytes: &[u8]) -> bool
    ensures { result ≡ list_all is_origin_byte bytes.now }
{
    bytes.iter().all(|byte| is_origin_byte(*byte))
}

impl TextRule for OriginRule {
    ghost is_text = { is_origin };

    fn is_text(bytes: &[u8]) -> bool {
        if bytes.is_empty() || bytes.len() > 255 {
            return false;
        }
        if !has_origin_bytes(bytes) {
            return false;
        }
        bytes != b"null".as_slice()
    }
}
