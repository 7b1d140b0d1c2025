ghost use Rattle.std.specs.Prelude.{◌≡◌};
ghost use Rattle.std.specs.List.{list_all};
ghost use Rattle.blob_words.specs.FileName.{is_file_name_byte, is_file_name};

use crate::text::{Text, TextRule};

/// The name of a file on the renderer's side: 1 to 255 of 0x21 to 0x7E, none of them `:`.
pub type FileName = Text<FileNameRule>;

/// The rule of a file's name.
#[derive(Clone, Copy, Debug)]
pub struct FileNameRule;

fn is_file_name_byte(byte: u8) -> bool
    ensures { result ≡ is_file_name_byte byte }
{
    (0x21..=0x7e).contains(&byte) && byte != b':'
}

fn has_file_name_bytes(bytes: &[u8]) -> bool
    ensures { result ≡ list_all is_file_name_byte bytes.now }
{
    bytes.iter().all(|byte| is_file_name_byte(*byte))
}

impl TextRule for FileNameRule {
    ghost is_text = { is_file_name };

    fn is_text(bytes: &[u8]) -> bool {
        if bytes.is_empty() || bytes.len() > 255 {
            return false;
        }
        has_file_name_bytes(bytes)
    }
}
