ghost use Rattle.std.specs.Prelude.{◌≡◌, ◌≢◌, ℕ, ◌^◌, ◌<◌, IfErr, IfOk};
ghost use Rattle.blob_words.specs.BlobName.{name_text};

use crate::fault::NameFault;
use std::marker::Model;
use uuid::Uuid;

/// The name of a blob, a UUID. Contracts see its number.
#[derive(Clone, Copy, Debug, PartialEq, Eq, PartialOrd, Ord, Hash)]
pub struct BlobName {
    number: u128,
}

impl Model for BlobName {
    ghost Value = { ℕ };

    ghost view = { λ name. name.number };

    ghost inverse = { λ number. record { number = number } };
}

impl BlobName {
    /// The name that is spelled so: 36 bytes, the hyphenated text of a UUID in lower case.
    pub fn from_text(text: &[u8]) -> Result<BlobName, NameFault>
        ensures ok { IfOk result (λ name. text.now ≡ name_text name) }
        ensures form { IfErr result
            (λ _. (number : ℕ) → number < 2 ^ 128 → text.now ≢ name_text number) }
    {
        let Ok(uuid) = Uuid::try_parse_ascii(text) else {
            return Err(NameFault::Form);
        };
        let name = BlobName {
            number: uuid.as_u128(),
        };
        let mut spelled = [0u8; 36];
        name.write_text(&mut spelled);
        if text == spelled.as_slice() {
            Ok(name)
        } else {
            Err(NameFault::Form)
        }
    }

    /// Writes the 36 bytes of the name.
    pub fn write_text(&self, out: &mut [u8; 36])
        ensures { out.new ≡ name_text self.now }
    {
        let mut buffer = Uuid::encode_buffer();
        let hyphenated = Uuid::from_u128(self.number).hyphenated();
        let text = hyphenated.encode_lower(&mut buffer);
        out.copy_from_slice(text.as_bytes());
    }

    /// The UUID of this number.
    pub fn from_number(number: u128) -> BlobName
        ensures { result ≡ number }
    {
        BlobName { number }
    }

    pub fn number(self) -> u128
        ensures { result ≡ self }
    {
        self.number
    }
}
