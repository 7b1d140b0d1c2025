//! Names, origins and texts of URLs, which are spelled as they are.

ghost use Rattle.std.specs.Prelude.{◌≡◌, ℕ, ◌^◌, ◌<◌, true, refl};
ghost use Rattle.blob_words.specs.BlobName.{name_text};
ghost use Rattle.blob_words.specs.FileName.{is_file_name};
ghost use Rattle.blob_words.specs.Origin.{is_origin};
ghost use Rattle.blob_words.specs.UrlText.{is_url_text};
ghost use Rattle.text_fields.specs.Kind.{name, origin, file_name, url_text};

use crate::buffer::Buffer;
use crate::field::{Field, Spell};
use crate::line_fault::LineFault;
use blob_source::Sink;
use blob_words::{BlobName, Failed, FileName, Octets, Origin, UrlText};
use std::alloc::Global;

impl Spell for BlobName {
    ghost spell = { name_text };

    fn put<K: Sink>(&self, buffer: &mut Buffer, out: &mut K) -> Result<(), Failed> {
        let mut text = [0u8; 36];
        self.write_text(&mut text);
        buffer.put(out, text.as_slice())
    }
}

impl Field for BlobName {
    ghost kind = { name };

    ghost Fits = { λ n. n < 2 ^ 128 };

    ghost spelled = { λ n fits. (n, fits, refl) };

    fn read(_alloc: Global, text: &[u8]) -> Result<Self, LineFault> {
        match BlobName::from_text(text) {
            Ok(name) => {
                let _number = name.number(); // says that it is below 2^128
                Ok(name)
            }
            Err(_) => Err(LineFault::Name),
        }
    }
}

impl Spell for Origin {
    ghost spell = { λ text. text };

    fn put<K: Sink>(&self, buffer: &mut Buffer, out: &mut K) -> Result<(), Failed> {
        buffer.put(out, self.as_slice())
    }
}

impl Field for Origin {
    ghost kind = { origin };

    ghost Fits = { λ text. is_origin text ≡ true };

    ghost spelled = { λ text fits. fits };

    fn read(alloc: Global, text: &[u8]) -> Result<Self, LineFault> {
        let Ok(bytes) = Octets::from_slice(alloc, text) else {
            return Err(LineFault::Memory);
        };
        match Origin::new(bytes) {
            Ok(name) => Ok(name),
            Err(_) => Err(LineFault::Name),
        }
    }
}

impl Spell for FileName {
    ghost spell = { λ text. text };

    fn put<K: Sink>(&self, buffer: &mut Buffer, out: &mut K) -> Result<(), Failed> {
        buffer.put(out, self.as_slice())
    }
}

impl Field for FileName {
    ghost kind = { file_name };

    ghost Fits = { λ text. is_file_name text ≡ true };

    ghost spelled = { λ text fits. fits };

    fn read(alloc: Global, text: &[u8]) -> Result<Self, LineFault> {
        let Ok(bytes) = Octets::from_slice(alloc, text) else {
            return Err(LineFault::Memory);
        };
        match FileName::new(bytes) {
            Ok(name) => Ok(name),
            Err(_) => Err(LineFault::Name),
        }
    }
}

impl Spell for UrlText {
    ghost spell = { λ text. text };

    fn put<K: Sink>(&self, buffer: &mut Buffer, out: &mut K) -> Result<(), Failed> {
        buffer.put(out, self.as_slice())
    }
}

impl Field for UrlText {
    ghost kind = { url_text };

    ghost Fits = { λ text. is_url_text text ≡ true };

    ghost spelled = { λ text fits. fits };

    fn read(alloc: Global, text: &[u8]) -> Result<Self, LineFault> {
        let Ok(bytes) = Octets::from_slice(alloc, text) else {
            return Err(LineFault::Memory);
        };
        match UrlText::new(bytes) {
            Ok(name) => Ok(name),
            Err(_) => Err(LineFault::Name),
        }
    }
}
