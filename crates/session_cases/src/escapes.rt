//! Text as cases write it: `\n`, `\t`, `\r` and `\0` as in Rust, `\d` for U+007F, `\\` for one `\`,
//! `\.` for nothing, and `\*3:ab\.` for `ababab`.

use blob_words::{NoMemory, Octets};
use std::alloc::{AllocError, Global};

// Where a reader of such text stands.
#[derive(Clone, Copy)]
enum Mode {
    Plain,
    Escape,
    Count,
    Part,
}

#[derive(Drop)]
struct Reader {
    out: Octets,
    part: Octets,
    count: usize,
    mode: Mode,
}

impl Reader {
    fn escape(&mut self, byte: u8) -> Result<(), NoMemory> {
        self.mode = Mode::Plain;
        match byte {
            b'n' => self.out.push(b'\n'),
            b't' => self.out.push(b'\t'),
            b'r' => self.out.push(b'\r'),
            b'0' => self.out.push(0),
            b'd' => self.out.push(127),
            b'\\' => self.out.push(b'\\'),
            b'*' => {
                self.count = 0;
                self.mode = Mode::Count;
                Ok(())
            }
            _ => Ok(()),
        }
    }

    fn digit(&mut self, byte: u8) {
        if byte == b':' {
            self.part.truncate(0);
            self.mode = Mode::Part;
            return;
        }
        let digit = usize::from(byte.wrapping_sub(b'0'));
        self.count = self.count.wrapping_mul(10).wrapping_add(digit);
    }

    fn repeat(&mut self) -> Result<(), NoMemory> {
        self.mode = Mode::Escape;
        for _ in 0..self.count {
            self.out.extend_from_slice(self.part.as_slice())?;
        }
        Ok(())
    }

    fn take(&mut self, byte: u8) -> Result<(), NoMemory> {
        match self.mode {
            Mode::Plain => {
                if byte == b'\\' {
                    self.mode = Mode::Escape;
                    return Ok(());
                }
                self.out.push(byte)
            }
            Mode::Escape => self.escape(byte),
            Mode::Count => {
                self.digit(byte);
                Ok(())
            }
            Mode::Part => {
                if byte == b'\\' {
                    return self.repeat();
                }
                self.part.push(byte)
            }
        }
    }
}

/// The bytes that a case writes so.
pub fn bytes_of(alloc: Global, text: &[u8]) -> Result<Octets, NoMemory> {
    let mut reader = Reader {
        out: Octets::new(alloc),
        part: Octets::new(alloc),
        count: 0,
        mode: Mode::Plain,
    };
    for byte in text {
        reader.take(*byte)?;
    }
    Ok(reader.out)
}

fn show(text: &mut String, byte: u8) -> Result<(), AllocError> {
    match byte {
        b'\n' => text.push_str("\\n"),
        b'\r' => text.push_str("\\r"),
        b'\\' => text.push_str("\\\\"),
        0 => text.push_str("\\0"),
        _ => text.push(char::from(byte)),
    }
}

/// The text that stands for the bytes.
pub fn shown(alloc: Global, bytes: &[u8]) -> Result<String, AllocError> {
    let mut text = String::new(alloc);
    for byte in bytes {
        show(&mut text, *byte)?;
    }
    Ok(text)
}
