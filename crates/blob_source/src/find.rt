//! The place of a byte among others.

ghost use Rattle.std.specs.Prelude.{◌≡◌, ◌==◌, position};

use memchr::memchr;

/// The place of the first byte of this value; none where no byte has it.
pub fn find_byte(byte: u8, bytes: &[u8]) -> Option<usize>
    ensures { result ≡ position (λ one. one == byte) bytes.now }
{
    memchr(byte, bytes)
}
