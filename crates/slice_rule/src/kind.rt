ghost use Rattle.std.specs.Prelude.{◌≡◌, map, take, length, if◌then◌else◌};
ghost use Rattle.std.specs.Char.{to_ascii_lowercase};
ghost use Rattle.slice_rule.specs.Kind.{is_type_byte, is_kept, kept_type};

/// Whether the byte may stand in a type.
fn is_type_byte(byte: u8) -> bool
    ensures { result ≡ is_type_byte byte }
{
    (0x20..=0x7e).contains(&byte)
}

/// Whether each byte may stand in a type.
fn is_kept(text: &[u8]) -> bool
    ensures { result ≡ is_kept text.now }
{
    for byte in text {
        if !is_type_byte(*byte) {
            return false;
        }
    }
    true
}

/// Puts a type in lower case and gives its length; gives 0, and leaves the text as it was, where a
/// byte may not stand in a type.
pub fn normal_type(text: &mut [u8]) -> usize
    ensures kept { take result text.new ≡ kept_type text.old }
    ensures length { result ≡ length (kept_type text.old) }
    ensures text { text.new ≡
        (if is_kept text.old then map to_ascii_lowercase text.old else text.old) }
{
    if !is_kept(text) {
        return 0;
    }
    text.make_ascii_lowercase();
    text.len()
}
