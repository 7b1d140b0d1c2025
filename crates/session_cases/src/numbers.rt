//! Numbers that stand in front of a case's text.

/// The number in front of the first space, 0 where there is none, and what stands behind it.
pub fn number_and_rest(text: &[u8]) -> (usize, &[u8]) {
    let (digits, rest) = match blob_source::find_byte(b' ', text) {
        Some(at) => {
            let (digits, _) = text.split_at(at);
            let (_, rest) = text.split_at(at + 1);
            (digits, rest)
        }
        None => (text, b"".as_slice()),
    };
    let mut number = 0usize;
    for digit in digits {
        number = number
            .wrapping_mul(10)
            .wrapping_add(usize::from(digit.wrapping_sub(b'0')));
    }
    (number, rest)
}
