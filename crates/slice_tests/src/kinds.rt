use slice_rule::normal_type;
use std::alloc::{AllocError, Global};
use std::test::Fail;

/// The type that is kept of a text.
fn kept(alloc: Global, text: &str) -> Result<Vec<u8>, AllocError> {
    let mut bytes = Vec::new(alloc);
    bytes.extend_from_slice(text.as_bytes())?;
    let len = normal_type(&mut bytes);
    bytes.truncate(len);
    Ok(bytes)
}

#[test]
fn types_are_put_in_lower_case(rt: HostRuntime) -> Result<(), Fail> {
    let rows = [
        ("", ""),
        ("text/plain", "text/plain"),
        ("Text/Plain", "text/plain"),
        ("TEXT/HTML;CHARSET=UTF-8", "text/html;charset=utf-8"),
        ("image/PNG", "image/png"),
        ("AZ az 09", "az az 09"),
        ("@[`{", "@[`{"),
        (" ~", " ~"),
        ("not a type", "not a type"),
    ];
    for (text, want) in rows {
        assert_eq!(rt; kept(rt.alloc(), text)?.as_slice(), want.as_bytes());
    }
    Ok(())
}

#[test]
fn other_types_become_empty(rt: HostRuntime) -> Result<(), Fail> {
    let rows = [
        "text/plain\n",
        "\ttext/plain",
        "text\u{0}",
        "a\u{1f}b",
        "a\u{7f}",
        "caf\u{e9}",
        "TEXT/\u{130}",
    ];
    for text in rows {
        assert_eq!(rt; kept(rt.alloc(), text)?.len(), 0);
    }
    Ok(())
}

/// A type that isn't kept stays as it was in the bytes lent.
#[test]
fn a_refused_text_is_not_written(rt: HostRuntime) -> Result<(), Fail> {
    let mut text = *b"AB\x80";
    assert_eq!(rt; normal_type(&mut text), 0);
    assert_eq!(rt; text, *b"AB\x80");
    Ok(())
}
