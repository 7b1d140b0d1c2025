use blob_words::{FileName, Octets, Origin, UrlText};
use std::test::Fail;

#[test]
fn a_copy_has_the_bytes(rt: HostRuntime) -> Result<(), Fail> {
    let heap = rt.alloc();
    let name = FileName::new(Octets::from_slice(heap, b"a")?)?;
    assert_eq!(rt; name.copy(heap)?.as_slice(), b"a".as_slice());
    let origin = Origin::new(Octets::from_slice(heap, b"https://a.test")?)?;
    assert_eq!(rt; origin.copy(heap)?.as_slice(), b"https://a.test".as_slice());
    let text = UrlText::new(Octets::from_slice(heap, b"blob:a")?)?;
    assert_eq!(rt; text.copy(heap)?.as_slice(), b"blob:a".as_slice());
    Ok(())
}
