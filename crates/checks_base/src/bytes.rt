//! Texts and strings of bytes.
use crate::common::text;
use mt_tokens::{Bytes, Text};
use std::test::Fail;

#[test]
fn a_text_keeps_its_bytes(rt: HostRuntime) -> Result<(), Fail> {
    let mut text = text(&rt, "né")?;
    text.push_str("t")?;
    assert!(rt; text.len() == 4 && !text.is_empty());
    assert!(rt; text.as_bytes() == b"n\xC3\xA9t".as_slice());
    let copy = text.clone()?;
    assert!(rt; copy == text);
    assert!(rt; Text::new(rt.alloc()) < copy);
    let shown = format!(in rt.alloc(); "<{copy}>")?;
    assert!(rt; shown.as_str() == "<nét>");
    let string = Text::from_string(shown).into_string();
    assert!(rt; string.as_str() == "<nét>");
    Ok(())
}

#[test]
fn bytes_keep_any_bytes(rt: HostRuntime) -> Result<(), Fail> {
    let mut bytes = Bytes::from_slice(rt.alloc(), &[255, 0])?;
    bytes.push(7)?;
    bytes.extend(&[8, 9])?;
    assert!(rt; bytes.as_slice() == [255, 0, 7, 8, 9].as_slice() && bytes.len() == 5);
    let copy = bytes.clone()?;
    assert!(rt; copy == bytes);
    assert!(rt; Bytes::from_vec(copy.into_vec()) == bytes);
    assert!(rt; Bytes::new(rt.alloc()).is_empty());
    assert!(rt; Bytes::with_capacity(rt.alloc(), 16)?.is_empty());
    Ok(())
}
