//! The options of a build that is told none.
use mt_package::Options;
use mt_tokens::TextList;
use std::test::Fail;

fn has_texts(list: &TextList, texts: &[&str]) -> bool {
    let found = list.iter().map(|text| text.as_str());
    found.eq(texts.iter().copied())
}

#[test]
fn a_build_that_is_told_nothing_is_for_ios(rt: HostRuntime) -> Result<(), Fail> {
    let options = Options::standard(rt.alloc())?;
    assert!(rt; options.platform.as_str() == "ios" && options.dev && !options.strip);
    assert!(rt; has_texts(&options.main_fields, &["react-native", "browser", "main"]));
    assert!(rt; has_texts(&options.source_exts, &["js", "jsx", "json", "ts", "tsx"]));
    Ok(())
}
