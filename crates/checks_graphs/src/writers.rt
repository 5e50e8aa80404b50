//! What is written of a bundle, from the rules of each part.
use crate::common::sink;
use mt_io::Sink;
use mt_path::Path;
use mt_write::{Slot, module_text, write_head, write_module, write_start};
use std::test::Fail;

/// The line that begins each module.
const HEAD: &[u8] =
    b"__d(function (global, require, importDefault, importAll, module, exports, dependencyMap) {\n";

#[test]
fn a_module_that_is_not_for_development_has_no_path(rt: HostRuntime) -> Result<(), Fail> {
    let index = Path::parse(rt.alloc(), "/index.js")?;
    let plain = module_text(rt.alloc(), 0, &index, b"\nx", &[], false)?;
    assert!(rt;
        plain.as_slice()
            == b"__d(function (global, require, importDefault, importAll, module, exports, dependencyMap) {\n\nx\n},0,[]);\n".as_slice()
    );
    Ok(())
}

#[test]
fn a_module_has_its_number_its_slots_and_its_path(rt: HostRuntime) -> Result<(), Fail> {
    let quoted = Path::parse(rt.alloc(), "/a\"b\\c.js")?;
    let slots = [Slot::Module(1), Slot::Empty, Slot::Module(20)];
    let dev = module_text(rt.alloc(), 7, &quoted, b"", &slots, true)?;
    assert!(rt;
        dev.as_slice()
            == b"__d(function (global, require, importDefault, importAll, module, exports, dependencyMap) {\n\n},7,[1,null,20],\"a\\\"b\\\\c.js\");\n".as_slice()
    );
    Ok(())
}

#[test]
fn a_bundle_says_whether_it_is_for_development(rt: HostRuntime) -> Result<(), Fail> {
    for (dev, head) in [
        (true, "var __DEV__=true;\n(function(global){\n"),
        (false, "var __DEV__=false;\n(function(global){\n"),
    ] {
        let mut sink = sink(rt.alloc(), 8192, &[])?;
        assert!(rt; write_head(dev, &mut sink).is_ok());
        assert!(rt; sink.bytes().starts_with(head.as_bytes()));
    }
    Ok(())
}

#[test]
fn a_module_and_its_start_are_written(rt: HostRuntime) -> Result<(), Fail> {
    let index = Path::parse(rt.alloc(), "/index.js")?;
    let mut sink = sink(rt.alloc(), 8192, &[])?;
    let slots = [Slot::Module(4)];
    assert!(rt; write_module(3, &index, b"\ny", &slots, true, &mut sink).is_ok());
    assert!(rt; write_start(3, &mut sink).is_ok());
    assert!(rt;
        sink.bytes()
            == b"__d(function (global, require, importDefault, importAll, module, exports, dependencyMap) {\n\ny\n},3,[4],\"index.js\");\n__r(3);\n".as_slice()
    );
    Ok(())
}

#[test]
fn what_is_too_long_for_the_buffer_is_written_in_order(rt: HostRuntime) -> Result<(), Fail> {
    let index = Path::parse(rt.alloc(), "/index.js")?;
    let body = Vec::from_elem(rt.alloc(), b'x', 600)?;
    let mut sink = sink(rt.alloc(), 8192, &[])?;
    assert!(rt; write_module(3, &index, body.as_slice(), &[], false, &mut sink).is_ok());
    assert!(rt; sink.bytes().len() == HEAD.len() + 600 + b"\n},3,[]);\n".len());
    assert!(rt; sink.bytes().starts_with(HEAD) && sink.bytes().ends_with(b"xx\n},3,[]);\n"));
    Ok(())
}

#[test]
fn a_write_that_fails_ends_the_module(rt: HostRuntime) -> Result<(), Fail> {
    let index = Path::parse(rt.alloc(), "/index.js")?;
    let body = Vec::from_elem(rt.alloc(), b'x', 600)?;
    let mut sink = sink(rt.alloc(), 8192, &[2])?;
    assert!(rt; write_module(3, &index, body.as_slice(), &[], false, &mut sink).is_err());
    assert!(rt; sink.faults() == 1 && sink.bytes() == HEAD);
    assert!(rt; write_start(3, &mut sink).is_ok());
    assert!(rt; sink.faults() == 1 && sink.bytes().len() == HEAD.len() + b"__r(3);\n".len());
    Ok(())
}
