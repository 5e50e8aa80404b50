//! What sources become, and each refusal, with memory enough.
use mt_package::Options;
use mt_tokens::{Bytes, DepKind, MAX_SOURCE_BYTES, PathKind, Shared, SourceFault, SyntaxFault};
use mt_transform::{Output, transform};
use std::alloc::{AllocError, Global};
use std::test::Fail;

/// What `source` becomes, with or without its comments; refused also where there is no memory for the source.
fn read_with(
    alloc: Global,
    strip: bool,
    kind: PathKind,
    source: &[u8],
) -> Result<Output, SourceFault> {
    if source.len() > MAX_SOURCE_BYTES {
        return Err(SourceFault::NoMemory);
    }
    let Ok(mut options) = Options::standard(alloc) else {
        return Err(SourceFault::NoMemory);
    };
    options.strip = strip;
    let Ok(bytes) = Bytes::from_slice(alloc, source) else {
        return Err(SourceFault::NoMemory);
    };
    let Ok(shared) = Shared::new(alloc, bytes) else {
        return Err(SourceFault::NoMemory);
    };
    transform(alloc, &options, kind, shared)
}

/// What `source` becomes with its comments.
fn read(alloc: Global, kind: PathKind, source: &[u8]) -> Result<Output, SourceFault> {
    read_with(alloc, false, kind, source)
}

/// Whether the script becomes this body without its comments.
fn becomes_stripped(alloc: Global, script: &str, body: &str) -> bool {
    match read_with(alloc, true, PathKind::Script, script.as_bytes()) {
        Ok(output) => output.body() == body.as_bytes(),
        Err(_) => false,
    }
}

/// Whether the JSON source becomes this body.
fn json_becomes(alloc: Global, source: &str, body: &str) -> bool {
    match read(alloc, PathKind::Json, source.as_bytes()) {
        Ok(output) => output.body() == body.as_bytes() && output.names().is_empty(),
        Err(_) => false,
    }
}

fn is_no_json(alloc: Global, source: &str) -> bool {
    matches!(
        read(alloc, PathKind::Json, source.as_bytes()),
        Err(SourceFault::Json)
    )
}

/// Whether the script becomes this body with these names.
fn becomes(alloc: Global, script: &str, body: &str, names: &[&str]) -> bool {
    let Ok(output) = read(alloc, PathKind::Script, script.as_bytes()) else {
        return false;
    };
    let found = output.names().iter().map(|name| name.text.as_str());
    output.body() == body.as_bytes() && found.eq(names.iter().copied())
}

#[test]
fn a_script_that_requires_nothing_is_its_own_body(rt: HostRuntime) {
    assert!(rt; becomes(rt.alloc(), "x();", "x();", &[]));
    assert!(rt; becomes(rt.alloc(), "", "", &[]));
}

#[test]
fn each_required_string_becomes_the_number_of_its_name(rt: HostRuntime) {
    let script = r#"require("./b.js");require("./a.js");require("./b.js");"#;
    let body = "require(dependencyMap[0]);require(dependencyMap[1]);require(dependencyMap[0]);";
    assert!(rt; becomes(rt.alloc(), script, body, &["./b.js", "./a.js"]));
    assert!(rt;
        becomes(
            rt.alloc(),
            "a = require /**/ ('é',\n) + 1",
            "a = require /**/ (dependencyMap[0],\n) + 1",
            &["é"]
        )
    );
}

#[test]
fn an_output_tells_what_it_was_made_of(rt: HostRuntime) -> Result<(), Fail> {
    let script = r#"require("./b.js");"#;
    let output = read(rt.alloc(), PathKind::Script, script.as_bytes())?;
    assert!(rt; output.source().as_slice() == script.as_bytes());
    assert!(rt; output.kind() == PathKind::Script);
    assert!(rt; !output.strip());
    assert_eq!(rt; output.dynamic(), 0);
    Ok(())
}

#[test]
fn a_name_has_its_kind_and_its_first_place(rt: HostRuntime) -> Result<(), Fail> {
    let script = r#"require("./b.js");require("./a.js");require("./b.js");"#;
    let output = read(rt.alloc(), PathKind::Script, script.as_bytes())?;
    assert_eq!(rt; output.names().len(), 2);
    for name in output.names() {
        assert!(rt; name.kind == DepKind::Require);
    }
    assert_eq!(rt; output.place(rt.alloc(), 0)?, 8);
    assert_eq!(rt; output.place(rt.alloc(), 1)?, 26);
    assert!(rt; output.places(rt.alloc())?.as_slice() == [8, 26].as_slice());
    Ok(())
}

#[test]
fn a_property_is_no_requirement(rt: HostRuntime) {
    for script in [
        r#"a.require("x")"#,
        "a?.require(x)",
        "a. /**/ import",
        "requires(x)",
    ] {
        assert!(rt; becomes(rt.alloc(), script, script, &[]));
    }
}

#[test]
fn other_calls_stay(rt: HostRuntime) {
    for script in [
        "require(x)",
        "require",
        r#"require("a" + b)"#,
        r"require('\1')",
        "require('a', b)",
    ] {
        assert!(rt; becomes(rt.alloc(), script, script, &[]));
    }
}

#[test]
fn imports_are_replaced(rt: HostRuntime) {
    assert!(rt;
        becomes(
            rt.alloc(),
            r#"import a from "m"; import("\x61");"#,
            "var a = importDefault(dependencyMap[0]); Promise.resolve(dependencyMap[1]).then(importAll);",
            &["m", "a"]
        )
    );
}

#[test]
fn a_first_comment_of_an_interpreter_is_dropped(rt: HostRuntime) {
    assert!(rt; becomes(rt.alloc(), "#!/bin/x\n1;", "\n1;", &[]));
    assert!(rt; becomes(rt.alloc(), "// x\n1;", "// x\n1;", &[]));
}

/// Whether the script is refused for what breaks the lexical grammar there.
fn breaks_at(alloc: Global, script: &[u8], place: u32, why: SyntaxFault) -> bool {
    match read(alloc, PathKind::Script, script) {
        Err(
            SourceFault::Syntax {
                place: found,
                why: cause,
            },
        ) => found == place && cause == why,
        _ => false,
    }
}

#[test]
fn each_refusal_has_its_place(rt: HostRuntime) {
    let fault = read(rt.alloc(), PathKind::Script, b"x()\xFF".as_slice()).err();
    assert!(rt; matches!(fault, Some(SourceFault::NotUtf8 { place: 3 })));
    for (script, place, why) in [
        (b"x = 'a".as_slice(), 4, SyntaxFault::UnclosedString),
        (b"/* x".as_slice(), 0, SyntaxFault::UnclosedComment),
        (b"x = `a".as_slice(), 4, SyntaxFault::UnclosedTemplate),
        (b"x = /a".as_slice(), 4, SyntaxFault::UnclosedRegex),
        (b"a\x7F".as_slice(), 1, SyntaxFault::BadCharacter),
        (b"(]".as_slice(), 1, SyntaxFault::UnbalancedBracket),
        (b"import 7;".as_slice(), 0, SyntaxFault::ImportForm),
        (b"x; export 1".as_slice(), 3, SyntaxFault::ExportForm),
    ] {
        assert!(rt; breaks_at(rt.alloc(), script, place, why));
    }
}

/// A script that requires the names 0, 1 and so on.
fn requires_many(alloc: Global, count: u32) -> Result<String, AllocError> {
    let mut script = String::new(alloc);
    for name in 0..count {
        let line = format!(in alloc; "require('{name}');")?;
        script.push_str(&line)?;
    }
    Ok(script)
}

#[test]
fn a_script_has_at_most_4096_names(rt: HostRuntime) -> Result<(), Fail> {
    let most = requires_many(rt.alloc(), 4096)?;
    let more = requires_many(rt.alloc(), 4097)?;
    let output = read(rt.alloc(), PathKind::Script, most.as_bytes())?;
    assert_eq!(rt; output.names().len(), 4096);
    let fault = read(rt.alloc(), PathKind::Script, more.as_bytes()).err();
    assert!(rt; matches!(fault, Some(SourceFault::TooManyDeps)));
    Ok(())
}

#[test]
fn a_body_that_exports_has_a_first_line_and_its_names(rt: HostRuntime) -> Result<(), Fail> {
    let script = "import App, { a as b } from \"./App\";\nexport default function Main() {}\n";
    let body =
        "Object.defineProperty(exports, \"__esModule\", { value: true });\nvar App = importDefault(dependencyMap[0]); var b = require(dependencyMap[0]).a;\n function Main() {}\n\nexports.default = Main;";
    assert!(rt; becomes(rt.alloc(), script, body, &["./App"]));
    let output = read(rt.alloc(), PathKind::Script, script.as_bytes())?;
    assert_eq!(rt; output.names().len(), 1);
    assert_eq!(rt; output.place(rt.alloc(), 0)?, 28);
    Ok(())
}

#[test]
fn comments_are_left_out(rt: HostRuntime) {
    assert!(rt; becomes_stripped(rt.alloc(), "a/*x*/b//y", "a b"));
    assert!(rt; becomes_stripped(rt.alloc(), "a/*\n*/b//y\nc", "a\nb\nc"));
    assert!(rt; becomes_stripped(rt.alloc(), "#!/bin/x\n/**/1;", "\n 1;"));
}

#[test]
fn comments_in_a_statement_go_with_it(rt: HostRuntime) {
    assert!(rt;
        becomes_stripped(
            rt.alloc(),
            "import /*x*/ a /*y*/ from 'm' /*z*/;/*w*/",
            "var a = importDefault(dependencyMap[0]); "
        )
    );
    assert!(rt;
        becomes_stripped(
            rt.alloc(),
            "require(/*x*/'a'/*y*/)",
            "require( dependencyMap[0] )"
        )
    );
}

#[test]
fn each_line_end_in_a_comment_is_one(rt: HostRuntime) {
    assert!(rt; becomes_stripped(rt.alloc(), "a/*\r*/b", "a\nb"));
    assert!(rt; becomes_stripped(rt.alloc(), "a/*\u{2028}*/b", "a\nb"));
    assert!(rt; becomes_stripped(rt.alloc(), "a/*é*//**/b", "a  b"));
}

/// Whether the name with this number is `a` of this kind.
fn is_a(output: &Output, i: usize, kind: DepKind) -> bool {
    match output.names().get(i) {
        Some(name) => name.text.as_str() == "a" && name.kind == kind,
        None => false,
    }
}

#[test]
fn a_name_of_three_kinds_is_three(rt: HostRuntime) -> Result<(), Fail> {
    let script = r#"import "a";require("a");import("a");require(x);import(y)"#;
    let output = read(rt.alloc(), PathKind::Script, script.as_bytes())?;
    assert_eq!(rt; output.names().len(), 3);
    assert!(rt; is_a(&output, 0, DepKind::Import));
    assert!(rt; is_a(&output, 1, DepKind::Require));
    assert!(rt; is_a(&output, 2, DepKind::ImportCall));
    assert_eq!(rt; output.dynamic(), 2);
    Ok(())
}

/// So many brackets, one in another.
fn nested(alloc: Global, depth: u32) -> Result<String, AllocError> {
    let mut text = String::new(alloc);
    for _ in 0..depth {
        text.push('[')?;
    }
    for _ in 0..depth {
        text.push(']')?;
    }
    Ok(text)
}

#[test]
fn json_nests_127_deep(rt: HostRuntime) -> Result<(), Fail> {
    let most = nested(rt.alloc(), 127)?;
    let more = nested(rt.alloc(), 128)?;
    assert!(rt; read(rt.alloc(), PathKind::Json, most.as_bytes()).is_ok());
    assert!(rt; is_no_json(rt.alloc(), &more));
    Ok(())
}

#[test]
fn json_is_exported_as_it_is(rt: HostRuntime) {
    assert!(rt; json_becomes(rt.alloc(), "{\"v\":1}", "module.exports = {\"v\":1};"));
    assert!(rt; json_becomes(rt.alloc(), " [1, 2]\n", "module.exports =  [1, 2]\n;"));
    assert!(rt; is_no_json(rt.alloc(), "{v:1}"));
    assert!(rt; is_no_json(rt.alloc(), ""));
    let fault = read(rt.alloc(), PathKind::Json, b"{\xFF".as_slice()).err();
    assert!(rt; matches!(fault, Some(SourceFault::NotUtf8 { place: 1 })));
}
