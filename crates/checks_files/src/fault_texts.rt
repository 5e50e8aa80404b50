//! How faults are told, from the rules of each.
use mt_files::{BuildFault, fault_text};
use mt_path::Path;
use mt_tokens::{SourceFault, SyntaxFault, Text};
use std::alloc::Global;
use std::test::Fail;

/// Whether a fault is told by these words.
fn is_told(alloc: Global, fault: BuildFault, words: &str) -> Result<bool, Fail> {
    Ok(fault_text(alloc, &fault)?.as_str() == words)
}

/// Whether the refusal of `/a.js` is told by these words.
fn is_source_told(alloc: Global, fault: SourceFault, words: &str) -> Result<bool, Fail> {
    let path = Path::parse(alloc, "/a.js")?;
    is_told(alloc, BuildFault::Source { path, fault }, words)
}

#[test]
fn a_missing_entry_and_too_many_modules_have_no_place(rt: HostRuntime) -> Result<(), Fail> {
    let path = Path::parse(rt.alloc(), "/index.js")?;
    let missing = BuildFault::EntryMissing { path };
    assert!(rt; is_told(rt.alloc(), missing, "entry /index.js is not a source file")?);
    assert!(rt;
        is_told(
            rt.alloc(),
            BuildFault::TooManyModules,
            "more than 65536 modules"
        )?
    );
    assert!(rt; is_told(rt.alloc(), BuildFault::NoMemory, "out of memory")?);
    Ok(())
}

#[test]
fn the_refusal_of_a_source_has_its_path_and_place(rt: HostRuntime) -> Result<(), Fail> {
    for (fault, words) in [
        (SourceFault::NotUtf8 { place: 3 }, "/a.js:3: not UTF-8"),
        (SourceFault::Json, "/a.js:0: not JSON"),
        (
            SourceFault::TooManyDeps,
            "/a.js:0: more than 4096 dependencies",
        ),
        (SourceFault::NoMemory, "out of memory"),
    ] {
        assert!(rt; is_source_told(rt.alloc(), fault, words)?, "{words}");
    }
    Ok(())
}

#[test]
fn what_breaks_the_grammar_is_told(rt: HostRuntime) -> Result<(), Fail> {
    for (why, words) in [
        (
            SyntaxFault::UnclosedString,
            "/a.js:17: syntax: unclosed string",
        ),
        (
            SyntaxFault::UnclosedComment,
            "/a.js:17: syntax: unclosed comment",
        ),
        (SyntaxFault::BadCharacter, "/a.js:17: syntax: bad character"),
        (
            SyntaxFault::UnbalancedBracket,
            "/a.js:17: syntax: unbalanced bracket",
        ),
        (
            SyntaxFault::UnclosedTemplate,
            "/a.js:17: syntax: unclosed template",
        ),
        (
            SyntaxFault::UnclosedRegex,
            "/a.js:17: syntax: unclosed regular expression",
        ),
        (SyntaxFault::ImportForm, "/a.js:17: syntax: import form"),
        (SyntaxFault::ExportForm, "/a.js:17: syntax: export form"),
    ] {
        let fault = SourceFault::Syntax { place: 17, why };
        assert!(rt; is_source_told(rt.alloc(), fault, words)?, "{words}");
    }
    Ok(())
}

#[test]
fn a_name_that_leads_nowhere_is_quoted(rt: HostRuntime) -> Result<(), Fail> {
    for (place, name, words) in [
        (8, "./x.js", "/index.js:8: cannot resolve \"./x.js\""),
        (
            0,
            "a\"b\\c\u{1}é",
            "/index.js:0: cannot resolve \"a\\\"b\\\\c\\x01é\"",
        ),
        (
            4294967295,
            "\u{7f}",
            "/index.js:4294967295: cannot resolve \"\\x7f\"",
        ),
    ] {
        let path = Path::parse(rt.alloc(), "/index.js")?;
        let name = Text::from_str(rt.alloc(), name)?;
        let fault = BuildFault::Unresolved { path, place, name };
        assert!(rt; is_told(rt.alloc(), fault, words)?, "{words}");
    }
    Ok(())
}

#[test]
fn a_bad_package_file_has_the_place_of_the_name(rt: HostRuntime) -> Result<(), Fail> {
    let fault = BuildFault::Package {
        path: Path::parse(rt.alloc(), "/lib/a.js")?,
        place: 12,
        package: Path::parse(rt.alloc(), "/node_modules/b/package.json")?,
    };
    let words = "/lib/a.js:12: bad package file /node_modules/b/package.json";
    assert!(rt; is_told(rt.alloc(), fault, words)?);
    Ok(())
}
