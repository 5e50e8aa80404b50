//! Paths, by the definition of a path.
use crate::common::path;
use mt_path::{MAX_BYTES, Path, PathFault};
use std::test::Fail;

fn text_of(path: &Option<Path>) -> Option<&str> {
    path.as_ref().map(|path| path.as_str())
}

#[test]
fn parse_answers_the_first_refusal(rt: HostRuntime) {
    for (text, at) in [
        ("/a//b", 1),
        ("/a/", 1),
        ("/.", 0),
        ("/a/../b", 1),
        ("/a\u{1f}", 0),
        ("/a\u{7f}", 0),
    ] {
        assert!(rt;
            matches!(path(&rt, text), Err(PathFault::BadSegment { at: found }) if found == at),
            "{text}"
        );
    }
    assert!(rt; matches!(path(&rt, "a"), Err(PathFault::NotRooted)));
    assert!(rt; matches!(path(&rt, ""), Err(PathFault::Empty)));
    assert!(rt; matches!(path(&rt, "/"), Ok(path) if path.as_str() == "/"));
    assert!(rt; matches!(path(&rt, "/a b/é"), Ok(path) if path.as_str() == "/a b/é"));
}

#[test]
fn a_path_has_at_most_1024_bytes(rt: HostRuntime) -> Result<(), Fail> {
    let mut text = String::from_str(rt.alloc(), "/")?;
    for _ in 0..1023 {
        text.push_str("a")?;
    }
    let longest = path(&rt, &text)?;
    assert!(rt; longest.as_str().len() == MAX_BYTES);
    assert!(rt; longest.with_suffix(rt.alloc(), "b")?.is_none());
    assert!(rt; longest.child(rt.alloc(), "b")?.is_none());
    assert!(rt; Path::join(rt.alloc(), &longest, "b")?.is_none());
    text.push_str("/")?;
    assert!(rt; matches!(path(&rt, &text), Err(PathFault::TooLong { len: 1025 })));
    Ok(())
}

#[test]
fn join_follows_the_parts(rt: HostRuntime) -> Result<(), Fail> {
    for (folder, name, want) in [
        ("/a/b", "../c", Some("/a/c")),
        ("/a", "../../c", None),
        ("/", "./x//y/.", Some("/x/y")),
        ("/a", "..", Some("/")),
        ("/a", "b\u{7f}", None),
    ] {
        let found = Path::join(rt.alloc(), &path(&rt, folder)?, name)?;
        assert!(rt; text_of(&found) == want, "{name}");
    }
    Ok(())
}

#[test]
fn a_suffix_ends_the_last_segment(rt: HostRuntime) -> Result<(), Fail> {
    for (text, suffix, want) in [
        ("/App", ".ios.js", Some("/App.ios.js")),
        ("/App", "/x", None),
        ("/", ".js", None),
        ("/a/b", "", Some("/a/b")),
    ] {
        let found = path(&rt, text)?.with_suffix(rt.alloc(), suffix)?;
        assert!(rt; text_of(&found) == want, "{text}{suffix}");
    }
    Ok(())
}

#[test]
fn a_child_is_in_its_folder(rt: HostRuntime) -> Result<(), Fail> {
    for (text, name, want) in [
        ("/", "a", Some("/a")),
        ("/a", "b.js", Some("/a/b.js")),
        ("/a", "..", None),
        ("/a", "", None),
        ("/a", "b/c", None),
    ] {
        let found = path(&rt, text)?.child(rt.alloc(), name)?;
        assert!(rt; text_of(&found) == want, "{text} {name}");
    }
    Ok(())
}

#[test]
fn a_text_tells_its_folder_and_extension(rt: HostRuntime) -> Result<(), Fail> {
    for (text, folder, extension, is_source, is_json) in [
        ("/", "/", None, false, false),
        ("/a.js", "/", Some("js"), true, false),
        ("/a/b.d.json", "/a", Some("json"), true, true),
        ("/a.b/c", "/a.b", None, false, false),
        ("/a/.mjs", "/a", Some("mjs"), true, false),
        ("/a/b.", "/a", Some(""), false, false),
        ("/a/b.jsx2", "/a", Some("jsx2"), false, false),
    ] {
        let path = path(&rt, text)?;
        assert!(rt; path.folder() == folder, "{text}");
        assert!(rt; path.extension() == extension, "{text}");
        assert!(rt; path.is_source() == is_source, "{text}");
        assert!(rt; path.is_json() == is_json, "{text}");
        let parent = path.parent(rt.alloc())?;
        assert!(rt; parent.as_str() == folder, "{text}");
    }
    Ok(())
}

#[test]
fn the_name_is_the_last_segment(rt: HostRuntime) -> Result<(), Fail> {
    for (text, name) in [("/", None), ("/a.js", Some("a.js")), ("/a/b", Some("b"))] {
        let path = path(&rt, text)?;
        assert!(rt; path.name() == name, "{text}");
    }
    Ok(())
}

#[test]
fn paths_are_compared_by_their_bytes(rt: HostRuntime) -> Result<(), Fail> {
    let root = Path::root(rt.alloc())?;
    assert!(rt; root.is_root());
    let dashed = path(&rt, "/a-b")?;
    assert!(rt; !dashed.is_root());
    let below = path(&rt, "/a/b")?;
    assert!(rt; root < dashed);
    assert!(rt; dashed < below);
    let copy = below.clone()?;
    assert!(rt; copy == below);
    let shown = format!(in rt.alloc(); "{copy}")?;
    assert!(rt; shown.as_str() == "/a/b");
    Ok(())
}
