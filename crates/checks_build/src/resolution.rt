//! Where names lead.
use mt_files::{Change, Entry, FileMap};
use mt_package::Options;
use mt_path::Path;
use mt_resolve::{Resolver, Target, resolve};
use mt_tokens::{Bytes, DepKind, Shared, Text};
use std::test::Fail;

/// Where a name is to lead.
#[derive(Clone, Copy)]
enum Wanted {
    File(&'static str),
    Nowhere,
    Bad(&'static str),
}

/// The snapshot of these sources, of each its path and its text.
fn sources(rt: &HostRuntime, rows: &[(&str, &str)]) -> Result<FileMap, Fail> {
    let mut files = FileMap::new(rt.alloc());
    for (path, text) in rows {
        let bytes = Bytes::from_slice(rt.alloc(), text.as_bytes())?;
        let source = Shared::new(rt.alloc(), bytes)?;
        let path = Path::parse(rt.alloc(), path)?;
        if path.is_source() && text.len() < 1000 {
            files.apply(&Change::Put(path, Entry::Source(source)))?;
        }
    }
    Ok(files)
}

/// Whether the target is the one that is wanted.
fn is_wanted(target: &Target, want: Wanted) -> bool {
    match (target, want) {
        (Target::File(path), Wanted::File(text)) => path.as_str() == text,
        (Target::BadPackage(path), Wanted::Bad(text)) => path.as_str() == text,
        (Target::None, Wanted::Nowhere) => true,
        _ => false,
    }
}

/// Whether a name leads there from the module `origin` on a platform: asked once, and asked twice of one resolver.
fn leads(
    rt: &HostRuntime,
    files: &FileMap,
    platform: &str,
    origin: &str,
    name: &str,
    want: Wanted,
) -> Result<bool, Fail> {
    let mut options = Options::standard(rt.alloc())?;
    options.platform = Text::from_str(rt.alloc(), platform)?;
    let origin = Path::parse(rt.alloc(), origin)?;
    let once = resolve(rt.alloc(), files, &options, &origin, name, DepKind::Import)?;
    let text = Text::from_str(rt.alloc(), name)?;
    let mut resolver = Resolver::new(rt.alloc(), files, &options)?;
    let first = resolver.target(rt.alloc(), &origin, &text, DepKind::Require)?;
    let again = resolver.target(rt.alloc(), &origin, &text, DepKind::Import)?;
    Ok(is_wanted(&once.target, want) && is_wanted(&first, want) && is_wanted(&again, want))
}

#[test]
fn a_platform_has_its_own_files(rt: HostRuntime) -> Result<(), Fail> {
    let files = sources(
        &rt,
        &[
            ("/Button.ios.js", ""),
            ("/Button.native.js", ""),
            ("/Button.js", ""),
        ],
    )?;
    for (platform, want) in [
        ("ios", "/Button.ios.js"),
        ("android", "/Button.native.js"),
        ("web", "/Button.js"),
    ] {
        assert!(rt;
            leads(
                &rt,
                &files,
                platform,
                "/a.js",
                "./Button",
                Wanted::File(want)
            )?
        );
    }
    assert!(rt;
        leads(
            &rt,
            &files,
            "ios",
            "/a.js",
            "./Button.js",
            Wanted::File("/Button.js")
        )?
    );
    Ok(())
}

#[test]
fn a_name_leads_to_a_file_or_a_folder(rt: HostRuntime) -> Result<(), Fail> {
    let files = sources(
        &rt,
        &[
            ("/index.js", ""),
            ("/x.js", ""),
            ("/d.js", ""),
            ("/d/index.js", ""),
            ("/d/a.js", ""),
            ("/p.js", ""),
            ("/p/package.json", "{"),
        ],
    )?;
    for (origin, name, want) in [
        ("/d/a.js", ".", Wanted::File("/d/index.js")),
        ("/d/a.js", "..", Wanted::File("/index.js")),
        ("/x.js", "./d", Wanted::File("/d.js")),
        ("/x.js", "./d/", Wanted::File("/d/index.js")),
        ("/d/a.js", "/x", Wanted::File("/x.js")),
        ("/d/a.js", "x", Wanted::Nowhere),
        ("/d/a.js", "", Wanted::Nowhere),
        ("/d/a.js", "../../x", Wanted::Nowhere),
        ("/x.js", "./p", Wanted::File("/p.js")),
        ("/x.js", "./p/", Wanted::Bad("/p/package.json")),
    ] {
        assert!(rt; leads(&rt, &files, "ios", origin, name, want)?);
    }
    Ok(())
}

#[test]
fn a_package_names_its_entry(rt: HostRuntime) -> Result<(), Fail> {
    let files = sources(
        &rt,
        &[
            ("/node_modules/@s/index.js", ""),
            (
                "/node_modules/out/package.json",
                "{\"main\": \"../../../x\"}",
            ),
            ("/node_modules/out/index.js", ""),
            ("/node_modules/out/x.js", ""),
            ("/node_modules/same/package.json", "{\"main\": \".\"}"),
            ("/node_modules/same/index.js", ""),
            (
                "/node_modules/lib/package.json",
                "{\"main\": \"m\", \"browser\": \"\"}",
            ),
            ("/node_modules/lib/m.js", ""),
            ("/node_modules/lib/index.js", ""),
            ("/node_modules/node_modules/deep.js", ""),
        ],
    )?;
    for (origin, name, want) in [
        ("/a.js", "@s", Wanted::File("/node_modules/@s/index.js")),
        (
            "/d/e/a.js",
            "out",
            Wanted::File("/node_modules/out/index.js"),
        ),
        ("/a.js", "same", Wanted::File("/node_modules/same/index.js")),
        (
            "/node_modules/out/x.js",
            "lib",
            Wanted::File("/node_modules/lib/m.js"),
        ),
        ("/node_modules/x.js", "deep", Wanted::Nowhere),
        (
            "/node_modules/same/index.js",
            ".",
            Wanted::File("/node_modules/same/index.js"),
        ),
    ] {
        assert!(rt; leads(&rt, &files, "ios", origin, name, want)?);
    }
    Ok(())
}

#[test]
fn a_path_that_is_too_long_is_left_out(rt: HostRuntime) -> Result<(), Fail> {
    let mut base = String::from_str(rt.alloc(), "/")?;
    for _ in 0..1019 {
        base.push_str("a")?;
    }
    let mut file = base.clone()?;
    file.push_str(".js")?;
    let files = sources(&rt, &[(file.as_str(), "")])?;
    let options = Options::standard(rt.alloc())?;
    let origin = Path::parse(rt.alloc(), "/m.js")?;
    let found = resolve(
        rt.alloc(),
        &files,
        &options,
        &origin,
        base.as_str(),
        DepKind::Import,
    )?;
    let Target::File(path) = &*found.target else {
        return Err(Fail::new("the name leads to no file"));
    };
    assert!(rt; path.as_str() == file.as_str());
    Ok(())
}
