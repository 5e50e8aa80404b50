//! What the entries of a snapshot lead to, from the rules of graphs and faults.
use crate::common::{built, put, set_of, snapshot};
use mt_files::{FileMap, Target, fault_text};
use mt_fresh::{Explorer, FaultList, FoundList, Graph, LinkList, Traversal, faults, traverse};
use mt_graph::module_paths;
use mt_package::Options;
use mt_path::{Path, PathSet};
use std::alloc::{AllocError, Global};
use std::test::Fail;

// ---- texts

/// A line with a path and the sources to which links lead.
fn push_line(lines: &mut String, path: &Path, links: &LinkList) -> Result<(), AllocError> {
    lines.push_str(path.as_str())?;
    for link in links.as_slice() {
        lines.push_str(" ")?;
        match &*link.target {
            Target::File(target) => lines.push_str(target.as_str())?,
            Target::None => lines.push_str("-")?,
            Target::BadPackage(_) => lines.push_str("!")?,
        }
    }
    lines.push_str("\n")
}

/// The modules of a graph, a line each.
fn modules_of(alloc: Global, graph: &Graph) -> Result<String, AllocError> {
    let mut lines = String::new(alloc);
    for (path, node) in graph {
        push_line(&mut lines, path, &node.links)?;
    }
    Ok(lines)
}

/// The modules of the graph from one entry, a line each.
fn graph_lines(alloc: Global, files: &FileMap, entry: &str) -> Result<String, Fail> {
    let graph = built(alloc, files, entry)?;
    Ok(modules_of(alloc, &graph)?)
}

/// The paths of a graph, a line each.
fn path_lines(alloc: Global, graph: &Graph) -> Result<String, AllocError> {
    let paths = module_paths(alloc, graph)?;
    let mut lines = String::new(alloc);
    for path in paths.as_slice() {
        lines.push_str(path.as_str())?;
        lines.push_str("\n")?;
    }
    Ok(lines)
}

/// What was found, a line each.
fn founds_of(alloc: Global, founds: &FoundList) -> Result<String, AllocError> {
    let mut lines = String::new(alloc);
    for found in founds.as_slice() {
        push_line(&mut lines, &found.path, &found.links)?;
    }
    Ok(lines)
}

/// The texts of faults, a line each.
fn lines_of(alloc: Global, found: &FaultList) -> Result<String, AllocError> {
    let mut lines = String::new(alloc);
    for fault in found.as_slice() {
        lines.push_str(fault_text(alloc, fault)?.as_str())?;
        lines.push_str("\n")?;
    }
    Ok(lines)
}

/// The text of the first fault from one entry.
#[tactic(auto, using(crate::proofs::Entries::one_distinct))]
fn first_fault(alloc: Global, files: &FileMap, entry: &str) -> Result<String, Fail> {
    let options = Options::standard(alloc)?;
    let entries = [Path::parse(alloc, entry)?];
    match traverse(alloc, files, &options, &entries) {
        Ok(_) => Ok(String::new(alloc)),
        Err(fault) => Ok(String::from_str(alloc, fault_text(alloc, &fault)?.as_str())?),
    }
}

/// The texts of all faults from one entry, a line each.
#[tactic(auto, using(crate::proofs::Entries::one_distinct))]
fn all_faults(alloc: Global, files: &FileMap, entry: &str) -> Result<String, Fail> {
    let options = Options::standard(alloc)?;
    let entries = [Path::parse(alloc, entry)?];
    let found = faults(alloc, files, &options, &entries)?;
    Ok(lines_of(alloc, &found.list)?)
}

/// The texts of all faults from two entries, a line each, where they differ.
#[tactic(auto, using(crate::proofs::Entries::two_distinct))]
fn faults_of_two(
    alloc: Global,
    files: &FileMap,
    first: Path,
    second: Path,
) -> Result<String, Fail> {
    if first == second {
        return Ok(String::new(alloc));
    }
    let options = Options::standard(alloc)?;
    let entries = [first, second];
    let found = faults(alloc, files, &options, &entries)?;
    Ok(lines_of(alloc, &found.list)?)
}

// ---- graphs

/// Two modules of the entry, one of which leads back to it, and a module that nothing requires.
const RING: [(&str, &str); 5] = [
    ("/index.js", "require('./a.js');require('./b.js')"),
    ("/a.js", "require('./lib/c.js')"),
    ("/b.js", ""),
    ("/lib/c.js", "require('../index.js')"),
    ("/d.js", "require('./nowhere.js')"),
];

#[test]
fn a_graph_has_the_modules_that_the_entry_reaches(rt: HostRuntime) -> Result<(), Fail> {
    let files = snapshot(rt.alloc(), &RING)?;
    let lines = graph_lines(rt.alloc(), &files, "/index.js")?;
    assert!(rt;
        lines.as_str() == "/a.js /lib/c.js\n/b.js\n/index.js /a.js /b.js\n/lib/c.js /index.js\n"
    );
    let faults = all_faults(rt.alloc(), &files, "/index.js")?;
    assert!(rt; faults.is_empty());
    Ok(())
}

#[test]
fn a_graph_tells_its_paths(rt: HostRuntime) -> Result<(), Fail> {
    let files = snapshot(rt.alloc(), &RING)?;
    let graph = built(rt.alloc(), &files, "/index.js")?;
    assert_eq!(rt; graph.len(), 4);
    let lines = path_lines(rt.alloc(), &graph)?;
    assert!(rt; lines.as_str() == "/a.js\n/b.js\n/index.js\n/lib/c.js\n");
    Ok(())
}

#[test]
fn a_module_has_its_output(rt: HostRuntime) -> Result<(), Fail> {
    let files = snapshot(rt.alloc(), &RING)?;
    let graph = built(rt.alloc(), &files, "/index.js")?;
    let path = Path::parse(rt.alloc(), "/a.js")?;
    let node = graph.get(&path).ok_or("a module")?;
    assert!(rt; node.output.body() == b"require(dependencyMap[0])".as_slice());
    Ok(())
}

#[test]
fn a_module_may_require_itself(rt: HostRuntime) -> Result<(), Fail> {
    let files = snapshot(rt.alloc(), &[("/a.js", "require('./a.js')")])?;
    let lines = graph_lines(rt.alloc(), &files, "/a.js")?;
    assert!(rt; lines.as_str() == "/a.js /a.js\n");
    Ok(())
}

// ---- faults

/// Four faults, in three files.
const FAULTY: [(&str, &str); 3] = [
    (
        "/index.js",
        "require('./z.js');require('./a.js');require('y')",
    ),
    ("/z.js", "'"),
    (
        "/a.js",
        "require('./y.js');require('./x.js');require('./y.js')",
    ),
];

#[test]
fn the_first_fault_is_that_of_the_least_path_and_place(rt: HostRuntime) -> Result<(), Fail> {
    let files = snapshot(rt.alloc(), &FAULTY)?;
    for (entry, fault) in [
        ("/index.js", "/a.js:8: cannot resolve \"./y.js\""),
        ("/z.js", "/z.js:0: syntax: unclosed string"),
        ("/e.js", "entry /e.js is not a source file"),
    ] {
        let first = first_fault(rt.alloc(), &files, entry)?;
        assert!(rt; first.as_str() == fault);
    }
    Ok(())
}

#[test]
fn all_faults_come_by_path_and_place(rt: HostRuntime) -> Result<(), Fail> {
    let files = snapshot(rt.alloc(), &FAULTY)?;
    for (entry, lines) in [
        (
            "/index.js",
            "/a.js:8: cannot resolve \"./y.js\"\n/a.js:26: cannot resolve \"./x.js\"\n/index.js:44: cannot resolve \"y\"\n/z.js:0: syntax: unclosed string\n",
        ),
        ("/e.js", "entry /e.js is not a source file\n"),
    ] {
        let all = all_faults(rt.alloc(), &files, entry)?;
        assert!(rt; all.as_str() == lines);
    }
    Ok(())
}

#[test]
fn missing_entries_come_among_the_other_faults(rt: HostRuntime) -> Result<(), Fail> {
    let files = snapshot(rt.alloc(), &RING)?;
    let missing = Path::parse(rt.alloc(), "/e.js")?;
    let unresolved = Path::parse(rt.alloc(), "/d.js")?;
    let lines = faults_of_two(rt.alloc(), &files, missing, unresolved)?;
    assert!(rt;
        lines.as_str()
            == "/d.js:8: cannot resolve \"./nowhere.js\"\nentry /e.js is not a source file\n"
    );
    Ok(())
}

// ---- the limit of modules

/// Puts one of the 16 modules of `wide`, and those that it requires: each sixteenth of this many.
fn put_part(alloc: Global, files: &mut FileMap, part: u32, others: u32) -> Result<(), Fail> {
    let mut source = String::new(alloc);
    for number in 0..others {
        if number % 16 == part {
            let other = format!(in alloc; "/{number}.js")?;
            put(alloc, files, other.as_str(), "")?;
            source.push_str(format!(in alloc; "require('.{other}');")?.as_str())?;
        }
    }
    let path = format!(in alloc; "/p{part}.js")?;
    put(alloc, files, path.as_str(), source.as_str())
}

/// A snapshot in which `/index.js` reaches itself, 16 modules and this many others, once these sources are put.
fn wide(alloc: Global, others: u32, sources: &[(&str, &str)]) -> Result<FileMap, Fail> {
    let mut files = FileMap::new(alloc);
    let mut root = String::new(alloc);
    for part in 0..16u32 {
        root.push_str(format!(in alloc; "require('./p{part}.js');")?.as_str())?;
        put_part(alloc, &mut files, part, others)?;
    }
    put(alloc, &mut files, "/index.js", root.as_str())?;
    for (text, source) in sources {
        put(alloc, &mut files, text, source)?;
    }
    Ok(files)
}

#[test]
fn a_build_has_at_most_65536_modules(rt: HostRuntime) -> Result<(), Fail> {
    let files = wide(rt.alloc(), 65519, &[])?;
    let graph = built(rt.alloc(), &files, "/index.js")?;
    assert_eq!(rt; graph.len(), 65536);
    Ok(())
}

#[test]
fn a_missing_file_does_not_count_as_a_module(rt: HostRuntime) -> Result<(), Fail> {
    let files = wide(rt.alloc(), 65519, &[("/0.js", "require('./new.js')")])?;
    let first = first_fault(rt.alloc(), &files, "/index.js")?;
    assert!(rt; first.as_str() == "/0.js:8: cannot resolve \"./new.js\"");
    Ok(())
}

#[test]
fn too_many_modules_come_before_each_other_fault(rt: HostRuntime) -> Result<(), Fail> {
    let sources = [("/0.js", "require('./new.js')"), ("/new.js", "'")];
    let files = wide(rt.alloc(), 65519, &sources)?;
    let first = first_fault(rt.alloc(), &files, "/index.js")?;
    assert!(rt; first.as_str() == "more than 65536 modules");
    let all = all_faults(rt.alloc(), &files, "/index.js")?;
    assert!(rt; all.as_str() == "more than 65536 modules\n");
    Ok(())
}

// ---- explorers

/// What an explorer finds from one seed.
fn explored<X: Explorer>(
    explorer: &mut X,
    alloc: Global,
    files: &FileMap,
    seed: &str,
    known: &PathSet,
) -> Result<FoundList, Fail> {
    let options = Options::standard(alloc)?;
    let seeds = [Path::parse(alloc, seed)?];
    let [only] = &seeds;
    let _source = files.source(only).ok_or("a source")?;
    Ok(explorer.explore(alloc, files, &options, &seeds, known)?)
}

/// What a traversal finds from one seed, where these paths are known, a line each.
fn found_lines(alloc: Global, files: &FileMap, seed: &str, known: &[&str]) -> Result<String, Fail> {
    let known = set_of(alloc, known)?;
    let founds = explored(&mut Traversal, alloc, files, seed, &known)?;
    Ok(founds_of(alloc, &founds)?)
}

/// Paths that are known.
const KNOWN: [&str; 2] = ["/lib/c.js", "/a.js"];

#[test]
fn what_is_known_is_not_explored(rt: HostRuntime) -> Result<(), Fail> {
    let files = snapshot(rt.alloc(), &RING)?;
    let lines = found_lines(rt.alloc(), &files, "/a.js", &[])?;
    assert!(rt;
        lines.as_str() == "/a.js /lib/c.js\n/b.js\n/index.js /a.js /b.js\n/lib/c.js /index.js\n"
    );
    let lines = found_lines(rt.alloc(), &files, "/a.js", &KNOWN)?;
    assert!(rt; lines.as_str() == "/a.js /lib/c.js\n");
    let lines = found_lines(rt.alloc(), &files, "/index.js", &KNOWN)?;
    assert!(rt; lines.as_str() == "/b.js\n/index.js /a.js /b.js\n");
    Ok(())
}

#[test]
fn what_is_refused_is_found_too(rt: HostRuntime) -> Result<(), Fail> {
    let sources = [("/a.js", "require('./b.js')"), ("/b.js", "(")];
    let files = snapshot(rt.alloc(), &sources)?;
    let known = PathSet::new(rt.alloc());
    let founds = explored(&mut Traversal, rt.alloc(), &files, "/a.js", &known)?;
    let lines = founds_of(rt.alloc(), &founds)?;
    assert!(rt; lines.as_str() == "/a.js /b.js\n/b.js\n");
    let refused = founds.get(1).ok_or("a found")?;
    assert!(rt; refused.made.is_err());
    Ok(())
}
