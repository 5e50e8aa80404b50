//! Numberings and revisions, from the rules of each.
ghost use Rattle.std.specs.Prelude.{◌<◌, ◌≡◌, true, option_copied};
ghost use Rattle.std.specs.Option.{IfSome};

use crate::common::{built, put, set_of, sink, snapshot};
use mt_containers::List;
use mt_fresh::{Graph, revision_of_graph};
use mt_package::Options;
use mt_path::{Path, PathMap};
use mt_revision::{
    DeltaLengths, HeldMap, Module, ModuleMap, Numbering, Revision, held, write_bundle,
};
use mt_tokens::{Bytes, MAX_SOURCE_BYTES, PathKind, Shared};
use mt_transform::{Output, transform};
use mt_write::Slot;
use std::alloc::{AllocError, Global};
use std::test::Fail;

// ---- numberings

/// The numbering with `/z.js` and these members, where there are few.
#[tactic(auto, using(crate::proofs::Entries::one_distinct))]
fn extended<V>(
    alloc: Global,
    numbering: &Numbering,
    members: &PathMap<V>,
) -> Result<Numbering, Fail> {
    let entries = [Path::parse(alloc, "/z.js")?];
    if numbering.len() > 100 || members.len() > 100 {
        return Ok(Numbering::new(alloc));
    }
    Ok(numbering.extend(&entries, members)?)
}

/// The numbering of `/z.js` and `/a.js`.
fn first_numbering(alloc: Global) -> Result<Numbering, Fail> {
    let members = set_of(alloc, &["/z.js", "/a.js"])?;
    extended(alloc, &Numbering::new(alloc), &members)
}

/// The numbering after it, of `/b.js` and `/z.js`.
fn second_numbering(alloc: Global) -> Result<Numbering, Fail> {
    let first = first_numbering(alloc)?;
    let members = set_of(alloc, &["/b.js", "/z.js"])?;
    extended(alloc, &first, &members)
}

/// The number of a path.
fn number_of(alloc: Global, numbering: &Numbering, text: &str) -> Result<Option<u32>, Fail> {
    Ok(numbering.number_of(&Path::parse(alloc, text)?))
}

/// The path of a number, or nothing.
fn path_of(numbering: &Numbering, number: u32) -> &str {
    match numbering.path_of(number) {
        Some(path) => path.as_str(),
        None => "",
    }
}

#[test]
fn entries_come_first(rt: HostRuntime) -> Result<(), Fail> {
    let none = Numbering::new(rt.alloc());
    assert!(rt; none.is_empty());
    let first = first_numbering(rt.alloc())?;
    assert_eq!(rt; first.len(), 2);
    for (text, number) in [("/z.js", Some(0)), ("/a.js", Some(1)), ("/b.js", None)] {
        let found = number_of(rt.alloc(), &first, text)?;
        assert!(rt; found == number);
    }
    Ok(())
}

#[test]
fn numbers_are_kept(rt: HostRuntime) -> Result<(), Fail> {
    let second = second_numbering(rt.alloc())?;
    assert_eq!(rt; second.len(), 3);
    for (text, number) in [("/a.js", Some(1)), ("/b.js", Some(2)), ("/c.js", None)] {
        let found = number_of(rt.alloc(), &second, text)?;
        assert!(rt; found == number);
    }
    assert!(rt; path_of(&second, 2) == "/b.js");
    assert!(rt; path_of(&second, 3) == "");
    Ok(())
}

// ---- modules

/// What a short script becomes, and what the empty script becomes for a long one.
fn output_of(alloc: Global, source: &str) -> Result<Output, Fail> {
    let options = Options::standard(alloc)?;
    let bytes = if source.len() <= MAX_SOURCE_BYTES {
        Bytes::from_slice(alloc, source.as_bytes())?
    } else {
        Bytes::new(alloc)
    };
    let source = Shared::new(alloc, bytes)?;
    Ok(transform(alloc, &options, PathKind::Script, source)?)
}

fn slots_of(alloc: Global, slots: &[Slot]) -> Result<List<Slot>, AllocError> {
    let mut list = List::new(alloc);
    for slot in slots {
        list.push(*slot)?;
    }
    Ok(list)
}

/// A module of this source at this path, with these slots.
fn module(alloc: Global, text: &str, source: &str, slots: &[Slot]) -> Result<Shared<Module>, Fail> {
    let module = Module {
        path: Path::parse(alloc, text)?,
        output: Shared::new(alloc, output_of(alloc, source)?)?,
        slots: slots_of(alloc, slots)?,
    };
    Ok(Shared::new(alloc, module)?)
}

/// Keeps a module of this source at this path, with these slots, under a number.
fn keep(
    alloc: Global,
    modules: &mut ModuleMap,
    number: u32,
    text: &str,
    source: &str,
    slots: &[Slot],
) -> Result<(), Fail>
    requires small { number < 327680 }
{
    let kept = module(alloc, text, source, slots)?;
    modules.insert(number, kept)?;
    Ok(())
}

/// The modules `/z.js` under 0, which requires the module under `to`, and `/a.js` under 1.
fn two_modules(alloc: Global, to: u32, source: &str) -> Result<ModuleMap, Fail> {
    let mut modules = ModuleMap::new(alloc);
    let slots = [Slot::Module(to)];
    keep(alloc, &mut modules, 0, "/z.js", "z", slots.as_slice())?;
    keep(alloc, &mut modules, 1, "/a.js", source, &[])?;
    Ok(modules)
}

/// The modules `/z.js` under 0, `/b.js` under 2 and `/c.js` under 3.
fn other_modules(alloc: Global) -> Result<ModuleMap, Fail> {
    let mut modules = ModuleMap::new(alloc);
    keep(alloc, &mut modules, 0, "/z.js", "y", &[])?;
    keep(alloc, &mut modules, 2, "/b.js", "", &[])?;
    keep(alloc, &mut modules, 3, "/c.js", "", &[])?;
    Ok(modules)
}

/// The path of a module, or nothing.
fn path_in(module: Option<&Shared<Module>>) -> &str {
    match module {
        Some(module) => module.path.as_str(),
        None => "",
    }
}

#[test]
fn modules_are_kept_by_number(rt: HostRuntime) -> Result<(), Fail> {
    let modules = two_modules(rt.alloc(), 1, "a")?;
    assert_eq!(rt; modules.len(), 2);
    assert!(rt; path_in(modules.get(1)) == "/a.js");
    assert!(rt; path_in(modules.get(2)) == "");
    assert!(rt; modules.at_least(1) == Some(1));
    assert!(rt; modules.at_least(2).is_none());
    Ok(())
}

#[test]
fn a_module_tells_its_text(rt: HostRuntime) -> Result<(), Fail> {
    let module = module(rt.alloc(), "/a.js", "a", &[Slot::Empty])?;
    let text = module.text(rt.alloc(), 3, false)?;
    assert!(rt;
        text.as_slice()
            == b"__d(function (global, require, importDefault, importAll, module, exports, dependencyMap) {\na\n},3,[null]);\n".as_slice()
    );
    Ok(())
}

// ---- revisions

/// The revision of these modules, started by the one under 0.
fn revision(
    alloc: Global,
    before: Option<&Revision>,
    dev: bool,
    modules: ModuleMap,
) -> Result<Revision, Fail>
    requires number { IfSome (option_copied before) (λ b. b.number < 4294967295) }
    requires dev { IfSome (option_copied before) (λ b. b.dev ≡ dev) }
{
    let entries = List::from_slice(alloc, &[0])?;
    Ok(Revision::make(alloc, before, dev, 7, entries, modules)?)
}

/// The first revision of `two_modules(1, "a")`.
fn first_revision(alloc: Global, dev: bool) -> Result<Revision, Fail> {
    let modules = two_modules(alloc, 1, "a")?;
    revision(alloc, None, dev, modules)
}

/// The revision of these modules after the one before, if that is the first and for development.
fn revision_after(alloc: Global, before: &Revision, modules: ModuleMap) -> Result<Revision, Fail> {
    if before.number() != 1 || !before.dev() {
        return first_revision(alloc, true);
    }
    revision(alloc, Some(before), true, modules)
}

#[test]
fn a_revision_has_its_parts(rt: HostRuntime) -> Result<(), Fail> {
    let first = first_revision(rt.alloc(), true)?;
    assert!(rt; first.number() == 1);
    assert!(rt; first.changes() == 7);
    assert!(rt; first.dev());
    assert!(rt; first.entries() == [0].as_slice());
    assert!(rt; first.touched() == [0, 1].as_slice());
    Ok(())
}

#[test]
fn a_revision_has_its_modules(rt: HostRuntime) -> Result<(), Fail> {
    let first = first_revision(rt.alloc(), true)?;
    assert_eq!(rt; first.len(), 2);
    assert!(rt; !first.is_empty());
    assert!(rt; path_in(first.module(1)) == "/a.js");
    assert!(rt; path_in(first.module(2)) == "");
    assert!(rt; first.at_least(1) == Some(1));
    assert!(rt; first.at_least(2).is_none());
    Ok(())
}

/// The numbers that are touched where the modules of `two_modules(1, "a")` become those of this number and source.
fn touched_by(alloc: Global, to: u32, source: &str) -> Result<List<u32>, Fail> {
    let first = first_revision(alloc, true)?;
    let modules = two_modules(alloc, to, source)?;
    let second = revision_after(alloc, &first, modules)?;
    Ok(List::from_slice(alloc, second.touched())?)
}

#[test]
fn only_what_differs_is_touched(rt: HostRuntime) -> Result<(), Fail> {
    for (to, source, touched) in [
        (1, "a", [].as_slice()),
        (1, "b", [1].as_slice()),
        (2, "a", [0].as_slice()),
    ] {
        let found = touched_by(rt.alloc(), to, source)?;
        assert!(rt; found.as_slice() == touched);
    }
    Ok(())
}

#[test]
fn a_first_delta_adds_all(rt: HostRuntime) -> Result<(), Fail> {
    let first = first_revision(rt.alloc(), true)?;
    let lengths = DeltaLengths {
        added: 2,
        modified: 0,
        deleted: 0,
    };
    assert!(rt; first.delta_lengths(None) == lengths);
    Ok(())
}

#[test]
fn a_delta_has_three_lengths(rt: HostRuntime) -> Result<(), Fail> {
    let first = first_revision(rt.alloc(), true)?;
    let modules = other_modules(rt.alloc())?;
    let second = revision_after(rt.alloc(), &first, modules)?;
    assert!(rt; second.touched() == [0, 1, 2, 3].as_slice());
    let lengths = DeltaLengths {
        added: 2,
        modified: 1,
        deleted: 1,
    };
    assert!(rt; second.delta_lengths(Some(&first)) == lengths);
    Ok(())
}

// ---- bundles

/// What comes before the modules of a bundle for development.
fn prelude() -> &'static [u8] {
    br#"var __DEV__=true;
(function(global){
var defs={},done={};
function define(f,id,deps){defs[id]={f:f,deps:deps};delete done[id];}
function run(id){
if(id===null)return {};
if(done[id])return done[id].exports;
var d=defs[id];
if(!d)throw new Error("unknown module "+id);
var m=done[id]={exports:{}};
d.f(global,run,importDefault,importAll,m,m.exports,d.deps);
return m.exports;
}
function importDefault(id){var e=run(id);return e&&e.__esModule?e.default:e;}
function importAll(id){var e=run(id);if(e&&e.__esModule)return e;var r={};for(var k in e)r[k]=e[k];r.default=e;return r;}
global.__d=define;global.__r=run;
global.__exportAll=function(t,e){for(var k in e)if(k!=="default")t[k]=e[k];};
})(typeof globalThis!=="undefined"?globalThis:this);
"#
}

/// The modules of `two_modules(1, "a")` in a bundle for development, and the line that starts the first.
fn modules_text() -> &'static [u8] {
    br#"__d(function (global, require, importDefault, importAll, module, exports, dependencyMap) {
z
},0,[1],"z.js");
__d(function (global, require, importDefault, importAll, module, exports, dependencyMap) {
a
},1,[],"a.js");
__r(0);
"#
}

/// What is written of a bundle into a sink with this much room, if the bundle has as much.
fn written(alloc: Global, revision: &Revision, room: usize) -> Result<Option<Vec<u8>>, Fail> {
    let mut sink = sink(alloc, room, &[])?;
    match write_bundle(revision, &mut sink) {
        Ok(()) => Ok(Some(sink.bytes().to_vec(alloc)?)),
        Err(_) => Ok(None),
    }
}

/// What is written of a bundle into a sink with this much room, if the bundle has more.
fn cut(alloc: Global, revision: &Revision, room: usize) -> Result<Option<Vec<u8>>, Fail> {
    let mut sink = sink(alloc, room, &[])?;
    match write_bundle(revision, &mut sink) {
        Ok(()) => Ok(None),
        Err(_) => Ok(Some(sink.bytes().to_vec(alloc)?)),
    }
}

#[test]
fn a_bundle_has_the_modules_by_number_and_the_starts(rt: HostRuntime) -> Result<(), Fail> {
    let first = first_revision(rt.alloc(), true)?;
    let length = prelude().len() + modules_text().len();
    let whole = written(rt.alloc(), &first, length)?.ok_or("a whole bundle")?;
    assert_eq!(rt; whole.len(), length);
    assert!(rt; whole.starts_with(prelude()));
    assert!(rt; whole.ends_with(modules_text()));
    Ok(())
}

#[test]
fn a_bundle_is_cut_at_each_room(rt: HostRuntime) -> Result<(), Fail> {
    let first = first_revision(rt.alloc(), true)?;
    let length = prelude().len() + modules_text().len();
    let whole = written(rt.alloc(), &first, length)?.ok_or("a whole bundle")?;
    for room in 0..length {
        let short = cut(rt.alloc(), &first, room)?.ok_or("a prefix")?;
        assert_eq!(rt; short.len(), room);
        assert!(rt; whole.starts_with(short.as_slice()));
    }
    Ok(())
}

#[test]
fn a_bundle_that_is_not_for_development_has_no_paths(rt: HostRuntime) -> Result<(), Fail> {
    let first = first_revision(rt.alloc(), false)?;
    let whole = written(rt.alloc(), &first, 8192)?.ok_or("a whole bundle")?;
    assert!(rt; whole.starts_with(b"var __DEV__=false;\n(function(global){\n"));
    assert!(rt; whole.ends_with(b"\na\n},1,[]);\n__r(0);\n"));
    Ok(())
}

// ---- held texts

/// A text that is held, or nothing.
fn text_in(text: Option<&Bytes>) -> &[u8] {
    match text {
        Some(text) => text.as_slice(),
        None => b"",
    }
}

#[test]
fn the_texts_of_modules_are_held(rt: HostRuntime) -> Result<(), Fail> {
    let first = first_revision(rt.alloc(), true)?;
    let texts = held(rt.alloc(), &first)?;
    assert_eq!(rt; texts.len(), 2);
    assert!(rt;
        text_in(texts.get(1))
            == b"__d(function (global, require, importDefault, importAll, module, exports, dependencyMap) {\na\n},1,[],\"a.js\");\n".as_slice()
    );
    assert!(rt; texts.at_least(1) == Some(1));
    assert!(rt; texts.at_least(2).is_none());
    Ok(())
}

#[test]
fn a_held_text_is_changed_and_removed(rt: HostRuntime) -> Result<(), Fail> {
    let mut texts = HeldMap::new(rt.alloc());
    assert!(rt; texts.is_empty());
    texts.insert(1, Bytes::from_slice(rt.alloc(), b"w")?)?;
    texts.insert(1, Bytes::from_slice(rt.alloc(), b"x")?)?;
    assert_eq!(rt; texts.len(), 1);
    let text = texts.remove(1).ok_or("a text")?;
    assert!(rt; text.as_slice() == b"x".as_slice());
    assert!(rt; texts.remove(1).is_none());
    Ok(())
}

// ---- revisions of graphs

/// The revision of a graph from `/z.js` under a numbering, where that has few paths.
fn revision_of(
    alloc: Global,
    before: Option<&Revision>,
    changes: u32,
    numbering: &Numbering,
    graph: Graph,
) -> Result<Option<Revision>, Fail>
    requires number { IfSome (option_copied before) (λ b. b.number < 4294967295) }
    requires dev { IfSome (option_copied before) (λ b. b.dev ≡ true) }
{
    let options = Options::standard(alloc)?;
    let entries = [Path::parse(alloc, "/z.js")?];
    if numbering.len() > 100 || !options.dev {
        return Ok(None);
    }
    Ok(Some(revision_of_graph(alloc, before, &options, changes, numbering, &entries, graph)?))
}

/// A module that requires two, one of them twice.
const THREE: [(&str, &str); 3] = [
    ("/a.js", ""),
    ("/b.js", ""),
    (
        "/z.js",
        "require('./b.js');require('./a.js');require('./b.js')",
    ),
];

/// The numbering of `THREE`.
fn numbering_of_three(alloc: Global) -> Result<Numbering, Fail> {
    let files = snapshot(alloc, &THREE)?;
    let graph = built(alloc, &files, "/z.js")?;
    extended(alloc, &Numbering::new(alloc), &graph)
}

/// The first revision of `THREE`, after two changes.
fn first_of_three(alloc: Global, numbering: &Numbering) -> Result<Option<Revision>, Fail> {
    let files = snapshot(alloc, &THREE)?;
    let graph = built(alloc, &files, "/z.js")?;
    revision_of(alloc, None, 2, numbering, graph)
}

/// The revision after the one before, and three changes, in which one of two modules requires the other.
fn second_of_two(
    alloc: Global,
    before: &Revision,
    numbering: &Numbering,
) -> Result<Option<Revision>, Fail> {
    let files = snapshot(alloc, &[("/a.js", ""), ("/z.js", "require('./a.js')")])?;
    let graph = built(alloc, &files, "/z.js")?;
    if before.number() != 1 || !before.dev() {
        return Ok(None);
    }
    revision_of(alloc, Some(before), 3, numbering, graph)
}

#[test]
fn a_graph_becomes_a_revision(rt: HostRuntime) -> Result<(), Fail> {
    let numbering = numbering_of_three(rt.alloc())?;
    let first = first_of_three(rt.alloc(), &numbering)?.ok_or("few paths")?;
    assert!(rt; first.number() == 1);
    assert!(rt; first.changes() == 2);
    assert!(rt; first.dev());
    assert_eq!(rt; first.len(), 3);
    assert!(rt; first.entries() == [0].as_slice());
    Ok(())
}

#[test]
fn the_names_of_a_module_have_slots(rt: HostRuntime) -> Result<(), Fail> {
    let numbering = numbering_of_three(rt.alloc())?;
    let first = first_of_three(rt.alloc(), &numbering)?.ok_or("few paths")?;
    let module = first.module(0).ok_or("a module")?;
    assert!(rt; module.path.as_str() == "/z.js");
    let slots = [Slot::Module(2), Slot::Module(1)];
    assert!(rt; module.slots.as_slice() == slots.as_slice());
    Ok(())
}

#[test]
fn a_later_graph_keeps_the_numbers(rt: HostRuntime) -> Result<(), Fail> {
    let numbering = numbering_of_three(rt.alloc())?;
    let first = first_of_three(rt.alloc(), &numbering)?.ok_or("few paths")?;
    let second = second_of_two(rt.alloc(), &first, &numbering)?.ok_or("few paths")?;
    assert!(rt; second.number() == 2);
    assert!(rt; second.changes() == 3);
    assert_eq!(rt; second.len(), 2);
    assert!(rt; second.touched() == [0, 2].as_slice());
    Ok(())
}
