//! Rows from the rules of the objects in memory, and a caller of `send_all`.
ghost use Rattle.std.specs.Prelude.{◌∷◌, [], ◌++◌};
ghost use Rattle.mt_io.specs.Seen.{Writes};

use crate::common::path;
use mt_io::{
    Failed, Folder, FreeGate, Gate, ListSource, MapFolder, NamedKind, Sink, Source, SureFolder,
    SureSink, SureSource, Trouble, VecSink, children_of, has_folder, send_all,
};
use mt_path::{Path, PathMap};
use mt_tokens::Bytes;
use std::alloc::{AllocError, Global};
use std::test::Fail;

/// Sends a name, a colon and a text: what the laws of writes prove of pieces that are sent one after another.
#[tactic(auto, using(mt_io::proofs::Seen::wrote_then, mt_io::proofs::Seen::stopped_more, mt_io::proofs::Seen::stopped_then))]
fn send_named<S: Sink>(sink: &mut S, name: &[u8], text: &[u8]) -> Result<(), Failed>
    ensures { Writes (S.seen sink.old) (S.seen sink.new) (name.now ++ (58 ∷ []) ++ text.now) result }
{
    send_all(sink, name)?;
    send_all(sink, b":")?;
    send_all(sink, text)?;
    Ok(())
}

fn pieces(alloc: Global) -> Result<Vec<Bytes>, AllocError> {
    let mut pieces = Vec::new(alloc);
    pieces.push(Bytes::from_slice(alloc, b"abc")?)?;
    pieces.push(Bytes::new(alloc))?;
    pieces.push(Bytes::from_slice(alloc, b"de")?)?;
    Ok(pieces)
}

fn sink(alloc: Global, room: usize, failing: &[u64]) -> Result<VecSink, AllocError> {
    VecSink::new(alloc, room, Vec::from_slice(alloc, failing)?)
}

/// Whether a read of two bytes at most answers this, where `None` is a failure.
fn reads<S: Source>(source: &mut S, want: Option<&[u8]>) -> bool {
    let mut into = [0; 2];
    match (source.read(&mut into), want) {
        (Ok(count), Some(bytes)) => into.get(..count) == Some(bytes),
        (Err(Failed), None) => true,
        _ => false,
    }
}

#[test]
fn a_write_that_fails_takes_nothing(rt: HostRuntime) -> Result<(), Fail> {
    let mut sink = sink(rt.alloc(), 16, &[2])?;
    assert!(rt; send_all(&mut sink, b"ab").is_ok());
    assert!(rt; send_all(&mut sink, b"cd").is_err());
    assert!(rt; sink.bytes() == b"ab".as_slice() && sink.faults() == 1);
    assert!(rt; send_all(&mut sink, b"ef").is_ok());
    assert!(rt; sink.bytes() == b"abef".as_slice() && sink.faults() == 1);
    Ok(())
}

#[test]
fn a_sink_takes_what_it_has_room_for(rt: HostRuntime) -> Result<(), Fail> {
    let mut sink = sink(rt.alloc(), 3, &[])?;
    assert!(rt; send_named(&mut sink, b"a", b"bcd").is_err());
    assert!(rt; sink.bytes() == b"a:b".as_slice() && sink.faults() == 1);
    assert!(rt; send_all(&mut sink, b"").is_ok());
    assert!(rt; sink.write(b"").is_ok() && sink.write(b"e").is_err());
    assert!(rt; sink.bytes() == b"a:b".as_slice() && sink.faults() == 2);
    Ok(())
}

#[test]
fn a_source_hands_out_its_pieces(rt: HostRuntime) -> Result<(), Fail> {
    let mut source = SureSource::new(pieces(rt.alloc())?);
    for want in [b"ab".as_slice(), b"c", b"de", b"", b""] {
        assert!(rt; reads(&mut source, Some(want)));
    }
    assert!(rt; source.faults() == 0);
    Ok(())
}

#[test]
fn a_source_goes_on_after_a_read_that_fails(rt: HostRuntime) -> Result<(), Fail> {
    let failing = Vec::from_slice(rt.alloc(), &[1, 3])?;
    let mut source = ListSource::new(pieces(rt.alloc())?, failing);
    for want in [
        None,
        Some(b"ab".as_slice()),
        None,
        Some(b"c"),
        Some(b"de"),
        Some(b""),
    ] {
        assert!(rt; reads(&mut source, want));
    }
    assert!(rt; source.faults() == 2);
    Ok(())
}

#[test]
fn what_never_fails_goes_through(rt: HostRuntime) {
    let mut sink = SureSink::new();
    assert!(rt; send_all(&mut sink, b"abc").is_ok() && sink.faults() == 0);
    FreeGate.pass(7);
}

#[test]
fn a_trouble_is_what_it_came_from(rt: HostRuntime) {
    assert!(rt; Trouble::from(Failed) == Trouble::Failed);
    assert!(rt; Trouble::from(AllocError) == Trouble::NoMemory);
}

/// Files that hold the texts of their own paths.
fn files(rt: &HostRuntime, texts: &[&str]) -> Result<PathMap<Bytes>, Fail> {
    let mut tree = PathMap::new(rt.alloc());
    for text in texts {
        tree.insert(
            path(rt, text)?,
            Bytes::from_slice(rt.alloc(), text.as_bytes())?,
        )?;
    }
    Ok(tree)
}

#[test]
fn a_folder_lists_a_child_once(rt: HostRuntime) -> Result<(), Fail> {
    let texts = ["/lib/a.js", "/lib/b/c.js", "/lib", "/a.js", "/lib/b/d.js"];
    let mut folder = SureFolder::new(files(&rt, &texts)?);
    let lib = path(&rt, "/lib")?;
    assert!(rt; has_folder(rt.alloc(), folder.files(), &lib)?);
    let list = folder.list(rt.alloc(), &lib)?;
    let mut has_file = false;
    let mut has_folder = false;
    for named in list.as_slice() {
        match named.kind {
            NamedKind::File => {
                assert!(rt; !has_file && named.name.as_str() == "a.js");
                has_file = true;
            }
            NamedKind::Folder => {
                assert!(rt; !has_folder && named.name.as_str() == "b");
                has_folder = true;
            }
            NamedKind::Other => assert!(rt; false),
        }
    }
    assert!(rt; has_file && has_folder);
    let root = folder.list(rt.alloc(), &Path::root(rt.alloc())?)?;
    assert_eq!(rt; root.as_slice().len(), 3);
    Ok(())
}

#[test]
fn a_folder_reads_what_was_written(rt: HostRuntime) -> Result<(), Fail> {
    let mut folder = SureFolder::new(files(&rt, &["/a.js"])?);
    let new = path(&rt, "/b.js")?;
    folder.write(rt.alloc(), &new, b"two".as_slice())?;
    assert!(rt; folder.files().contains(&new));
    let read = folder.read(rt.alloc(), &new)?;
    assert!(rt; read.as_slice() == b"two".as_slice());
    assert!(rt; folder.faults() == 0);
    Ok(())
}

#[test]
fn a_write_leaves_the_other_files(rt: HostRuntime) -> Result<(), Fail> {
    let mut folder = SureFolder::new(files(&rt, &["/a.js"])?);
    folder.write(rt.alloc(), &path(&rt, "/b.js")?, b"two".as_slice())?;
    let old = path(&rt, "/a.js")?;
    assert!(rt; folder.files().contains(&old));
    let read = folder.read(rt.alloc(), &old)?;
    assert!(rt; read.as_slice() == b"/a.js".as_slice());
    assert!(rt; !folder.files().contains(&path(&rt, "/c.js")?));
    Ok(())
}

/// Whether a read of a file that is there answers these bytes, where `None` is a failure.
fn finds(
    rt: &HostRuntime,
    folder: &mut MapFolder,
    path: &Path,
    want: Option<&[u8]>,
) -> Result<bool, Fail> {
    if !folder.files().contains(path) {
        return Ok(false);
    }
    match (folder.read(rt.alloc(), path), want) {
        (Ok(bytes), Some(want)) => Ok(bytes.as_slice() == want),
        (Err(Trouble::Failed), None) => Ok(true),
        _ => Ok(false),
    }
}

#[test]
fn the_calls_named_fail(rt: HostRuntime) -> Result<(), Fail> {
    let failing = Vec::from_slice(rt.alloc(), &[2, 3])?;
    let mut folder = MapFolder::new(files(&rt, &["/a.js"])?, failing);
    let absent = path(&rt, "/b.js")?;
    assert!(rt; folder.list(rt.alloc(), &Path::root(rt.alloc())?).is_ok());
    assert!(rt; finds(&rt, &mut folder, &path(&rt, "/a.js")?, None)?);
    assert!(rt; folder.write(rt.alloc(), &absent, b"x".as_slice()) == Err(Trouble::Failed));
    assert!(rt; folder.faults() == 2 && !folder.files().contains(&absent));
    Ok(())
}

#[test]
fn the_calls_after_one_that_fails_go_on(rt: HostRuntime) -> Result<(), Fail> {
    let failing = Vec::from_slice(rt.alloc(), &[1])?;
    let mut folder = MapFolder::new(files(&rt, &["/a.js"])?, failing);
    let absent = path(&rt, "/b.js")?;
    assert!(rt; folder.write(rt.alloc(), &absent, b"x".as_slice()).is_err());
    assert!(rt; folder.write(rt.alloc(), &absent, b"x".as_slice()).is_ok());
    assert!(rt; finds(&rt, &mut folder, &absent, Some(b"x"))?);
    assert!(rt; finds(&rt, &mut folder, &path(&rt, "/a.js")?, Some(b"/a.js"))?);
    assert!(rt; folder.faults() == 1);
    Ok(())
}

#[test]
fn a_file_has_the_last_bytes(rt: HostRuntime) -> Result<(), Fail> {
    let mut folder = SureFolder::new(PathMap::new(rt.alloc()));
    let there = path(&rt, "/a.js")?;
    assert!(rt; folder.files().get(&there).is_none());
    for text in ["one", "two"] {
        folder.write(rt.alloc(), &there, text.as_bytes())?;
    }
    let found = folder.files().get(&there).ok_or("the file")?;
    assert!(rt; found.as_slice() == b"two".as_slice());
    Ok(())
}

#[test]
fn files_have_their_folders(rt: HostRuntime) -> Result<(), Fail> {
    let files = files(&rt, &["/x/y", "/xy"])?;
    let list = children_of(rt.alloc(), &files, &path(&rt, "/x")?)?;
    assert_eq!(rt; list.as_slice().len(), 1);
    for (text, want) in [("/", true), ("/x", true), ("/xy", false), ("/y", false)] {
        assert!(rt; has_folder(rt.alloc(), &files, &path(&rt, text)?)? == want);
    }
    Ok(())
}
