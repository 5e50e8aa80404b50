//! The lines of builds, the digest, and the status and line of each outcome.
use mt_containers::{List, Shared};
use mt_files::{BuildFault, CrawlFault, JournalFault};
use mt_io::{Failed, Sink, Trouble};
use mt_package::Options;
use mt_path::{Path, PathFault};
use mt_report::{DigestSink, Limit, Outcome, refused_line, revision_line, same_line};
use mt_revision::{Module, ModuleMap, Revision};
use mt_script::ScriptFault;
use mt_tokens::{Bytes, PathKind, SourceFault, SyntaxFault, Text};
use mt_transform::{Output, transform};
use mt_write::Slot;
use std::alloc::{AllocError, AllocFailed, Global};
use std::test::Fail;

/// The path `/a.js`.
fn path(alloc: Global) -> Result<Path, PathFault> {
    Path::parse(alloc, "/a.js")
}

/// Whether a run that ends so has this status and this line.
fn ends(alloc: Global, outcome: Outcome, status: u8, line: &str) -> Result<bool, AllocError> {
    Ok(outcome.status() == status && outcome.line(alloc)?.as_str() == line)
}

#[test]
fn each_outcome_has_its_status_and_its_line(rt: HostRuntime) -> Result<(), Fail> {
    for (outcome, status, line) in [
        (Outcome::Done, 0, ""),
        (Outcome::Faulty, 1, ""),
        (Outcome::BadWord(3), 2, "metro: word 3\n"),
        (Outcome::ReadFailed, 3, "metro: read failed\n"),
        (Outcome::WriteFailed, 4, "metro: write failed\n"),
        (Outcome::NoMemory, 5, "metro: out of memory\n"),
        (Outcome::BadCommand(12), 7, "metro: script command 12\n"),
        (
            Outcome::CutCommand(1),
            7,
            "metro: script cut in command 1\n",
        ),
    ] {
        assert!(rt; ends(rt.alloc(), outcome, status, line)?, "{line}");
    }
    Ok(())
}

#[test]
fn each_limit_has_its_line(rt: HostRuntime) -> Result<(), Fail> {
    for (limit, line) in [
        (Limit::File, "metro: limit file 16777216\n"),
        (Limit::Files, "metro: limit files 262144\n"),
        (Limit::FolderBytes, "metro: limit folder-bytes 1073741824\n"),
        (Limit::Changes, "metro: limit changes 65536\n"),
        (
            Limit::JournalBytes,
            "metro: limit journal-bytes 1073741824\n",
        ),
        (Limit::Commands, "metro: limit commands 1048576\n"),
    ] {
        assert!(rt; ends(rt.alloc(), Outcome::Limit(limit), 6, line)?, "{line}");
    }
    Ok(())
}

#[test]
fn a_refused_build_tells_its_fault(rt: HostRuntime) -> Result<(), Fail> {
    let missing = BuildFault::EntryMissing {
        path: path(rt.alloc())?,
    };
    let line = "metro: entry /a.js is not a source file\n";
    assert!(rt; ends(rt.alloc(), Outcome::from(missing), 1, line)?);
    let line = "metro: more than 65536 modules\n";
    assert!(rt;
        ends(
            rt.alloc(),
            Outcome::from(BuildFault::TooManyModules),
            1,
            line
        )?
    );
    Ok(())
}

#[test]
fn each_fault_of_the_outside_has_its_outcome(rt: HostRuntime) -> Result<(), Fail> {
    let no_memory = "metro: out of memory\n";
    for (outcome, status, line) in [
        (Outcome::from(AllocError), 5, no_memory),
        (Outcome::from(AllocFailed { value: 7u8 }), 5, no_memory),
        (Outcome::from(Failed), 4, "metro: write failed\n"),
        (Outcome::from(Trouble::Failed), 4, "metro: write failed\n"),
        (Outcome::from(Trouble::NoMemory), 5, no_memory),
        (Outcome::from(CrawlFault::Failed), 3, "metro: read failed\n"),
        (Outcome::from(CrawlFault::NoMemory), 5, no_memory),
        (Outcome::from(BuildFault::NoMemory), 5, no_memory),
        (Outcome::from(JournalFault::NoMemory), 5, no_memory),
        (
            Outcome::from(ScriptFault::Failed),
            3,
            "metro: read failed\n",
        ),
        (Outcome::from(ScriptFault::NoMemory), 5, no_memory),
    ] {
        assert!(rt; ends(rt.alloc(), outcome, status, line)?, "{line}");
    }
    Ok(())
}

#[test]
fn each_limit_of_a_folder_a_journal_and_a_script_has_its_outcome(
    rt: HostRuntime,
) -> Result<(), Fail> {
    let crawled = CrawlFault::FileTooLarge {
        path: path(rt.alloc())?,
        size: 16_777_217,
    };
    let put = ScriptFault::FileTooLarge {
        path: path(rt.alloc())?,
        size: 16_777_217,
    };
    for (outcome, line) in [
        (Outcome::from(crawled), "metro: limit file 16777216\n"),
        (
            Outcome::from(CrawlFault::TooManyFiles),
            "metro: limit files 262144\n",
        ),
        (
            Outcome::from(CrawlFault::TooManyBytes),
            "metro: limit folder-bytes 1073741824\n",
        ),
        (Outcome::from(put), "metro: limit file 16777216\n"),
        (
            Outcome::from(ScriptFault::TooManyCommands),
            "metro: limit commands 1048576\n",
        ),
    ] {
        assert!(rt; ends(rt.alloc(), outcome, 6, line)?, "{line}");
    }
    Ok(())
}

#[test]
fn a_full_journal_has_too_many_changes_before_too_many_bytes(rt: HostRuntime) -> Result<(), Fail> {
    for (changes, bytes, line) in [
        (
            65_535,
            1_073_741_824,
            "metro: limit journal-bytes 1073741824\n",
        ),
        (65_536, 0, "metro: limit changes 65536\n"),
        (65_536, 1_073_741_824, "metro: limit changes 65536\n"),
    ] {
        let full = JournalFault::JournalFull { changes, bytes };
        assert!(rt; ends(rt.alloc(), Outcome::from(full), 6, line)?, "{line}");
    }
    Ok(())
}

#[test]
fn a_bad_script_names_its_command(rt: HostRuntime) -> Result<(), Fail> {
    let bad = Outcome::from(ScriptFault::Bad { command: 4 });
    assert!(rt; ends(rt.alloc(), bad, 7, "metro: script command 4\n")?);
    let cut = Outcome::from(ScriptFault::Cut { command: 5 });
    assert!(rt; ends(rt.alloc(), cut, 7, "metro: script cut in command 5\n")?);
    Ok(())
}

/// Whether a sink that takes these pieces has this length and this digest in hexadecimal.
fn digests(alloc: Global, pieces: &[&str], length: usize, digest: &str) -> Result<bool, Fail> {
    let mut sink = DigestSink::new(alloc);
    for piece in pieces {
        if sink.write(piece.as_bytes()) != Ok(piece.len()) || sink.faults() != 0 {
            return Ok(false);
        }
    }
    let (taken, bytes) = sink.finish();
    Ok(taken == length && hex::encode(alloc, bytes)?.as_str() == digest)
}

/// The digests are those of `sha256sum`.
#[test]
fn a_digest_is_that_of_all_bytes(rt: HostRuntime) -> Result<(), Fail> {
    let none = "e3b0c44298fc1c149afbf4c8996fb92427ae41e4649b934ca495991b7852b855";
    assert!(rt; digests(rt.alloc(), &[], 0, none)?);
    assert!(rt; digests(rt.alloc(), &["", ""], 0, none)?);
    let abc = "ba7816bf8f01cfea414140de5dae2223b00361a396177a9cb410ff61f20015ad";
    assert!(rt; digests(rt.alloc(), &["abc"], 3, abc)?);
    assert!(rt; digests(rt.alloc(), &["a", "", "bc"], 3, abc)?);
    Ok(())
}

/// What a short script becomes, and what the empty script becomes for a longer one.
fn output_of(alloc: Global, source: &str) -> Result<Shared<Output>, Fail> {
    let options = Options::standard(alloc)?;
    let text = if source.len() <= 100 { source } else { "" };
    let source = Shared::new(alloc, Bytes::from_slice(alloc, text.as_bytes())?)?;
    let output = transform(alloc, &options, PathKind::Script, source)?;
    Ok(Shared::new(alloc, output)?)
}

/// Puts the module of a short script under a small number, with these slots.
fn put(
    alloc: Global,
    modules: &mut ModuleMap,
    number: u32,
    (text, source, slots): (&str, &str, &[Slot]),
) -> Result<(), Fail> {
    if number >= 100 {
        return Ok(());
    }
    let mut list = List::new(alloc);
    for slot in slots {
        list.push(*slot)?;
    }
    let module = Module {
        path: Path::parse(alloc, text)?,
        output: output_of(alloc, source)?,
        slots: list,
    };
    modules.insert(number, Shared::new(alloc, module)?)?;
    Ok(())
}

/// Three modules.
fn first_modules(alloc: Global) -> Result<ModuleMap, Fail> {
    let mut modules = ModuleMap::new(alloc);
    put(alloc, &mut modules, 0, ("/z.js", "z", &[Slot::Module(1)]))?;
    put(alloc, &mut modules, 1, ("/a.js", "a", &[]))?;
    put(alloc, &mut modules, 2, ("/b.js", "b", &[Slot::Empty]))?;
    Ok(modules)
}

/// The first revision, of these three modules.
fn first_revision(alloc: Global) -> Result<Revision, Fail> {
    let modules = first_modules(alloc)?;
    let entries = List::from_slice(alloc, &[0])?;
    Ok(Revision::make(alloc, None, true, 0, entries, modules)?)
}

/// The line of the first revision of these modules.
fn first_line(alloc: Global, modules: ModuleMap) -> Result<Text, Fail> {
    let entries = List::from_slice(alloc, &[0])?;
    let first = Revision::make(alloc, None, true, 0, entries, modules)?;
    Ok(revision_line(alloc, None, &first)?)
}

/// The modules of the revision after it.
fn second_modules(alloc: Global) -> Result<ModuleMap, Fail> {
    let mut modules = ModuleMap::new(alloc);
    put(alloc, &mut modules, 0, ("/z.js", "y", &[Slot::Module(4)]))?;
    put(alloc, &mut modules, 3, ("/c.js", "c", &[]))?;
    put(alloc, &mut modules, 4, ("/d.js", "d", &[]))?;
    put(alloc, &mut modules, 5, ("/e.js", "e", &[]))?;
    Ok(modules)
}

/// The line of the revision of these modules after the first one, where that is the first and for development.
fn second_line(alloc: Global, first: &Revision, modules: ModuleMap) -> Result<Text, Fail> {
    if first.number() != 1 || !first.dev() {
        return Ok(Text::new(alloc));
    }
    let entries = List::from_slice(alloc, &[0])?;
    let second = Revision::make(alloc, Some(first), true, 7, entries, modules)?;
    Ok(revision_line(alloc, Some(first), &second)?)
}

// The digests below are those of `sha256sum` over the bundles, written out by hand: the prelude of `mt_write` for
// development, the modules by number, and the line that starts the module under 0.

#[test]
fn a_line_tells_of_a_first_revision(rt: HostRuntime) -> Result<(), Fail> {
    let modules = first_modules(rt.alloc())?;
    let line = first_line(rt.alloc(), modules)?;
    assert!(rt;
        line.as_str()
            == "revision 1 changes 0 modules 3 added 3 modified 0 deleted 0 bytes 1082 digest dec8b8147448ed4bbe8487332024b96db3ec7caa18d016e80a60f80e0a391183\n"
    );
    Ok(())
}

#[test]
fn a_line_tells_of_a_later_revision(rt: HostRuntime) -> Result<(), Fail> {
    let first = first_revision(rt.alloc())?;
    let modules = second_modules(rt.alloc())?;
    let line = second_line(rt.alloc(), &first, modules)?;
    assert!(rt;
        line.as_str()
            == "revision 2 changes 7 modules 4 added 3 modified 1 deleted 2 bytes 1187 digest 23a07fc1938a61af799ce8322e7851b221d502fe5af9cc5cb5ef4a160f8b4cd5\n"
    );
    Ok(())
}

#[test]
fn a_line_tells_that_nothing_changed(rt: HostRuntime) -> Result<(), Fail> {
    assert!(rt; same_line(rt.alloc(), 1)?.as_str() == "same 1\n");
    assert!(rt; same_line(rt.alloc(), 4_294_967_295)?.as_str() == "same 4294967295\n");
    Ok(())
}

#[test]
fn a_line_tells_of_a_refused_build(rt: HostRuntime) -> Result<(), Fail> {
    let fault = BuildFault::Source {
        path: path(rt.alloc())?,
        fault: SourceFault::Syntax {
            place: 19,
            why: SyntaxFault::UnclosedString,
        },
    };
    let line = refused_line(rt.alloc(), 65_536, &fault)?;
    assert!(rt; line.as_str() == "refused changes 65536 /a.js:19: syntax: unclosed string\n");
    Ok(())
}
