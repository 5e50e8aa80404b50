//! Scripts from the rules of their format.
ghost use Rattle.mt_script.specs.Commands.{IsWritable};

use mt_io::{ListSource, Source};
use mt_path::Path;
use mt_script::{Command, ScriptFault, ScriptReader, write_command};
use mt_tokens::Bytes;
use std::alloc::{AllocError, Global};
use std::test::Fail;

/// What a call is to answer: a command by its text, or a fault.
#[derive(Clone, Copy)]
enum Want {
    Text(&'static str),
    Bad(u32),
    Cut(u32),
    TooLarge(u32),
    TooMany,
    Failed,
}

/// A source of pieces, whose reads of these numbers fail.
fn list(alloc: Global, pieces: &[&[u8]], failing: &[u64]) -> Result<ListSource, AllocError> {
    let mut list = Vec::new(alloc);
    for piece in pieces {
        list.push(Bytes::from_slice(alloc, piece)?)?;
    }
    Ok(ListSource::new(list, Vec::from_slice(alloc, failing)?))
}

/// A source that hands out one byte a read.
fn bytes_of(alloc: Global, script: &[u8]) -> Result<ListSource, AllocError> {
    let mut list = Vec::new(alloc);
    for byte in script {
        list.push(Bytes::from_slice(alloc, &[*byte])?)?;
    }
    Ok(ListSource::new(list, Vec::new(alloc)))
}

/// Whether a command is spelled so.
fn is_spelled(alloc: Global, command: &Command, text: &str) -> Result<bool, AllocError>
    requires { IsWritable command.now }
{
    let found = write_command(alloc, command)?;
    Ok(found.as_slice() == text.as_bytes())
}

/// Whether the reader's next answer is this one.
fn answers(
    alloc: Global,
    reader: &mut ScriptReader,
    source: &mut ListSource,
    want: Want,
) -> Result<bool, AllocError> {
    match reader.next(source) {
        Ok(command) => match want {
            Want::Text(text) => is_spelled(alloc, &command, text),
            _ => Ok(false),
        },
        Err(fault) => Ok(is_fault(&fault, want)),
    }
}

/// Whether a fault is this one. Where it has a path, that is `/a.js`.
fn is_fault(fault: &ScriptFault, want: Want) -> bool {
    match fault {
        ScriptFault::Bad { command } => matches!(want, Want::Bad(number) if number == *command),
        ScriptFault::Cut { command } => matches!(want, Want::Cut(number) if number == *command),
        ScriptFault::FileTooLarge { path, size } => {
            matches!(want, Want::TooLarge(most) if most == *size) && path.as_str() == "/a.js"
        }
        ScriptFault::TooManyCommands => matches!(want, Want::TooMany),
        ScriptFault::Failed => matches!(want, Want::Failed),
        ScriptFault::NoMemory => false,
    }
}

/// Whether a new reader answers so, the last answer twice where it is a fault.
fn answers_all(alloc: Global, source: &mut ListSource, wants: &[Want]) -> Result<bool, AllocError> {
    let mut reader = ScriptReader::new(alloc)?;
    let mut good = true;
    for want in wants {
        good = good && answers(alloc, &mut reader, source, *want)?;
    }
    match wants.last() {
        Some(Want::Text(_)) | None => Ok(good),
        Some(want) => Ok(good && answers(alloc, &mut reader, source, *want)?),
    }
}

/// Whether a script in one piece, and byte by byte, is answered so.
fn reads(alloc: Global, script: &[u8], wants: &[Want]) -> Result<bool, AllocError> {
    let mut whole = list(alloc, &[script], &[])?;
    let mut bytewise = bytes_of(alloc, script)?;
    Ok(answers_all(alloc, &mut whole, wants)? && answers_all(alloc, &mut bytewise, wants)?)
}

/// A line of this many bytes, without a line feed.
fn line(alloc: Global, start: &[u8], len: usize) -> Result<Bytes, AllocError> {
    let mut line = Bytes::from_slice(alloc, start)?;
    for _ in start.len()..len {
        line.extend(b"a")?;
    }
    Ok(line)
}

/// What a command says: its word, its path and its bytes.
fn parts(command: &Command) -> (&str, &str, &[u8]) {
    match command {
        Command::Put(path, bytes) => ("put", path.as_str(), bytes.as_slice()),
        Command::Del(path) => ("del", path.as_str(), b""),
        Command::Rescan => ("rescan", "", b""),
        Command::Build => ("build", "", b""),
        Command::End => ("end", "", b""),
    }
}

/// Whether the reader's next answer is a command that says this.
fn says(reader: &mut ScriptReader, source: &mut ListSource, want: (&str, &str, &[u8])) -> bool {
    match reader.next(source) {
        Ok(command) => parts(&command) == want,
        Err(_) => false,
    }
}

#[test]
fn each_command_is_read(rt: HostRuntime) -> Result<(), Fail> {
    let script = b"put /a.js 3\n\n\xff\n\ndel /b c.js\nput /a.js  0\n\nrescan\nbuild\nend\nbuild\n";
    let mut source = bytes_of(rt.alloc(), script)?;
    let mut reader = ScriptReader::new(rt.alloc())?;
    for want in [
        ("put", "/a.js", b"\n\xff\n".as_slice()),
        ("del", "/b c.js", b""),
        ("put", "/a.js ", b""),
        ("rescan", "", b""),
        ("build", "", b""),
        ("end", "", b""),
    ] {
        assert!(rt; says(&mut reader, &mut source, want));
    }
    Ok(())
}

#[test]
fn a_command_is_given_before_the_next_read(rt: HostRuntime) -> Result<(), Fail> {
    for (pieces, failing) in [
        ([b"build\n".as_slice(), b"del /a"], 2),
        ([b"bui".as_slice(), b"ld\nput /a.js 3\nab"], 3),
    ] {
        let mut source = list(rt.alloc(), &pieces, &[failing])?;
        let mut reader = ScriptReader::new(rt.alloc())?;
        for want in [Want::Text("build\n"), Want::Failed, Want::Failed] {
            assert!(rt; answers(rt.alloc(), &mut reader, &mut source, want)?);
        }
        assert!(rt; source.faults() == 1);
    }
    Ok(())
}

#[test]
fn a_failed_read_is_not_tried_again(rt: HostRuntime) -> Result<(), Fail> {
    for pieces in [
        [b"bui".as_slice(), b"ld\n"],
        [b"put /a.js 3\nab".as_slice(), b"c\n"],
    ] {
        let mut source = list(rt.alloc(), &pieces, &[2])?;
        assert!(rt; answers_all(rt.alloc(), &mut source, &[Want::Failed])?);
        assert!(rt; source.faults() == 1);
        let mut into = [0; 4];
        assert!(rt; matches!(source.read(&mut into), Ok(count) if count == pieces[1].len()));
    }
    Ok(())
}

#[test]
fn what_follows_an_end_is_left(rt: HostRuntime) -> Result<(), Fail> {
    let mut source = list(rt.alloc(), &[b"end\n", b"x"], &[])?;
    let mut reader = ScriptReader::new(rt.alloc())?;
    assert!(rt; answers(rt.alloc(), &mut reader, &mut source, Want::Text("end\n"))?);
    let mut into = [0; 2];
    assert!(rt; matches!(source.read(&mut into), Ok(1)) && into[0] == b'x');
    Ok(())
}

#[test]
fn a_script_that_ends_early_is_cut(rt: HostRuntime) -> Result<(), Fail> {
    for (script, number) in [
        (b"".as_slice(), 1),
        (b"put /a.js 5\nabc", 1),
        (b"put /a.js 3\nabc", 1),
        (b"put /a.js 3", 1),
        (b"en", 1),
        (b"\xff", 1),
    ] {
        assert!(rt; reads(rt.alloc(), script, &[Want::Cut(number)])?);
    }
    let wants = [Want::Text("build\n"), Want::Cut(2)];
    assert!(rt; reads(rt.alloc(), b"build\n", &wants)?);
    let wants = [Want::Text("put /a 1\n\n\n"), Want::Cut(2)];
    assert!(rt; reads(rt.alloc(), b"put /a 1\n\n\nput /b 1\n", &wants)?);
    Ok(())
}

#[test]
fn a_line_that_is_no_command_is_bad(rt: HostRuntime) -> Result<(), Fail> {
    for script in [
        b"\n".as_slice(),
        b" \n",
        b"build \n",
        b"Build\n",
        b"ends\n",
        b"put /a.js\n",
        b"put /a.js \n",
        b"put  3\nabc\n",
        b"put / 3\nabc\n",
        b"put a.js 3\nabc\n",
        b"put /a.js 03\nabc\n",
        b"put /a.js 00\n\n",
        b"put /a.js +3\nabc\n",
        b"put /a.js 1234567890\n",
        b"put /a.js\t3\nabc\n",
        b"put\t/a.js 3\nabc\n",
        b"put /a.js 3\r\nabc\n",
        b"put /\xff.js 3\nabc\n",
        b"put /a.js 3\nabcd\n",
        b"put /a.js 0\nend\n",
        b"del\n",
        b"del /\n",
        b"del /a//b\n",
        b"del /a/../b\n",
        b"del /\xc3\n",
    ] {
        assert!(rt; reads(rt.alloc(), script, &[Want::Bad(1)])?);
    }
    let wants = [Want::Text("rescan\n"), Want::Bad(2)];
    assert!(rt; reads(rt.alloc(), b"rescan\nx\n", &wants)?);
    Ok(())
}

/// A command that deletes a path of this many bytes.
fn del(alloc: Global, size: usize) -> Result<Bytes, AllocError> {
    let mut script = line(alloc, b"del /", size.saturating_add(4))?;
    script.push(b'\n')?;
    Ok(script)
}

#[test]
fn a_path_has_at_most_1024_bytes(rt: HostRuntime) -> Result<(), Fail> {
    let longest = del(rt.alloc(), 1024)?;
    let mut source = list(rt.alloc(), &[longest.as_slice()], &[])?;
    let mut reader = ScriptReader::new(rt.alloc())?;
    let del = reader.next(&mut source);
    assert!(rt; matches!(&del, Ok(Command::Del(path)) if path.as_str().len() == 1024));
    Ok(())
}

#[test]
fn a_path_of_1025_bytes_is_bad(rt: HostRuntime) -> Result<(), Fail> {
    let longer = del(rt.alloc(), 1025)?;
    assert!(rt; reads(rt.alloc(), longer.as_slice(), &[Want::Bad(1)])?);
    Ok(())
}

#[test]
fn a_line_has_at_most_1100_bytes(rt: HostRuntime) -> Result<(), Fail> {
    for (size, want) in [(1100, Want::Cut(1)), (1101, Want::Bad(1))] {
        let line = line(rt.alloc(), b"", size)?;
        assert!(rt; reads(rt.alloc(), line.as_slice(), &[want])?);
    }
    Ok(())
}

/// Whether a script is answered so, and what follows its first piece is not read.
fn reads_no_more(alloc: Global, first: &[u8], want: Want) -> Result<bool, AllocError> {
    let mut source = list(alloc, &[first, b"end\n"], &[2])?;
    Ok(answers_all(alloc, &mut source, &[want])? && source.faults() == 0)
}

#[test]
fn what_follows_a_refusal_is_not_read(rt: HostRuntime) -> Result<(), Fail> {
    let longer = line(rt.alloc(), b"", 1101)?;
    assert!(rt; reads_no_more(rt.alloc(), longer.as_slice(), Want::Bad(1))?);
    let put = b"put /a.js 16777217\n";
    assert!(rt; reads_no_more(rt.alloc(), put, Want::TooLarge(16_777_217))?);
    Ok(())
}

#[test]
fn a_put_has_at_most_16777216_bytes(rt: HostRuntime) -> Result<(), Fail> {
    let bytes = Vec::from_elem(rt.alloc(), b'x', 16_777_216)?;
    let pieces = [
        b"put /a.js 16777216\nxx".as_slice(),
        &bytes[2..],
        b"\nend\n",
    ];
    let mut source = list(rt.alloc(), &pieces, &[])?;
    let mut reader = ScriptReader::new(rt.alloc())?;
    let put = reader.next(&mut source);
    assert!(rt;
        matches!(&put, Ok(Command::Put(path, found)) if path.as_str() == "/a.js" && found.as_slice() == bytes.as_slice())
    );
    assert!(rt; answers(rt.alloc(), &mut reader, &mut source, Want::Text("end\n"))?);
    Ok(())
}

#[test]
fn a_put_of_16777217_bytes_is_too_large(rt: HostRuntime) -> Result<(), Fail> {
    let wants = [Want::TooLarge(16_777_217)];
    assert!(rt; reads(rt.alloc(), b"put /a.js 16777217\nx", &wants)?);
    Ok(())
}

#[test]
fn a_script_has_at_most_1048576_commands(rt: HostRuntime) -> Result<(), Fail> {
    let mut script = Bytes::new(rt.alloc());
    for _ in 0..1_048_576 {
        script.extend(b"build\n")?;
    }
    script.extend(b"put /a.js 16777217\n")?;
    let mut source = list(rt.alloc(), &[script.as_slice()], &[])?;
    let mut reader = ScriptReader::new(rt.alloc())?;
    for _ in 0..1_048_576 {
        assert!(rt; matches!(reader.next(&mut source), Ok(Command::Build)));
    }
    assert!(rt; answers(rt.alloc(), &mut reader, &mut source, Want::TooMany)?);
    Ok(())
}

#[test]
fn what_is_written_is_the_one_spelling(rt: HostRuntime) -> Result<(), Fail> {
    for text in [
        "put /a b.js 2\n\n\n\n",
        "del /a.js\n",
        "rescan\n",
        "build\n",
        "end\n",
    ] {
        assert!(rt;
            reads(rt.alloc(), text.as_bytes(), &[Want::Text(text)])?,
            "{text}"
        );
    }
    let path = Path::parse(rt.alloc(), "/a.js")?;
    if !path.is_root() {
        assert!(rt; is_spelled(rt.alloc(), &Command::Del(path), "del /a.js\n")?);
    }
    Ok(())
}
