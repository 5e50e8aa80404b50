//! The commands of a script, read from a source one by one.
ghost use Rattle.std.specs.Prelude.{◌≡◌, ◌<◌, ◌≤◌, ◌+◌, ◌++◌, ◌⊎◌, [], Some, None, IfOk, IfErr, IfSome, IsErrOf, OnOk, is_ok, if◌then◌else◌};
ghost use Rattle.std.specs.Result.{result_err};
ghost use Rattle.mt_io.specs.Seen.{Tells};
ghost use Rattle.mt_io.specs.Told.{Reading};
ghost use Rattle.mt_tokens.specs.Sources.{max_source_bytes};
ghost use Rattle.mt_script.specs.Commands.{IsCommand};
ghost use Rattle.mt_script.specs.Faults.{Copies, Repeats};
ghost use Rattle.mt_script.specs.Reads.{Advances, Finds, FindsHead, Interrupted, IsHead, IsOf, Progress};
ghost use Rattle.mt_script.specs.Steps.{Stopped, limited_step, max_commands, next_of, put_step};

use crate::command::Command;
use crate::command_head::{CommandHead, head_in};
use crate::fault::ScriptFault;
use crate::line::{LineEnd, hold_line};
use crate::read_buffer::ReadBuffer;
use mt_io::Source;
use mt_path::Path;
use mt_tokens::{Bytes, MAX_SOURCE_BYTES};
use std::alloc::{AllocError, Global};
use std::marker::Model;

/// The most commands of a script.
pub const MAX_COMMANDS: u32 = 1_048_576;

/// Reads the commands of a script one by one. Each command is given before more is read than it takes to know it.
#[derive(Debug, Drop)]
pub struct ScriptReader {
    alloc: Global,
    buffer: ReadBuffer,
    count: u32,
    fault: Option<ScriptFault>,
}

impl Model for ScriptReader {
    ghost use Rattle.std.specs.Prelude.{◌≤◌};
    ghost use Rattle.mt_script.specs.Reads.{Progress};
    ghost use Rattle.mt_script.specs.Steps.{max_commands};

    ghost Value = { Progress };

    ghost view = { λ r. record { held = r.buffer; count = r.count; fault = r.fault } };

    ghost invariant = { λ r. r.count ≤ max_commands };
}

/// Reads the line of the command after so many, and what it says.
fn read_head<S: Source>(
    alloc: Global,
    count: u32,
    buffer: &mut ReadBuffer,
    source: &mut S,
) -> Result<CommandHead, ScriptFault>
    requires { count ≤ max_commands }
    ensures head { IfOk result IsHead }
    ensures waits { ((source.new ≡ source.old) × IfOk result (λ head. next_of count buffer.old ≡ limited_step count head buffer.new)) ⊎ (next_of count buffer.old ≡ Stopped (ScriptFault.Cut (count + 1))) }
    ensures source { Advances (S.seen source.old) (S.seen source.new) (IsErrOf result ScriptFault.Failed) }

    // Where the source tells its reading.
    ensures found { (r : Reading) → Tells (S.seen source.old) r → IfOk result (FindsHead count r (S.seen source.new).told buffer.old buffer.new) }
    ensures refused { (r : Reading) → Tells (S.seen source.old) r → IfErr result (λ fault. IsOf fault (next_of count (buffer.old ++ r.left))) }
    ensures interrupted { (r : Reading) → Tells (S.seen source.old) r → IsErrOf result ScriptFault.Failed → Interrupted (next_of count) (count + 1) r (S.seen source.new).told buffer.old }
{
    let len = match hold_line(buffer, source)? {
        LineEnd::Whole(len) => len,
        LineEnd::TooLong => return Err(ScriptFault::Bad { command: count + 1 }),
        LineEnd::Unfinished => return Err(ScriptFault::Cut { command: count + 1 }),
    };
    let (line, _) = buffer.as_slice().split_at(len);
    let Some(head) = head_in(alloc, line)? else {
        return Err(ScriptFault::Bad { command: count + 1 });
    };
    buffer.skip(len + 1);
    Ok(head)
}

/// Reads the bytes of a `put` and the line feed after them.
fn read_put<S: Source>(
    alloc: Global,
    count: u32,
    buffer: &mut ReadBuffer,
    source: &mut S,
    path: Path,
    size: u32,
) -> Result<Command, ScriptFault>
    requires count { count ≤ max_commands }
    requires size { size ≤ max_source_bytes }
    requires path { IsHead (CommandHead.Put path size) }
    ensures command { IfOk result IsCommand }
    ensures waits { (source.new ≡ source.old) ⊎ (put_step count path size buffer.old ≡ Stopped (ScriptFault.Cut (count + 1))) }
    ensures source { Advances (S.seen source.old) (S.seen source.new) (IsErrOf result ScriptFault.Failed) }

    // Where the source tells its reading.
    ensures found { (r : Reading) → Tells (S.seen source.old) r → IfOk result (Finds (put_step count path size) r (S.seen source.new).told buffer.old buffer.new) }
    ensures refused { (r : Reading) → Tells (S.seen source.old) r → IfErr result (λ fault. IsOf fault (put_step count path size (buffer.old ++ r.left))) }
    ensures interrupted { (r : Reading) → Tells (S.seen source.old) r → IsErrOf result ScriptFault.Failed → Interrupted (put_step count path size) (count + 1) r (S.seen source.new).told buffer.old }
{
    let Some(mut bytes) = buffer.take_bytes(alloc, source, size as usize + 1)? else {
        return Err(ScriptFault::Cut { command: count + 1 });
    };
    if bytes[size as usize] != b'\n' {
        return Err(ScriptFault::Bad { command: count + 1 });
    }
    bytes.truncate(size as usize);
    Ok(Command::Put(path, Bytes::from_vec(bytes)))
}

/// Reads what follows the line of a command, where there is room for the command.
fn carry_out<S: Source>(
    alloc: Global,
    count: u32,
    buffer: &mut ReadBuffer,
    source: &mut S,
    head: CommandHead,
) -> Result<Command, ScriptFault>
    requires count { count ≤ max_commands }
    requires head { IsHead head }
    ensures command { IfOk result IsCommand }
    ensures room { OnOk result (count < max_commands) }
    ensures waits { (source.new ≡ source.old) ⊎ (limited_step count head buffer.old ≡ Stopped (ScriptFault.Cut (count + 1))) }
    ensures source { Advances (S.seen source.old) (S.seen source.new) (IsErrOf result ScriptFault.Failed) }

    // Where the source tells its reading.
    ensures found { (r : Reading) → Tells (S.seen source.old) r → IfOk result (Finds (limited_step count head) r (S.seen source.new).told buffer.old buffer.new) }
    ensures refused { (r : Reading) → Tells (S.seen source.old) r → IfErr result (λ fault. IsOf fault (limited_step count head (buffer.old ++ r.left))) }
    ensures interrupted { (r : Reading) → Tells (S.seen source.old) r → IsErrOf result ScriptFault.Failed → Interrupted (limited_step count head) (count + 1) r (S.seen source.new).told buffer.old }
{
    if count >= MAX_COMMANDS {
        return Err(ScriptFault::TooManyCommands);
    }
    match head {
        CommandHead::Whole(command) => Ok(command),
        CommandHead::Put(path, size) => {
            if size as usize > MAX_SOURCE_BYTES {
                return Err(ScriptFault::FileTooLarge { path, size });
            }
            read_put(alloc, count, buffer, source, path, size)
        }
    }
}

/// Reads the command after so many.
fn read_command<S: Source>(
    alloc: Global,
    count: u32,
    buffer: &mut ReadBuffer,
    source: &mut S,
) -> Result<Command, ScriptFault>
    requires { count ≤ max_commands }
    ensures command { IfOk result IsCommand }
    ensures room { OnOk result (count < max_commands) }
    ensures waits { (source.new ≡ source.old) ⊎ (next_of count buffer.old ≡ Stopped (ScriptFault.Cut (count + 1))) }
    ensures source { Advances (S.seen source.old) (S.seen source.new) (IsErrOf result ScriptFault.Failed) }

    // Where the source tells its reading.
    ensures found { (r : Reading) → Tells (S.seen source.old) r → IfOk result (Finds (next_of count) r (S.seen source.new).told buffer.old buffer.new) }
    ensures refused { (r : Reading) → Tells (S.seen source.old) r → IfErr result (λ fault. IsOf fault (next_of count (buffer.old ++ r.left))) }
    ensures interrupted { (r : Reading) → Tells (S.seen source.old) r → IsErrOf result ScriptFault.Failed → Interrupted (next_of count) (count + 1) r (S.seen source.new).told buffer.old }
{
    match read_head(alloc, count, buffer, source) {
        Ok(head) => carry_out(alloc, count, buffer, source, head),
        Err(fault) => Err(fault),
    }
}

impl ScriptReader {
    /// A reader that has given no command and holds no bytes. Refused only where memory runs out.
    pub fn new(alloc: Global) -> Result<ScriptReader, AllocError>
        ensures empty { IfOk result (λ reader. reader ≡ record { held = []; count = 0; fault = None }) }
    {
        Ok(ScriptReader {
            alloc,
            buffer: ReadBuffer::new(alloc)?,
            count: 0,
            fault: None,
        })
    }

    /// The next command of `source`, from which this reader alone reads. After a fault each call answers that fault, and
    /// reads nothing. Where memory runs out for a copy of it, that call and all later ones answer `NoMemory`.
    pub fn next<S: Source>(&mut self, source: &mut S) -> Result<Command, ScriptFault>
        ensures command { IfOk result IsCommand }
        ensures count { self.new.count ≡ (if is_ok result then self.old.count + 1 else self.old.count) }

        // It reads only where what is held is cut within a command.
        ensures waits { (source.new ≡ source.old) ⊎ (next_of self.old.count self.old.held ≡ Stopped (ScriptFault.Cut (self.old.count + 1))) }
        ensures source { Advances (S.seen source.old) (S.seen source.new) ((self.old.fault ≡ None) × IsErrOf result ScriptFault.Failed) }

        // Where the source tells its reading.
        ensures found { (r : Reading) → Tells (S.seen source.old) r → IfOk result (Finds (next_of self.old.count) r (S.seen source.new).told self.old.held self.new.held) }
        ensures refused { (r : Reading) → Tells (S.seen source.old) r → self.old.fault ≡ None → IfErr result (λ fault. IsOf fault (next_of self.old.count (self.old.held ++ r.left))) }
        ensures interrupted { (r : Reading) → Tells (S.seen source.old) r → self.old.fault ≡ None
            → IsErrOf result ScriptFault.Failed
            → Interrupted (next_of self.old.count) (self.old.count + 1) r (S.seen source.new).told self.old.held }

        // The fault that a call answers stays.
        ensures kept { self.new.fault ≡ result_err result }
        ensures again { IfSome self.old.fault (λ fault. Repeats fault result) }
        ensures same { IfSome self.old.fault (λ _. (self.new.held ≡ self.old.held) × (source.new ≡ source.old)) }
    {
        if let Some(fault) = self.fault.take() {
            return Err(self.stop(fault));
        }
        match read_command(self.alloc, self.count, &mut self.buffer, source) {
            Ok(command) => {
                self.count += 1;
                Ok(command)
            }
            Err(fault) => Err(self.stop(fault)),
        }
    }

    /// Keeps a fault for later calls, and gives it: out of memory, where there is none for its copy.
    fn stop(&mut self, fault: ScriptFault) -> ScriptFault
        ensures copies { Copies fault result }
        ensures kept { self.new.fault ≡ Some result }
        ensures held { self.new.held ≡ self.old.held }
        ensures count { self.new.count ≡ self.old.count }
    {
        let (fault, kept) = twice(fault);
        self.fault = Some(kept);
        fault
    }
}

/// A fault two times, or out of memory two times where there is none for its copy.
fn twice(fault: ScriptFault) -> (ScriptFault, ScriptFault)
    ensures same { result.0 ≡ result.1 }
    ensures copies { Copies fault result.0 }
{
    match fault.copied() {
        Ok(kept) => (fault, kept),
        Err(_) => (ScriptFault::NoMemory, ScriptFault::NoMemory),
    }
}
