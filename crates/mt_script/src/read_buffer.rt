//! Bytes of a script that were read and belong to no command yet.
ghost use Rattle.std.specs.Prelude.{◌≡◌, ◌⊎◌, ◌+◌, ◌<◌, ◌≤◌, ℕ, List, [], ◌++◌, length, take, drop, IfOk, IfSome, IsNone, IsErr, IsErrOf, OnErr, min, vec_len};
ghost use Rattle.mt_io.specs.Seen.{Tells};
ghost use Rattle.mt_io.specs.Told.{Reading};
ghost use Rattle.mt_script.specs.Reads.{Advances, Holds, IsSpent, Lacks, Takes};
ghost use Rattle.mt_script.specs.Steps.{max_line_bytes};

use mt_io::{Failed, Source, Trouble};
use std::alloc::{AllocError, Global};
use std::marker::Model;

/// The bytes of the window into which a source is read.
const WINDOW_BYTES: usize = 8192;

/// The bytes up to which the window is filled before what is held moves to its start.
const HALF_WINDOW: usize = 4096;

/// Bytes that were read from a source, which contracts see as a list: the window from `start` to `end`.
#[derive(Debug, Drop)]
pub(crate) struct ReadBuffer {
    window: Vec<u8>,
    start: usize,
    end: usize,
}

impl Model for ReadBuffer {
    ghost use Rattle.std.specs.Prelude.{List, ℕ, take, drop};
    ghost use Rattle.mt_script.specs.Reads.{IsWindow};

    ghost Value = { List ℕ };

    ghost view = { λ b. drop b.start (take b.end b.window.items) };

    ghost invariant = { λ b. IsWindow b.window.items b.start b.end };
}

/// Reads into the bytes after the first `at` of `into`, and answers how many.
pub(crate) fn read_after<S: Source>(
    source: &mut S,
    into: &mut [u8],
    at: usize,
) -> Result<usize, Failed>
    requires { at < length into.old }
    ensures within { IfOk result (λ n. at + n ≤ length into.old) }
    ensures kept { take at into.new ≡ take at into.old }
    ensures err { OnErr result ((S.seen source.new).told ≡ (S.seen source.old).told) }
    ensures source { Advances (S.seen source.old) (S.seen source.new) (IsErr result) }

    // Where the source tells its reading.
    ensures holds { (r : Reading) → Tells (S.seen source.old) r → IfOk result (λ n. Holds r (S.seen source.new).told (take at into.old) (take (at + n) into.new)) }
    ensures spent { (r : Reading) → Tells (S.seen source.old) r → IfOk result (λ n. n ≡ 0 → IsSpent (S.seen source.new).told) }
{
    let (_, room) = into.split_at_mut(at);
    source.read(room)
}

/// Reads into the bytes after the first `at` of `into` until it is full or the source is spent, and answers how many of
/// its bytes are filled.
fn fill<S: Source>(source: &mut S, into: &mut [u8], at: usize) -> Result<usize, Failed>
    requires { at ≤ length into.old }
    ensures within { IfOk result (λ n. n ≤ length into.old) }
    ensures waits { (source.new ≡ source.old) ⊎ (at < length into.old) }
    ensures source { Advances (S.seen source.old) (S.seen source.new) (IsErr result) }

    // Where the source tells its reading.
    ensures holds { (r : Reading) → Tells (S.seen source.old) r → IfOk result (λ n. Holds r (S.seen source.new).told (take at into.old) (take n into.new)) }
    ensures spent { (r : Reading) → Tells (S.seen source.old) r → IfOk result (λ n. n < length into.old → IsSpent (S.seen source.new).told) }
    ensures short { (r : Reading) → Tells (S.seen source.old) r → OnErr result (Lacks r (S.seen source.new).told (take at into.old) (length into.old)) }
{
    let mut filled = at;
    while filled < into.len() {
        let count = read_after(source, into, filled)?;
        if count == 0 {
            return Ok(filled);
        }
        filled += count;
    }
    Ok(filled)
}

/// Moves the window's bytes from `start` to `end` to its start where little room is left, and answers where they are.
fn make_room(window: &mut Vec<u8>, start: usize, end: usize) -> (usize, usize)
    requires order { start ≤ end }
    requires within { end ≤ vec_len window.old }
    ensures same { drop result.0 (take result.1 window.new.items) ≡ drop start (take end window.old.items) }
    ensures len { vec_len window.new ≡ vec_len window.old }
    ensures order { result.0 ≤ result.1 }
    ensures room { end ≤ start + HALF_WINDOW → result.1 ≤ HALF_WINDOW }
{
    if end <= HALF_WINDOW {
        return (start, end);
    }
    window.rotate_left(start);
    (0, end - start)
}

impl ReadBuffer {
    /// Holds nothing, with memory for the window. Refused only where memory runs out.
    pub(crate) fn new(alloc: Global) -> Result<ReadBuffer, AllocError>
        ensures empty { IfOk result (λ buffer. buffer ≡ []) }
    {
        let window = Vec::from_elem(alloc, 0, WINDOW_BYTES)?;
        Ok(ReadBuffer {
            window,
            start: 0,
            end: 0,
        })
    }

    /// The bytes.
    pub(crate) fn as_slice(&self) -> &[u8]
        ensures bytes { result.now ≡ self.now }
    {
        let (filled, _) = self.window.as_slice().split_at(self.end);
        filled.split_at(self.start).1
    }

    /// Drops the first `count` bytes.
    pub(crate) fn skip(&mut self, count: usize)
        requires { count ≤ length self.old }
        ensures rest { self.new ≡ drop count self.old }
    {
        self.start += count;
    }

    /// Moves the first bytes that are held to the start of `into`, and answers how many.
    fn hand_out(&mut self, into: &mut [u8]) -> usize
        ensures count { result ≡ min (length self.old) (length into.old) }
        ensures moved { take result into.new ≡ take result self.old }
        ensures rest { self.new ≡ drop result self.old }
    {
        let held = self.as_slice();
        let count = held.len().min(into.len());
        let (moved, _) = held.split_at(count);
        let (first, _) = into.split_at_mut(count);
        first.copy_from_slice(moved);
        self.skip(count);
        count
    }

    /// Takes the next `count` bytes, first those that are held and then those of the source. None where the source ends
    /// before.
    pub(crate) fn take_bytes<S: Source>(
        &mut self,
        alloc: Global,
        source: &mut S,
        count: usize,
    ) -> Result<Option<Vec<u8>>, Trouble>
        ensures len { IfOk result (λ found. IfSome found (λ bytes. vec_len bytes ≡ count)) }
        ensures waits { (source.new ≡ source.old) ⊎ (length self.old < count) }
        ensures source { Advances (S.seen source.old) (S.seen source.new) (IsErrOf result Trouble.Failed) }

        // Where the source tells its reading.
        ensures taken { (r : Reading) → Tells (S.seen source.old) r → IfOk result (λ found. IfSome found (λ bytes. Takes r (S.seen source.new).told self.old self.new count bytes.items)) }
        ensures spent { (r : Reading) → Tells (S.seen source.old) r → IfOk result (λ found. IsNone found → length (self.old ++ r.left) < count) }
        ensures short { (r : Reading) → Tells (S.seen source.old) r → IsErrOf result Trouble.Failed → Lacks r (S.seen source.new).told self.old count }
    {
        let mut bytes = Vec::from_elem(alloc, 0, count)?;
        let ready = self.hand_out(bytes.as_mut_slice());
        let filled = fill(source, bytes.as_mut_slice(), ready)?;
        if filled < count {
            return Ok(None);
        }
        Ok(Some(bytes))
    }

    /// Reads more bytes after those that are held, and answers how many.
    pub(crate) fn refill<S: Source>(&mut self, source: &mut S) -> Result<usize, Failed>
        requires { length self.old ≤ max_line_bytes }
        ensures count { IfOk result (λ n. length self.new ≡ length self.old + n) }
        ensures none { IfOk result (λ n. n ≡ 0 → self.new ≡ self.old) }
        ensures err { OnErr result (self.new ≡ self.old) }
        ensures source { Advances (S.seen source.old) (S.seen source.new) (IsErr result) }

        // Where the source tells its reading.
        ensures holds { (r : Reading) → Tells (S.seen source.old) r → Holds r (S.seen source.new).told self.old self.new }
        ensures spent { (r : Reading) → Tells (S.seen source.old) r → IfOk result (λ n. n ≡ 0 → IsSpent (S.seen source.new).told) }
    {
        (self.start, self.end) = make_room(&mut self.window, self.start, self.end);
        let count = read_after(source, self.window.as_mut_slice(), self.end)?;
        self.end += count;
        Ok(count)
    }
}
