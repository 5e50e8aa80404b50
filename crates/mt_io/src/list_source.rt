//! Sources in memory, which hand out pieces.
ghost use Rattle.std.specs.Prelude.{◌≡◌, ◌↔◌, ◌+◌, ◌^◌, ◌≤◌, ◌<◌, [], ◌++◌, length, get_or, min, take, drop, IfOk, IsErr, OnErr, Ok};
ghost use Rattle.mt_io.specs.Memory.{NextFails, after_fault, after_pass, give, left_at, given_at, next_piece, plan_of, seen_source, seen_sure_source, unread, unspent};
ghost use Rattle.mt_io.specs.Seen.{Reads};

use crate::fault_plan::FaultPlan;
use crate::source::Source;
use crate::trouble::Failed;
use mt_tokens::Bytes;
use std::marker::Model;

/// Pieces that are handed out in order, which contracts see as what was given and the pieces that are left.
#[derive(Debug, Drop)]
struct Pieces {
    list: Vec<Bytes>,
    piece: usize,
    at: usize,
}

impl Model for Pieces {
    ghost use Rattle.std.specs.Prelude.{◌≤◌, [], length, get_or};
    ghost use Rattle.mt_io.specs.Memory.{PieceReading, given_at, left_at};

    ghost Value = { PieceReading };

    ghost view = { λ p. record { given = given_at p.list.items p.piece p.at; pieces = left_at p.list.items p.piece p.at } };

    ghost invariant = { λ p. p.at ≤ length (get_or p.list.items p.piece []) };
}

impl Pieces {
    fn new(list: Vec<Bytes>) -> Pieces
        ensures { result ≡ unread list.items }
    {
        Pieces {
            list,
            piece: 0,
            at: 0,
        }
    }

    /// Copies the first bytes of the piece that is next to the front of `into`, and answers how many: all that fit.
    fn hand_out(&mut self, into: &mut [u8]) -> usize
        ensures count { result ≡ min (length into.old) (length (next_piece self.old.pieces)) }
        ensures written { into.new ≡ take result (next_piece self.old.pieces) ++ drop result into.old }
        ensures given { self.new ≡ give result self.old }
    {
        (self.piece, self.at) = next_place(self.list.as_slice(), self.piece, self.at);
        let rest = rest_of_piece(self.list.as_slice(), self.piece, self.at);
        let count = copy_front(rest, into);
        self.at += count;
        count
    }
}

/// The place of the next byte, past the pieces that are spent: a piece and a place in it.
fn next_place(list: &[Bytes], piece: usize, at: usize) -> (usize, usize)
    requires { at ≤ length (get_or list.now piece []) }
    ensures given { given_at list.now result.0 result.1 ≡ given_at list.now piece at }
    ensures left { left_at list.now result.0 result.1 ≡ unspent (left_at list.now piece at) }
    ensures within { result.1 ≤ length (get_or list.now result.0 []) }
{
    let mut next = piece;
    let mut from = at;
    while next < list.len() && from == list[next].len() {
        next += 1;
        from = 0;
    }
    (next, from)
}

/// The rest of a piece from a place in it, or nothing past the last piece.
fn rest_of_piece(list: &[Bytes], piece: usize, at: usize) -> &[u8]
    requires { at ≤ length (get_or list.now piece []) }
    ensures rest { result.now ≡ drop at (get_or list.now piece []) }
    ensures fits { at + length result.now < 2 ^ 64 }
{
    match list.get(piece) {
        Some(bytes) => bytes.as_slice().split_at(at).1,
        None => &[],
    }
}

/// Copies what fits of `from` to the front of `into`, and answers how many bytes.
fn copy_front(from: &[u8], into: &mut [u8]) -> usize
    ensures count { result ≡ min (length from.now) (length into.old) }
    ensures copied { into.new ≡ take result from.now ++ drop result into.old }
{
    let count = from.len().min(into.len());
    let (copied, _) = from.split_at(count);
    let (front, _) = into.split_at_mut(count);
    front.copy_from_slice(copied);
    count
}

/// A source that hands out pieces in order, and some of whose calls fail.
#[derive(Debug, Drop)]
pub struct ListSource {
    pieces: Pieces,
    plan: FaultPlan,
}

impl Model for ListSource {
    ghost use Rattle.mt_io.specs.Memory.{PlannedSource};

    ghost Value = { PlannedSource };

    ghost view = { λ s. record { reading = s.pieces; plan = s.plan } };
}

impl ListSource {
    /// A source of these pieces. The reads whose numbers, counted from 1, are in `failing` fail; a read gives at most
    /// the rest of one piece.
    pub fn new(pieces: Vec<Bytes>, failing: Vec<u64>) -> ListSource
        ensures reading { result.reading ≡ unread pieces.items }
        ensures plan { result.plan ≡ plan_of failing.items }
    {
        ListSource {
            pieces: Pieces::new(pieces),
            plan: FaultPlan::new(failing),
        }
    }
}

impl Source for ListSource {
    ghost seen = { seen_source };

    fn faults(&self) -> u64 {
        self.plan.faults()
    }

    /// Gives as many bytes of the next piece as fit. It fails exactly where the plan says so.
    fn read(&mut self, into: &mut [u8]) -> Result<usize, Failed>
        ensures reads { Reads (seen_source self.old) (seen_source self.new) into.old into.new result }
        ensures fails { IsErr result ↔ NextFails self.old.plan }
        ensures count { IfOk result (λ n. n ≡ min (length into.old) (length (next_piece self.old.reading.pieces))) }
        ensures written { IfOk result (λ n. into.new ≡ take n (next_piece self.old.reading.pieces) ++ drop n into.old) }
        ensures given { IfOk result (λ n. self.new ≡ record { reading = give n self.old.reading; plan = after_pass self.old.plan }) }
        ensures fault { OnErr result (self.new ≡ record { reading = self.old.reading; plan = after_fault self.old.plan }) }
        ensures untouched { OnErr result (into.new ≡ into.old) }
    {
        self.plan.begin()?;
        Ok(self.pieces.hand_out(into))
    }
}

/// A source that hands out pieces in order, and never fails.
#[derive(Debug, Drop)]
pub struct SureSource {
    pieces: Pieces,
}

impl Model for SureSource {
    ghost use Rattle.mt_io.specs.Memory.{PieceReading};

    ghost Value = { PieceReading };

    ghost view = { λ s. s.pieces };
}

impl SureSource {
    /// A source of these pieces. A read gives at most the rest of one piece.
    pub fn new(pieces: Vec<Bytes>) -> SureSource
        ensures { result ≡ unread pieces.items }
    {
        SureSource {
            pieces: Pieces::new(pieces),
        }
    }
}

impl Source for SureSource {
    ghost seen = { seen_sure_source };

    fn faults(&self) -> u64 {
        0
    }

    /// Gives as many bytes of the next piece as fit, and never fails.
    fn read(&mut self, into: &mut [u8]) -> Result<usize, Failed>
        ensures reads { Reads (seen_sure_source self.old) (seen_sure_source self.new) into.old into.new result }
        ensures count { result ≡ Ok (min (length into.old) (length (next_piece self.old.pieces))) }
        ensures written { IfOk result (λ n. into.new ≡ take n (next_piece self.old.pieces) ++ drop n into.old) }
        ensures given { IfOk result (λ n. self.new ≡ give n self.old) }
    {
        Ok(self.pieces.hand_out(into))
    }
}
