//! What `put` writes, piece by piece: bytes of the pattern, or those of a source.
ghost use Rattle.std.specs.Prelude.{◌≡◌, ◌+◌, ◌<◌, ◌≤◌, ℕ, true, false, Ok, length, take, drop, IfOk, IfErr};
ghost use Rattle.node_links.specs.Streams.{Takes, IsAtEnd};
ghost use Rattle.client_plans.specs.Plans as plan;
ghost use Rattle.client_jobs.specs.Content.{pattern_from, HasReadCause, HasMore, HasRead, HasPartRead};

use crate::pieces::{room_at, with_piece};
use client_plans::Stage;
use node_links::Source;
use std::alloc::Global;
use xt_base::{Octets, OutOfMemory};

/// Bytes of the pattern, each of which is its place modulo 251: how many there are, and how many of them were taken.
#[derive(Clone, Copy)]
pub struct PatternPieces {
    pub size: u64,
    pub taken: u64,
}

/// Bytes of a source: how many of them were taken, and whether it was at its end then.
#[derive(Clone, Copy)]
pub struct SourcePieces {
    pub taken: u64,
    pub ended: bool,
}

/// Why a piece of a source isn't taken.
#[derive(Clone, Copy)]
pub enum ReadErr {
    /// The source failed; this is its count of faults.
    Failed { count: u64 },
    OutOfMemory,
}

/// `count` bytes of the pattern, from this place on.
#[tactic(auto, using(crate::proofs::Pattern::pattern_none, crate::proofs::Pattern::pattern_grows))]
fn pattern(alloc: Global, from: u64, count: u32) -> Result<Octets, OutOfMemory>
    requires { from + count < 18446744073709551616 }
    ensures { IfOk result (λ made. made ≡ pattern_from from count) }
{
    let mut bytes = Vec::with_capacity(alloc, count as usize)?;
    for place in 0..count {
        bytes.push(((from + u64::from(place)) % 251) as u8)?;
    }
    Octets::from_vec(bytes)
}

/// Whether a source has a byte left. If none was read ahead, the source reads.
fn is_left<S: Source>(src: &mut S) -> Result<bool, ReadErr>
    ensures left { S.left src.new ≡ S.left src.old }
    ensures more { result ≡ Ok true → 1 ≤ length (S.ahead src.new) }
    ensures end { result ≡ Ok false → IsAtEnd (S.left src.new) }
    ensures sound { IfOk result (λ left. S.fault_count src.new ≡ S.fault_count src.old) }
    ensures cause { IfErr result
        (HasReadCause (S.fault_count src.old) (S.fault_count src.new)) }
{
    if src.ahead().is_empty() && src.fill().is_err() {
        return Err(ReadErr::Failed {
            count: src.faults(),
        });
    }
    Ok(!src.ahead().is_empty())
}

/// Takes what a source has read ahead, at most `room` bytes, and appends it.
fn take_ahead<S: Source>(src: &mut S, bytes: &mut Vec<u8>, room: usize) -> Result<(), OutOfMemory>
    requires some { 1 ≤ length (S.ahead src.old) }
    requires room { 1 ≤ room }
    ensures more { IfOk result (λ done.
        HasMore true (S.left src.old) (S.left src.new) room bytes.old.items bytes.new.items) }
    ensures kept { IfErr result (λ error. S.left src.new ≡ S.left src.old) }
    ensures sound { S.fault_count src.new ≡ S.fault_count src.old }
{
    let ahead = src.ahead();
    let front = &ahead[..ahead.len().min(room)];
    let count = front.len();
    bytes.extend_from_slice(front)?;
    src.consume(count);
    Ok(())
}

/// Takes bytes of a source and appends them, 1 to `room`, or none at its end: whether there was one.
fn take_more<S: Source>(src: &mut S, bytes: &mut Vec<u8>, room: usize) -> Result<bool, ReadErr>
    requires { 1 ≤ room }
    ensures more { IfOk result (λ more.
        HasMore more (S.left src.old) (S.left src.new) room bytes.old.items bytes.new.items) }
    ensures kept { IfErr result (λ error. S.left src.new ≡ S.left src.old) }
    ensures sound { IfOk result (λ more. S.fault_count src.new ≡ S.fault_count src.old) }
    ensures cause { IfErr result
        (HasReadCause (S.fault_count src.old) (S.fault_count src.new)) }
{
    match is_left(src) {
        Ok(true) => {}
        Ok(false) => return Ok(false),
        Err(error) => return Err(error),
    }
    match take_ahead(src, bytes, room) {
        Ok(()) => Ok(true),
        Err(_) => Err(ReadErr::OutOfMemory),
    }
}

/// Takes `room` bytes of a source, or all if it has fewer.
fn read_piece<S: Source>(alloc: Global, src: &mut S, room: u32) -> Result<Octets, ReadErr>
    ensures taken { IfOk result (λ piece. Takes (S.left src.old) (S.left src.new) piece
        × (length piece ≤ room)) }
    ensures whole { IfOk result (λ piece. length piece < room → IsAtEnd (S.left src.new)) }
    ensures sound { IfOk result (λ piece. S.fault_count src.new ≡ S.fault_count src.old) }
    ensures part { IfErr result (λ error.
        HasPartRead false (S.left src.old) (S.left src.new) room) }
    ensures cause { IfErr result
        (HasReadCause (S.fault_count src.old) (S.fault_count src.new)) }
{
    let room = room as usize;
    let mut bytes = Vec::new(alloc);
    while bytes.len() < room {
        let left = room - bytes.len();
        match take_more(src, &mut bytes, left) {
            Ok(true) => {}
            Ok(false) => break,
            Err(error) => return Err(error),
        }
    }
    if bytes.is_empty() {
        return Ok(Octets::new(alloc));
    }
    match Octets::from_vec(bytes) {
        Ok(piece) => Ok(piece),
        Err(_) => Err(ReadErr::OutOfMemory),
    }
}

impl PatternPieces {
    /// This many bytes, of which none was taken yet.
    pub fn new(size: u64) -> PatternPieces
        ensures { (result.size ≡ size) × (result.taken ≡ 0) }
    {
        PatternPieces { size, taken: 0 }
    }

    /// Takes the next bytes, at most `room`.
    #[tactic(auto, using(crate::proofs::Pattern::length_pattern, crate::proofs::Pattern::piece_pattern))]
    fn next(&mut self, alloc: Global, room: u32) -> Result<Octets, OutOfMemory>
        ensures piece { IfOk result (λ piece.
            piece ≡ take room (drop self.old.taken (pattern_from 0 self.old.size))) }
        ensures taken { IfOk result (λ piece.
            self.new.taken ≡ self.old.taken + length piece) }
        ensures size { self.new.size ≡ self.old.size }
        ensures kept { IfErr result (λ error. self.new ≡ self.old) }
    {
        let left = self.size.saturating_sub(self.taken);
        let count = left.min(u64::from(room)) as u32;
        let piece = pattern(alloc, self.taken, count)?;
        self.taken += u64::from(count);
        Ok(piece)
    }

    /// Takes the piece that a stage asks for, if any: the stage then.
    pub fn feed(&mut self, alloc: Global, stage: Stage) -> Result<Stage, OutOfMemory>
        ensures stage { IfOk result (λ next. next ≡ plan.with_piece self.old.taken
            (plan.piece_at (pattern_from 0 self.old.size) self.old.taken stage) stage) }
        ensures taken { IfOk result (λ next. self.new.taken ≡ self.old.taken
            + length (plan.piece_at (pattern_from 0 self.old.size) self.old.taken stage)) }
        ensures size { self.new.size ≡ self.old.size }
        ensures kept { IfErr result (λ error. self.new ≡ self.old) }
    {
        let taken = self.taken;
        let piece = self.next(alloc, room_at(taken, &stage))?;
        Ok(with_piece(taken, piece, stage))
    }
}

impl SourcePieces {
    /// A source of which no byte was taken yet.
    pub fn new() -> SourcePieces
        ensures { (result.taken ≡ 0) × (result.ended ≡ false) }
    {
        SourcePieces {
            taken: 0,
            ended: false,
        }
    }

    /// Takes the next bytes of the source, at most `room`. The source isn't asked again once it was at its end. More bytes than a number
    /// can count are reported as out of memory.
    pub fn next<S: Source>(
        &mut self,
        alloc: Global,
        src: &mut S,
        room: u32,
    ) -> Result<Octets, ReadErr>
        ensures read { IfOk result (λ piece. HasRead self.old.ended self.new.ended
            (S.left src.old) (S.left src.new) room piece) }
        ensures taken { IfOk result (λ piece.
            self.new.taken ≡ self.old.taken + length piece) }
        ensures sound { IfOk result (λ piece. S.fault_count src.new ≡ S.fault_count src.old) }
        ensures part { IfErr result (λ error.
            HasPartRead self.old.ended (S.left src.old) (S.left src.new) room) }
        ensures cause { IfErr result
            (HasReadCause (S.fault_count src.old) (S.fault_count src.new)) }
    {
        if self.ended {
            return Ok(Octets::new(alloc));
        }
        let piece = match read_piece(alloc, src, room) {
            Ok(piece) => piece,
            Err(error) => return Err(error),
        };
        let count = piece.as_slice().len() as u64;
        let Some(taken) = self.taken.checked_add(count) else {
            return Err(ReadErr::OutOfMemory);
        };
        self.taken = taken;
        self.ended = count < u64::from(room);
        Ok(piece)
    }
}
