//! Striped files: which pieces of which objects a range of the file is, and whose they are.
//!
//! Byte `x` of a file lies in object `x / stripe` at place `x % stripe`, and object `o` on the OSD of number `o % width` of the
//! file's list, from 0. The pieces of a range cover it once and in order, one of each object that it meets; their bytes, joined,
//! are the bytes of the range. It falls into pieces in no other way.
#![tactic(auto)]

ghost use Rattle.std.specs.Prelude.{◌≡◌, ◌≤◌, ◌<◌, ◌+◌, ◌-◌, ◌*◌, ◌/◌, ◌%◌, ◌^◌, ℕ, List, map, IfOk};
ghost use Rattle.std.specs.List.{concat};
ghost use Rattle.xt_messages.specs.Limits.{FitsStripe};
ghost use Rattle.time_line.specs.Content.{range_of};
ghost use Rattle.striping.specs.declared.Piece.{Piece};
ghost use Rattle.striping.specs.Cover.{IsPieceFrom, Covers, bytes_of};

use std::alloc::Global;
use xt_base::{Octets, OutOfMemory};

/// What a range has of one object.
#[derive(Clone, Copy)]
pub struct Piece {
    pub object: u64,
    /// Where it begins in the object.
    pub at: u32,
    /// How many bytes it has, from 1 up to the stripe.
    pub len: u32,
    /// The number in the file's list, from 0, of the OSD that has the object.
    pub owner: u8,
}

/// The piece with which a range begins.
fn first_piece(stripe: u32, width: u8, from: u64, end: u64) -> Piece
    requires stripe { 1 ≤ stripe }
    requires width { 1 ≤ width }
    requires some { from < end }
    ensures { IsPieceFrom stripe width from end result }
{
    let size = u64::from(stripe);
    let (object, at) = (from / size, from % size);
    let len = (size - at).min(end - from);
    Piece {
        object,
        at: at as u32,
        len: len as u32,
        owner: (object % u64::from(width)) as u8,
    }
}

/// The pieces of a range of a file with objects of `stripe` bytes on `width` OSDs, in order.
pub fn pieces(
    alloc: Global,
    stripe: u32,
    width: u8,
    offset: u64,
    len: u64,
) -> Result<Vec<Piece>, OutOfMemory>
    requires stripe { FitsStripe stripe }
    requires some { 1 ≤ width }
    requires few { width ≤ 9 }
    requires end { offset + len ≤ 2 ^ 48 }
    ensures { IfOk result (λ pieces. Covers stripe width offset (offset + len) pieces.items) }
{
    let end = offset + len;
    let mut pieces = Vec::new(alloc);
    let mut from = offset;
    while from < end {
        let piece = first_piece(stripe, width, from, end);
        pieces.push(piece)?;
        from += u64::from(piece.len);
    }
    Ok(pieces)
}

/// The bytes of these parts, one after the other.
pub fn gather(alloc: Global, parts: &[Octets]) -> Result<Octets, OutOfMemory>
    ensures { IfOk result (λ made. made ≡ concat parts.now) }
{
    let mut made = Vec::new(alloc);
    for part in parts {
        made.extend_from_slice(part.as_slice())?;
    }
    Octets::from_vec(made)
}

/// The bytes of the pieces of a range, joined, are the bytes of the range; and each byte of a piece lies in the object and at the
/// place that its number in the file gives.
pub fn pieces_are_the_range()
    ensures joined { (stripe width offset len : ℕ) (content : List ℕ) (pieces : List Piece) →
        Covers stripe width offset (offset + len) pieces →
        concat (map (bytes_of stripe content) pieces) ≡ range_of content offset len }
    ensures placed { (stripe width from end byte : ℕ) (piece : Piece) →
        IsPieceFrom stripe width from end piece → from ≤ byte → byte < from + piece.len →
        (byte / stripe ≡ piece.object) × (byte % stripe ≡ piece.at + (byte - from)) }
{}

/// A range falls into pieces in one way alone.
pub fn a_range_has_one_cover()
    ensures { (stripe width from end : ℕ) (one other : List Piece) →
        Covers stripe width from end one → Covers stripe width from end other → one ≡ other }
{}
