ghost use Rattle.std.specs.Prelude.{◌≡◌, ◌≤◌, ◌+◌, IfOk, OnOk, OnErr, length, max};
ghost use Rattle.std.specs.Vec.{vec_capacity};
ghost use Rattle.xt_base.specs.Overlay.{overlay};

use std::alloc::Global;
use std::marker::Model;
use xt_base::{Octets, OutOfMemory};

/// The bytes of a disk in memory: those that it was made with, and those that a read gives. It takes memory in
/// `reserve` alone.
#[derive(Drop)]
pub struct Contents {
    first: Octets,
    /// What a read gives, from the first `reserve` on. Before it nothing is written, and a read gives the first bytes.
    read: Option<Vec<u8>>,
    reserved: u64,
}

impl Model for Contents {
    ghost use Rattle.disk_model.specs.Held.{Held};

    ghost Value = { Held };

    ghost use Rattle.disk_model.specs.Contents.{held, HasRoom};

    ghost view = { held };

    ghost invariant = { HasRoom };
}

impl Contents {
    /// These bytes, with nothing written yet and nothing reserved.
    pub fn new(first: Octets) -> Contents
        ensures { result ≡ record { first = first; read = first; reserved = 0 } }
    {
        Contents {
            first,
            read: None,
            reserved: 0,
        }
    }

    /// The bytes that a read gives.
    pub fn read(&self) -> &[u8]
        ensures { result.now ≡ self.now.read }
    {
        match &self.read {
            Some(bytes) => bytes.as_slice(),
            None => self.first.as_slice(),
        }
    }

    /// Reserves nothing any more.
    pub fn release(&mut self)
        ensures { self.new ≡ record {
          first = self.old.first;
          read = self.old.read;
          reserved = 0;
        } }
    {
        self.reserved = 0;
    }

    /// Lets writes end at `end`.
    pub fn reserve(&mut self, alloc: Global, end: u64) -> Result<(), OutOfMemory>
        ensures ok { OnOk result
            (self.new ≡ record {
              first = self.old.first;
              read = self.old.read;
              reserved = max self.old.reserved end;
            }) }
        ensures err { OnErr result (self.new ≡ self.old) }
    {
        let least = end as usize;
        match &mut self.read {
            Some(bytes) => bytes.reserve(least.saturating_sub(bytes.len()))?,
            None => self.read = Some(copy_with_room(alloc, self.first.as_slice(), least)?),
        }
        self.reserved = self.reserved.max(end);
        Ok(())
    }

    /// Writes a piece from a place on, over what is there and past the end. Between the old end and the place there
    /// are zeros then.
    pub fn write(&mut self, place: usize, piece: &[u8])
        requires { place + length piece.now ≤ self.old.reserved }
        ensures { self.new ≡ record {
          first = self.old.first;
          read = overlay self.old.read place piece.now;
          reserved = self.old.reserved;
        } }
    {
        if let Some(bytes) = &mut self.read {
            write_over(bytes, place, piece);
        }
    }
}

/// A copy whose capacity is `least` or more.
fn copy_with_room(alloc: Global, bytes: &[u8], least: usize) -> Result<Vec<u8>, OutOfMemory>
    ensures items { IfOk result (λ copy. copy.items ≡ bytes.now) }
    ensures capacity { IfOk result (λ copy. least ≤ vec_capacity copy) }
{
    let mut copy = Vec::with_capacity(alloc, bytes.len().max(least))?;
    copy.extend_from_slice(bytes)?;
    Ok(copy)
}

/// Writes a piece over bytes whose capacity it keeps to.
fn write_over(bytes: &mut Vec<u8>, place: usize, piece: &[u8])
    requires { place + length piece.now ≤ vec_capacity bytes.old }
    ensures items { bytes.new.items ≡ overlay bytes.old.items place piece.now }
    ensures capacity { vec_capacity bytes.old ≤ vec_capacity bytes.new }
{
    let end = place + piece.len();
    let _ = bytes.resize(bytes.len().max(end), 0);
    bytes.as_mut_slice()[place..end].copy_from_slice(piece);
}
