//! Bytes of which most may never have been written: a file of 2^47 bytes by one truncation takes no more room than an empty one.
#![tactic(auto)]

ghost use Rattle.std.specs.Prelude.{◌≡◌, ◌<◌, ◌+◌, ◌^◌, ℕ, List, [], ◌↔◌, IsTrue, length, take, drop, OnOk};
ghost use Rattle.xt_base.specs.Overlay.{overlay, cut_or_filled};
ghost use Rattle.sparse_bytes.specs.Sparse.{byte_at, Tells};

use std::alloc::{AllocError, Global};
use std::collections::BTreeMap;

/// A list of bytes, by its size and the bytes that were written; the others are zero.
#[derive(Drop)]
pub struct SparseBytes {
    pub size: u128,
    pub written: BTreeMap<u128, u8>,
}

impl SparseBytes {
    /// No bytes.
    pub fn new(alloc: Global) -> SparseBytes
        ensures { Tells result.size result.written [] }
    {
        SparseBytes {
            size: 0,
            written: BTreeMap::new(alloc),
        }
    }

    /// Puts the bytes at a place, with zeros up to it. An error means that memory ran out.
    pub fn write(&mut self, at: u128, bytes: &[u8]) -> Result<(), AllocError>
        requires room { at + length bytes.now < 2 ^ 128 }
        ensures { OnOk result ((content : List ℕ) →
            Tells self.old.size self.old.written content →
            Tells self.new.size self.new.written (overlay content at bytes.now)) }
    {
        for i in 0..bytes.len() {
            self.written.insert(at + i as u128, bytes[i])?;
        }
        self.size = self.size.max(at + bytes.len() as u128);
        Ok(())
    }

    /// Cuts the bytes to a size, or fills them up to it with zeros. An error means that memory ran out.
    pub fn resize(&mut self, size: u128) -> Result<(), AllocError>
        ensures { OnOk result ((content : List ℕ) →
            Tells self.old.size self.old.written content →
            Tells self.new.size self.new.written (cut_or_filled content size)) }
    {
        if self.size <= size {
            self.size = size;
            return Ok(());
        }
        let _cut = self.written.split_off(&size)?;
        self.size = size;
        Ok(())
    }

    /// The byte at a place, and zero after the last one.
    fn byte(&self, place: u128) -> u8
        ensures { result ≡ byte_at self.now.written place }
    {
        self.written.get(&place).copied().unwrap_or(0)
    }

    /// Whether from a place on these bytes are there, where so many are asked for: no others, and as many as there are.
    pub fn shows(&self, from: u128, len: u32, bytes: &[u8]) -> bool
        ensures { (content : List ℕ) → Tells self.now.size self.now.written content →
            (IsTrue result ↔ (bytes.now ≡ take len (drop from content))) }
    {
        let there = self.size.saturating_sub(from).min(u128::from(len));
        if bytes.len() as u128 != there {
            return false;
        }
        for i in 0..bytes.len() {
            if self.byte(from + i as u128) != bytes[i] {
                return false;
            }
        }
        true
    }
}
