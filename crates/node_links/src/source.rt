ghost use Rattle.std.specs.Prelude.{◌≡◌, ◌≤◌, ◌<◌, ◌+◌, ◌-◌, ℕ, Bool, false, List, [], Option, Some, None, length, take, drop, min, is_err, IfOk, OnOk, OnErr, IfSome, OnSome};
ghost use Rattle.node_links.specs.Streams.{Takes, IsAhead, IsAtEnd, is_named};
ghost use Rattle.xt_base.specs.Faults.{Rose, fault_count_after};

use std::alloc::Global;
use std::io::Read;
use xt_base::{CallList, Failed, Octets, OutOfMemory};

/// A source of bytes that reads ahead: its bytes are looked at where they lie, and then taken by their number.
pub trait Source {
    /// The bytes that are left, where they are known.
    ghost left: { Self → Option (List ℕ) };

    /// The bytes that were read ahead.
    ghost ahead: { Self → List ℕ };

    /// How many bytes are read ahead at once, where the bytes are known.
    ghost block: { Self → ℕ };

    /// Whether a coming call of `fill` fails, the next one being 1, where the bytes are known.
    ghost fails: { Self → ℕ → Bool };

    /// How often the source has failed.
    ghost fault_count: { Self → ℕ };

    /// How often the source has failed.
    fn faults(&self) -> u64
        ensures { result ≡ fault_count self.now };

    /// The bytes that were read ahead, the front of those that are left.
    fn ahead(&self) -> &[u8]
        ensures bytes { result.now ≡ ahead self.now }
        ensures front { IsAhead (left self.now) (ahead self.now) };

    /// Reads ahead, where nothing is: as many bytes as it likes, and none only at the end.
    fn fill(&mut self) -> Result<(), Failed>
        requires { ahead self.old ≡ [] }
        ensures left { left self.new ≡ left self.old }
        ensures end { OnOk result (ahead self.new ≡ [] → IsAtEnd (left self.old)) }
        ensures sound { OnOk result (fault_count self.new ≡ fault_count self.old) }
        ensures failed { OnErr result (Rose (fault_count self.old) (fault_count self.new)) }
        ensures none { OnErr result (ahead self.new ≡ []) }
        ensures faults { fault_count self.new ≡
            fault_count_after (is_err result) (fault_count self.old) }
        // Where the bytes are known, it reads as many as it can, and fails as planned.
        ensures most { OnOk result (IfSome (left self.old)
            (λ bytes. length (ahead self.new) ≡ min (block self.old) (length bytes))) }
        ensures same { block self.new ≡ block self.old }
        ensures plan { OnSome (left self.old) (is_err result ≡ fails self.old 1) }
        ensures later { OnSome (left self.old) ((k : ℕ) →
            fails self.new k ≡ fails self.old (k + 1)) };

    /// Takes so many of the bytes that were read ahead.
    fn consume(&mut self, count: usize)
        requires { count ≤ length (ahead self.old) }
        ensures taken { Takes (left self.old) (left self.new) (take count (ahead self.old)) }
        ensures rest { ahead self.new ≡ drop count (ahead self.old) }
        ensures sound { fault_count self.new ≡ fault_count self.old }
        ensures same { block self.new ≡ block self.old }
        ensures later { OnSome (left self.old) ((k : ℕ) → fails self.new k ≡ fails self.old k) };
}

/// Bytes in memory, of which each call of `fill` reads a block ahead, or what is left. The calls that are named, counted from 1,
/// fail, and no others.
#[derive(Drop)]
pub struct MemorySource {
    bytes: Octets,
    block: usize,
    place: usize,
    filled: usize,
    failing: CallList,
    calls: u64,
    faults: u64,
    ghost some: { 1 ≤ block },
    ghost ordered: { place ≤ filled },
    ghost inside: { filled ≤ length bytes },
}

impl MemorySource {
    ghost use Rattle.std.specs.Prelude.{◌≡◌, ◌≤◌};

    /// A source of these bytes, which reads so many ahead at a time, at least one.
    pub fn new(bytes: Octets, block: usize, failing: CallList) -> MemorySource
        requires { 1 ≤ block }
        ensures bytes { (result.bytes ≡ bytes) × (result.place ≡ 0) × (result.filled ≡ 0) }
        ensures block { result.block ≡ block }
        ensures plan { (result.failing ≡ failing) × (result.calls ≡ 0) }
        ensures sound { result.faults ≡ 0 }
    {
        MemorySource {
            bytes,
            block,
            place: 0,
            filled: 0,
            failing,
            calls: 0,
            faults: 0,
        }
    }
}

impl Source for MemorySource {
    ghost left = { λ s. Some (drop s.place s.bytes) };

    ghost ahead = { λ s. take (s.filled - s.place) (drop s.place s.bytes) };

    ghost block = { λ s. s.block };

    ghost fails = { λ s k. is_named s.failing s.calls k };

    ghost fault_count = { λ s. s.faults };

    fn faults(&self) -> u64 {
        self.faults
    }

    fn ahead(&self) -> &[u8] {
        &self.bytes.as_slice()[self.place..self.filled]
    }

    fn fill(&mut self) -> Result<(), Failed> {
        self.calls = self.calls.saturating_add(1);
        if self.failing.as_slice().contains(&self.calls) {
            self.faults = self.faults.saturating_add(1);
            return Err(Failed);
        }
        let left = self.bytes.as_slice().len() - self.place;
        self.filled = self.place + left.min(self.block);
        Ok(())
    }

    fn consume(&mut self, count: usize) {
        self.place += count;
    }
}

/// The standard input, or another real reader. What it gives isn't known.
#[derive(Drop)]
pub struct StdinSource<R: Read + Drop> {
    reader: R,
    buffer: Vec<u8>,
    place: usize,
    filled: usize,
    faults: u64,
    ghost ordered: { place ≤ filled },
    ghost inside: { filled ≤ length buffer.items },
}

/// How many bytes are read ahead at most.
const BUFFER_BYTES: usize = 65_536;

impl<R: Read + Drop> StdinSource<R> {
    ghost use Rattle.std.specs.Prelude.{◌≡◌, IfOk};

    /// A source of what the reader gives.
    pub fn new(alloc: Global, reader: R) -> Result<StdinSource<R>, OutOfMemory>
        ensures { IfOk result (λ made. made.faults ≡ 0) }
    {
        Ok(StdinSource {
            reader,
            buffer: Vec::from_elem(alloc, 0, BUFFER_BYTES)?,
            place: 0,
            filled: 0,
            faults: 0,
        })
    }
}

impl<R: Read + Drop> Source for StdinSource<R> {
    ghost left = { λ _. None };

    ghost ahead = { λ s. take (s.filled - s.place) (drop s.place s.buffer.items) };

    ghost block = { λ _. 65536 };

    ghost fails = { λ _ _. false };

    ghost fault_count = { λ s. s.faults };

    fn faults(&self) -> u64 {
        self.faults
    }

    fn ahead(&self) -> &[u8] {
        &self.buffer.as_slice()[self.place..self.filled]
    }

    fn fill(&mut self) -> Result<(), Failed> {
        match self.reader.read(self.buffer.as_mut_slice()) {
            Ok(count) => {
                self.place = 0;
                self.filled = count;
                Ok(())
            }
            Err(_) => {
                self.faults = self.faults.saturating_add(1);
                Err(Failed)
            }
        }
    }

    fn consume(&mut self, count: usize) {
        self.place += count;
    }
}
