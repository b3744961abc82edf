ghost use Rattle.std.specs.Prelude.{◌≡◌, ◌≤◌, ◌+◌, ◌||◌, ℕ, Bool, false, List, [], Option, Some, None, length, take, is_err, IfOk, OnOk, OnErr, IfSome, OnSome};
ghost use Rattle.std.specs.Vec.{vec_capacity};
ghost use Rattle.node_links.specs.Streams.{Puts, is_named, fitting, is_full};
ghost use Rattle.xt_base.specs.Faults.{Rose, fault_count_after};

use std::alloc::Global;
use std::io::Write;
use xt_base::{CallList, Failed, Octets, OutOfMemory};

/// A sink for bytes.
pub trait Sink {
    /// The bytes that it holds, where they are known.
    ghost held: { Self → Option (List ℕ) };

    /// How many bytes it has room for in all, where they are known.
    ghost room: { Self → ℕ };

    /// Whether a coming call is to fail, the next one being 1, where the bytes are known.
    ghost fails: { Self → ℕ → Bool };

    /// How often the sink has failed.
    ghost fault_count: { Self → ℕ };

    /// How often the sink has failed.
    fn faults(&self) -> u64
        ensures { result ≡ fault_count self.now };

    /// Puts the first bytes of the piece, as many as it likes, and says how many. To take nothing of a piece that
    /// isn't empty is a fault. After an `Err` nothing of the piece was put.
    fn put(&mut self, piece: &[u8]) -> Result<usize, Failed>
        ensures count { IfOk result (λ n. n ≤ length piece.now) }
        ensures bytes { IfOk result (λ n. Puts (held self.old) (held self.new) (take n piece.now)) }
        ensures some { IfOk result (λ n. n ≡ 0 → length piece.now ≡ 0) }
        ensures sound { OnOk result (fault_count self.new ≡ fault_count self.old) }
        ensures failed { OnErr result (Rose (fault_count self.old) (fault_count self.new)) }
        ensures kept { OnErr result (held self.new ≡ held self.old) }
        ensures faults { fault_count self.new ≡
            fault_count_after (is_err result) (fault_count self.old) }
        // Where the bytes are known, it takes as many as fit, and fails as planned or where there is no room.
        ensures most { IfOk result (λ n.
            IfSome (held self.old) (λ bytes. n ≡ fitting (room self.old) bytes piece.now)) }
        ensures plan { IfSome (held self.old)
            (λ bytes. is_err result ≡
            (fails self.old 1 || is_full (room self.old) bytes piece.now)) }
        ensures later { OnSome (held self.old) ((k : ℕ) →
            fails self.new k ≡ fails self.old (k + 1)) }
        ensures room { room self.new ≡ room self.old };
}

/// Room for bytes in memory. The calls that are named, counted from 1, fail, and so does a call that could take
/// nothing of a piece that isn't empty.
#[derive(Drop)]
pub struct MemorySink {
    bytes: Vec<u8>,
    room: usize,
    failing: CallList,
    calls: u64,
    faults: u64,
    ghost reserved: { room ≤ vec_capacity bytes },
}

impl MemorySink {
    /// A sink that takes `room` bytes in all, for which it takes the memory now.
    pub fn new(alloc: Global, room: u64, failing: CallList) -> Result<MemorySink, OutOfMemory>
        ensures bytes { IfOk result (λ sink. (sink.bytes.items ≡ []) × (sink.room ≡ room)) }
        ensures plan { IfOk result (λ sink. (sink.failing ≡ failing) × (sink.calls ≡ 0)) }
        ensures sound { IfOk result (λ sink. sink.faults ≡ 0) }
    {
        let room = room as usize;
        Ok(MemorySink {
            bytes: Vec::with_capacity(alloc, room)?,
            room,
            failing,
            calls: 0,
            faults: 0,
        })
    }

    /// The bytes that were put.
    pub fn as_slice(&self) -> &[u8]
        ensures { result.now ≡ self.now.bytes.items }
    {
        self.bytes.as_slice()
    }
}

impl Sink for MemorySink {
    ghost held = { λ s. Some s.bytes.items };

    ghost room = { λ s. s.room };

    ghost fails = { λ s k. is_named s.failing s.calls k };

    ghost fault_count = { λ s. s.faults };

    fn faults(&self) -> u64 {
        self.faults
    }

    fn put(&mut self, piece: &[u8]) -> Result<usize, Failed> {
        self.calls = self.calls.saturating_add(1);
        let count = self.room.saturating_sub(self.bytes.len()).min(piece.len());
        let fails = self.failing.as_slice().contains(&self.calls);
        if fails || (count == 0 && !piece.is_empty()) {
            self.faults = self.faults.saturating_add(1);
            return Err(Failed);
        }
        let _ = self.bytes.extend_from_slice(&piece[..count]);
        Ok(count)
    }
}

/// The standard output, or another real writer. What it took isn't known.
#[derive(Drop)]
pub struct StdoutSink<W: Write + Drop> {
    writer: W,
    faults: u64,
}

impl<W: Write + Drop> StdoutSink<W> {
    /// A sink that puts into the writer.
    pub fn new(writer: W) -> StdoutSink<W>
        ensures { result.faults ≡ 0 }
    {
        StdoutSink { writer, faults: 0 }
    }
}

impl<W: Write + Drop> Sink for StdoutSink<W> {
    ghost held = { λ _. None };

    ghost room = { λ _. 0 };

    ghost fails = { λ _ _. false };

    ghost fault_count = { λ s. s.faults };

    fn faults(&self) -> u64 {
        self.faults
    }

    fn put(&mut self, piece: &[u8]) -> Result<usize, Failed> {
        match self.writer.write(piece) {
            Ok(count) if count > 0 || piece.is_empty() => Ok(count),
            _ => {
                self.faults = self.faults.saturating_add(1);
                Err(Failed)
            }
        }
    }
}
