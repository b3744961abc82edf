ghost use Rattle.std.specs.Prelude.{◌≡◌, ◌<◌, ◌≤◌, ◌^◌, ◌++◌, [], length, drop, IfOk, OnOk, OnErr};
ghost use Rattle.xt_fields.specs.BasicFields.{byte_bytes, half_bytes, word_bytes, long_bytes, octets_bytes, text_bytes};

use bytes::BufMut;
use std::alloc::Global;
use std::marker::Model;
use xt_base::{Octets, OutOfMemory};

/// Writes fields one after the other. Contracts see the bytes that are written.
#[derive(Drop)]
pub struct FieldWriter {
    bytes: Vec<u8>,
}

impl Model for FieldWriter {
    ghost use Rattle.std.specs.Prelude.{List, ℕ};

    ghost Value = { List ℕ };

    ghost view = { λ w. w.bytes.items };
}

/// Writes a number over the first four bytes.
fn put_front(bytes: &mut [u8], word: u32)
    requires { 4 ≤ length bytes.old }
    ensures { bytes.new ≡ word_bytes word ++ drop 4 bytes.old }
{
    let [first, second, third, fourth] = word.to_be_bytes();
    bytes[0] = first;
    bytes[1] = second;
    bytes[2] = third;
    bytes[3] = fourth;
}

impl FieldWriter {
    /// No bytes.
    pub fn new(alloc: Global) -> FieldWriter
        ensures { result ≡ [] }
    {
        FieldWriter {
            bytes: Vec::new(alloc),
        }
    }

    /// No bytes, with room for so many, so that the first fields move none that were written.
    pub fn with_capacity(alloc: Global, room: usize) -> Result<FieldWriter, OutOfMemory>
        ensures { IfOk result (λ writer. writer ≡ []) }
    {
        Ok(FieldWriter {
            bytes: Vec::with_capacity(alloc, room)?,
        })
    }

    /// A number of one byte.
    pub fn byte(&mut self, value: u8) -> Result<(), OutOfMemory>
        ensures ok { OnOk result (self.new ≡ self.old ++ byte_bytes value) }
        ensures err { OnErr result (self.new ≡ self.old) }
    {
        self.bytes.put_u8(value)
    }

    /// A number of two bytes.
    #[tactic(auto, unfolding(crate::specs::BasicFields::half_bytes))]
    pub fn half(&mut self, value: u16) -> Result<(), OutOfMemory>
        ensures ok { OnOk result (self.new ≡ self.old ++ half_bytes value) }
        ensures err { OnErr result (self.new ≡ self.old) }
    {
        self.bytes.put_u16(value)
    }

    /// A number of four bytes.
    #[tactic(auto, unfolding(crate::specs::BasicFields::word_bytes))]
    pub fn word(&mut self, value: u32) -> Result<(), OutOfMemory>
        ensures ok { OnOk result (self.new ≡ self.old ++ word_bytes value) }
        ensures err { OnErr result (self.new ≡ self.old) }
    {
        self.bytes.put_u32(value)
    }

    /// A number of eight bytes.
    #[tactic(auto, unfolding(crate::specs::BasicFields::long_bytes))]
    pub fn long(&mut self, value: u64) -> Result<(), OutOfMemory>
        ensures ok { OnOk result (self.new ≡ self.old ++ long_bytes value) }
        ensures err { OnErr result (self.new ≡ self.old) }
    {
        self.bytes.put_u64(value)
    }

    /// These bytes alone.
    pub fn raw(&mut self, bytes: &[u8]) -> Result<(), OutOfMemory>
        ensures ok { OnOk result (self.new ≡ self.old ++ bytes.now) }
        ensures err { OnErr result (self.new ≡ self.old) }
    {
        self.bytes.put_slice(bytes)
    }

    /// The 32 bytes of a tag.
    pub fn tag(&mut self, tag: [u8; 32]) -> Result<(), OutOfMemory>
        ensures ok { OnOk result (self.new ≡ self.old ++ tag) }
        ensures err { OnErr result (self.new ≡ self.old) }
    {
        self.raw(&tag)
    }

    /// Bytes after their length in four bytes.
    #[tactic(auto, unfolding(crate::specs::BasicFields::word_bytes))]
    pub fn octets(&mut self, value: &[u8]) -> Result<(), OutOfMemory>
        requires { length value.now < 2 ^ 32 }
        ensures ok { OnOk result (self.new ≡ self.old ++ octets_bytes value.now) }
        ensures err { OnErr result (self.new ≡ self.old) }
    {
        // with the room for both nothing fails between them
        self.bytes.reserve(4 + value.len())?;
        self.bytes.put_u32(value.len() as u32)?;
        self.bytes.put_slice(value)
    }

    /// UTF-8 after its length in two bytes.
    #[tactic(auto, unfolding(crate::specs::BasicFields::half_bytes))]
    pub fn text(&mut self, value: &str) -> Result<(), OutOfMemory>
        requires { length value.now < 2 ^ 16 }
        ensures ok { OnOk result (self.new ≡ self.old ++ text_bytes value.now) }
        ensures err { OnErr result (self.new ≡ self.old) }
    {
        self.bytes.reserve(2 + value.len())?;
        self.bytes.put_u16(value.len() as u16)?;
        self.bytes.put_slice(value.as_bytes())
    }

    /// Writes the number of all bytes over the first four.
    pub fn set_length(&mut self)
        requires long { 4 ≤ length self.old }
        requires short { length self.old < 2 ^ 32 }
        ensures { self.new ≡ word_bytes (length self.old) ++ drop 4 self.old }
    {
        let length = self.bytes.len() as u32;
        put_front(&mut self.bytes, length);
    }

    /// The bytes.
    pub fn finish(self) -> Result<Octets, OutOfMemory>
        ensures { IfOk result (λ made. made ≡ self) }
    {
        Octets::from_vec(self.bytes)
    }

    /// The bytes so far.
    pub fn as_slice(&self) -> &[u8]
        ensures { result.now ≡ self.now }
    {
        self.bytes.as_slice()
    }
}
