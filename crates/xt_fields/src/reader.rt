ghost use Rattle.std.specs.Prelude.{◌≡◌, ◌≢◌, length, OnErr, OnOk, IfErr, IfOk, MatchOption, Ok, Err, true, false};
ghost use Rattle.std.specs.Str.{is_utf8};
ghost use Rattle.xt_fields.specs.Reading.{Takes, Tries};
ghost use Rattle.xt_fields.specs.declared.fault.FieldErr.TheVariants.{OutOfMemory, Short, Unfit};
ghost use Rattle.xt_fields.specs.BasicFields.{byte_at, half_at, word_at, long_at, count_at, raw_at, octets_at, text_at, within};

use crate::fault::FieldErr;
use std::alloc::Global;
use std::marker::Model;
use xt_base::{COUNTS, Name, Octets};

/// The bytes as text, where they are UTF-8.
fn text_of(bytes: &[u8]) -> Option<&str>
    ensures { MatchOption result (is_utf8 bytes.now ≡ false) (λ text. (text.now ≡ bytes.now)
        × (is_utf8 bytes.now ≡ true)) }
{
    match str::from_utf8(bytes) {
        Ok(text) => Some(text),
        Err(_) => None,
    }
}

/// Reads fields from the front of bytes. A field that is refused leaves the reader as it was, and what takes no
/// allocator never runs out of memory. Contracts see the bytes that are left.
#[derive(Drop)]
pub struct FieldReader<'a> {
    rest: &'a [u8],
}

impl<'a> Model for FieldReader<'a> {
    ghost use Rattle.std.specs.Prelude.{List, ℕ};

    ghost Value = { List ℕ };

    ghost view = { λ r. r.rest.now };
}

impl<'a> FieldReader<'a> {
    /// Reads these bytes.
    pub fn new(bytes: &'a [u8]) -> FieldReader<'a>
        ensures { result ≡ bytes.now }
    {
        FieldReader { rest: bytes }
    }

    /// A reader of the same bytes. A field is read by it first, so that a refused one leaves this reader as it was.
    pub fn ahead(&self) -> FieldReader<'a>
        ensures { result ≡ self.now }
    {
        FieldReader { rest: self.rest }
    }

    /// How many bytes are left.
    pub fn left(&self) -> usize
        ensures { result ≡ length self.now }
    {
        self.rest.len()
    }

    /// That all is read. `Unfit` exactly where bytes are left.
    pub fn end(&self) -> Result<(), FieldErr>
        ensures ok { OnOk result (length self.now ≡ 0) }
        ensures err { IfErr result (λ e. (e ≡ Unfit) × (length self.now ≢ 0)) }
    {
        if self.rest.is_empty() {
            Ok(())
        } else {
            Err(FieldErr::Unfit)
        }
    }

    /// A number of one byte. `Short` exactly where no byte is left; nothing is read then.
    #[tactic(auto, unfolding(crate::specs::BasicFields::byte_at))]
    pub fn byte(&mut self) -> Result<u8, FieldErr>
        ensures { Takes result self.old self.new (byte_at self.old) }
    {
        let Some((first, rest)) = self.rest.split_first() else {
            return Err(FieldErr::Short);
        };
        self.rest = rest;
        Ok(*first)
    }

    /// So many bytes. `Short` exactly where fewer are left; nothing is read then.
    #[tactic(auto, unfolding(crate::specs::BasicFields::raw_at))]
    pub fn raw(&mut self, count: usize) -> Result<&'a [u8], FieldErr>
        ensures short { IfErr result (λ e. (e ≡ Short) × (raw_at count self.old ≡ Err Short)) }
        ensures taken { IfOk result (λ bytes. raw_at count self.old ≡ Ok (bytes.now, self.new)) }
        ensures len { IfOk result (λ bytes. length bytes.now ≡ count) }
        ensures kept { OnErr result (self.new ≡ self.old) }
        ensures never { IfErr result (λ e. e ≢ OutOfMemory) }
    {
        if self.rest.len() < count {
            return Err(FieldErr::Short);
        }
        let (front, rest) = self.rest.split_at(count);
        self.rest = rest;
        Ok(front)
    }

    /// A number of two bytes. `Short` exactly where fewer are left; nothing is read then.
    #[tactic(auto, unfolding(crate::specs::BasicFields::half_at))]
    pub fn half(&mut self) -> Result<u16, FieldErr>
        ensures { Takes result self.old self.new (half_at self.old) }
    {
        if self.rest.len() < 2 {
            return Err(FieldErr::Short);
        }
        let (front, rest) = self.rest.split_at(2);
        self.rest = rest;
        Ok(u16::from_be_bytes([front[0], front[1]]))
    }

    /// A number of four bytes. `Short` exactly where fewer are left; nothing is read then.
    #[tactic(auto, unfolding(crate::specs::BasicFields::word_at))]
    pub fn word(&mut self) -> Result<u32, FieldErr>
        ensures { Takes result self.old self.new (word_at self.old) }
    {
        if self.rest.len() < 4 {
            return Err(FieldErr::Short);
        }
        let (front, rest) = self.rest.split_at(4);
        self.rest = rest;
        Ok(u32::from_be_bytes([front[0], front[1], front[2], front[3]]))
    }

    /// A number of eight bytes. `Short` exactly where fewer are left; nothing is read then.
    #[tactic(auto, unfolding(crate::specs::BasicFields::long_at))]
    pub fn long(&mut self) -> Result<u64, FieldErr>
        ensures { Takes result self.old self.new (long_at self.old) }
    {
        if self.rest.len() < 8 {
            return Err(FieldErr::Short);
        }
        let (front, rest) = self.rest.split_at(8);
        self.rest = rest;
        Ok(u64::from_be_bytes([
            front[0], front[1], front[2], front[3], front[4], front[5], front[6], front[7],
        ]))
    }

    /// A number of eight bytes below 2^62. After an error nothing is read.
    #[tactic(auto, unfolding(crate::specs::BasicFields::count_at))]
    pub fn count(&mut self) -> Result<u64, FieldErr>
        ensures { Takes result self.old self.new (count_at self.old) }
    {
        let mut ahead = self.ahead();
        let count = ahead.long()?;
        if count >= COUNTS {
            return Err(FieldErr::Unfit);
        }
        self.rest = ahead.rest;
        Ok(count)
    }

    /// A number of one byte from `low` to `high`. After an error nothing is read.
    pub fn byte_within(&mut self, low: u8, high: u8) -> Result<u8, FieldErr>
        ensures { Takes result self.old self.new (within low high byte_at self.old) }
    {
        let mut ahead = self.ahead();
        let value = ahead.byte()?;
        if value < low || high < value {
            return Err(FieldErr::Unfit);
        }
        self.rest = ahead.rest;
        Ok(value)
    }

    /// A number of four bytes from `low` to `high`. After an error nothing is read.
    pub fn word_within(&mut self, low: u32, high: u32) -> Result<u32, FieldErr>
        ensures { Takes result self.old self.new (within low high word_at self.old) }
    {
        let mut ahead = self.ahead();
        let value = ahead.word()?;
        if value < low || high < value {
            return Err(FieldErr::Unfit);
        }
        self.rest = ahead.rest;
        Ok(value)
    }

    /// The sixteen bytes of a volume's UUID.
    pub fn volume(&mut self) -> Result<[u8; 16], FieldErr>
        ensures { Takes result self.old self.new (raw_at 16 self.old) }
    {
        let bytes = self.raw(16)?;
        let mut volume = [0; 16];
        volume.copy_from_slice(bytes);
        Ok(volume)
    }

    /// The 32 bytes of a tag. `Short` exactly where fewer are left; nothing is read then.
    pub fn tag(&mut self) -> Result<[u8; 32], FieldErr>
        ensures { Takes result self.old self.new (raw_at 32 self.old) }
    {
        let bytes = self.raw(32)?;
        let mut tag = [0; 32];
        tag.copy_from_slice(bytes);
        Ok(tag)
    }

    /// Bytes after their length in four bytes. `Over` exactly where the length passes the limit, and else `Short`
    /// exactly where too few bytes are left; after an error nothing is read.
    #[tactic(auto, unfolding(crate::specs::BasicFields::octets_at))]
    pub fn octets(&mut self, alloc: Global, limit: u32) -> Result<Octets, FieldErr>
        ensures { Tries result self.old self.new (octets_at limit self.old) }
    {
        let mut ahead = self.ahead();
        let len = ahead.word()?;
        if len > limit {
            return Err(FieldErr::Over);
        }
        let octets = Octets::of(alloc, ahead.raw(len as usize)?)?;
        self.rest = ahead.rest;
        Ok(octets)
    }

    /// UTF-8 after its length in two bytes. `Over` exactly where the length passes the limit, else `Short` exactly where
    /// too few bytes are left, else `NotText` exactly where they aren't UTF-8; after an error nothing is read.
    #[tactic(auto, unfolding(crate::specs::BasicFields::text_at, crate::specs::BasicFields::utf8_at))]
    pub fn text(&mut self, alloc: Global, limit: u16) -> Result<Name, FieldErr>
        ensures { Tries result self.old self.new (text_at limit self.old) }
    {
        let mut ahead = self.ahead();
        let len = ahead.half()?;
        if len > limit {
            return Err(FieldErr::Over);
        }
        let Some(text) = text_of(ahead.raw(usize::from(len))?) else {
            return Err(FieldErr::NotText);
        };
        let name = Name::of(alloc, text)?;
        self.rest = ahead.rest;
        Ok(name)
    }
}
