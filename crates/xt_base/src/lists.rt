ghost use Rattle.std.specs.Prelude.{◌≡◌, ◌++◌, ◌∷◌, ◌<◌, ℕ, List, [], length, slice_get, slice_index, IfOk, OnOk, OnErr, string_bytes};

use bytes::Bytes;
use std::alloc::{AllocError, Global};
use std::marker::Model;

/// No memory was left. The object that was to change is as it was.
pub type OutOfMemory = AllocError;

/// A value that can be made a second time.
pub trait Copies: Drop {
    /// An equal value.
    fn copy(&self, alloc: Global) -> Result<Self, OutOfMemory>
        ensures { IfOk result (λ made. made ≡ self.now) };
}

/// A list, which contracts see as one. Code may change its items in place.
#[derive(Drop)]
pub struct Seq<T> {
    pub items: Vec<T>,
}

impl<T> Model for Seq<T> {
    ghost Value = { List T };

    ghost view = { λ s. s.items.items };
}

impl<T> Seq<T> {
    /// The empty list.
    pub fn new(alloc: Global) -> Seq<T>
        ensures { result ≡ [] }
    {
        Seq {
            items: Vec::new(alloc),
        }
    }

    /// Appends an item.
    pub fn push(&mut self, item: T) -> Result<(), OutOfMemory>
    where
        T: Drop,
        ensures ok { OnOk result (self.new ≡ self.old ++ item ∷ []) }
        ensures err { OnErr result (self.new ≡ self.old) }
    {
        self.items.push(item)?;
        Ok(())
    }

    /// The items in order.
    pub fn as_slice(&self) -> &[T]
        ensures { result.now ≡ self.now }
    {
        self.items.as_slice()
    }

    /// How many there are.
    pub fn len(&self) -> usize
        ensures { result ≡ length self.now }
    {
        self.items.len()
    }
}

impl<T: Copies> Copies for Seq<T> {
    fn copy(&self, alloc: Global) -> Result<Seq<T>, OutOfMemory> {
        let mut made = Vec::with_capacity(alloc, self.items.len())?;
        for item in self.items.as_slice() {
            made.push(item.copy(alloc)?)?;
        }
        Ok(Seq { items: made })
    }
}

/// Bytes that may have several holders, which contracts see as a list. A copy is one more holder of the same bytes, and takes no
/// memory.
#[derive(Drop)]
pub struct Octets {
    bytes: Bytes,
}

impl Model for Octets {
    ghost Value = { List ℕ };

    ghost view = { λ o. o.bytes };
}

impl Octets {
    /// No bytes.
    pub fn new(_alloc: Global) -> Octets
        ensures { result ≡ [] }
    {
        Octets {
            bytes: Bytes::new(),
        }
    }

    /// These bytes.
    pub fn of(alloc: Global, bytes: &[u8]) -> Result<Octets, OutOfMemory>
        ensures { IfOk result (λ made. made ≡ bytes.now) }
    {
        Ok(Octets {
            bytes: Bytes::copy_from_slice(alloc, bytes)?,
        })
    }

    /// The bytes of a vector, which has one holder until here.
    pub fn from_vec(bytes: Vec<u8>) -> Result<Octets, OutOfMemory>
        ensures { IfOk result (λ made. made ≡ bytes.items) }
    {
        Ok(Octets {
            bytes: Bytes::from_vec(bytes)?,
        })
    }

    /// The bytes in order.
    pub fn as_slice(&self) -> &[u8]
        ensures { result.now ≡ self.now }
    {
        self.bytes.as_slice()
    }
}

impl Copies for Octets {
    fn copy(&self, _alloc: Global) -> Result<Octets, OutOfMemory> {
        Ok(Octets {
            bytes: self.bytes.clone()?,
        })
    }
}

/// Bytes of one holder, as a message that was joined of parts. Contracts see them as a list.
#[derive(Drop)]
pub struct Buffer {
    bytes: Vec<u8>,
}

impl Model for Buffer {
    ghost Value = { List ℕ };

    ghost view = { λ b. b.bytes.items };
}

impl Buffer {
    /// The bytes in order.
    pub fn as_slice(&self) -> &[u8]
        ensures { result.now ≡ self.now }
    {
        self.bytes.as_slice()
    }

    /// The same bytes, which can have several holders from here on.
    pub fn share(self) -> Result<Octets, OutOfMemory>
        ensures { IfOk result (λ made. made ≡ self) }
    {
        Octets::from_vec(self.bytes)
    }
}

impl From<Vec<u8>> for Buffer {
    ghost from_gives = { λ bytes made. made ≡ bytes.items };

    fn from(bytes: Vec<u8>) -> Buffer {
        Buffer { bytes }
    }
}

/// UTF-8 text, which contracts see as its bytes.
#[derive(Drop)]
pub struct Name {
    text: String,
}

impl Model for Name {
    ghost Value = { List ℕ };

    ghost view = { λ n. string_bytes n.text };
}

impl Name {
    /// This text.
    pub fn of(alloc: Global, text: &str) -> Result<Name, OutOfMemory>
        ensures { IfOk result (λ made. made ≡ text.now) }
    {
        Ok(Name {
            text: String::from_str(alloc, text)?,
        })
    }

    /// The text.
    pub fn as_str(&self) -> &str
        ensures { result.now ≡ self.now }
    {
        self.text.as_str()
    }
}

impl Copies for Name {
    fn copy(&self, alloc: Global) -> Result<Name, OutOfMemory> {
        Name::of(alloc, self.as_str())
    }
}

/// The words of a command.
#[derive(Drop)]
pub struct Words {
    words: Seq<Name>,
}

impl Model for Words {
    ghost Value = { List (List ℕ) };

    ghost view = { λ w. w.words };
}

impl Words {
    /// No words.
    pub fn new(alloc: Global) -> Words
        ensures { result ≡ [] }
    {
        Words {
            words: Seq::new(alloc),
        }
    }

    /// Appends a word.
    pub fn push(&mut self, alloc: Global, word: &str) -> Result<(), OutOfMemory>
        ensures ok { OnOk result (self.new ≡ self.old ++ word.now ∷ []) }
        ensures err { OnErr result (self.new ≡ self.old) }
    {
        self.words.push(Name::of(alloc, word)?)
    }

    /// The words in order.
    pub fn as_slice(&self) -> &[Name]
        ensures { result.now ≡ self.now }
    {
        self.words.as_slice()
    }
}

impl Copies for Words {
    fn copy(&self, alloc: Global) -> Result<Words, OutOfMemory> {
        Ok(Words {
            words: self.words.copy(alloc)?,
        })
    }
}
