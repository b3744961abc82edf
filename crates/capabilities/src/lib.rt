//! Capabilities: what the metadata server seals under a secret that it shares with the storage devices, and what
//! these test before they serve an ask.
//!
//! `hmac` is HMAC-SHA-256. `seal` puts in the tag of all fields before it, and `check` says of a use whether it is
//! denied, and by the first of four tests that it fails. `is_stop` recognizes the message that ends a served node.
#![tactic(auto)]

ghost use Rattle.std.specs.Prelude.{◌≡◌, ◌≤◌, ℕ, List, true, length, map, bit_xor, Ok, OnOk, IfOk, OnErr};
ghost use Rattle.std.specs.Str.{bytes_eq};
ghost use Rattle.capabilities.specs.Tags.{masked, hmac_of, tag_of, sealed, is_sealed};
ghost use Rattle.capabilities.specs.Denials.{denial_of, Judges};
ghost use Rattle.capabilities.specs.Stops.{is_stop};
ghost use Rattle.capabilities.specs.declared.CapErr.TheVariants.{OutOfMemory as no_memory};

use sha2::{Digest, Sha256};
use std::alloc::{AllocError, Global};
use std::marker::Model;
use xt_base::{FileId, Octets, OutOfMemory};
use xt_messages::{Capability, Denial, Payload};
use xt_wire::{FieldWriter, WriteFiles};

/// The bytes of a block of SHA-256.
const BLOCK: usize = 64;

/// What changes the key for the inner hash.
const INNER_PAD: u8 = 0x36;

/// What changes the key for the outer hash.
const OUTER_PAD: u8 = 0x5C;

/// Why a capability doesn't serve a use.
#[derive(Clone, Copy)]
pub enum CapErr {
    OutOfMemory,
    Denied { rule: Denial },
}

impl From<AllocError> for CapErr {
    ghost from_gives = { λ _ e. e ≡ no_memory };

    fn from(_e: AllocError) -> CapErr {
        CapErr::OutOfMemory
    }
}

/// Changes each byte by the pad.
fn mask(bytes: &mut [u8], pad: u8)
    ensures { bytes.new ≡ map (λ byte. bit_xor byte pad) bytes.old }
{
    for byte in bytes.iter_mut() {
        *byte ^= pad;
    }
}

/// The key, filled with zeros to a block, with each byte changed by the pad.
fn masked(key: &[u8], pad: u8) -> [u8; BLOCK]
    requires { length key.now ≤ 64 }
    ensures { result ≡ masked pad key.now }
{
    let mut block = [0; BLOCK];
    block[..key.len()].copy_from_slice(key);
    mask(&mut block, pad);
    block
}

/// The HMAC-SHA-256 of a message under a key of 1 to 64 bytes. It takes no memory, and so doesn't fail.
#[tactic(auto, unfolding(crate::specs::Tags::hmac_of))]
pub fn hmac(key: &[u8], message: &[u8]) -> Result<[u8; 32], OutOfMemory>
    requires some { 1 ≤ length key.now }
    requires short { length key.now ≤ 64 }
    ensures { result ≡ Ok (hmac_of key.now message.now) }
{
    let mut inner = Sha256::new();
    inner.update(&masked(key, INNER_PAD));
    inner.update(message);
    let mut outer = Sha256::new();
    outer.update(&masked(key, OUTER_PAD));
    outer.update(&inner.finalize());
    Ok(outer.finalize())
}

/// A key of 1 to 64 bytes, with what both hashes hold after its padding, which is hashed once. Contracts see the key.
#[derive(Drop)]
pub struct TagKey {
    key: Octets,
    inner: Sha256,
    outer: Sha256,
}

impl Model for TagKey {
    ghost use Rattle.std.specs.Prelude.{◌≤◌, ℕ, List, length};
    ghost use Rattle.sha2.specs.Hashers.{Holds256};
    ghost use Rattle.capabilities.specs.Tags.{masked};

    ghost Value = { List ℕ };

    ghost view = { λ k. k.key };

    ghost invariant = { λ k. (1 ≤ length k.key) × ((length k.key ≤ 64)
        × (Holds256 k.inner (masked 0x36 k.key) × Holds256 k.outer (masked 0x5C k.key))) };
}

impl TagKey {
    /// The key, ready for tags.
    pub fn new(alloc: Global, key: &[u8]) -> Result<TagKey, OutOfMemory>
        requires some { 1 ≤ length key.now }
        requires short { length key.now ≤ 64 }
        ensures { IfOk result (λ made. made ≡ key.now) }
    {
        let mut inner = Sha256::new();
        inner.update(&masked(key, INNER_PAD));
        let mut outer = Sha256::new();
        outer.update(&masked(key, OUTER_PAD));
        Ok(TagKey {
            key: Octets::of(alloc, key)?,
            inner,
            outer,
        })
    }

    /// The HMAC-SHA-256 of a message under the key.
    #[tactic(auto, unfolding(crate::specs::Tags::hmac_of))]
    pub fn tag(&self, message: &[u8]) -> Result<[u8; 32], OutOfMemory>
        ensures { IfOk result (λ tag. tag ≡ hmac_of self.now message.now) }
    {
        let mut inner = self.inner.clone()?;
        inner.update(message);
        let mut outer = self.outer.clone()?;
        outer.update(&inner.finalize());
        Ok(outer.finalize())
    }
}

/// The tag of a capability under the key.
fn tag_of(alloc: Global, key: &[u8], capability: &Capability) -> Result<[u8; 32], OutOfMemory>
    requires some { 1 ≤ length key.now }
    requires short { length key.now ≤ 64 }
    ensures { IfOk result (λ tag. tag ≡ tag_of key.now capability.now) }
{
    let mut fields = FieldWriter::new(alloc);
    fields.sealed(capability)?;
    hmac(key, fields.as_slice())
}

/// Whether two tags are one. It looks at each byte, also past the first that differs, so that the time it takes doesn't
/// reveal how many bytes were right. No proof speaks of time.
fn same_tag(one: &[u8; 32], other: &[u8; 32]) -> bool
    ensures { result ≡ bytes_eq one.now other.now }
{
    let mut differing = 0;
    for i in 0..32 {
        differing |= one[i] ^ other[i];
    }
    differing == 0
}

/// Puts the tag under the key, of 1 to 64 bytes, into the capability. The capability is unchanged if memory runs out.
pub fn seal(alloc: Global, key: &[u8], capability: &mut Capability) -> Result<(), OutOfMemory>
    requires some { 1 ≤ length key.now }
    requires short { length key.now ≤ 64 }
    ensures ok { OnOk result (capability.new ≡ sealed key.now capability.old) }
    ensures err { OnErr result (capability.new ≡ capability.old) }
{
    capability.tag = tag_of(alloc, key, capability)?;
    Ok(())
}

/// Whether a capability serves a use, a write or not, of a file at the clock `now`: `Denied` has the first test that
/// fails, in the order of the denials' numbers. The key has 1 to 64 bytes.
pub fn check(
    alloc: Global,
    key: &[u8],
    capability: &Capability,
    file: &FileId,
    now: u64,
    write: bool,
) -> Result<(), CapErr>
    requires some { 1 ≤ length key.now }
    requires short { length key.now ≤ 64 }
    ensures { Judges result (denial_of key.now capability.now file.now now write) }
{
    let tag = tag_of(alloc, key, capability)?;
    let rule = if !same_tag(&capability.tag, &tag) {
        Denial::Tag
    } else if capability.file != *file {
        Denial::File
    } else if now > capability.expiry {
        Denial::Expired
    } else if write && capability.mode == 1 {
        Denial::Mode
    } else {
        return Ok(());
    };
    Err(CapErr::Denied { rule })
}

/// Whether a message ends a served node: a Stop whose tag is that of the word `stop` under the key, of 1 to 64 bytes.
pub fn is_stop(key: &[u8], payload: &Payload) -> Result<bool, OutOfMemory>
    requires some { 1 ≤ length key.now }
    requires short { length key.now ≤ 64 }
    ensures { result ≡ Ok (is_stop key.now payload.now) }
{
    match payload {
        Payload::Stop { tag } => Ok(same_tag(tag, &hmac(key, b"stop")?)),
        _ => Ok(false),
    }
}

/// What was sealed has its tag, so that no check under the same key denies it for that.
pub fn what_is_sealed_has_its_tag()
    ensures { (key : List ℕ) (capability : Capability) →
        is_sealed key (sealed key capability) ≡ true }
{}
