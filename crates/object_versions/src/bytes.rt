//! The bytes of an object: what a write makes of a body, and what a read shows of one.
ghost use Rattle.std.specs.Prelude.{◌≡◌, ◌++◌, ◌+◌, ◌<◌, ◌^◌, length, drop, OnOk, IfOk};
ghost use Rattle.xt_base.specs.Overlay.{zeros, overlay, cut_or_filled};
ghost use Rattle.xt_protocol.specs.Objects.{readable};

use std::alloc::Global;
use xt_base::{Copies, Octets, OutOfMemory};

/// Appends as many zeros.
fn push_zeros(bytes: &mut Vec<u8>, count: usize) -> Result<(), OutOfMemory>
    ensures { OnOk result (bytes.new.items ≡ bytes.old.items ++ zeros count) }
{
    for _place in 0..count {
        bytes.push(0)?;
    }
    Ok(())
}

/// The first `size` bytes, with zeros where there are fewer.
fn cut_or_filled(alloc: Global, bytes: &[u8], size: usize) -> Result<Octets, OutOfMemory>
    ensures { IfOk result (λ made. made ≡ cut_or_filled bytes.now size) }
{
    let kept = bytes.len().min(size);
    let mut made = Vec::from_slice(alloc, &bytes[..kept])?;
    push_zeros(&mut made, size.saturating_sub(bytes.len()))?;
    Octets::from_vec(made)
}

/// The old bytes with the new ones at a place; what lies between the old end and that place is zero.
fn overlaid(alloc: Global, old: &[u8], at: usize, new: &[u8]) -> Result<Octets, OutOfMemory>
    requires { at + length new.now < 2 ^ 64 }
    ensures { IfOk result (λ made. made ≡ overlay old.now at new.now) }
{
    let front = old.len().min(at);
    let behind = old.len().min(at + new.len());
    let mut made = Vec::with_capacity(alloc, old.len().max(at + new.len()))?;
    made.extend_from_slice(&old[..front])?;
    push_zeros(&mut made, at.saturating_sub(old.len()))?;
    made.extend_from_slice(new)?;
    made.extend_from_slice(&old[behind..])?;
    Octets::from_vec(made)
}

/// The same of a body that is written. New bytes over the whole of it are a holder more of these bytes.
pub fn overlay(alloc: Global, old: &Octets, at: usize, new: &Octets) -> Result<Octets, OutOfMemory>
    requires { at + length new.now < 2 ^ 64 }
    ensures { IfOk result (λ made. made ≡ overlay old.now at new.now) }
{
    if at == 0 && old.as_slice().len() <= new.as_slice().len() {
        return new.copy(alloc);
    }
    overlaid(alloc, old.as_slice(), at, new.as_slice())
}

/// The bytes from a place on.
fn behind(bytes: &[u8], at: usize) -> &[u8]
    ensures { result.now ≡ drop at bytes.now }
{
    let at = bytes.len().min(at);
    &bytes[at..]
}

/// So many bytes of a body from a place on, with zeros where it has fewer. The whole body is shown as it is.
#[tactic(auto, using(crate::proofs::WholeBodies::all_shown))]
pub fn shown(alloc: Global, body: Octets, at: usize, size: usize) -> Result<Octets, OutOfMemory>
    ensures { IfOk result (λ made. made ≡ cut_or_filled (drop at body) size) }
{
    if at == 0 && size == body.as_slice().len() {
        return Ok(body);
    }
    cut_or_filled(alloc, behind(body.as_slice(), at), size)
}

/// How many bytes of an object's range lie inside a file of this size.
pub fn readable(size: u64, stripe: u32, object: u64, at: u32, len: u32) -> u32
    ensures { result ≡ readable size stripe object at len }
{
    let place = u128::from(object) * u128::from(stripe) + u128::from(at);
    let left = u128::from(size).saturating_sub(place);
    if left < u128::from(len) {
        left as u32
    } else {
        len
    }
}
