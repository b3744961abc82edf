ghost use Rattle.std.specs.Prelude.{◌≤◌, length, IfOk};
ghost use Rattle.xt_base.specs.declared.TheConstants.{FRAME};

use anyhow::{Context, Result, ensure};
use std::alloc::Global;
use xt_base::{Boot, FRAME, NodeId, Octets};
use xt_parts::{Joiner, cut};

/// A message of so many bytes.
fn message_of(alloc: Global, size: usize) -> Result<Octets>
    ensures some { IfOk result (λ message. 1 ≤ length message) }
    ensures limit { IfOk result (λ message. length message ≤ FRAME) }
{
    ensure!(size >= 1 && size <= FRAME, "no message has {size} bytes");
    Ok(Octets::from_vec(vec![in alloc; 7u8; size]?)?)
}

/// Cuts a message so many times, and gives the bytes of all parts.
pub fn cut_times(alloc: Global, size: usize, times: u32) -> Result<u64> {
    let message = message_of(alloc, size)?;
    let mut bytes = 0u64;
    for number in 0..times {
        let parts = cut(
            alloc,
            NodeId(1),
            Boot(1),
            u64::from(number),
            message.as_slice(),
        )
        .context("cut")?;
        for part in &parts {
            bytes = bytes.saturating_add(part.as_slice().len() as u64);
        }
    }
    Ok(bytes)
}

/// Takes parts in order, and gives the length of the messages that are whole with them.
fn take_all(joiner: &mut Joiner, parts: &[Octets]) -> Result<u64> {
    let mut bytes = 0u64;
    for part in parts {
        if let Some(whole) = joiner.take(part.as_slice()).context("take")? {
            bytes = bytes.saturating_add(whole.bytes.as_slice().len() as u64);
        }
    }
    Ok(bytes)
}

/// Joins the parts of a message so many times, and gives the bytes of all messages.
pub fn join_times(alloc: Global, size: usize, times: u32) -> Result<u64> {
    let message = message_of(alloc, size)?;
    let parts = cut(alloc, NodeId(1), Boot(1), 1, message.as_slice()).context("cut")?;
    let mut joiner = Joiner::new(alloc);
    let mut bytes = 0u64;
    for _ in 0..times {
        let taken = take_all(&mut joiner, parts.as_slice())?;
        ensure!(taken == size as u64, "{taken} of {size} bytes were joined");
        bytes = bytes.saturating_add(taken);
    }
    Ok(bytes)
}
