ghost use Rattle.std.specs.Prelude.{IfOk};
ghost use Rattle.xt_messages.specs.Limits.{FitsMessage};

use anyhow::{Context, Result, ensure};
use std::alloc::Global;
use xt_base::{BODY, Epoch, FileId, NodeId, Octets, Stamp, VolumeId};
use xt_frames::{decode, encode};
use xt_messages::{Msg, Payload};

/// A message that sends an object of so many bytes.
fn object_of(alloc: Global, size: usize) -> Result<Msg>
    ensures { IfOk result (λ msg. FitsMessage msg) }
{
    ensure!(size <= BODY, "{size} bytes don't fit a message");
    let epoch = Epoch {
        number: 1,
        node: NodeId(1),
    };
    Ok(Msg {
        from: NodeId(1),
        to: NodeId(2),
        list: 1,
        payload: Payload::Object {
            file: FileId {
                volume: VolumeId::NIL,
                number: 1,
            },
            epoch,
            object: 0,
            version: Stamp { epoch, count: 1 },
            bytes: Octets::from_vec(vec![in alloc; 7u8; size]?)?,
        },
    })
}

/// Makes the frame of this message so many times, and gives the bytes of all.
fn encode_each(alloc: Global, msg: &Msg, times: u32) -> Result<u64>
    requires { FitsMessage msg.now }
{
    let mut bytes = 0u64;
    for _ in 0..times {
        let frame = encode(alloc, msg).context("encode")?;
        bytes = bytes.saturating_add(frame.as_slice().len() as u64);
    }
    Ok(bytes)
}

/// Makes the frame of a message so many times, and gives the bytes of all.
pub fn encode_times(alloc: Global, size: usize, times: u32) -> Result<u64> {
    let msg = object_of(alloc, size)?;
    let bytes = encode_each(alloc, &msg, times);
    drop(msg);
    bytes
}

/// The frame of a message.
fn frame_of(alloc: Global, size: usize) -> Result<Octets> {
    let msg = object_of(alloc, size)?;
    let frame = encode(alloc, &msg);
    drop(msg);
    frame.context("encode")
}

/// Reads a frame, and gives how many bytes it has.
fn length_read(alloc: Global, frame: &[u8]) -> Result<usize> {
    let (msg, len) = decode(alloc, frame).context("decode")?;
    drop(msg);
    Ok(len)
}

/// Reads the frame of a message so many times, and gives the bytes of all.
pub fn decode_times(alloc: Global, size: usize, times: u32) -> Result<u64> {
    let frame = frame_of(alloc, size)?;
    let mut bytes = 0u64;
    for _ in 0..times {
        bytes = bytes.saturating_add(length_read(alloc, frame.as_slice())? as u64);
    }
    Ok(bytes)
}
