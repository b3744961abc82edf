ghost use Rattle.std.specs.Prelude.{◌≡◌, ℕ, ◌++◌, List, length, IfOk, Ok};
ghost use Rattle.xt_messages.specs.Limits.{FitsMessage};
ghost use Rattle.xt_messages.specs.declared.message.Msg.{Msg};
ghost use Rattle.xt_frames.specs.Frames.{frame_of};
ghost use Rattle.xt_frames.specs.Decoding.{Gives, is_kind, part_of, head_at, message_of, decoded};

use crate::fault::FrameErr;
use crate::reading::message;
use std::alloc::Global;
use xt_base::FRAME;
use xt_fields::FieldReader;
use xt_messages::Msg;

/// The version of frames.
pub(crate) const VERSION: u8 = 2;

/// The shortest frame could have no fields.
const SHORTEST: usize = 14;

/// What comes after the length of the frame at the front.
#[tactic(auto, unfolding(crate::specs::Decoding::part_of, crate::specs::Decoding::first_word, crate::specs::Decoding::cut_of))]
fn part_of(bytes: &[u8]) -> Result<&[u8], FrameErr>
    ensures { Gives (λ part. part.now) result (part_of bytes.now) }
{
    if bytes.len() < 4 {
        return Err(FrameErr::Truncated);
    }
    let len = FieldReader::new(bytes).word()? as usize;
    if len > FRAME {
        return Err(FrameErr::TooLong);
    }
    if bytes.len() < len {
        return Err(FrameErr::Truncated);
    }
    if len < SHORTEST {
        return Err(FrameErr::Field);
    }
    Ok(&bytes[4..len])
}

/// Whether a kind has this number.
fn is_kind(kind: u8) -> bool
    ensures { result ≡ is_kind kind }
{
    (1 <= kind && kind <= 24) || (32 <= kind && kind <= 39)
}

/// The kind, after the version.
#[tactic(auto, unfolding(crate::specs::Decoding::head_at, crate::specs::Decoding::kind_at))]
fn kind_of(reader: &mut FieldReader<'_>) -> Result<u8, FrameErr>
    ensures { Gives (λ kind. (kind, reader.new)) result (head_at reader.old) }
{
    let version = reader.byte()?;
    if version != VERSION {
        return Err(FrameErr::Version);
    }
    let kind = reader.byte()?;
    if !is_kind(kind) {
        return Err(FrameErr::Kind);
    }
    Ok(kind)
}

/// The message that comes after the length of a frame.
#[tactic(auto, unfolding(crate::specs::Decoding::message_of))]
fn message_of(alloc: Global, part: &[u8]) -> Result<Msg, FrameErr>
    ensures { Gives (λ msg. msg) result (message_of part.now) }
{
    let mut reader = FieldReader::new(part);
    let kind = kind_of(&mut reader)?;
    let msg = message(&mut reader, alloc, kind)?;
    reader.end()?;
    Ok(msg)
}

/// The message at the front and the length of its frame, or the first fault.
#[tactic(auto, unfolding(crate::specs::Decoding::decoded))]
fn first_frame(alloc: Global, bytes: &[u8]) -> Result<(Msg, usize), FrameErr>
    ensures { Gives (λ x. x) result (decoded bytes.now) }
{
    let part = part_of(bytes)?;
    let msg = message_of(alloc, part)?;
    Ok((msg, 4 + part.len()))
}

/// The message at the front of the bytes and the length of its frame. Bytes may follow it.
///
/// `Truncated`, `TooLong`, `Version`, `Kind` and `Field` are given exactly as `decoded` says, in its order.
pub fn decode(alloc: Global, bytes: &[u8]) -> Result<(Msg, usize), FrameErr>
    // What is read is a message within its limits, whose frame stands at the front.
    ensures found { IfOk result (λ x. FitsMessage x.0 × (x.1 ≡ length (frame_of x.0))
        × ((rest : List ℕ) × (bytes.now ≡ frame_of x.0 ++ rest))) }
    // A frame at the front is read, whatever follows it, unless memory runs out.
    ensures only { (msg : Msg) (rest : List ℕ) → FitsMessage msg →
        bytes.now ≡ frame_of msg ++ rest → Gives (λ x. x) result (Ok (msg, length (frame_of msg))) }
    // Which fault it is.
    ensures exact { Gives (λ x. x) result (decoded bytes.now) }
{
    first_frame(alloc, bytes)
}
