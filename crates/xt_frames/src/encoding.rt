ghost use Rattle.std.specs.Prelude.{◌≡◌, ◌≤◌, ◌++◌, length, OnOk, IfOk};
ghost use Rattle.xt_base.specs.declared.TheConstants.{FRAME};
ghost use Rattle.xt_messages.specs.Limits.{FitsMessage};
ghost use Rattle.xt_messages.specs.FrameLength.{frame_length};
ghost use Rattle.xt_fields.specs.BasicFields.{word_bytes};
ghost use Rattle.xt_frames.specs.Frames.{content_of, frame_of};

use crate::decoding::VERSION;
use crate::writing::{frame_kind, put_fields};
use std::alloc::Global;
use xt_base::{Octets, OutOfMemory};
use xt_fields::FieldWriter;
use xt_messages::Msg;
use xt_wire::WriteIds;

/// Room for most frames, in bytes: those of the longer ones make room for themselves.
const ROOM: usize = 256;

/// What comes after the length.
fn put_content(writer: &mut FieldWriter, msg: &Msg) -> Result<(), OutOfMemory>
    requires { FitsMessage msg.now }
    ensures { OnOk result (writer.new ≡ writer.old ++ content_of msg.now) }
{
    writer.byte(VERSION)?;
    writer.byte(frame_kind(msg.list, &msg.payload))?;
    writer.node(msg.from)?;
    writer.node(msg.to)?;
    put_fields(writer, msg.list, &msg.payload)
}

/// The one frame of a message within its limits.
pub fn encode(alloc: Global, msg: &Msg) -> Result<Octets, OutOfMemory>
    requires { FitsMessage msg.now }
    ensures frame { IfOk result (λ frame. frame ≡ frame_of msg.now) }
    ensures len { IfOk result (λ frame. length frame ≡ frame_length msg.now) }
    ensures short { IfOk result (λ frame. length frame ≤ FRAME) }
{
    let mut writer = FieldWriter::with_capacity(alloc, ROOM)?;
    // the length is known once the rest is written
    writer.word(0)?;
    put_content(&mut writer, msg)?;
    writer.set_length();
    let made = writer.finish()?;
    Ok(made)
}
