ghost use Rattle.std.specs.Prelude.{◌≡◌, ◌<◌, ◌^◌, ◌++◌, length, OnOk};
ghost use Rattle.xt_messages.specs.Limits.{FitsReply};
ghost use Rattle.xt_fields.specs.Reading.{Gives, Takes, Tries};
ghost use Rattle.xt_fields.specs.BasicFields.{byte_bytes, word_bytes, long_bytes, octets_bytes};
ghost use Rattle.xt_wire.specs.IdFields.{node_bytes, mark_bytes};
ghost use Rattle.xt_frames.specs.ReplyFields.{denial_at, denial_arms, denial_bytes, reply_at, reply_arms, reply_bytes, ok_reply_at, no_majority_at, elsewhere_at};

use std::alloc::Global;
use xt_base::{BODY, NodeId, OutOfMemory, SizeMark};
use xt_fields::{FieldErr, FieldReader, FieldWriter};
use xt_messages::{Denial, Reply};
use xt_wire::{ReadFiles, ReadIds, WriteIds};

/// The longest `bytes` field, in bytes.
const BODY_LIMIT: u32 = BODY as u32;

/// Reads replies of an OSD. One that is refused leaves the reader as it was.
pub trait ReadReplies {
    /// Why an ask is denied.
    fn denial(&mut self) -> Result<Denial, FieldErr>;

    /// A reply.
    fn reply(&mut self, alloc: Global) -> Result<Reply, FieldErr>;
}

/// The rule of this number.
#[tactic(auto, unfolding(crate::specs::ReplyFields::denial_arms))]
fn denial_arm(fields: &mut FieldReader<'_>, number: u8) -> Result<Denial, FieldErr>
    ensures { Takes result fields.old fields.new (denial_arms number fields.old) }
{
    match number {
        1 => Ok(Denial::Tag),
        2 => Ok(Denial::File),
        3 => Ok(Denial::Expired),
        4 => Ok(Denial::Mode),
        5 => Ok(Denial::List),
        6 => Ok(Denial::Range),
        _ => Err(FieldErr::Unfit),
    }
}

/// The reply of this number.
#[tactic(auto, unfolding(crate::specs::ReplyFields::reply_arms, crate::specs::ReplyFields::no_lease_at, crate::specs::ReplyFields::denied_at, crate::specs::ReplyFields::old_list_at, crate::specs::ReplyFields::old_epoch_at, crate::specs::ReplyFields::too_far_at))]
fn reply_arm(fields: &mut FieldReader<'_>, number: u8, alloc: Global) -> Result<Reply, FieldErr>
    ensures { Gives result fields.new (reply_arms number fields.old) }
{
    match number {
        1 => ok_reply(fields, alloc),
        2 => Ok(Reply::NoLease {
            end: fields.long()?,
        }),
        3 => no_majority(fields),
        4 => elsewhere(fields),
        5 => Ok(Reply::Denied {
            rule: fields.denial()?,
        }),
        6 => Ok(Reply::OldList {
            version: fields.version()?,
        }),
        7 => Ok(Reply::OldEpoch {
            epoch: fields.count()?,
        }),
        8 => Ok(Reply::TooFar {
            object: fields.long()?,
        }),
        9 => Ok(Reply::ClientsFull),
        _ => Err(FieldErr::Unfit),
    }
}

/// That the operation is done.
#[tactic(auto, unfolding(crate::specs::ReplyFields::ok_reply_at))]
fn ok_reply(fields: &mut FieldReader<'_>, alloc: Global) -> Result<Reply, FieldErr>
    ensures { Gives result fields.new (ok_reply_at fields.old) }
{
    let count = fields.count()?;
    let mark = fields.mark()?;
    let bytes = fields.octets(alloc, BODY_LIMIT)?;
    Ok(Reply::Ok { count, mark, bytes })
}

/// That too few acknowledgements came in time.
#[tactic(auto, unfolding(crate::specs::ReplyFields::no_majority_at))]
fn no_majority(fields: &mut FieldReader<'_>) -> Result<Reply, FieldErr>
    ensures { Gives result fields.new (no_majority_at fields.old) }
{
    let have = fields.byte()?;
    let need = fields.byte()?;
    Ok(Reply::NoMajority { have, need })
}

/// That another node holds the lease.
#[tactic(auto, unfolding(crate::specs::ReplyFields::elsewhere_at))]
fn elsewhere(fields: &mut FieldReader<'_>) -> Result<Reply, FieldErr>
    ensures { Gives result fields.new (elsewhere_at fields.old) }
{
    let node = fields.node()?;
    let end = fields.long()?;
    Ok(Reply::Elsewhere { node, end })
}

impl ReadReplies for FieldReader<'_> {
    #[tactic(auto, unfolding(crate::specs::ReplyFields::denial_at))]
    fn denial(&mut self) -> Result<Denial, FieldErr>
        ensures { Takes result self.old self.new (denial_at self.old) }
    {
        let mut ahead = self.ahead();
        let number = ahead.byte()?;
        let denial = denial_arm(&mut ahead, number)?;
        *self = ahead;
        Ok(denial)
    }

    #[tactic(auto, unfolding(crate::specs::ReplyFields::reply_at))]
    fn reply(&mut self, alloc: Global) -> Result<Reply, FieldErr>
        ensures { Tries result self.old self.new (reply_at self.old) }
    {
        let mut ahead = self.ahead();
        let number = ahead.byte()?;
        let reply = reply_arm(&mut ahead, number, alloc)?;
        *self = ahead;
        Ok(reply)
    }
}

/// Writes replies of an OSD.
pub trait WriteReplies {
    /// Why an ask is denied.
    fn denial(&mut self, denial: Denial) -> Result<(), OutOfMemory>;

    /// A reply.
    fn reply(&mut self, reply: &Reply) -> Result<(), OutOfMemory>
        requires { FitsReply reply.now };
}

/// That the operation is done.
fn put_ok_reply(
    fields: &mut FieldWriter,
    count: u64,
    mark: SizeMark,
    bytes: &[u8],
) -> Result<(), OutOfMemory>
    requires { length bytes.now < 2 ^ 32 }
    ensures { OnOk result (fields.new ≡ fields.old
        ++ (byte_bytes 1 ++ long_bytes count ++ mark_bytes mark ++ octets_bytes bytes.now)) }
{
    fields.byte(1)?;
    fields.long(count)?;
    fields.mark(mark)?;
    fields.octets(bytes)
}

/// The number of a reply or an answer, and a value.
pub(crate) fn put_long(fields: &mut FieldWriter, number: u8, value: u64) -> Result<(), OutOfMemory>
    ensures { OnOk result (fields.new ≡ fields.old ++ (byte_bytes number ++ long_bytes value)) }
{
    fields.byte(number)?;
    fields.long(value)
}

/// That too few acknowledgements came in time.
fn put_no_majority(fields: &mut FieldWriter, have: u8, need: u8) -> Result<(), OutOfMemory>
    ensures { OnOk result (fields.new ≡ fields.old
        ++ (byte_bytes 3 ++ byte_bytes have ++ byte_bytes need)) }
{
    fields.byte(3)?;
    fields.byte(have)?;
    fields.byte(need)
}

/// That another node holds the lease.
fn put_elsewhere(fields: &mut FieldWriter, node: NodeId, end: u64) -> Result<(), OutOfMemory>
    ensures { OnOk result (fields.new ≡ fields.old
        ++ (byte_bytes 4 ++ node_bytes node ++ long_bytes end)) }
{
    fields.byte(4)?;
    fields.node(node)?;
    fields.long(end)
}

/// The number of a reply or a refusal, and why it is denied.
pub(crate) fn put_denied(
    fields: &mut FieldWriter,
    number: u8,
    rule: Denial,
) -> Result<(), OutOfMemory>
    ensures { OnOk result (fields.new ≡ fields.old ++ (byte_bytes number ++ denial_bytes rule)) }
{
    fields.byte(number)?;
    fields.denial(rule)
}

/// That the list is older.
fn put_old_list(fields: &mut FieldWriter, version: u32) -> Result<(), OutOfMemory>
    ensures { OnOk result (fields.new ≡ fields.old ++ (byte_bytes 6 ++ word_bytes version)) }
{
    fields.byte(6)?;
    fields.word(version)
}

impl WriteReplies for FieldWriter {
    fn denial(&mut self, denial: Denial) -> Result<(), OutOfMemory>
        ensures { OnOk result (self.new ≡ self.old ++ denial_bytes denial) }
    {
        self.byte(match denial {
            Denial::Tag => 1,
            Denial::File => 2,
            Denial::Expired => 3,
            Denial::Mode => 4,
            Denial::List => 5,
            Denial::Range => 6,
        })
    }

    fn reply(&mut self, reply: &Reply) -> Result<(), OutOfMemory>
        requires { FitsReply reply.now }
        ensures { OnOk result (self.new ≡ self.old ++ reply_bytes reply.now) }
    {
        match reply {
            Reply::Ok { count, mark, bytes } => put_ok_reply(self, *count, *mark, bytes.as_slice()),
            Reply::NoLease { end } => put_long(self, 2, *end),
            Reply::NoMajority { have, need } => put_no_majority(self, *have, *need),
            Reply::Elsewhere { node, end } => put_elsewhere(self, *node, *end),
            Reply::Denied { rule } => put_denied(self, 5, *rule),
            Reply::OldList { version } => put_old_list(self, *version),
            Reply::OldEpoch { epoch } => put_long(self, 7, *epoch),
            Reply::TooFar { object } => put_long(self, 8, *object),
            Reply::ClientsFull => self.byte(9),
        }
    }
}
