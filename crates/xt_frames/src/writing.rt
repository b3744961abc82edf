ghost use Rattle.std.specs.Prelude.{◌≡◌, ◌<◌, ◌^◌, ◌++◌, length, OnOk};
ghost use Rattle.xt_messages.specs.Limits.{FitsHead, FitsUpdate, FitsOp, FitsReply, FitsMetaReq, FitsMetaAnswer, FitsRegistryReq, FitsRegistryAnswer, FitsPayload};
ghost use Rattle.xt_fields.specs.BasicFields.{byte_bytes, word_bytes, long_bytes, octets_bytes};
ghost use Rattle.xt_wire.specs.IdFields.{node_bytes, boot_bytes, file_bytes, ballot_bytes, epoch_bytes, stamp_bytes, lease_bytes, report_bytes};
ghost use Rattle.xt_wire.specs.FileFields.{location_bytes, capability_bytes, op_bytes, update_bytes, head_bytes};
ghost use Rattle.xt_frames.specs.ReplyFields.{reply_bytes};
ghost use Rattle.xt_wire.specs.MetaFields.{meta_req_bytes};
ghost use Rattle.xt_frames.specs.MetaAnswers.{meta_answer_bytes};
ghost use Rattle.xt_wire.specs.RegistryFields.{registry_req_bytes};
ghost use Rattle.xt_frames.specs.RegistryAnswers.{registry_answer_bytes};
ghost use Rattle.xt_frames.specs.Frames.{kind_of, payload_bytes, frame_kind, frame_fields};

use crate::answers::WriteAnswers;
use crate::reading::{FIRST_LIST, LATER_LIST};
use crate::reply::WriteReplies;
use xt_base::{Ballot, Boot, Epoch, FileId, Lease, NodeId, OutOfMemory, Stamp};
use xt_fields::FieldWriter;
use xt_messages::{
    Capability, FileHead, Location, MetaAnswer, MetaReq, Op, Payload, RegistryAnswer, RegistryReq,
    Reply, Update,
};
use xt_wire::{WriteFiles, WriteIds, WriteRequests};

/// The number of a payload's kind.
fn kind(payload: &Payload) -> u8
    ensures { result ≡ kind_of payload.now }
{
    match payload {
        Payload::Read { .. } => 1,
        Payload::Promise { .. } => 2,
        Payload::Write { .. } => 3,
        Payload::Accepted { .. } => 4,
        Payload::Outrun { .. } => 5,
        Payload::Gather { .. } => 6,
        Payload::Status { .. } => 7,
        Payload::Fetch { .. } => 8,
        Payload::Object { .. } => 9,
        Payload::Stage { .. } => 10,
        Payload::Staged { .. } => 11,
        Payload::Head { .. } => 12,
        Payload::Update { .. } => 13,
        Payload::Ack { .. } => 14,
        Payload::Refused { .. } => 15,
        Payload::Behind { .. } => 16,
        Payload::Missing { .. } => 17,
        Payload::Ask { .. } => 18,
        Payload::Reply { .. } => 19,
        Payload::Meta { .. } => 20,
        Payload::MetaReply { .. } => 21,
        Payload::Registry { .. } => 22,
        Payload::RegistryReply { .. } => 23,
        Payload::Stop { .. } => 24,
        Payload::Close { .. } => 33,
        Payload::Closed { .. } => 34,
        Payload::Install { .. } => 35,
        Payload::Installed { .. } => 36,
        Payload::Pull { .. } => 37,
        Payload::Pulled { .. } => 38,
        Payload::Wanted { .. } => 39,
    }
}

/// The number of a frame's kind.
pub(crate) fn frame_kind(list: u32, payload: &Payload) -> u8
    ensures { result ≡ frame_kind list payload.now }
{
    if list == FIRST_LIST {
        kind(payload)
    } else {
        LATER_LIST
    }
}

/// The fields of a frame.
pub(crate) fn put_fields(
    writer: &mut FieldWriter,
    list: u32,
    payload: &Payload,
) -> Result<(), OutOfMemory>
    requires { FitsPayload payload.now }
    ensures { OnOk result (writer.new ≡ writer.old ++ frame_fields list payload.now) }
{
    if list == FIRST_LIST {
        return put_payload(writer, payload);
    }
    writer.word(list)?;
    writer.byte(kind(payload))?;
    put_payload(writer, payload)
}

/// The fields of a payload.
fn put_payload(writer: &mut FieldWriter, payload: &Payload) -> Result<(), OutOfMemory>
    requires { FitsPayload payload.now }
    ensures { OnOk result (writer.new ≡ writer.old ++ payload_bytes payload.now) }
{
    match payload {
        Payload::Read { file, ballot } => put_ballot(writer, *file, *ballot),
        Payload::Promise {
            file,
            ballot,
            boot,
            report,
        } => put_promise(writer, *file, *ballot, *boot, *report),
        Payload::Write {
            file,
            ballot,
            boot,
            lease,
        } => put_write(writer, *file, *ballot, *boot, *lease),
        Payload::Accepted { file, ballot, boot } => put_boot(writer, *file, *ballot, *boot),
        Payload::Outrun { file, ballot, seen } => put_outrun(writer, *file, *ballot, *seen),
        Payload::Gather { file, epoch } => put_epoch(writer, *file, *epoch),
        Payload::Status { file, epoch, head } | Payload::Head { file, epoch, head } => put_head(
            writer, *file, *epoch, head,
        ),
        Payload::Fetch {
            file,
            epoch,
            object,
            version,
        }
        | Payload::Staged {
            file,
            epoch,
            object,
            version,
        }
        | Payload::Missing {
            file,
            epoch,
            object,
            version,
        } => put_version(writer, *file, *epoch, *object, *version),
        Payload::Object {
            file,
            epoch,
            object,
            version,
            bytes,
        }
        | Payload::Stage {
            file,
            epoch,
            object,
            version,
            bytes,
        } => put_bytes(writer, *file, *epoch, *object, *version, bytes.as_slice()),
        Payload::Update { file, update } => put_update(writer, *file, update),
        Payload::Ack { file, stamp } => put_ack(writer, *file, *stamp),
        Payload::Refused {
            file,
            epoch,
            promised,
        } => put_refused(writer, *file, *epoch, *promised),
        Payload::Behind { file, epoch, stamp } => put_behind(writer, *file, *epoch, *stamp),
        Payload::Ask {
            number,
            capability,
            op,
        } => put_ask(writer, *number, capability, op),
        Payload::Reply {
            number,
            file,
            reply,
        } => put_reply(writer, *number, *file, reply),
        Payload::Meta {
            number,
            user,
            group,
            request,
        } => put_meta(writer, *number, *user, *group, request),
        Payload::MetaReply { number, answer } => put_meta_reply(writer, *number, answer),
        Payload::Registry { number, request } => put_registry(writer, *number, request),
        Payload::RegistryReply { number, answer } => put_registry_reply(writer, *number, answer),
        Payload::Stop { tag } => put_stop(writer, *tag),
        Payload::Close { file, version } | Payload::Installed { file, version } => {
            put_list(writer, *file, *version)
        }
        Payload::Closed {
            file,
            version,
            head,
        } => put_closed(writer, *file, *version, head),
        Payload::Install {
            file,
            location,
            head,
            source,
        } => put_install(writer, *file, *location, head, *source),
        Payload::Pull {
            file,
            object,
            version,
        } => put_pull(writer, *file, *object, *version),
        Payload::Pulled {
            file,
            object,
            version,
            bytes,
        } => put_pulled(writer, *file, *object, *version, bytes.as_slice()),
        Payload::Wanted { file } => writer.file(*file),
    }
}

/// A file and a ballot, as the kinds of leases begin.
fn put_ballot(writer: &mut FieldWriter, file: FileId, ballot: Ballot) -> Result<(), OutOfMemory>
    ensures { OnOk result (writer.new ≡ writer.old ++ (file_bytes file ++ ballot_bytes ballot)) }
{
    writer.file(file)?;
    writer.ballot(ballot)
}

/// A file, a ballot and a boot, as a promise, a lease to be accepted and an accepted one begin.
fn put_boot(
    writer: &mut FieldWriter,
    file: FileId,
    ballot: Ballot,
    boot: Boot,
) -> Result<(), OutOfMemory>
    ensures { OnOk result (writer.new ≡ writer.old
        ++ (file_bytes file ++ ballot_bytes ballot ++ boot_bytes boot)) }
{
    put_ballot(writer, file, ballot)?;
    writer.boot(boot)
}

/// A promise.
fn put_promise(
    writer: &mut FieldWriter,
    file: FileId,
    ballot: Ballot,
    boot: Boot,
    report: Option<Lease>,
) -> Result<(), OutOfMemory>
    ensures { OnOk result (writer.new ≡ writer.old
        ++ (file_bytes file ++ ballot_bytes ballot ++ boot_bytes boot ++ report_bytes report)) }
{
    put_boot(writer, file, ballot, boot)?;
    writer.report(report)
}

/// A lease that is to be accepted.
fn put_write(
    writer: &mut FieldWriter,
    file: FileId,
    ballot: Ballot,
    boot: Boot,
    lease: Lease,
) -> Result<(), OutOfMemory>
    ensures { OnOk result (writer.new ≡ writer.old
        ++ (file_bytes file ++ ballot_bytes ballot ++ boot_bytes boot ++ lease_bytes lease)) }
{
    put_boot(writer, file, ballot, boot)?;
    writer.lease(lease)
}

/// That a round at least as high was promised.
fn put_outrun(
    writer: &mut FieldWriter,
    file: FileId,
    ballot: Ballot,
    seen: Ballot,
) -> Result<(), OutOfMemory>
    ensures { OnOk result (writer.new ≡ writer.old
        ++ (file_bytes file ++ ballot_bytes ballot ++ ballot_bytes seen)) }
{
    put_ballot(writer, file, ballot)?;
    writer.ballot(seen)
}

/// A file and an epoch, as most kinds of replicas begin.
fn put_epoch(writer: &mut FieldWriter, file: FileId, epoch: Epoch) -> Result<(), OutOfMemory>
    ensures { OnOk result (writer.new ≡ writer.old ++ (file_bytes file ++ epoch_bytes epoch)) }
{
    writer.file(file)?;
    writer.epoch(epoch)
}

/// A head, which is a replica's or is to be taken.
fn put_head(
    writer: &mut FieldWriter,
    file: FileId,
    epoch: Epoch,
    head: &FileHead,
) -> Result<(), OutOfMemory>
    requires { FitsHead head.now }
    ensures { OnOk result (writer.new ≡ writer.old
        ++ (file_bytes file ++ epoch_bytes epoch ++ head_bytes head.now)) }
{
    put_epoch(writer, file, epoch)?;
    writer.head(head)
}

/// A version of an object, which is to be sent, is held or isn't held.
fn put_version(
    writer: &mut FieldWriter,
    file: FileId,
    epoch: Epoch,
    object: u64,
    version: Stamp,
) -> Result<(), OutOfMemory>
    ensures { OnOk result (writer.new ≡ writer.old
        ++ (file_bytes file ++ epoch_bytes epoch ++ long_bytes object ++ stamp_bytes version)) }
{
    put_epoch(writer, file, epoch)?;
    writer.object(object)?;
    writer.stamp(version)
}

/// A version of an object and its bytes, which are sent or are to be held.
fn put_bytes(
    writer: &mut FieldWriter,
    file: FileId,
    epoch: Epoch,
    object: u64,
    version: Stamp,
    bytes: &[u8],
) -> Result<(), OutOfMemory>
    requires { length bytes.now < 2 ^ 32 }
    ensures { OnOk result (writer.new ≡ writer.old
        ++ (file_bytes file ++ epoch_bytes epoch ++ long_bytes object ++ stamp_bytes version
        ++ octets_bytes bytes.now)) }
{
    put_version(writer, file, epoch, object, version)?;
    writer.octets(bytes)
}

/// An update that is to be taken.
fn put_update(writer: &mut FieldWriter, file: FileId, update: &Update) -> Result<(), OutOfMemory>
    requires { FitsUpdate update.now }
    ensures { OnOk result (writer.new ≡ writer.old
        ++ (file_bytes file ++ update_bytes update.now)) }
{
    writer.file(file)?;
    writer.update(update)
}

/// That a head or an update is taken.
fn put_ack(writer: &mut FieldWriter, file: FileId, stamp: Stamp) -> Result<(), OutOfMemory>
    ensures { OnOk result (writer.new ≡ writer.old ++ (file_bytes file ++ stamp_bytes stamp)) }
{
    writer.file(file)?;
    writer.stamp(stamp)
}

/// That a higher epoch was promised.
fn put_refused(
    writer: &mut FieldWriter,
    file: FileId,
    epoch: Epoch,
    promised: Epoch,
) -> Result<(), OutOfMemory>
    ensures { OnOk result (writer.new ≡ writer.old
        ++ (file_bytes file ++ epoch_bytes epoch ++ epoch_bytes promised)) }
{
    put_epoch(writer, file, epoch)?;
    writer.epoch(promised)
}

/// That the replica lacks what comes before.
fn put_behind(
    writer: &mut FieldWriter,
    file: FileId,
    epoch: Epoch,
    stamp: Stamp,
) -> Result<(), OutOfMemory>
    ensures { OnOk result (writer.new ≡ writer.old
        ++ (file_bytes file ++ epoch_bytes epoch ++ stamp_bytes stamp)) }
{
    put_epoch(writer, file, epoch)?;
    writer.stamp(stamp)
}

/// A client's operation.
fn put_ask(
    writer: &mut FieldWriter,
    number: u64,
    capability: &Capability,
    op: &Op,
) -> Result<(), OutOfMemory>
    requires { FitsOp op.now }
    ensures { OnOk result (writer.new ≡ writer.old
        ++ (long_bytes number ++ capability_bytes capability.now ++ op_bytes op.now)) }
{
    writer.long(number)?;
    writer.capability(capability)?;
    writer.op(op)
}

/// What became of an operation.
fn put_reply(
    writer: &mut FieldWriter,
    number: u64,
    file: FileId,
    reply: &Reply,
) -> Result<(), OutOfMemory>
    requires { FitsReply reply.now }
    ensures { OnOk result (writer.new ≡ writer.old
        ++ (long_bytes number ++ file_bytes file ++ reply_bytes reply.now)) }
{
    writer.long(number)?;
    writer.file(file)?;
    writer.reply(reply)
}

/// A request to the metadata server.
fn put_meta(
    writer: &mut FieldWriter,
    number: u64,
    user: u32,
    group: u32,
    request: &MetaReq,
) -> Result<(), OutOfMemory>
    requires { FitsMetaReq request.now }
    ensures { OnOk result (writer.new ≡ writer.old
        ++ (long_bytes number ++ word_bytes user ++ word_bytes group
        ++ meta_req_bytes request.now)) }
{
    writer.long(number)?;
    writer.word(user)?;
    writer.word(group)?;
    writer.meta_req(request)
}

/// An answer of the metadata server.
fn put_meta_reply(
    writer: &mut FieldWriter,
    number: u64,
    answer: &MetaAnswer,
) -> Result<(), OutOfMemory>
    requires { FitsMetaAnswer answer.now }
    ensures { OnOk result (writer.new ≡ writer.old
        ++ (long_bytes number ++ meta_answer_bytes answer.now)) }
{
    writer.long(number)?;
    writer.meta_answer(answer)
}

/// A request to the directory service.
fn put_registry(
    writer: &mut FieldWriter,
    number: u64,
    request: &RegistryReq,
) -> Result<(), OutOfMemory>
    requires { FitsRegistryReq request.now }
    ensures { OnOk result (writer.new ≡ writer.old
        ++ (long_bytes number ++ registry_req_bytes request.now)) }
{
    writer.long(number)?;
    writer.registry_req(request)
}

/// An answer of the directory service.
fn put_registry_reply(
    writer: &mut FieldWriter,
    number: u64,
    answer: &RegistryAnswer,
) -> Result<(), OutOfMemory>
    requires { FitsRegistryAnswer answer.now }
    ensures { OnOk result (writer.new ≡ writer.old
        ++ (long_bytes number ++ registry_answer_bytes answer.now)) }
{
    writer.long(number)?;
    writer.registry_answer(answer)
}

/// The end of a node.
fn put_stop(writer: &mut FieldWriter, tag: [u8; 32]) -> Result<(), OutOfMemory>
    ensures { OnOk result (writer.new ≡ writer.old ++ tag) }
{
    writer.tag(tag)
}

/// A file and the version of its list, which is to be closed or is installed.
fn put_list(writer: &mut FieldWriter, file: FileId, version: u32) -> Result<(), OutOfMemory>
    ensures { OnOk result (writer.new ≡ writer.old ++ (file_bytes file ++ word_bytes version)) }
{
    writer.file(file)?;
    writer.word(version)
}

/// That a version is closed.
fn put_closed(
    writer: &mut FieldWriter,
    file: FileId,
    version: u32,
    head: &FileHead,
) -> Result<(), OutOfMemory>
    requires { FitsHead head.now }
    ensures { OnOk result (writer.new ≡ writer.old
        ++ (file_bytes file ++ word_bytes version ++ head_bytes head.now)) }
{
    put_list(writer, file, version)?;
    writer.head(head)
}

/// A list that is to be taken.
fn put_install(
    writer: &mut FieldWriter,
    file: FileId,
    location: Location,
    head: &FileHead,
    source: NodeId,
) -> Result<(), OutOfMemory>
    requires { FitsHead head.now }
    ensures { OnOk result (writer.new ≡ writer.old
        ++ (file_bytes file ++ location_bytes location ++ head_bytes head.now
        ++ node_bytes source)) }
{
    writer.file(file)?;
    writer.location(location)?;
    writer.head(head)?;
    writer.node(source)
}

/// A body that is to be sent.
fn put_pull(
    writer: &mut FieldWriter,
    file: FileId,
    object: u64,
    version: Stamp,
) -> Result<(), OutOfMemory>
    ensures { OnOk result (writer.new ≡ writer.old
        ++ (file_bytes file ++ long_bytes object ++ stamp_bytes version)) }
{
    writer.file(file)?;
    writer.object(object)?;
    writer.stamp(version)
}

/// A body that is sent.
fn put_pulled(
    writer: &mut FieldWriter,
    file: FileId,
    object: u64,
    version: Stamp,
    bytes: &[u8],
) -> Result<(), OutOfMemory>
    requires { length bytes.now < 2 ^ 32 }
    ensures { OnOk result (writer.new ≡ writer.old
        ++ (file_bytes file ++ long_bytes object ++ stamp_bytes version ++ octets_bytes bytes.now)) }
{
    put_pull(writer, file, object, version)?;
    writer.octets(bytes)
}
