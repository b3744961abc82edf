ghost use Rattle.std.specs.Prelude.{◌≡◌};
ghost use Rattle.xt_fields.specs.Reading.{Gives};
ghost use Rattle.xt_frames.specs.PayloadFields.{ballot_of_at, epoch_of_at, versioned_at, read_fields, promise_fields, write_fields, accepted_fields, outrun_fields, gather_fields, status_fields, fetch_fields, object_fields, stage_fields, staged_fields, head_fields, update_fields, ack_fields, refused_fields, behind_fields, missing_fields, ask_fields, reply_fields, meta_fields, meta_reply_fields, registry_fields, registry_reply_fields, stop_fields, lease_arms, replica_arms, close_fields, closed_fields, install_fields, installed_fields, pull_fields, pulled_fields, wanted_fields, service_arms, change_arms, listed_arms, payload_arms, later_list_at, first_said_at, later_said_at, said_arms, message_at};

use crate::answers::ReadAnswers;
use crate::reply::ReadReplies;
use std::alloc::Global;
use xt_base::{BODY, Ballot, Epoch, FileId, Stamp};
use xt_fields::{FieldErr, FieldReader};
use xt_messages::{Msg, Payload};
use xt_wire::{ReadFiles, ReadIds, ReadRequests};

/// The longest `bytes` field, in bytes.
const BODY_LIMIT: u32 = BODY as u32;

/// The version of a file's list of members where the frame doesn't say it.
pub(crate) const FIRST_LIST: u32 = 1;

/// The number of the kind that carries the version of a list.
pub(crate) const LATER_LIST: u8 = 32;

#[tactic(auto, unfolding(crate::specs::PayloadFields::lease_arms))]
fn lease_payload(reader: &mut FieldReader<'_>, kind: u8) -> Result<Payload, FieldErr>
    ensures { Gives result reader.new (lease_arms kind reader.old) }
{
    match kind {
        1 => read_read(reader),
        2 => read_promise(reader),
        3 => read_write(reader),
        4 => read_accepted(reader),
        5 => read_outrun(reader),
        _ => Err(FieldErr::Unfit),
    }
}

#[tactic(auto, unfolding(crate::specs::PayloadFields::replica_arms))]
fn replica_payload(
    reader: &mut FieldReader<'_>,
    alloc: Global,
    kind: u8,
) -> Result<Payload, FieldErr>
    ensures { Gives result reader.new (replica_arms kind reader.old) }
{
    match kind {
        6 => read_gather(reader),
        7 => read_status(reader, alloc),
        8 => read_fetch(reader),
        9 => read_object(reader, alloc),
        10 => read_stage(reader, alloc),
        11 => read_staged(reader),
        12 => read_head(reader, alloc),
        13 => read_update(reader, alloc),
        14 => read_ack(reader),
        15 => read_refused(reader),
        16 => read_behind(reader),
        17 => read_missing(reader),
        _ => Err(FieldErr::Unfit),
    }
}

#[tactic(auto, unfolding(crate::specs::PayloadFields::service_arms))]
fn service_payload(
    reader: &mut FieldReader<'_>,
    alloc: Global,
    kind: u8,
) -> Result<Payload, FieldErr>
    ensures { Gives result reader.new (service_arms kind reader.old) }
{
    match kind {
        18 => read_ask(reader, alloc),
        19 => read_reply(reader, alloc),
        20 => read_meta(reader, alloc),
        21 => read_meta_reply(reader, alloc),
        22 => read_registry(reader, alloc),
        23 => read_registry_reply(reader, alloc),
        24 => read_stop(reader),
        _ => Err(FieldErr::Unfit),
    }
}

#[tactic(auto, unfolding(crate::specs::PayloadFields::change_arms))]
fn change_payload(
    reader: &mut FieldReader<'_>,
    alloc: Global,
    kind: u8,
) -> Result<Payload, FieldErr>
    ensures { Gives result reader.new (change_arms kind reader.old) }
{
    match kind {
        33 => read_close(reader),
        34 => read_closed(reader, alloc),
        35 => read_install(reader, alloc),
        36 => read_installed(reader),
        37 => read_pull(reader),
        38 => read_pulled(reader, alloc),
        39 => read_wanted(reader),
        _ => Err(FieldErr::Unfit),
    }
}

/// What replicas of one list say to each other.
#[tactic(auto, unfolding(crate::specs::PayloadFields::listed_arms))]
fn listed_payload(
    reader: &mut FieldReader<'_>,
    alloc: Global,
    kind: u8,
) -> Result<Payload, FieldErr>
    ensures { Gives result reader.new (listed_arms kind reader.old) }
{
    if kind < 6 {
        lease_payload(reader, kind)
    } else {
        replica_payload(reader, alloc, kind)
    }
}

/// The fields of the kind of this number.
#[tactic(auto, unfolding(crate::specs::PayloadFields::payload_arms))]
fn payload(reader: &mut FieldReader<'_>, alloc: Global, kind: u8) -> Result<Payload, FieldErr>
    ensures { Gives result reader.new (payload_arms kind reader.old) }
{
    if kind < 6 {
        lease_payload(reader, kind)
    } else if kind < 18 {
        replica_payload(reader, alloc, kind)
    } else if kind < 33 {
        service_payload(reader, alloc, kind)
    } else {
        change_payload(reader, alloc, kind)
    }
}

/// What a message says, and by which version of the file's list.
struct Said {
    list: u32,
    payload: Payload,
}

/// The version of a list that isn't the first one.
#[tactic(auto, unfolding(crate::specs::PayloadFields::later_list_at))]
fn later_list(reader: &mut FieldReader<'_>) -> Result<u32, FieldErr>
    ensures { Gives result reader.new (later_list_at reader.old) }
{
    let list = reader.version()?;
    if list < 2 {
        return Err(FieldErr::Unfit);
    }
    Ok(list)
}

/// What is said by a later list.
#[tactic(auto, unfolding(crate::specs::PayloadFields::later_said_at))]
fn later_said(reader: &mut FieldReader<'_>, alloc: Global) -> Result<Said, FieldErr>
    ensures { Gives result reader.new (later_said_at reader.old) }
{
    let list = later_list(reader)?;
    let kind = reader.byte()?;
    let payload = listed_payload(reader, alloc, kind)?;
    Ok(Said { list, payload })
}

/// What is said by the first list.
#[tactic(auto, unfolding(crate::specs::PayloadFields::first_said_at))]
fn first_said(reader: &mut FieldReader<'_>, alloc: Global, kind: u8) -> Result<Said, FieldErr>
    ensures { Gives result reader.new (first_said_at kind reader.old) }
{
    let payload = payload(reader, alloc, kind)?;
    Ok(Said {
        list: FIRST_LIST,
        payload,
    })
}

/// What comes after the nodes in a frame of this kind.
#[tactic(auto, unfolding(crate::specs::PayloadFields::said_arms))]
fn either_said(reader: &mut FieldReader<'_>, alloc: Global, kind: u8) -> Result<Said, FieldErr>
    ensures { Gives result reader.new (said_arms kind reader.old) }
{
    if kind == LATER_LIST {
        later_said(reader, alloc)
    } else {
        first_said(reader, alloc, kind)
    }
}

/// What comes after a frame's kind.
#[tactic(auto, unfolding(crate::specs::PayloadFields::message_at))]
pub(crate) fn message(
    reader: &mut FieldReader<'_>,
    alloc: Global,
    kind: u8,
) -> Result<Msg, FieldErr>
    ensures { Gives result reader.new (message_at kind reader.old) }
{
    let from = reader.node()?;
    let to = reader.node()?;
    let Said { list, payload } = either_said(reader, alloc, kind)?;
    Ok(Msg {
        from,
        to,
        list,
        payload,
    })
}

/// A version of an object, asked for or sent in an epoch.
struct Versioned {
    file: FileId,
    epoch: Epoch,
    object: u64,
    version: Stamp,
}

/// A file and a ballot, as the kinds of leases begin.
#[tactic(auto, unfolding(crate::specs::PayloadFields::ballot_of_at))]
fn file_and_ballot(reader: &mut FieldReader<'_>) -> Result<(FileId, Ballot), FieldErr>
    ensures { Gives result reader.new (ballot_of_at reader.old) }
{
    let file = reader.file()?;
    let ballot = reader.ballot()?;
    Ok((file, ballot))
}

/// A file and an epoch, as most kinds of replicas begin.
#[tactic(auto, unfolding(crate::specs::PayloadFields::epoch_of_at))]
fn file_and_epoch(reader: &mut FieldReader<'_>) -> Result<(FileId, Epoch), FieldErr>
    ensures { Gives result reader.new (epoch_of_at reader.old) }
{
    let file = reader.file()?;
    let epoch = reader.epoch()?;
    Ok((file, epoch))
}

/// What the kinds about a version of an object begin with.
#[tactic(auto, unfolding(crate::specs::PayloadFields::versioned_at))]
fn version_of_object(reader: &mut FieldReader<'_>) -> Result<Versioned, FieldErr>
    ensures { Gives result reader.new (versioned_at reader.old) }
{
    let (file, epoch) = file_and_epoch(reader)?;
    let object = reader.object()?;
    let version = reader.stamp()?;
    Ok(Versioned {
        file,
        epoch,
        object,
        version,
    })
}

/// A ballot that is to be promised.
#[tactic(auto, unfolding(crate::specs::PayloadFields::read_fields))]
fn read_read(reader: &mut FieldReader<'_>) -> Result<Payload, FieldErr>
    ensures { Gives result reader.new (read_fields reader.old) }
{
    let (file, ballot) = file_and_ballot(reader)?;
    Ok(Payload::Read { file, ballot })
}

/// A promise.
#[tactic(auto, unfolding(crate::specs::PayloadFields::promise_fields))]
fn read_promise(reader: &mut FieldReader<'_>) -> Result<Payload, FieldErr>
    ensures { Gives result reader.new (promise_fields reader.old) }
{
    let (file, ballot) = file_and_ballot(reader)?;
    let boot = reader.boot()?;
    let report = reader.report()?;
    Ok(Payload::Promise {
        file,
        ballot,
        boot,
        report,
    })
}

/// A lease that is to be accepted.
#[tactic(auto, unfolding(crate::specs::PayloadFields::write_fields))]
fn read_write(reader: &mut FieldReader<'_>) -> Result<Payload, FieldErr>
    ensures { Gives result reader.new (write_fields reader.old) }
{
    let (file, ballot) = file_and_ballot(reader)?;
    let boot = reader.boot()?;
    let lease = reader.lease()?;
    Ok(Payload::Write {
        file,
        ballot,
        boot,
        lease,
    })
}

/// That a lease is accepted.
#[tactic(auto, unfolding(crate::specs::PayloadFields::accepted_fields))]
fn read_accepted(reader: &mut FieldReader<'_>) -> Result<Payload, FieldErr>
    ensures { Gives result reader.new (accepted_fields reader.old) }
{
    let (file, ballot) = file_and_ballot(reader)?;
    let boot = reader.boot()?;
    Ok(Payload::Accepted { file, ballot, boot })
}

/// That a round at least as high was promised.
#[tactic(auto, unfolding(crate::specs::PayloadFields::outrun_fields))]
fn read_outrun(reader: &mut FieldReader<'_>) -> Result<Payload, FieldErr>
    ensures { Gives result reader.new (outrun_fields reader.old) }
{
    let (file, ballot) = file_and_ballot(reader)?;
    let seen = reader.ballot()?;
    Ok(Payload::Outrun { file, ballot, seen })
}

/// A new primary's question.
#[tactic(auto, unfolding(crate::specs::PayloadFields::gather_fields))]
fn read_gather(reader: &mut FieldReader<'_>) -> Result<Payload, FieldErr>
    ensures { Gives result reader.new (gather_fields reader.old) }
{
    let (file, epoch) = file_and_epoch(reader)?;
    Ok(Payload::Gather { file, epoch })
}

/// A replica's head.
#[tactic(auto, unfolding(crate::specs::PayloadFields::status_fields))]
fn read_status(reader: &mut FieldReader<'_>, alloc: Global) -> Result<Payload, FieldErr>
    ensures { Gives result reader.new (status_fields reader.old) }
{
    let (file, epoch) = file_and_epoch(reader)?;
    let head = reader.head(alloc)?;
    Ok(Payload::Status { file, epoch, head })
}

/// An object that is to be sent.
#[tactic(auto, unfolding(crate::specs::PayloadFields::fetch_fields))]
fn read_fetch(reader: &mut FieldReader<'_>) -> Result<Payload, FieldErr>
    ensures { Gives result reader.new (fetch_fields reader.old) }
{
    let Versioned {
        file,
        epoch,
        object,
        version,
    } = version_of_object(reader)?;
    Ok(Payload::Fetch {
        file,
        epoch,
        object,
        version,
    })
}

/// An object that is sent.
#[tactic(auto, unfolding(crate::specs::PayloadFields::object_fields))]
fn read_object(reader: &mut FieldReader<'_>, alloc: Global) -> Result<Payload, FieldErr>
    ensures { Gives result reader.new (object_fields reader.old) }
{
    let Versioned {
        file,
        epoch,
        object,
        version,
    } = version_of_object(reader)?;
    let bytes = reader.octets(alloc, BODY_LIMIT)?;
    Ok(Payload::Object {
        file,
        epoch,
        object,
        version,
        bytes,
    })
}

/// Bytes that are to be held.
#[tactic(auto, unfolding(crate::specs::PayloadFields::stage_fields))]
fn read_stage(reader: &mut FieldReader<'_>, alloc: Global) -> Result<Payload, FieldErr>
    ensures { Gives result reader.new (stage_fields reader.old) }
{
    let Versioned {
        file,
        epoch,
        object,
        version,
    } = version_of_object(reader)?;
    let bytes = reader.octets(alloc, BODY_LIMIT)?;
    Ok(Payload::Stage {
        file,
        epoch,
        object,
        version,
        bytes,
    })
}

/// That bytes are held.
#[tactic(auto, unfolding(crate::specs::PayloadFields::staged_fields))]
fn read_staged(reader: &mut FieldReader<'_>) -> Result<Payload, FieldErr>
    ensures { Gives result reader.new (staged_fields reader.old) }
{
    let Versioned {
        file,
        epoch,
        object,
        version,
    } = version_of_object(reader)?;
    Ok(Payload::Staged {
        file,
        epoch,
        object,
        version,
    })
}

/// A head that is to be taken.
#[tactic(auto, unfolding(crate::specs::PayloadFields::head_fields))]
fn read_head(reader: &mut FieldReader<'_>, alloc: Global) -> Result<Payload, FieldErr>
    ensures { Gives result reader.new (head_fields reader.old) }
{
    let (file, epoch) = file_and_epoch(reader)?;
    let head = reader.head(alloc)?;
    Ok(Payload::Head { file, epoch, head })
}

/// An update that is to be taken.
#[tactic(auto, unfolding(crate::specs::PayloadFields::update_fields))]
fn read_update(reader: &mut FieldReader<'_>, alloc: Global) -> Result<Payload, FieldErr>
    ensures { Gives result reader.new (update_fields reader.old) }
{
    let file = reader.file()?;
    let update = reader.update(alloc)?;
    Ok(Payload::Update { file, update })
}

/// That a head or an update is taken.
#[tactic(auto, unfolding(crate::specs::PayloadFields::ack_fields))]
fn read_ack(reader: &mut FieldReader<'_>) -> Result<Payload, FieldErr>
    ensures { Gives result reader.new (ack_fields reader.old) }
{
    let file = reader.file()?;
    let stamp = reader.stamp()?;
    Ok(Payload::Ack { file, stamp })
}

/// That a higher epoch was promised.
#[tactic(auto, unfolding(crate::specs::PayloadFields::refused_fields))]
fn read_refused(reader: &mut FieldReader<'_>) -> Result<Payload, FieldErr>
    ensures { Gives result reader.new (refused_fields reader.old) }
{
    let (file, epoch) = file_and_epoch(reader)?;
    let promised = reader.epoch()?;
    Ok(Payload::Refused {
        file,
        epoch,
        promised,
    })
}

/// That the replica lacks what comes before.
#[tactic(auto, unfolding(crate::specs::PayloadFields::behind_fields))]
fn read_behind(reader: &mut FieldReader<'_>) -> Result<Payload, FieldErr>
    ensures { Gives result reader.new (behind_fields reader.old) }
{
    let (file, epoch) = file_and_epoch(reader)?;
    let stamp = reader.stamp()?;
    Ok(Payload::Behind { file, epoch, stamp })
}

/// That an object isn't held.
#[tactic(auto, unfolding(crate::specs::PayloadFields::missing_fields))]
fn read_missing(reader: &mut FieldReader<'_>) -> Result<Payload, FieldErr>
    ensures { Gives result reader.new (missing_fields reader.old) }
{
    let Versioned {
        file,
        epoch,
        object,
        version,
    } = version_of_object(reader)?;
    Ok(Payload::Missing {
        file,
        epoch,
        object,
        version,
    })
}

/// A client's operation.
#[tactic(auto, unfolding(crate::specs::PayloadFields::ask_fields))]
fn read_ask(reader: &mut FieldReader<'_>, alloc: Global) -> Result<Payload, FieldErr>
    ensures { Gives result reader.new (ask_fields reader.old) }
{
    let number = reader.count()?;
    let capability = reader.capability()?;
    let op = reader.op(alloc)?;
    Ok(Payload::Ask {
        number,
        capability,
        op,
    })
}

/// What became of an operation.
#[tactic(auto, unfolding(crate::specs::PayloadFields::reply_fields))]
fn read_reply(reader: &mut FieldReader<'_>, alloc: Global) -> Result<Payload, FieldErr>
    ensures { Gives result reader.new (reply_fields reader.old) }
{
    let number = reader.count()?;
    let file = reader.file()?;
    let reply = reader.reply(alloc)?;
    Ok(Payload::Reply {
        number,
        file,
        reply,
    })
}

/// A request to the metadata server.
#[tactic(auto, unfolding(crate::specs::PayloadFields::meta_fields))]
fn read_meta(reader: &mut FieldReader<'_>, alloc: Global) -> Result<Payload, FieldErr>
    ensures { Gives result reader.new (meta_fields reader.old) }
{
    let number = reader.count()?;
    let user = reader.word()?;
    let group = reader.word()?;
    let request = reader.meta_req(alloc)?;
    Ok(Payload::Meta {
        number,
        user,
        group,
        request,
    })
}

/// An answer of the metadata server.
#[tactic(auto, unfolding(crate::specs::PayloadFields::meta_reply_fields))]
fn read_meta_reply(reader: &mut FieldReader<'_>, alloc: Global) -> Result<Payload, FieldErr>
    ensures { Gives result reader.new (meta_reply_fields reader.old) }
{
    let number = reader.count()?;
    let answer = reader.meta_answer(alloc)?;
    Ok(Payload::MetaReply { number, answer })
}

/// A request to the directory service.
#[tactic(auto, unfolding(crate::specs::PayloadFields::registry_fields))]
fn read_registry(reader: &mut FieldReader<'_>, alloc: Global) -> Result<Payload, FieldErr>
    ensures { Gives result reader.new (registry_fields reader.old) }
{
    let number = reader.count()?;
    let request = reader.registry_req(alloc)?;
    Ok(Payload::Registry { number, request })
}

/// An answer of the directory service.
#[tactic(auto, unfolding(crate::specs::PayloadFields::registry_reply_fields))]
fn read_registry_reply(reader: &mut FieldReader<'_>, alloc: Global) -> Result<Payload, FieldErr>
    ensures { Gives result reader.new (registry_reply_fields reader.old) }
{
    let number = reader.count()?;
    let answer = reader.registry_answer(alloc)?;
    Ok(Payload::RegistryReply { number, answer })
}

/// The end of a node.
#[tactic(auto, unfolding(crate::specs::PayloadFields::stop_fields))]
fn read_stop(reader: &mut FieldReader<'_>) -> Result<Payload, FieldErr>
    ensures { Gives result reader.new (stop_fields reader.old) }
{
    let tag = reader.tag()?;
    Ok(Payload::Stop { tag })
}

/// The end of a version of a list.
#[tactic(auto, unfolding(crate::specs::PayloadFields::close_fields))]
fn read_close(reader: &mut FieldReader<'_>) -> Result<Payload, FieldErr>
    ensures { Gives result reader.new (close_fields reader.old) }
{
    let file = reader.file()?;
    let version = reader.version()?;
    Ok(Payload::Close { file, version })
}

/// That a version is closed.
#[tactic(auto, unfolding(crate::specs::PayloadFields::closed_fields))]
fn read_closed(reader: &mut FieldReader<'_>, alloc: Global) -> Result<Payload, FieldErr>
    ensures { Gives result reader.new (closed_fields reader.old) }
{
    let file = reader.file()?;
    let version = reader.version()?;
    let head = reader.head(alloc)?;
    Ok(Payload::Closed {
        file,
        version,
        head,
    })
}

/// A list that is to be taken.
#[tactic(auto, unfolding(crate::specs::PayloadFields::install_fields))]
fn read_install(reader: &mut FieldReader<'_>, alloc: Global) -> Result<Payload, FieldErr>
    ensures { Gives result reader.new (install_fields reader.old) }
{
    let file = reader.file()?;
    let location = reader.location()?;
    let head = reader.head(alloc)?;
    let source = reader.node()?;
    Ok(Payload::Install {
        file,
        location,
        head,
        source,
    })
}

/// That a list is taken.
#[tactic(auto, unfolding(crate::specs::PayloadFields::installed_fields))]
fn read_installed(reader: &mut FieldReader<'_>) -> Result<Payload, FieldErr>
    ensures { Gives result reader.new (installed_fields reader.old) }
{
    let file = reader.file()?;
    let version = reader.version()?;
    Ok(Payload::Installed { file, version })
}

/// A body that is to be sent.
#[tactic(auto, unfolding(crate::specs::PayloadFields::pull_fields))]
fn read_pull(reader: &mut FieldReader<'_>) -> Result<Payload, FieldErr>
    ensures { Gives result reader.new (pull_fields reader.old) }
{
    let file = reader.file()?;
    let object = reader.object()?;
    let version = reader.stamp()?;
    Ok(Payload::Pull {
        file,
        object,
        version,
    })
}

/// A body that is sent.
#[tactic(auto, unfolding(crate::specs::PayloadFields::pulled_fields))]
fn read_pulled(reader: &mut FieldReader<'_>, alloc: Global) -> Result<Payload, FieldErr>
    ensures { Gives result reader.new (pulled_fields reader.old) }
{
    let file = reader.file()?;
    let object = reader.object()?;
    let version = reader.stamp()?;
    let bytes = reader.octets(alloc, BODY_LIMIT)?;
    Ok(Payload::Pulled {
        file,
        object,
        version,
        bytes,
    })
}

/// That a member can go on.
#[tactic(auto, unfolding(crate::specs::PayloadFields::wanted_fields))]
fn read_wanted(reader: &mut FieldReader<'_>) -> Result<Payload, FieldErr>
    ensures { Gives result reader.new (wanted_fields reader.old) }
{
    let file = reader.file()?;
    Ok(Payload::Wanted { file })
}
