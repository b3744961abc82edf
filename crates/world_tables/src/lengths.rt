ghost use Rattle.std.specs.Prelude.{◌≡◌, ◌≤◌, ◌+◌, ◌*◌, length, sum_by};
ghost use Rattle.xt_messages.specs.FrameLength.{octets_length, text_length, report_length, location_length, capability_length, head_length, update_length, op_length, reply_length, meta_req_length, meta_refusal_length, meta_answer_length, registry_req_length, row_length, registry_answer_length, payload_length, list_length, frame_length};
ghost use Rattle.world_tables.specs.Within64.{within_64};

use xt_base::{Lease, Name, Octets};
use xt_messages::{
    Capability, FileHead, Location, MetaAnswer, MetaRefusal, MetaReq, Msg, Op, Payload,
    RegistryAnswer, RegistryReq, RegistryRow, Reply, Update,
};

fn octets_length(bytes: &Octets) -> u64
    ensures { result ≡ within_64 (octets_length bytes.now) }
{
    let count = bytes.as_slice().len() as u64;
    count.saturating_add(4)
}

fn text_length(text: &Name) -> u64
    ensures { result ≡ within_64 (text_length text.now) }
{
    let count = text.as_str().len() as u64;
    count.saturating_add(2)
}

fn report_length(report: &Option<Lease>) -> u64
    ensures { result ≡ within_64 (report_length report.now) }
{
    match report {
        None => 1,
        Some(_) => 21,
    }
}

fn location_length(location: &Location) -> u64
    ensures length { result ≡ location_length location.now }
    ensures small { result ≤ 46 }
{
    let count = location.members.as_slice().len() as u64;
    10 + 4 * count
}

fn capability_length(capability: &Capability) -> u64
    ensures length { result ≡ capability_length capability.now }
    ensures small { result ≤ 119 }
{
    73 + location_length(&capability.location)
}

fn head_length(head: &FileHead) -> u64
    ensures { result ≡ within_64 (head_length head.now) }
{
    let versions = head.versions.as_slice().len() as u64;
    let sessions = head.sessions.as_slice().len() as u64;
    let rows = versions
        .saturating_mul(28)
        .saturating_add(sessions.saturating_mul(20));
    rows.saturating_add(68)
}

fn update_length(update: &Update) -> u64
    ensures { result ≡ within_64 (update_length update.now) }
{
    octets_length(&update.body).saturating_add(64)
}

fn op_length(op: &Op) -> u64
    ensures { result ≡ within_64 (op_length op.now) }
{
    match op {
        Op::Read { .. } => 17,
        Op::Write { bytes, .. } => octets_length(bytes).saturating_add(13),
        Op::Truncate { .. } => 9,
    }
}

fn reply_length(reply: &Reply) -> u64
    ensures { result ≡ within_64 (reply_length reply.now) }
{
    match reply {
        Reply::Ok { bytes, .. } => octets_length(bytes).saturating_add(25),
        Reply::NoLease { .. } => 9,
        Reply::NoMajority { .. } => 3,
        Reply::Elsewhere { .. } => 13,
        Reply::Denied { .. } => 2,
        Reply::OldList { .. } => 5,
        Reply::OldEpoch { .. } => 9,
        Reply::TooFar { .. } => 9,
        Reply::ClientsFull => 1,
    }
}

fn meta_req_length(request: &MetaReq) -> u64
    ensures { result ≡ within_64 (meta_req_length request.now) }
{
    match request {
        MetaReq::Mkdir { path, .. } => text_length(path).saturating_add(3),
        MetaReq::Create { path, .. } => text_length(path).saturating_add(9),
        MetaReq::Rename { from, to } => text_length(from)
            .saturating_add(text_length(to))
            .saturating_add(1),
        MetaReq::Unlink { path } => text_length(path).saturating_add(1),
        MetaReq::Rmdir { path } => text_length(path).saturating_add(1),
        MetaReq::List { path, after } => text_length(path)
            .saturating_add(text_length(after))
            .saturating_add(1),
        MetaReq::Stat { path } => text_length(path).saturating_add(1),
        MetaReq::Chmod { path, .. } => text_length(path).saturating_add(3),
        MetaReq::Grant { path, .. } => text_length(path).saturating_add(2),
        MetaReq::Report { capability, .. } => 17 + capability_length(capability),
        MetaReq::Change { path, nodes } => text_length(path).saturating_add(
            2 + 4 * nodes.as_slice().len() as u64,
        ),
        MetaReq::Locate { path } => text_length(path).saturating_add(1),
    }
}

fn meta_refusal_length(refusal: &MetaRefusal) -> u64
    ensures { result ≡ within_64 (meta_refusal_length refusal.now) }
{
    match refusal {
        MetaRefusal::Forbidden { .. } | MetaRefusal::TooFew { .. } | MetaRefusal::Denied { .. } =>
            2,
        MetaRefusal::NotFound
        | MetaRefusal::Exists
        | MetaRefusal::NotDir
        | MetaRefusal::IsDir
        | MetaRefusal::NotEmpty
        | MetaRefusal::IntoSelf
        | MetaRefusal::OtherVolume
        | MetaRefusal::NameBad
        | MetaRefusal::NotReplicated => 1,
        MetaRefusal::Changing { .. } | MetaRefusal::UnknownOsd { .. } => 5,
    }
}

fn texts_length(texts: &[Name]) -> u64
    ensures { result ≡ within_64 (sum_by text_length texts.now) }
{
    let mut all: u64 = 0;
    for text in texts {
        all = all.saturating_add(text_length(text));
    }
    all
}

fn meta_answer_length(answer: &MetaAnswer) -> u64
    ensures { result ≡ within_64 (meta_answer_length answer.now) }
{
    match answer {
        MetaAnswer::Done => 1,
        MetaAnswer::Refused { refusal } => meta_refusal_length(refusal),
        MetaAnswer::Names { names } => texts_length(names.as_slice()).saturating_add(5),
        MetaAnswer::Row { .. } => 28,
        MetaAnswer::Granted { capability, .. } => 17 + capability_length(capability),
        MetaAnswer::Located { location, .. } => 2 + location_length(location),
    }
}

fn registry_req_length(request: &RegistryReq) -> u64
    ensures { result ≡ within_64 (registry_req_length request.now) }
{
    match request {
        RegistryReq::Set { address, .. } => text_length(address).saturating_add(14),
        RegistryReq::Get { .. } => 5,
        RegistryReq::List { .. } => 6,
        RegistryReq::Remove { .. } => 13,
    }
}

fn row_length(row: &RegistryRow) -> u64
    ensures { result ≡ within_64 (row_length row.now) }
{
    text_length(&row.address).saturating_add(13)
}

fn rows_length(rows: &[RegistryRow]) -> u64
    ensures { result ≡ within_64 (sum_by row_length rows.now) }
{
    let mut all: u64 = 0;
    for row in rows {
        all = all.saturating_add(row_length(row));
    }
    all
}

fn registry_answer_length(answer: &RegistryAnswer) -> u64
    ensures { result ≡ within_64 (registry_answer_length answer.now) }
{
    match answer {
        RegistryAnswer::Done { .. } => 9,
        RegistryAnswer::Changed { .. } => 9,
        RegistryAnswer::Absent => 1,
        RegistryAnswer::Row { row } => row_length(row).saturating_add(1),
        RegistryAnswer::Rows { rows } => rows_length(rows.as_slice()).saturating_add(5),
    }
}

fn payload_length(payload: &Payload) -> u64
    ensures { result ≡ within_64 (payload_length payload.now) }
{
    match payload {
        Payload::Read { .. } => 44,
        Payload::Promise { report, .. } => report_length(report).saturating_add(52),
        Payload::Write { .. } => 72,
        Payload::Accepted { .. } => 52,
        Payload::Outrun { .. } => 64,
        Payload::Gather { .. } => 36,
        Payload::Status { head, .. } => head_length(head).saturating_add(36),
        Payload::Fetch { .. } => 64,
        Payload::Object { bytes, .. } => octets_length(bytes).saturating_add(64),
        Payload::Stage { bytes, .. } => octets_length(bytes).saturating_add(64),
        Payload::Staged { .. } => 64,
        Payload::Head { head, .. } => head_length(head).saturating_add(36),
        Payload::Update { update, .. } => update_length(update).saturating_add(24),
        Payload::Ack { .. } => 44,
        Payload::Refused { .. } => 48,
        Payload::Behind { .. } => 56,
        Payload::Missing { .. } => 64,
        Payload::Ask { capability, op, .. } => op_length(op).saturating_add(
            8 + capability_length(capability),
        ),
        Payload::Reply { reply, .. } => reply_length(reply).saturating_add(32),
        Payload::Meta { request, .. } => meta_req_length(request).saturating_add(16),
        Payload::MetaReply { answer, .. } => meta_answer_length(answer).saturating_add(8),
        Payload::Registry { request, .. } => registry_req_length(request).saturating_add(8),
        Payload::RegistryReply { answer, .. } => registry_answer_length(answer).saturating_add(8),
        Payload::Stop { .. } => 32,
        Payload::Close { .. } => 28,
        Payload::Closed { head, .. } => head_length(head).saturating_add(28),
        Payload::Install { location, head, .. } => head_length(head).saturating_add(
            28 + location_length(location),
        ),
        Payload::Installed { .. } => 28,
        Payload::Pull { .. } => 52,
        Payload::Pulled { bytes, .. } => octets_length(bytes).saturating_add(52),
        Payload::Wanted { .. } => 24,
    }
}

/// The version of a list above the first one, and the kind once more.
fn list_length(list: u32) -> u64
    ensures { result ≡ list_length list }
{
    if list == 1 { 0 } else { 5 }
}

/// The length of the message's frame in bytes, or the greatest number of 64 bits where it is longer.
pub fn frame_length(message: &Msg) -> u64
    ensures { result ≡ within_64 (frame_length message.now) }
{
    payload_length(&message.payload).saturating_add(14 + list_length(message.list))
}
