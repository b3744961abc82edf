ghost use Rattle.std.specs.Prelude.{◌≡◌, ◌<◌, ◌^◌, ◌↔◌, IsTrue};
ghost use Rattle.std.specs.List.{AllByRecursion};
ghost use Rattle.xt_messages.specs.Limits.{FitsLocation};
ghost use Rattle.time_line.specs.Bounds.{FitsCall, FitsRefusal, FitsRetry, FitsAnswered, FitsOutcome, FitsPosition};
ghost use Rattle.xt_base.specs.FieldLimits.{FitsBytes};
ghost use Rattle.schedule_text.specs.CallText.{IsSpellableCall};
ghost use Rattle.schedule_text.specs.OutcomeText.{IsSpellableOutcome};
ghost use Rattle.schedule_text.specs.EntryText.{IsEntryAt};
ghost use Rattle.schedule_text.specs.LineText.{IsLine, IsPlace};

use server_text::{
    are_members, is_meta_outcome, is_meta_request, is_registry_outcome, is_registry_request,
    is_stripe,
};
use time_line::{Entry, Line};
use xt_base::{BODY, COUNTS, NodeId, OpId, Times};
use xt_messages::{Answered, AskRefusal, Call, Location, Outcome, Retry};

/// The versions of lists are below this.
const VERSIONS: u32 = 1 << 31;

/// Whether a schedule may put a file so.
pub(crate) fn is_place(location: &Location) -> bool
    ensures { IsTrue result ↔ (IsPlace location.now × FitsLocation location.now) }
{
    location.version == 1 && is_stripe(location.stripe) && are_members(location.members.as_slice())
}

/// Whether a call may read this range of an object.
pub(crate) fn is_read(file: u64, object: u64, at: u32, len: u32) -> bool
    ensures { IsTrue result ↔ FitsCall (Call.Read file object at len) }
{
    let _object_fits = object;
    (1..=BODY).contains(&(len as usize))
}

/// Whether a call may write these bytes to an object.
pub(crate) fn is_written(file: u64, object: u64, at: u32, bytes: &[u8]) -> bool
    ensures { IsTrue result ↔ FitsCall (Call.Write file object at bytes.now) }
{
    let _object_fits = object;
    (1..=BODY).contains(&bytes.len())
}

/// Whether a client's call has a spelling, and values within their limits.
#[tactic(auto, using(server_text::proofs::RequestsAgain::request_is_written))]
fn is_call(call: &Call) -> bool
    ensures { IsTrue result ↔ (IsSpellableCall call.now × FitsCall call.now) }
{
    match call {
        Call::Read {
            file,
            object,
            at,
            len,
        } => is_read(*file, *object, *at, *len),
        Call::Write {
            file,
            object,
            at,
            bytes,
        } => is_written(*file, *object, *at, bytes.as_slice()),
        Call::Truncate { file, size, epoch } => {
            let _file_fits = *file;
            let _size_fits = *size;
            *epoch < COUNTS
        }
        Call::Meta {
            user,
            group,
            request,
        } => {
            let _user_fits = *user;
            let _group_fits = *group;
            is_meta_request(request)
        }
        Call::Report { user, group, file } => {
            let _user_fits = *user;
            let _group_fits = *group;
            let _file_fits = *file;
            true
        }
        Call::Registry { request } => is_registry_request(request),
    }
}

/// Whether the line is in a schedule's language, as its first line or a later one.
pub(crate) fn is_line(first: bool, line: &Line) -> bool
    ensures { IsTrue result ↔ IsLine first line.now }
{
    match line {
        Line::Times { lease, drift } => first && Times::new(*lease, *drift).is_ok(),
        Line::Osd { node }
        | Line::Stop { node }
        | Line::Wake { node }
        | Line::Again { client: node } => {
            let _fits = node.0;
            true
        }
        Line::Mrc | Line::Dir => true,
        Line::Client { node, clock } | Line::Start { node, clock } => {
            let _fits = node.0;
            *clock < COUNTS
        }
        Line::Clock { node, clock } => {
            let _fits = node.0;
            *clock < COUNTS
        }
        Line::File { number, location } => *number < 1_000_000 && is_place(location),
        Line::Crash { node, call, fill } => {
            let _node_fits = node.0;
            let _fill_fits = *fill;
            (1..=4).contains(call)
        }
        Line::Cut { node, count } => {
            let _node_fits = node.0;
            let _count_fits = *count;
            true
        }
        Line::Tick { count } => *count < 1 << 32,
        Line::Call { client, call } => {
            let _fits = client.0;
            is_call(call)
        }
        Line::Aim { client, file, node } => {
            let _client_fits = client.0;
            let _file_fits = *file;
            let _node_fits = node.0;
            true
        }
        Line::Deliver { number } | Line::Drop { number } | Line::Settle { count: number } => {
            let _fits = *number;
            true
        }
    }
}

/// Whether these are no more bytes than a message may carry.
fn are_few(bytes: &[u8]) -> bool
    ensures { IsTrue result ↔ FitsBytes bytes.now }
{
    bytes.len() <= BODY
}

/// Whether the values of a refusal are within their limits.
fn is_refusal(refusal: &AskRefusal) -> bool
    ensures { IsTrue result ↔ FitsRefusal refusal.now }
{
    match refusal {
        AskRefusal::Denied { rule: _ } => true,
        AskRefusal::OldList { version } => *version < 1 << 31,
        AskRefusal::OldEpoch { epoch } => *epoch < COUNTS,
        AskRefusal::TooFar { object } => {
            let _fits = *object;
            true
        }
        AskRefusal::ClientsFull => true,
    }
}

/// Whether what a member gave is within the limits of its values, as it always is.
fn is_answered(answered: &Answered) -> bool
    ensures { IsTrue result ↔ FitsAnswered answered.now }
{
    let _who_fits = answered.node.0;
    match answered.outcome {
        Retry::NoLease { end } => {
            let _fits = end;
            true
        }
        Retry::NoMajority { have, need } => {
            let _have_fits = have;
            let _need_fits = need;
            true
        }
        Retry::Elsewhere { node, end } => {
            let _end_fits = end;
            u64::from(node.0) < 1 << 32
        }
        Retry::Silent => true,
    }
}

/// Whether what each member gave is within its limits.
fn are_answers(answers: &[Answered]) -> bool
    ensures { IsTrue result ↔ AllByRecursion FitsAnswered answers.now }
{
    let mut rest = answers;
    while let [answered, behind @ ..] = rest {
        if !is_answered(answered) {
            return false;
        }
        rest = behind;
    }
    true
}

/// Whether the end of a call has a spelling, and values within their limits.
fn is_end(outcome: &Outcome) -> bool
    ensures { IsTrue result ↔ (IsSpellableOutcome outcome.now × FitsOutcome outcome.now) }
{
    match outcome {
        Outcome::Ok { count, bytes } => *count < COUNTS && are_few(bytes.as_slice()),
        Outcome::Retry { answers } => are_answers(answers.as_slice()),
        Outcome::Refused { refusal } => is_refusal(refusal),
        Outcome::Meta { answer } => is_meta_outcome(answer),
        Outcome::Registry { answer } => is_registry_outcome(answer),
    }
}

/// Whether the values of a write's place in a file's order are within their limits.
fn is_position(node: NodeId, file: u64, count: u64, id: OpId) -> bool
    ensures { IsTrue result ↔ FitsPosition node file count id }
{
    let _node_fits = node.0;
    let _client_fits = id.client.0;
    count < COUNTS && id.number < COUNTS
}

/// Whether the entry is in the language of traces, as the first one or a later one.
pub(crate) fn is_entry(first: bool, entry: &Entry) -> bool
    ensures { IsTrue result ↔ IsEntryAt first entry.now }
{
    match entry {
        Entry::Times { lease, drift } => first && Times::new(*lease, *drift).is_ok(),
        Entry::File { number, location } => *number < COUNTS && is_place(location),
        Entry::List {
            number,
            version,
            members,
        } => { *number < COUNTS && *version < VERSIONS && are_members(members.as_slice()) }
        Entry::Clock { node, clock } => {
            let _fits = node.0;
            *clock < COUNTS
        }
        Entry::Tick { count } => *count < 1 << 32,
        Entry::Up { node, boot, clock } => {
            let _fits = node.0;
            boot.0 < COUNTS && *clock < COUNTS
        }
        Entry::Down {
            node,
            clock,
            how: _,
        } => {
            let _fits = node.0;
            *clock < COUNTS
        }
        Entry::Begin {
            client,
            number,
            call,
        } => {
            let _fits = client.0;
            *number < COUNTS && is_call(call)
        }
        Entry::Held { node, file, end } => {
            let _node_fits = node.0;
            let _file_fits = *file;
            let _end_fits = *end;
            true
        }
        Entry::Active {
            node,
            file,
            count,
            id,
        } => is_position(*node, *file, *count, *id),
        Entry::Issue {
            node,
            file,
            count,
            id,
        } => is_position(*node, *file, *count, *id),
        Entry::Commit {
            node,
            file,
            count,
            id,
        } => is_position(*node, *file, *count, *id),
        Entry::Answer {
            node,
            file,
            id,
            count,
            bytes,
        } => is_position(*node, *file, *count, *id) && are_few(bytes.as_slice()),
        Entry::Done {
            client,
            number,
            outcome,
        } => {
            let _fits = client.0;
            *number < COUNTS && is_end(outcome)
        }
    }
}
