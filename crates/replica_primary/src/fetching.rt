ghost use Rattle.std.specs.Prelude.{◌≡◌, ℕ, List, Some, IfOk, reverse};
ghost use Rattle.xt_base.specs.declared.ids.FileId.{FileId};
ghost use Rattle.xt_base.specs.declared.ids.NodeId.{NodeId};
ghost use Rattle.xt_messages.specs.declared.file.FileHead.{FileHead};
ghost use Rattle.xt_messages.specs.declared.file.ObjectVersion.{ObjectVersion};
ghost use Rattle.xt_messages.specs.declared.record.Record.{Record};
ghost use Rattle.xt_protocol.specs.declared.states.PeerState.{PeerState};
ghost use Rattle.xt_protocol.specs.declared.states.Place.{Place};
ghost use Rattle.xt_protocol.specs.declared.states.Progress.TheVariants as progress;
ghost use Rattle.xt_protocol.specs.Primaries.{peer_in};
ghost use Rattle.xt_protocol.specs.PrimaryRows as rows;
ghost use Rattle.xt_protocol.specs.ReplicaRows.{stage_record};
ghost use Rattle.replica_primary.specs.Shown.{shown_progress, shown_tenure};
ghost use Rattle.replica_primary.specs.Written.{ground};
ghost use Rattle.replica_primary.specs.Moves.{is_asked, kept_of, led_by, next_of, source_in};

use crate::gathering::fetches;
use crate::moving::{FetchedBody, Heard, Next, advance, unmoved};
use object_versions::{holds, is_version};
use std::alloc::Global;
use std::mem;
use xt_base::{Copies, NodeId, Octets, OutOfMemory};
use xt_messages::{HeldSet, ObjectVersion};
use xt_protocol::{Place, Progress, Tenure};

/// A fetched body, unless it is held.
fn unless_held(held: &HeldSet, body: FetchedBody) -> Option<FetchedBody>
    ensures { (file : FileId) → kept_of file result ≡
        stage_record file held.now body.object body.version body.bytes }
{
    let version = ObjectVersion {
        object: body.object,
        version: body.version,
    };
    if holds(held, version) {
        return None;
    }
    Some(body)
}

/// Body fetched: it is kept unless it is held, and the next one is asked for. The head may be fed with this very body.
fn take_body(
    alloc: Global,
    place: &Place,
    tenure: &mut Tenure,
    held: &HeldSet,
    body: FetchedBody,
) -> Result<Next, OutOfMemory>
    ensures { IfOk result (λ next.
        (learnt : ℕ) (from : NodeId) (records : List Record) (own chosen : FileHead)
        (source : NodeId) (asked : ObjectVersion) (later : List ObjectVersion) →
        tenure.old.progress ≡ progress.Fetching chosen source asked later →
        next_of (ground place.now records own held.now) learnt from (shown_tenure tenure.new)
        next ≡
        rows.take_body (ground place.now records own held.now) learnt (shown_tenure tenure.old)
        chosen source (reverse later) body.object body.version body.bytes) }
{
    let fetched = unless_held(held, body);
    match mem::replace(&mut tenure.progress, Progress::Gathering) {
        Progress::Fetching {
            chosen,
            source,
            later,
            ..
        } => fetches(alloc, place, tenure, chosen, source, later, fetched),
        progress => {
            advance(tenure, progress);
            Ok(unmoved(alloc))
        }
    }
}

/// Whether this is the version that was asked for last, from its source.
fn is_asked(progress: &Progress, from: NodeId, version: ObjectVersion) -> bool
    ensures { result ≡ is_asked progress.now from version }
{
    match progress {
        Progress::Fetching { source, asked, .. } => {
            from.0 == source.0 && is_version(*asked, version)
        }
        _ => false,
    }
}

/// An object counts if it is the one that was asked for last, from the source.
pub fn hears_object(
    alloc: Global,
    place: &Place,
    tenure: &mut Tenure,
    held: &HeldSet,
    from: NodeId,
    version: ObjectVersion,
    bytes: &Octets,
) -> Result<Next, OutOfMemory>
    ensures { IfOk result (λ next. (learnt : ℕ) (records : List Record) (own : FileHead) →
        next_of (ground place.now records own held.now) learnt from (shown_tenure tenure.new)
        next ≡
        rows.hears_object (ground place.now records own held.now) learnt (shown_tenure tenure.old)
        (shown_progress tenure.old.progress) from version.object version.version bytes.now) }
{
    if !is_asked(&tenure.progress, from, version) {
        return Ok(unmoved(alloc));
    }
    let body = FetchedBody {
        object: version.object,
        version: version.version,
        bytes: bytes.copy(alloc)?,
    };
    take_body(alloc, place, tenure, held, body)
}

/// From whom bodies are fetched, if they are.
fn source_of(progress: &Progress) -> Option<NodeId>
    ensures { result ≡ source_in progress.now }
{
    match progress {
        Progress::Fetching { source, .. } => Some(*source),
        _ => None,
    }
}

/// Fetch missed: the source no longer has a body of the chosen head, and a new epoch is drawn. Later, a body was missed.
pub fn hears_missing(
    alloc: Global,
    learnt: u64,
    tenure: &Tenure,
    from: NodeId,
    version: ObjectVersion,
) -> Heard
    ensures { (place : Place) (records : List Record) (own : FileHead) (held : List ObjectVersion)
        (state : PeerState) → peer_in tenure.now.peers from ≡ Some state →
        led_by (ground place records own held) learnt from (shown_tenure tenure.now) result ≡
        rows.hears_missing (ground place records own held) learnt (shown_tenure tenure.now)
        (shown_progress tenure.now.progress) from state version }
{
    let Some(source) = source_of(&tenure.progress) else {
        return Heard::Missed { version };
    };
    if from.0 != source.0 {
        return Heard::GoesOn {
            next: unmoved(alloc),
        };
    }
    Heard::Redraws { above: learnt }
}
