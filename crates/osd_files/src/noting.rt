ghost use Rattle.std.specs.Prelude.{◌≡◌, List, Option, Some, true, is_some, if◌then◌else◌, IfOk, IfNone, IfSome, OnOk, OnErr};
ghost use Rattle.xt_messages.specs.declared.file.Location.{Location};
ghost use Rattle.peer_searches.specs.Sound.{AreSound};
ghost use Rattle.replica_state.specs.Kept.{IsNotable};
ghost use Rattle.xt_protocol.specs.FileStates.{staged_after};
ghost use Rattle.xt_protocol.specs.Folds.{row_after};
ghost use Rattle.xt_protocol.specs.ReplicaRows.{kept_after};
ghost use Rattle.xt_protocol.specs.Stamps.{with_held, without_version};
ghost use Rattle.xt_protocol.specs.declared.states.Peer.{Peer};

use crate::joining::both;
use crate::seeking::begin_anew;
use object_versions::let_go;
use peer_searches::Searches;
use replica_state::Replica;
use xt_base::{OptionalBox, OutOfMemory};
use xt_messages::{HeldSet, ObjectVersion, Record};
use xt_protocol::Turned;

/// Holds a version from now on, and says whether it is a new one. Where memory runs out, the held ones are as they were.
fn hold_once(held: &mut HeldSet, version: ObjectVersion) -> Result<bool, OutOfMemory>
    ensures held { OnOk result (held.new ≡ with_held held.old version) }
    ensures back { IfOk result (λ is_new.
        (if is_new then without_version held.new version else held.new) ≡ held.old) }
    ensures same { OnErr result (held.new ≡ held.old) }
{
    Ok(held.versions.insert(version)?)
}

/// Takes the record of a body that was staged. Where memory runs out, the replica and what was staged are as they were.
fn note_body(
    replica: &mut Replica,
    staged: &mut HeldSet,
    rec: &Record,
    version: ObjectVersion,
) -> Result<(), OutOfMemory>
    requires { IsNotable replica.old rec.now }
    ensures kept { OnOk result (replica.new ≡ row_after replica.old rec.now) }
    ensures staged { OnOk result (staged.new ≡ with_held staged.old version) }
    ensures same { OnErr result ((replica.new ≡ replica.old) × (staged.new ≡ staged.old)) }
{
    let is_new = hold_once(staged, version)?;
    let done = replica.note(rec);
    if done.is_err() && is_new {
        let_go(staged, version);
    }
    done
}

/// Takes what was recorded in the own replica, and the bodies that were staged since the last head or update follow it. Where
/// memory runs out, both are as they were.
fn note_record(replica: &mut Replica, staged: &mut HeldSet, rec: &Record) -> Result<(), OutOfMemory>
    requires { IsNotable replica.old rec.now }
    ensures kept { OnOk result (replica.new ≡ row_after replica.old rec.now) }
    ensures staged { OnOk result (staged.new ≡ staged_after staged.old (Some rec.now)) }
    ensures same { OnErr result ((replica.new ≡ replica.old) × (staged.new ≡ staged.old)) }
{
    match rec {
        Record::Stage {
            object,
            version,
            ..
        } => {
            let body = ObjectVersion {
                object: *object,
                version: *version,
            };
            note_body(replica, staged, rec, body)
        }
        Record::Update { .. } | Record::Head { .. } => {
            replica.note(rec)?;
            staged.versions.clear();
            Ok(())
        }
        _ => replica.note(rec),
    }
}

/// The same, if anything was recorded.
fn note(
    replica: &mut Replica,
    staged: &mut HeldSet,
    rec: &OptionalBox<Record>,
) -> Result<(), OutOfMemory>
    requires { IfSome rec.now (IsNotable replica.old) }
    ensures kept { OnOk result ((location : Option Location) →
        record replica.new { location = location } ≡
        kept_after (record replica.old { location = location }) rec.now) }
    ensures staged { OnOk result (staged.new ≡ staged_after staged.old rec.now) }
    ensures file { replica.new.file ≡ replica.old.file }
    ensures none { IfNone rec.now (replica.new ≡ replica.old) }
    ensures same { OnErr result ((replica.new ≡ replica.old) × (staged.new ≡ staged.old)) }
    ensures some { OnErr result (is_some rec.now ≡ true) }
{
    match rec.get() {
        Some(rec) => note_record(replica, staged, rec),
        None => Ok(()),
    }
}

/// What a step gave, once the own replica has taken what it recorded, and the staged bodies and the searches for what peers lack
/// follow it. Where memory runs out, the replica and what was staged are as they were, and the searches may have begun anew. Where
/// nothing was recorded it doesn't fail.
pub fn noted(
    replica: &mut Replica,
    staged: &mut HeldSet,
    searches: &mut Searches,
    turned: Turned,
) -> Result<Turned, OutOfMemory>
    requires { IfSome turned.rec (IsNotable replica.old) }
    ensures turned { IfOk result (λ given. given ≡ turned) }
    ensures staged { OnOk result (staged.new ≡ staged_after staged.old turned.rec) }
    ensures ok { OnOk result ((location : Option Location) →
        record replica.new { location = location } ≡
        kept_after (record replica.old { location = location }) turned.rec) }
    ensures file { replica.new.file ≡ replica.old.file }
    ensures same { OnErr result ((replica.new ≡ replica.old) × (staged.new ≡ staged.old)) }
    ensures some { OnErr result (is_some turned.rec ≡ true) }
    ensures sound { (peers : List Peer) →
        AreSound replica.old.head.versions peers searches.old →
        AreSound replica.new.head.versions peers searches.new }
{
    begin_anew(searches, turned.rec.is_some());
    let done = note(replica, staged, &turned.rec);
    let (turned, ()) = both(turned, done)?;
    Ok(turned)
}
