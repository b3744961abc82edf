ghost use Rattle.std.specs.Prelude.{◌≡◌, OnOk, IfOk};
ghost use Rattle.xt_protocol.specs.Heads.{with_version, with_session, new_head, plain_stamp, head_after, versions_below};
ghost use Rattle.replica_records.specs.RowPlaces.{versions_after, IsVersionPlace, IsSessionPlace};

use std::alloc::Global;
use xt_base::{Copies, Epoch, NO_OBJECT, NodeId, OpId, OutOfMemory, Seq, SizeMark, Stamp};
use xt_messages::{FileHead, ObjectVersion, Session, Update};

/// The stamp of a count of writes outside any primary's tenure.
pub fn plain_stamp(count: u64) -> Stamp
    ensures { result ≡ plain_stamp count }
{
    let epoch = Epoch {
        number: 0,
        node: NodeId(0),
    };
    Stamp { epoch, count }
}

/// What a file begins as.
pub fn new_head(alloc: Global) -> FileHead
    ensures { result ≡ new_head }
{
    let stamp = plain_stamp(0);
    FileHead {
        promised: stamp.epoch,
        stamp,
        last: OpId {
            client: NodeId(0),
            number: 0,
        },
        mark: SizeMark { epoch: 0, size: 0 },
        versions: Seq::new(alloc),
        sessions: Seq::new(alloc),
    }
}

/// Where the version of an object stands, or else where it belongs.
fn version_place(versions: &[ObjectVersion], object: u64) -> Result<usize, usize>
    ensures { IsVersionPlace versions.now object result }
{
    for (place, row) in versions.iter().enumerate() {
        if row.object == object {
            return Ok(place);
        }
        if row.object > object {
            return Err(place);
        }
    }
    Err(versions.len())
}

/// Where the session of a client stands, or else where it belongs.
fn session_place(sessions: &[Session], client: NodeId) -> Result<usize, usize>
    ensures { IsSessionPlace sessions.now client.0 result }
{
    for (place, row) in sessions.iter().enumerate() {
        if row.client.0 == client.0 {
            return Ok(place);
        }
        if row.client.0 > client.0 {
            return Err(place);
        }
    }
    Err(sessions.len())
}

/// Puts the version of an object into its place.
fn put_version(versions: &mut Seq<ObjectVersion>, row: ObjectVersion) -> Result<(), OutOfMemory>
    ensures { OnOk result (versions.new ≡ with_version versions.old row.object row.version) }
{
    match version_place(versions.as_slice(), row.object) {
        Ok(place) => versions.items[place] = row,
        Err(place) => versions.items.insert(place, row)?,
    }
    Ok(())
}

/// Puts a client's session into its place.
fn put_session(sessions: &mut Seq<Session>, row: Session) -> Result<(), OutOfMemory>
    ensures { OnOk result (sessions.new ≡ with_session sessions.old row) }
{
    match session_place(sessions.as_slice(), row.client) {
        Ok(place) => sessions.items[place] = row,
        Err(place) => sessions.items.insert(place, row)?,
    }
    Ok(())
}

/// Drops the versions of the objects from this one on.
fn drop_versions(versions: &mut Seq<ObjectVersion>, from: u64)
    ensures { versions.new ≡ versions_below versions.old from }
{
    versions.items.retain(|row| row.object < from);
}

/// What an update makes of the versions.
fn update_versions(versions: &mut Seq<ObjectVersion>, update: &Update) -> Result<(), OutOfMemory>
    ensures { OnOk result (versions.new ≡ versions_after versions.old update.now) }
{
    drop_versions(versions, update.drop_from);
    if update.object == NO_OBJECT {
        return Ok(());
    }
    let row = ObjectVersion {
        object: update.object,
        version: update.stamp,
    };
    put_version(versions, row)
}

/// What an update makes of the head. Where memory runs out, the head isn't to be used again.
fn take_update(head: &mut FileHead, update: &Update) -> Result<(), OutOfMemory>
    ensures { OnOk result (head.new ≡ head_after head.old update.now) }
{
    update_versions(&mut head.versions, update)?;
    let session = Session {
        client: update.id.client,
        number: update.id.number,
        count: update.stamp.count,
    };
    put_session(&mut head.sessions, session)?;
    head.stamp = update.stamp;
    head.last = update.id;
    head.mark = update.mark;
    Ok(())
}

/// The head after an update.
pub fn head_after(alloc: Global, head: &FileHead, update: &Update) -> Result<FileHead, OutOfMemory>
    ensures { IfOk result (λ after. after ≡ head_after head.now update.now) }
{
    let mut after = head.copy(alloc)?;
    take_update(&mut after, update)?;
    Ok(after)
}
