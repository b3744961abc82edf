ghost use Rattle.std.specs.Prelude.{◌≡◌, ◌≤◌, IsTrue, OnOk, OnErr, map, length};
ghost use Rattle.xt_messages.specs.Limits.{rise};
ghost use Rattle.xt_protocol.specs.Heads.{head_after};
ghost use Rattle.xt_protocol.specs.Folds.{held_after};
ghost use Rattle.object_versions.specs.Rising.{HeadRises};

use crate::held::hold;
use crate::sessions::{put_session, sessions_with};
use crate::versions::{drop_versions, objects_below, put_version, versions_with};
use xt_base::{NO_OBJECT, OutOfMemory};
use xt_messages::{FileHead, HeldSet, ObjectVersion, Session, Update};

/// The session that an update makes its client's last one.
fn session_made(update: &Update) -> Session
    ensures { result ≡
        record {
          client = update.now.id.client;
          number = update.now.id.number;
          count = update.now.stamp.count;
        } }
{
    Session {
        client: update.id.client,
        number: update.id.number,
        count: update.stamp.count,
    }
}

/// The version that an update makes of its object.
fn version_made(update: &Update) -> ObjectVersion
    ensures { result ≡ record { object = update.now.object; version = update.now.stamp } }
{
    ObjectVersion {
        object: update.object,
        version: update.stamp,
    }
}

/// How many versions a head has after an update.
pub fn versions_after(head: &FileHead, update: &Update) -> usize
    requires { HeadRises head.now }
    ensures { result ≡ length (head_after head.now update.now).versions }
{
    let versions = head.versions.as_slice();
    let kept = &versions[..objects_below(versions, update.drop_from)];
    if update.object == NO_OBJECT {
        return kept.len();
    }
    versions_with(kept, update.object)
}

/// How many sessions a head has after an update.
pub fn sessions_after(head: &FileHead, update: &Update) -> usize
    requires { HeadRises head.now }
    ensures { result ≡ length (head_after head.now update.now).sessions }
{
    sessions_with(head.sessions.as_slice(), session_made(update))
}

/// What an update makes of a head and of the held bodies, in place. Where memory runs out, both are as they were.
pub fn take_update(
    head: &mut FileHead,
    held: &mut HeldSet,
    update: &Update,
) -> Result<(), OutOfMemory>
    requires { HeadRises head.old }
    ensures head { OnOk result (head.new ≡ head_after head.old update.now) }
    ensures held { OnOk result (held.new ≡ held_after held.old update.now) }
    ensures same_head { OnErr result (head.new ≡ head.old) }
    ensures same_held { OnErr result (held.new ≡ held.old) }
{
    let versions = &mut head.versions.items;
    let sessions = &mut head.sessions.items;
    versions.reserve(1)?;
    sessions.reserve(1)?;
    if update.object != NO_OBJECT {
        hold(held, version_made(update))?;
    }
    drop_versions(versions, update.drop_from);
    if update.object != NO_OBJECT {
        put_version(versions, version_made(update));
    }
    put_session(sessions, session_made(update));
    head.stamp = update.stamp;
    head.last = update.id;
    head.mark = update.mark;
    Ok(())
}

/// What an update makes of a head alone, in place. Where memory runs out, it is as it was.
pub fn update_head(head: &mut FileHead, update: &Update) -> Result<(), OutOfMemory>
    requires { HeadRises head.old }
    ensures ok { OnOk result (head.new ≡ head_after head.old update.now) }
    ensures same { OnErr result (head.new ≡ head.old) }
{
    let versions = &mut head.versions.items;
    let sessions = &mut head.sessions.items;
    versions.reserve(1)?;
    sessions.reserve(1)?;
    drop_versions(versions, update.drop_from);
    if update.object != NO_OBJECT {
        put_version(versions, version_made(update));
    }
    put_session(sessions, session_made(update));
    head.stamp = update.stamp;
    head.last = update.id;
    head.mark = update.mark;
    Ok(())
}
