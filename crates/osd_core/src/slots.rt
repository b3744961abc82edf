ghost use Rattle.std.specs.Prelude.{◌≡◌, ◌<◌, ◌^◌, ◌++◌, ◌∷◌, ℕ, List, Bool, true, [], IfOk, OnErr, OnOk, flat_map};
ghost use Rattle.std.specs.BTreeMap.{get};
ghost use Rattle.std.specs.BTreeSet.{Updates};
ghost use Rattle.xt_messages.specs.Limits.{FitsPayload};
ghost use Rattle.xt_base.specs.declared.ids.FileId.{FileId};
ghost use Rattle.xt_base.specs.declared.ids.Stamp.{Stamp};
ghost use Rattle.xt_messages.specs.declared.file.Capability.{Capability};
ghost use Rattle.xt_messages.specs.declared.record.Record.{Record};
ghost use Rattle.xt_protocol.specs.FileIds.{file_cmp};
ghost use Rattle.xt_protocol.specs.Forgetting.{needed_of};
ghost use Rattle.xt_protocol.specs.LeaseRows.{Awake};
ghost use Rattle.xt_protocol.specs.SeenBodies.{body_by};
ghost use Rattle.object_versions.specs.KeptBodies.{fault_of, ReadsOnly};
ghost use Rattle.xt_protocol.specs.FileSteps.{step_of_file};
ghost use Rattle.xt_protocol.specs.Turns.{joined, quiet, sends};
ghost use Rattle.xt_protocol.specs.OsdSteps.{asks_dir, file_concerned, handle_message, woken};
ghost use Rattle.osd_files.specs.Views.{site_at};
ghost use Rattle.osd_files.specs.Whole.{IsRowOn, IsSealedBy};
ghost use Rattle.osd_core.specs.Slots.{slots_from, states_of, AreMet, AreRows, EndsAt, EndsBusy, ForgetsMet, GivesMet, GivesMore, PutsNew, SameFiles, StepsFiles};

use crate::messages::file_concerned;
use crate::met::MetFiles;
use crate::slot::{Slot, new_row, no_news};
use flease::Awake;
use object_versions::{Bodies, SoughtBodies, StepErr};
use osd_files::Woken;
use std::alloc::Global;
use std::collections::{BTreeMap, BTreeSet};
use xt_base::{DIR_NODE, FileId, NodeId, OutOfMemory};
use xt_messages::{FileTable, Keep, Msg, Payload, RegistryReq};
use xt_protocol::{Turned, extend, message, quiet, sends_one};

/// The kind of an OSD in the registry.
const OSD: u8 = 1;

/// The files that the records name, as an OSD meets them at its start: all rest.
pub fn met_from(alloc: Global, rows: FileTable) -> Result<MetFiles, OutOfMemory>
    requires { AreRows rows }
    ensures { IfOk result (λ met. met.slots.entries ≡ slots_from rows) }
{
    let mut slots = BTreeMap::new(alloc);
    for row in rows.items {
        slots.insert(row.file, Slot::Row(row))?;
    }
    Ok(MetFiles {
        slots,
        busy: BTreeSet::new(alloc),
    })
}

/// A file is busy from now on. After an error the busy ones are those of before.
fn make_busy(busy: &mut BTreeSet<FileId>, file: FileId) -> Result<(), OutOfMemory>
    ensures busy { OnOk result (Updates file_cmp busy.old busy.new file true) }
    ensures same { OnErr result (busy.new.keys ≡ busy.old.keys) }
{
    busy.insert(file)?;
    Ok(())
}

/// A message at a file that has no slot: the step of a new row's, whose slot is put there once the step has succeeded. After an
/// error the slots are those of before.
fn take_new<B: Bodies>(
    alloc: Global,
    slots: &mut BTreeMap<FileId, Slot>,
    file: &FileId,
    awake: Awake,
    bodies: &mut B,
    now: u64,
    sealed: bool,
    msg: &Msg,
) -> Result<Turned, StepErr>
    requires clock { now < 2 ^ 62 }
    requires fits { FitsPayload msg.now.payload }
    ensures step { IfOk result (λ turned. PutsNew (λ old new. (records : List Record) →
        B.agrees bodies.new records →
        IsRowOn (λ site s. step_of_file site s msg.now.from msg.now.payload) msg.now.payload
        sealed now (body_by records) old new turned) awake file.now slots.old slots.new) }
    ensures same { OnErr result (slots.new.entries ≡ slots.old.entries) }
    ensures reads { ReadsOnly B.agrees B.fault_count bodies.old bodies.new (fault_of result) }
{
    let mut slot = Slot::Row(new_row(alloc, *file));
    let turned = slot.take(alloc, awake, bodies, now, sealed, msg)?;
    match slots.insert(*file, slot) {
        Ok(_) => Ok(turned),
        Err(_) => {
            drop(turned);
            Err(StepErr::OutOfMemory)
        }
    }
}

/// A message at a clock: the step of the file that it concerns, if it concerns one. `sealed` says whether the tag of an ask's
/// capability is the key's. After an error, since memory ran out or a body couldn't be read, each file is as it was.
pub fn take<B: Bodies>(
    alloc: Global,
    met: &mut MetFiles,
    awake: Awake,
    bodies: &mut B,
    now: u64,
    sealed: bool,
    msg: &Msg,
) -> Result<Turned, StepErr>
    requires met { AreMet awake met.old }
    requires clock { now < 2 ^ 62 }
    requires fits { FitsPayload msg.now.payload }
    ensures step { IfOk result (λ turned. (records : List Record) → B.agrees bodies.new records →
        (test : Capability → Bool) → IsSealedBy test msg.now.payload sealed →
        StepsFiles (λ files. handle_message (site_at awake now test (body_by records)) awake files
        msg.now (file_concerned msg.now.payload)) awake met.old met.new turned) }
    ensures same { OnErr result (SameFiles awake met.old met.new) }
    ensures reads { ReadsOnly B.agrees B.fault_count bodies.old bodies.new (fault_of result) }
{
    let Some(file) = file_concerned(&msg.payload) else {
        return Ok(quiet(alloc));
    };
    make_busy(&mut met.busy, file)?;
    match met.slots.get_mut(&file) {
        Some(slot) => slot.take(alloc, awake, bodies, now, sealed, msg),
        None => take_new(
            alloc,
            &mut met.slots,
            &file,
            awake,
            bodies,
            now,
            sealed,
            msg,
        ),
    }
}

/// Takes what a Wake gives at the next file after what others gave.
fn take_woken(woken: &mut Woken, next: &mut Woken) -> Result<(), OutOfMemory>
    ensures overdue { OnOk result (woken.new.overdue ≡ joined woken.old.overdue next.old.overdue) }
    ensures again { OnOk result (woken.new.again ≡ joined woken.old.again next.old.again) }
{
    extend(&mut woken.overdue, &mut next.overdue)?;
    extend(&mut woken.again, &mut next.again)
}

/// What a Wake gives at a file, if it has a slot, after what others gave.
fn wake_at(
    alloc: Global,
    slots: &BTreeMap<FileId, Slot>,
    file: &FileId,
    woken: &mut Woken,
    now: u64,
) -> Result<(), OutOfMemory>
    requires { now < 2 ^ 62 }
    ensures { OnOk result (GivesMore now (get file_cmp slots.now file.now) woken.old woken.new) }
{
    let Some(slot) = slots.get(file) else {
        return Ok(());
    };
    let mut next = slot.wake(alloc, now)?;
    let taken = take_woken(woken, &mut next);
    drop(next);
    taken
}

/// What a Wake gives at each busy file, in order, where nothing was given before.
fn wake_busy(alloc: Global, met: &MetFiles, woken: &mut Woken, now: u64) -> Result<(), OutOfMemory>
    requires clock { now < 2 ^ 62 }
    requires overdue { woken.old.overdue ≡ quiet }
    requires again { woken.old.again ≡ quiet }
    ensures { OnOk result (GivesMet now met.now woken.new) }
{
    for file in &met.busy {
        wake_at(alloc, &met.slots, file, woken, now)?;
    }
    Ok(())
}

/// What a Wake gives at each file, in order: what is overdue, and apart from it the rows of a Wake. Only busy files are looked at.
fn wake_each(alloc: Global, met: &MetFiles, now: u64) -> Result<Woken, OutOfMemory>
    requires { now < 2 ^ 62 }
    ensures { IfOk result (λ woken. GivesMet now met.now woken) }
{
    let mut woken = no_news(alloc);
    match wake_busy(alloc, met, &mut woken, now) {
        Ok(()) => Ok(woken),
        Err(error) => {
            drop(woken);
            Err(error)
        }
    }
}

/// What asks the DIR for the OSDs.
fn asks_dir(node: NodeId) -> Msg
    ensures { result ≡ asks_dir node }
{
    let request = RegistryReq::List {
        kind: OSD,
        after: NodeId(0),
    };
    let payload = Payload::Registry { number: 0, request };
    message(node, DIR_NODE, payload)
}

/// All that an OSD gives at a Wake: it asks the DIR for the OSDs, and takes what the files gave after that.
fn wake_gives(alloc: Global, node: NodeId, woken: &mut Woken) -> Result<Turned, OutOfMemory>
    ensures { IfOk result (λ turned. turned ≡
        joined (sends (asks_dir node ∷ [])) (joined woken.old.overdue woken.old.again)) }
{
    extend(&mut woken.overdue, &mut woken.again)?;
    let mut turned = sends_one(alloc, asks_dir(node))?;
    match extend(&mut turned, &mut woken.overdue) {
        Ok(()) => Ok(turned),
        Err(error) => {
            drop(turned);
            Err(error)
        }
    }
}

/// A file after a Wake, if it has a slot. It takes no memory.
fn end_at(slots: &mut BTreeMap<FileId, Slot>, file: &FileId, now: u64)
    requires { now < 2 ^ 62 }
    ensures { EndsAt now file.now slots.old slots.new (get file_cmp slots.old file.now) }
{
    if let Some(slot) = slots.get_mut(file) {
        slot.end_wake(now);
    }
}

/// The files after a Wake. Only busy files are looked at, and it takes no memory.
fn end_busy(slots: &mut BTreeMap<FileId, Slot>, busy: &BTreeSet<FileId>, now: u64)
    requires { now < 2 ^ 62 }
    ensures { EndsBusy now busy.now.keys slots.old slots.new }
{
    for file in busy {
        end_at(slots, file, now);
    }
}

/// A Wake at a clock: the DIR is asked for the OSDs; then what is overdue at each file; then the rows of a Wake for each file.
/// All that it gives is made before any file changes: after an error, since memory ran out, each is as it was.
pub fn wake(
    alloc: Global,
    met: &mut MetFiles,
    awake: Awake,
    now: u64,
) -> Result<Turned, OutOfMemory>
    requires met { AreMet awake met.old }
    requires clock { now < 2 ^ 62 }
    ensures step { IfOk result (λ turned.
        (sealed : Capability → Bool) (body : FileId → ℕ → Stamp → List ℕ) →
        StepsFiles (woken (site_at awake now sealed body)) awake met.old met.new turned) }
    ensures same { OnErr result (met.new ≡ met.old) }
{
    let mut woken = wake_each(alloc, met, now)?;
    let given = wake_gives(alloc, awake.node(), &mut woken);
    drop(woken);
    let turned = given?;
    end_busy(&mut met.slots, &met.busy, now);
    Ok(turned)
}

/// Puts the held bodies that the files need after those that are to be kept already, file by file.
pub fn keep_all(alloc: Global, met: &MetFiles, keep: &mut Keep) -> Result<(), OutOfMemory>
    ensures { OnOk result ((awake : Awake) → AreMet awake met.now →
        keep.new ≡ keep.old ++
        flat_map (needed_of awake.node) (states_of awake met.now.slots.entries)) }
{
    for slot in met.slots.values() {
        slot.keep(alloc, keep)?;
    }
    Ok(())
}

/// Forgets the held bodies of all files that aren't to be kept. It takes no memory.
pub fn forget_all(met: &mut MetFiles, keep: &SoughtBodies<'_>)
    ensures { ForgetsMet keep.now met.old met.new }
{
    met.slots.retain(|_, slot| {
        slot.forget(keep);
        true
    });
}
