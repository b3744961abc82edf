ghost use Rattle.std.specs.Prelude.{◌≡◌, ◌<◌, ◌^◌, ◌++◌, List, [], IfOk, OnErr, OnOk};
ghost use Rattle.xt_messages.specs.Limits.{FitsPayload};
ghost use Rattle.xt_messages.specs.declared.record.Record.{Record};
ghost use Rattle.xt_protocol.specs.Folds.{new_row};
ghost use Rattle.xt_protocol.specs.LeaseRows.{Awake};
ghost use Rattle.xt_protocol.specs.SeenBodies.{body_by};
ghost use Rattle.object_versions.specs.KeptBodies.{fault_of, ReadsOnly};
ghost use Rattle.xt_protocol.specs.Turns.{quiet};
ghost use Rattle.xt_protocol.specs.FileSteps.{step_of_file};
ghost use Rattle.xt_protocol.specs.Forgetting.{needed_of, row_without};
ghost use Rattle.osd_files.specs.Whole.{IsRowOn};
ghost use Rattle.object_versions.specs.Keeping.{needed_among};
ghost use Rattle.osd_core.specs.FileSlots.{state_of, view_of, EndsSlot, ForgetsSlot, GivesWoken, IsSoundSlot};

use flease::Awake;
use object_versions::{
    Bodies, NeededVersions, SoughtBodies, SoughtVersions, StepErr, forget_held, keep_needed,
};
use osd_files::{OsdFile, Woken};
use replica_records::new_head;
use std::alloc::Global;
use std::mem;
use xt_base::{FileId, OutOfMemory};
use xt_messages::{FileRow, HeldSet, Keep, Msg};
use xt_protocol::{Turned, quiet};

/// A file at an OSD: what its records say of it, until a message concerns it.
pub enum Slot {
    Row(FileRow),
    File(OsdFile),
}

// A derived drop is part of the code of each function that may drop a value. This one is proved once.
impl Drop for Slot {
    fn drop(self) {
        match self {
            Slot::Row(_) => {}
            Slot::File(_) => {}
        }
    }
}

/// What a file begins as.
pub fn new_row(alloc: Global, file: FileId) -> FileRow
    ensures { result ≡ new_row file }
{
    FileRow {
        file,
        head: new_head(alloc),
        held: HeldSet::new(alloc),
        location: None,
        closed: None,
    }
}

/// Nothing comes of a Wake.
pub fn no_news(alloc: Global) -> Woken
    ensures overdue { result.overdue ≡ quiet }
    ensures again { result.again ≡ quiet }
{
    Woken {
        overdue: quiet(alloc),
        again: quiet(alloc),
    }
}

/// Puts the held bodies after those that are to be kept already that a row needs: those of its head.
fn keep_row(alloc: Global, row: &FileRow, keep: &mut Keep) -> Result<(), OutOfMemory>
    ensures { OnOk result (keep.new ≡
        keep.old ++ needed_among row.now.file row.now.head.versions [] [] row.now.held) }
{
    let staged = HeldSet::new(alloc);
    let needed = NeededVersions {
        head: SoughtVersions::of(row.head.versions.as_slice()),
        led: SoughtVersions::of(&[]),
        staged: &staged,
    };
    keep_needed(keep, &row.file, &needed, &row.held)
}

/// Forgets the held bodies of a row that aren't to be kept. It takes no memory.
fn forget_in(row: &mut FileRow, keep: &SoughtBodies<'_>)
    ensures { row.new ≡ row_without keep.now row.old }
{
    forget_held(&mut row.held, &row.file, keep);
}

impl Slot {
    /// Makes a file of a row.
    fn open(&mut self, alloc: Global, awake: Awake)
        requires { IsSoundSlot awake self.old }
        ensures { self.new ≡ Slot.File (view_of awake self.old) }
    {
        if let Slot::Row(row) = self {
            let nothing = new_row(alloc, row.file);
            let row = mem::replace(row, nothing);
            let file = OsdFile::new(alloc, awake, row);
            drop(mem::replace(self, Slot::File(file)));
        }
    }

    /// The step of its file on a message that concerns it, where `sealed` says whether the tag of an ask's capability is the
    /// key's. After an error, since memory ran out or a body couldn't be read, its file is as it was.
    pub fn take<B: Bodies>(
        &mut self,
        alloc: Global,
        awake: Awake,
        bodies: &mut B,
        now: u64,
        sealed: bool,
        msg: &Msg,
    ) -> Result<Turned, StepErr>
        requires sound { IsSoundSlot awake self.old }
        requires clock { now < 2 ^ 62 }
        requires fits { FitsPayload msg.now.payload }
        ensures sound { IsSoundSlot awake self.new }
        ensures row { IfOk result (λ turned. (records : List Record) → B.agrees bodies.new records →
            IsRowOn (λ site s. step_of_file site s msg.now.from msg.now.payload) msg.now.payload
            sealed now (body_by records) (view_of awake self.old) (view_of awake self.new) turned) }
        ensures same { OnErr result (view_of awake self.new ≡ view_of awake self.old) }
        ensures reads { ReadsOnly B.agrees B.fault_count bodies.old bodies.new (fault_of result) }
    {
        self.open(alloc, awake);
        let Slot::File(file) = self else {
            unreachable!()
        };
        file.take(bodies, now, sealed, msg.from, &msg.payload)
    }

    /// What a Wake at the clock `now` gives at its file: nothing while it is a row. The file stays as it is until `end_wake`.
    pub fn wake(&self, alloc: Global, now: u64) -> Result<Woken, OutOfMemory>
        requires { now < 2 ^ 62 }
        ensures { IfOk result (λ woken. GivesWoken now self.now woken) }
    {
        match self {
            Slot::Row(_) => Ok(no_news(alloc)),
            Slot::File(file) => file.wake(now),
        }
    }

    /// Its file after a Wake at the clock `now`: a row stays one. It takes no memory.
    pub fn end_wake(&mut self, now: u64)
        requires { now < 2 ^ 62 }
        ensures { EndsSlot now self.old self.new }
    {
        match self {
            Slot::Row(_) => {}
            Slot::File(file) => file.end_wake(now),
        }
    }

    /// Puts the held bodies that its file needs after those that are to be kept already.
    pub fn keep(&self, alloc: Global, keep: &mut Keep) -> Result<(), OutOfMemory>
        ensures { OnOk result ((awake : Awake) → IsSoundSlot awake self.now →
            keep.new ≡ keep.old ++ needed_of awake.node (state_of awake self.now)) }
    {
        match self {
            Slot::Row(row) => keep_row(alloc, row, keep),
            Slot::File(file) => file.keep(keep),
        }
    }

    /// Forgets the held bodies of its file that aren't to be kept. It takes no memory.
    pub fn forget(&mut self, keep: &SoughtBodies<'_>)
        ensures { ForgetsSlot keep.now self.old self.new }
    {
        match self {
            Slot::Row(row) => forget_in(row, keep),
            Slot::File(file) => file.forget(keep),
        }
    }
}
