ghost use Rattle.std.specs.Prelude.{◌≡◌, ◌<◌, ◌^◌, ◌++◌, List, Bool, IfOk, OnErr, OnOk};
ghost use Rattle.xt_messages.specs.Limits.{FitsPayload};
ghost use Rattle.xt_messages.specs.declared.record.Record.{Record};
ghost use Rattle.xt_protocol.specs.SeenBodies.{body_by};
ghost use Rattle.object_versions.specs.KeptBodies.{fault_of, ReadsOnly};
ghost use Rattle.xt_protocol.specs.FileStates.{file_from};
ghost use Rattle.xt_protocol.specs.FileSteps as rows;
ghost use Rattle.xt_protocol.specs.Forgetting.{file_without, needed_of};
ghost use Rattle.osd_files.specs.Whole.{IsRowOn, IsWoken, RowRises, Wakes};

use crate::keeping::{forget, keep_held};
use crate::parts::Parts;
use crate::starting::file_from;
use crate::steps::step_of_file;
use crate::waking::{Woken, end_wake, wake};
use flease::Awake;
use object_versions::{Bodies, SoughtBodies, StepErr};
use std::alloc::Global;
use std::marker::Model;
use xt_base::{FileId, NodeId, OutOfMemory};
use xt_messages::{FileRow, Keep, Payload};
use xt_protocol::Turned;

/// A file at an OSD that is awake. Contracts see the OSD, and the file's state in the rows' terms.
pub struct OsdFile {
    parts: Parts,
}

// A derived drop is part of the code of each function that may drop a value. This one is proved once.
impl Drop for OsdFile {
    fn drop(self) {
        let OsdFile { parts: _ } = self;
    }
}

impl Model for OsdFile {
    ghost use Rattle.osd_files.specs.Views.{FileView, shown};
    ghost use Rattle.osd_files.specs.Whole.{IsWhole};

    ghost Value = { FileView };

    ghost view = { λ file. shown file.parts };

    ghost invariant = { λ file. IsWhole (shown file.parts) };
}

impl OsdFile {
    /// A file at an OSD that has just started, from what its records say: without a lease, a primary's tenure and asks.
    pub fn new(alloc: Global, awake: Awake, row: FileRow) -> OsdFile
        requires { RowRises row }
        ensures { result ≡ record { awake = awake; state = file_from awake row } }
    {
        OsdFile {
            parts: file_from(alloc, &awake, row),
        }
    }

    /// The file.
    pub fn id(&self) -> FileId
        ensures { result ≡ self.now.state.kept.file }
    {
        self.parts.replica.file()
    }

    /// A message that concerns the file, at the clock `now`: what is overdue, and then the message's row. `sealed` says whether
    /// the tag of an ask's capability is the key's. After an error, since memory ran out or a body couldn't be read, it is as it was.
    pub fn take<B: Bodies>(
        &mut self,
        bodies: &mut B,
        now: u64,
        sealed: bool,
        from: NodeId,
        payload: &Payload,
    ) -> Result<Turned, StepErr>
        requires clock { now < 2 ^ 62 }
        requires fits { FitsPayload payload.now }
        ensures row { IfOk result (λ turned. (records : List Record) → B.agrees bodies.new records →
            IsRowOn (λ site s. rows.step_of_file site s from payload.now) payload.now sealed now
            (body_by records) self.old self.new turned) }
        ensures same { OnErr result (self.new ≡ self.old) }
        ensures reads { ReadsOnly B.agrees B.fault_count bodies.old bodies.new (fault_of result) }
    {
        step_of_file(&mut self.parts, bodies, now, sealed, from, payload)
    }

    /// What a Wake at the clock `now` gives: of what is overdue, and then of the rows of a Wake, apart, since an OSD reports the first
    /// of all its files before the second. The file stays as it is until `end_wake`.
    pub fn wake(&self, now: u64) -> Result<Woken, OutOfMemory>
        requires { now < 2 ^ 62 }
        ensures { IfOk result (λ woken. Wakes now self.now woken) }
    {
        wake(&self.parts, now)
    }

    /// The file after a Wake at the clock `now`: what was overdue is gone, and a renewal that was due runs. It takes no memory.
    pub fn end_wake(&mut self, now: u64)
        requires { now < 2 ^ 62 }
        ensures { IsWoken now self.old self.new }
    {
        end_wake(&mut self.parts, now);
    }

    /// Puts the held bodies that the file needs after those that are to be kept already.
    pub fn keep(&self, keep: &mut Keep) -> Result<(), OutOfMemory>
        ensures { OnOk result (keep.new ≡
            keep.old ++ needed_of self.now.awake.node self.now.state) }
    {
        keep_held(&self.parts, keep)
    }

    /// Forgets the held bodies of the file that aren't to be kept. It takes no memory.
    pub fn forget(&mut self, keep: &SoughtBodies<'_>)
        ensures { self.new ≡ record self.old { state = file_without keep.now self.old.state } }
    {
        forget(&mut self.parts, keep);
    }
}
