ghost use Rattle.std.specs.Prelude.{◌≡◌, false, IfOk, OnOk, OnErr, List};
ghost use Rattle.xt_messages.specs.declared.record.Record.{Record};
ghost use Rattle.xt_base.specs.FieldLimits.{IsCount};
ghost use Rattle.xt_messages.specs.Limits.{FitsLocation, FitsOp, FitsOpId};
ghost use Rattle.xt_protocol.specs.SeenBodies.{body_by};
ghost use Rattle.xt_protocol.specs.AskRows.{leaves_object};
ghost use Rattle.object_versions.specs.KeptBodies.{fault_of, ReadsOnly};
ghost use Rattle.object_versions.specs.Rising.{HeadRises};
ghost use Rattle.xt_protocol.specs.PlainRows.{plain_after, plain_step};
ghost use Rattle.osd_plain.specs.Records.{IsUpdateIfAny};

use crate::PlainActed;
use crate::member::Member;
use object_versions::{Bodies, StepErr, update_head};
use std::alloc::Global;
use std::marker::Model;
use xt_base::{FileId, NodeId, OpId, OutOfMemory};
use xt_messages::{FileHead, Location, Op, Record};

/// A striped file at one of its members. Contracts see the file, the member and the head over the objects that it owns.
#[derive(Drop)]
pub struct Plain {
    alloc: Global,
    file: FileId,
    node: NodeId,
    head: FileHead,
}

impl Model for Plain {
    ghost use Rattle.xt_protocol.specs.PlainRows.{PlainFile};
    ghost use Rattle.object_versions.specs.Rising.{HeadRises};

    ghost Value = { PlainFile };

    ghost view = { λ p. record { file = p.file; node = p.node; head = p.head } };

    ghost invariant = { λ p. HeadRises p.head };
}

impl Plain {
    /// The file at this member with this head, as its records fold.
    pub fn new(alloc: Global, file: FileId, node: NodeId, head: FileHead) -> Plain
        requires { HeadRises head }
        ensures { result ≡ record { file = file; node = node; head = head } }
    {
        Plain {
            alloc,
            file,
            node,
            head,
        }
    }

    /// What the member says of the file.
    pub fn head(&self) -> &FileHead
        ensures value { result.now ≡ self.now.head }
        ensures rising { HeadRises result.now }
    {
        &self.head
    }

    /// A client's operation on the file, under its capability's truncate epoch and list. The range stays in its object.
    pub fn step<B: Bodies>(
        &mut self,
        bodies: &mut B,
        id: OpId,
        epoch: u64,
        location: &Location,
        op: &Op,
    ) -> Result<PlainActed, StepErr>
        requires inside { leaves_object location.now.stripe op.now ≡ false }
        requires who { FitsOpId id }
        requires truncation { IsCount epoch }
        requires list { FitsLocation location.now }
        requires operation { FitsOp op.now }
        ensures row { IfOk result (λ acted. (records : List Record) → B.agrees bodies.new records →
            acted ≡ plain_step self.old (body_by records self.old.file) id epoch location.now
            op.now) }
        ensures kept { IfOk result (λ acted. self.new ≡ plain_after self.old acted.rec) }
        ensures same { OnErr result (self.new ≡ self.old) }
        ensures reads { ReadsOnly B.agrees B.fault_count bodies.old bodies.new (fault_of result) }
    {
        let acted = self.member().step(bodies, id, epoch, location, op)?;
        Ok(self.take(acted)?)
    }

    /// The member, as the head stands.
    fn member(&self) -> Member<'_>
        ensures { result ≡ self.now }
    {
        Member::new(self.alloc, self.file, self.node, &self.head)
    }

    /// The head takes the update that a step recorded, if it did.
    fn take(&mut self, acted: PlainActed) -> Result<PlainActed, OutOfMemory>
        requires { IsUpdateIfAny acted.rec }
        ensures given { IfOk result (λ given. given ≡ acted) }
        ensures kept { OnOk result (self.new ≡ plain_after self.old acted.rec) }
        ensures same { OnErr result (self.new ≡ self.old) }
    {
        if let Some(Record::Update { update, .. }) = &acted.rec {
            update_head(&mut self.head, update)?;
        }
        Ok(acted)
    }
}
