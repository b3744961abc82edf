ghost use Rattle.std.specs.Prelude.{◌≡◌, ◌≤◌, false, Some, IfOk, List};
ghost use Rattle.xt_messages.specs.declared.record.Record.{Record};
ghost use Rattle.xt_base.specs.FieldLimits.{IsCount};
ghost use Rattle.xt_messages.specs.Limits.{FitsLocation, FitsOp, FitsOpId};
ghost use Rattle.xt_protocol.specs.SeenBodies.{body_by};
ghost use Rattle.xt_protocol.specs.AskRows.{leaves_object};
ghost use Rattle.object_versions.specs.KeptBodies.{fault_of, ReadsOnly};
ghost use Rattle.object_versions.specs.Rising.{HeadRises};
ghost use Rattle.osd_decisions.specs.Near.{IsNear};
ghost use Rattle.xt_protocol.specs.PlainRows.{plain_step};
ghost use Rattle.xt_protocol.specs.PlainRows as rows;

use crate::PlainActed;
use crate::serving::{next_update, nothing, only, refusal, serve_read, update_fits};
use object_versions::{Bodies, StepErr};
use osd_decisions::{WriteStanding, standing_of};
use std::alloc::Global;
use std::marker::Model;
use xt_base::{FileId, NodeId, OBJECTS, Octets, OpId};
use xt_messages::{FileHead, Location, Op, Record, Reply, Update};

/// A member of a striped file, which decides over a head that stands elsewhere. Contracts see the file, the member and the head.
#[derive(Drop)]
pub struct Member<'a> {
    alloc: Global,
    file: FileId,
    node: NodeId,
    head: &'a FileHead,
}

impl<'a> Model for Member<'a> {
    ghost use Rattle.xt_protocol.specs.PlainRows.{PlainFile};
    ghost use Rattle.object_versions.specs.Rising.{HeadRises};

    ghost Value = { PlainFile };

    ghost view = { λ m. record { file = m.file; node = m.node; head = m.head.now } };

    ghost invariant = { λ m. HeadRises m.head.now };
}

impl<'a> Member<'a> {
    /// The file at this member, with this head over the objects that it owns.
    pub fn new(alloc: Global, file: FileId, node: NodeId, head: &'a FileHead) -> Member<'a>
        requires { HeadRises head.now }
        ensures { result ≡ record { file = file; node = node; head = head.now } }
    {
        Member {
            alloc,
            file,
            node,
            head,
        }
    }

    /// What a client's operation gives, under its capability's truncate epoch and list: at most an update, which the head is to take,
    /// and at most one reply. The range stays in its object.
    #[tactic(auto, unfolding(xt_protocol::specs::PlainRows::plain_step), using(crate::proofs::Lists::some_member))]
    pub fn step<B: Bodies>(
        &self,
        bodies: &mut B,
        id: OpId,
        epoch: u64,
        location: &Location,
        op: &Op,
    ) -> Result<PlainActed, StepErr>
        requires inside { leaves_object location.now.stripe op.now ≡ false }
        requires who { FitsOpId id }
        requires truncation { IsCount epoch }
        requires list { FitsLocation location.now }
        requires operation { FitsOp op.now }
        ensures row { IfOk result (λ acted. (records : List Record) → B.agrees bodies.new records →
            acted ≡ plain_step self.now (body_by records self.now.file) id epoch location.now
            op.now) }
        ensures reads { ReadsOnly B.agrees B.fault_count bodies.old bodies.new (fault_of result) }
    {
        match refusal(&location.members, self.node, op) {
            Some(rule) => Ok(only(Reply::Denied { rule })),
            None => self.serve(bodies, id, epoch, location, op),
        }
    }

    /// An operation that the member doesn't refuse.
    fn serve<B: Bodies>(
        &self,
        bodies: &mut B,
        id: OpId,
        epoch: u64,
        location: &Location,
        op: &Op,
    ) -> Result<PlainActed, StepErr>
        requires some { 1024 ≤ location.now.stripe }
        requires operation { FitsOp op.now }
        ensures row { IfOk result (λ acted. (records : List Record) → B.agrees bodies.new records →
            acted ≡ rows.served self.now (body_by records self.now.file) id epoch location.now
            op.now) }
        ensures reads { ReadsOnly B.agrees B.fault_count bodies.old bodies.new (fault_of result) }
    {
        match op {
            Op::Read { object, at, len } => {
                let (file, head) = (&self.file, self.head);
                let reply = serve_read(bodies, self.alloc, file, head, *object, *at, *len)?;
                Ok(only(reply))
            }
            Op::Write { .. } | Op::Truncate { .. } => self.write(bodies, id, epoch, location, op),
        }
    }

    /// A write or a truncation, by how it stands to the head.
    fn write<B: Bodies>(
        &self,
        bodies: &mut B,
        id: OpId,
        epoch: u64,
        location: &Location,
        op: &Op,
    ) -> Result<PlainActed, StepErr>
        requires some { 1024 ≤ location.now.stripe }
        requires operation { FitsOp op.now }
        ensures row { IfOk result (λ acted. (records : List Record) → B.agrees bodies.new records →
            acted ≡ rows.serve_plain_write self.now (body_by records self.now.file) id epoch
            location.now op.now) }
        ensures reads { ReadsOnly B.agrees B.fault_count bodies.old bodies.new (fault_of result) }
    {
        let width = location.members.as_slice().len() as u64;
        match standing_of(OBJECTS * width, location.stripe, self.head, id, epoch, op) {
            WriteStanding::Repeated { count } => Ok(only(Reply::Ok {
                count,
                mark: self.head.mark,
                bytes: Octets::new(self.alloc),
            })),
            WriteStanding::Older => Ok(nothing()),
            WriteStanding::TurnedAway { reply } => Ok(only(reply)),
            WriteStanding::Fresh => self.fresh_write(bodies, id, epoch, location.stripe, op),
        }
    }

    /// A write or a truncation that stands: kept, where the next update is one.
    fn fresh_write<B: Bodies>(
        &self,
        bodies: &mut B,
        id: OpId,
        epoch: u64,
        stripe: u32,
        op: &Op,
    ) -> Result<PlainActed, StepErr>
        requires some { 1024 ≤ stripe }
        requires operation { FitsOp op.now }
        requires near { IsNear op.now }
        ensures row { IfOk result (λ acted. (records : List Record) → B.agrees bodies.new records →
            acted ≡ rows.write_kept self.now
            (rows.next_update stripe (body_by records self.now.file) self.now.head id epoch
            op.now)) }
        ensures reads { ReadsOnly B.agrees B.fault_count bodies.old bodies.new (fault_of result) }
    {
        let (file, head) = (&self.file, self.head);
        match next_update(bodies, self.alloc, file, stripe, head, id, epoch, op)? {
            None => Ok(nothing()),
            Some(update) => Ok(self.keep(update)),
        }
    }

    /// Write kept, where the head is within its limits after it: the update moves into its record.
    fn keep(&self, update: Update) -> PlainActed
        ensures { result ≡ rows.write_kept self.now (Some update) }
    {
        if !update_fits(self.head, &update) {
            return nothing();
        }
        let reply = Reply::Ok {
            count: update.stamp.count,
            mark: update.mark,
            bytes: Octets::new(self.alloc),
        };
        let file = self.file;
        PlainActed {
            rec: Some(Record::Update { file, update }),
            reply: Some(reply),
        }
    }
}
