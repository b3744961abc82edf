ghost use Rattle.std.specs.Prelude.{◌≡◌, ◌++◌, OnOk};
ghost use Rattle.xt_fields.specs.Reading.{Takes};
ghost use Rattle.xt_fields.specs.BasicFields.{byte_bytes};
ghost use Rattle.xt_wire.specs.IdFields.{node_at, node_bytes, boot_at, boot_bytes, file_at, file_bytes, ballot_at, ballot_bytes, epoch_at, epoch_bytes, stamp_at, stamp_bytes, lease_at, lease_bytes, report_at, report_arms, report_bytes, op_id_at, op_id_bytes, mark_at, mark_bytes};

use xt_base::{
    Ballot, Boot, Epoch, FileId, Lease, NodeId, OpId, OutOfMemory, SizeMark, Stamp, VolumeId,
};
use xt_fields::{FieldErr, FieldReader, FieldWriter};

/// Reads nodes, files, leases and epochs. A field that is refused leaves the reader as it was, and what takes no
/// allocator never runs out of memory.
pub trait ReadIds {
    /// A node.
    fn node(&mut self) -> Result<NodeId, FieldErr>;

    /// A boot.
    fn boot(&mut self) -> Result<Boot, FieldErr>;

    /// A file.
    fn file(&mut self) -> Result<FileId, FieldErr>;

    /// A ballot.
    fn ballot(&mut self) -> Result<Ballot, FieldErr>;

    /// An epoch.
    fn epoch(&mut self) -> Result<Epoch, FieldErr>;

    /// A stamp.
    fn stamp(&mut self) -> Result<Stamp, FieldErr>;

    /// A lease.
    fn lease(&mut self) -> Result<Lease, FieldErr>;

    /// The id of an operation.
    fn op_id(&mut self) -> Result<OpId, FieldErr>;

    /// A size mark.
    fn mark(&mut self) -> Result<SizeMark, FieldErr>;

    /// A lease, or that there is none.
    fn report(&mut self) -> Result<Option<Lease>, FieldErr>;
}

/// The report that follows this number.
#[tactic(auto, unfolding(crate::specs::IdFields::report_arms, crate::specs::IdFields::some_report_at))]
fn report_arm(fields: &mut FieldReader<'_>, number: u8) -> Result<Option<Lease>, FieldErr>
    ensures { Takes result fields.old fields.new (report_arms number fields.old) }
{
    match number {
        0 => Ok(None),
        1 => Ok(Some(fields.lease()?)),
        _ => Err(FieldErr::Unfit),
    }
}

impl ReadIds for FieldReader<'_> {
    #[tactic(auto, unfolding(crate::specs::IdFields::node_at))]
    fn node(&mut self) -> Result<NodeId, FieldErr>
        ensures { Takes result self.old self.new (node_at self.old) }
    {
        Ok(NodeId(self.word()?))
    }

    #[tactic(auto, unfolding(crate::specs::IdFields::boot_at))]
    fn boot(&mut self) -> Result<Boot, FieldErr>
        ensures { Takes result self.old self.new (boot_at self.old) }
    {
        Ok(Boot(self.count()?))
    }

    #[tactic(auto, unfolding(crate::specs::IdFields::file_at))]
    fn file(&mut self) -> Result<FileId, FieldErr>
        ensures { Takes result self.old self.new (file_at self.old) }
    {
        let mut ahead = self.ahead();
        let volume = VolumeId(ahead.volume()?);
        let number = ahead.long()?;
        *self = ahead;
        Ok(FileId { volume, number })
    }

    #[tactic(auto, unfolding(crate::specs::IdFields::ballot_at))]
    fn ballot(&mut self) -> Result<Ballot, FieldErr>
        ensures { Takes result self.old self.new (ballot_at self.old) }
    {
        let mut ahead = self.ahead();
        let count = ahead.count()?;
        let node = ahead.node()?;
        let boot = ahead.boot()?;
        *self = ahead;
        Ok(Ballot { count, node, boot })
    }

    #[tactic(auto, unfolding(crate::specs::IdFields::epoch_at))]
    fn epoch(&mut self) -> Result<Epoch, FieldErr>
        ensures { Takes result self.old self.new (epoch_at self.old) }
    {
        let mut ahead = self.ahead();
        let number = ahead.count()?;
        let node = ahead.node()?;
        *self = ahead;
        Ok(Epoch { number, node })
    }

    #[tactic(auto, unfolding(crate::specs::IdFields::stamp_at))]
    fn stamp(&mut self) -> Result<Stamp, FieldErr>
        ensures { Takes result self.old self.new (stamp_at self.old) }
    {
        let mut ahead = self.ahead();
        let epoch = ahead.epoch()?;
        let count = ahead.count()?;
        *self = ahead;
        Ok(Stamp { epoch, count })
    }

    #[tactic(auto, unfolding(crate::specs::IdFields::lease_at))]
    fn lease(&mut self) -> Result<Lease, FieldErr>
        ensures { Takes result self.old self.new (lease_at self.old) }
    {
        let mut ahead = self.ahead();
        let node = ahead.node()?;
        let boot = ahead.boot()?;
        let end = ahead.long()?;
        *self = ahead;
        Ok(Lease { node, boot, end })
    }

    #[tactic(auto, unfolding(crate::specs::IdFields::op_id_at))]
    fn op_id(&mut self) -> Result<OpId, FieldErr>
        ensures { Takes result self.old self.new (op_id_at self.old) }
    {
        let mut ahead = self.ahead();
        let client = ahead.node()?;
        let number = ahead.count()?;
        *self = ahead;
        Ok(OpId { client, number })
    }

    #[tactic(auto, unfolding(crate::specs::IdFields::mark_at))]
    fn mark(&mut self) -> Result<SizeMark, FieldErr>
        ensures { Takes result self.old self.new (mark_at self.old) }
    {
        let mut ahead = self.ahead();
        let epoch = ahead.count()?;
        let size = ahead.long()?;
        *self = ahead;
        Ok(SizeMark { epoch, size })
    }

    #[tactic(auto, unfolding(crate::specs::IdFields::report_at))]
    fn report(&mut self) -> Result<Option<Lease>, FieldErr>
        ensures { Takes result self.old self.new (report_at self.old) }
    {
        let mut ahead = self.ahead();
        let number = ahead.byte()?;
        let report = report_arm(&mut ahead, number)?;
        *self = ahead;
        Ok(report)
    }
}

/// Writes nodes, files, leases and epochs.
pub trait WriteIds {
    /// A node.
    fn node(&mut self, node: NodeId) -> Result<(), OutOfMemory>;

    /// A boot.
    fn boot(&mut self, boot: Boot) -> Result<(), OutOfMemory>;

    /// A file.
    fn file(&mut self, file: FileId) -> Result<(), OutOfMemory>;

    /// A ballot.
    fn ballot(&mut self, ballot: Ballot) -> Result<(), OutOfMemory>;

    /// An epoch.
    fn epoch(&mut self, epoch: Epoch) -> Result<(), OutOfMemory>;

    /// A stamp.
    fn stamp(&mut self, stamp: Stamp) -> Result<(), OutOfMemory>;

    /// A lease.
    fn lease(&mut self, lease: Lease) -> Result<(), OutOfMemory>;

    /// The id of an operation.
    fn op_id(&mut self, id: OpId) -> Result<(), OutOfMemory>;

    /// A size mark.
    fn mark(&mut self, mark: SizeMark) -> Result<(), OutOfMemory>;

    /// A lease, or that there is none.
    fn report(&mut self, report: Option<Lease>) -> Result<(), OutOfMemory>;
}

fn put_some_report(fields: &mut FieldWriter, lease: Lease) -> Result<(), OutOfMemory>
    ensures { OnOk result (fields.new ≡ fields.old ++ (byte_bytes 1 ++ lease_bytes lease)) }
{
    fields.byte(1)?;
    fields.lease(lease)
}

impl WriteIds for FieldWriter {
    fn node(&mut self, node: NodeId) -> Result<(), OutOfMemory>
        ensures { OnOk result (self.new ≡ self.old ++ node_bytes node) }
    {
        self.word(node.0)
    }

    fn boot(&mut self, boot: Boot) -> Result<(), OutOfMemory>
        ensures { OnOk result (self.new ≡ self.old ++ boot_bytes boot) }
    {
        self.long(boot.0)
    }

    fn file(&mut self, file: FileId) -> Result<(), OutOfMemory>
        ensures { OnOk result (self.new ≡ self.old ++ file_bytes file) }
    {
        self.raw(&file.volume.0)?;
        self.long(file.number)
    }

    fn ballot(&mut self, ballot: Ballot) -> Result<(), OutOfMemory>
        ensures { OnOk result (self.new ≡ self.old ++ ballot_bytes ballot) }
    {
        self.long(ballot.count)?;
        self.node(ballot.node)?;
        self.boot(ballot.boot)
    }

    fn epoch(&mut self, epoch: Epoch) -> Result<(), OutOfMemory>
        ensures { OnOk result (self.new ≡ self.old ++ epoch_bytes epoch) }
    {
        self.long(epoch.number)?;
        self.node(epoch.node)
    }

    fn stamp(&mut self, stamp: Stamp) -> Result<(), OutOfMemory>
        ensures { OnOk result (self.new ≡ self.old ++ stamp_bytes stamp) }
    {
        self.epoch(stamp.epoch)?;
        self.long(stamp.count)
    }

    fn lease(&mut self, lease: Lease) -> Result<(), OutOfMemory>
        ensures { OnOk result (self.new ≡ self.old ++ lease_bytes lease) }
    {
        self.node(lease.node)?;
        self.boot(lease.boot)?;
        self.long(lease.end)
    }

    fn op_id(&mut self, id: OpId) -> Result<(), OutOfMemory>
        ensures { OnOk result (self.new ≡ self.old ++ op_id_bytes id) }
    {
        self.node(id.client)?;
        self.long(id.number)
    }

    fn mark(&mut self, mark: SizeMark) -> Result<(), OutOfMemory>
        ensures { OnOk result (self.new ≡ self.old ++ mark_bytes mark) }
    {
        self.long(mark.epoch)?;
        self.long(mark.size)
    }

    fn report(&mut self, report: Option<Lease>) -> Result<(), OutOfMemory>
        ensures { OnOk result (self.new ≡ self.old ++ report_bytes report) }
    {
        match report {
            None => self.byte(0),
            Some(lease) => put_some_report(self, lease),
        }
    }
}
