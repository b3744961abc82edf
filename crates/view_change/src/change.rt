//! A change of a file's list: what is counted of it, when a head is chosen, and which one.
ghost use Rattle.std.specs.Prelude.{◌≡◌, ◌<◌, ◌^◌, ◌↔◌, Some, IfOk, OnOk, OnErr, IsNone, length};
ghost use Rattle.change_rows.specs.Changes as rows;
ghost use Rattle.change_rows.specs.Coordinating.{to_close, to_install};
ghost use Rattle.change_rows.specs.Laws.{IsEarly};

use crate::seats::Seats;
use change_rows::Choice;
use osd_decisions::choose;
use std::alloc::Global;
use std::marker::Model;
use xt_base::{Copies, Epoch, FileId, MRC_NODE, Members, NodeId, OutOfMemory, Seq, Times};
use xt_messages::{FileHead, Location};

/// The least number that is more than half of these members.
fn majority_of(members: usize) -> usize
    ensures { result ≡ rows.majority_of members }
{
    members / 2 + 1
}

/// The best of these reports, of which there is one at least: the greatest stamp, and among equal ones the least node's.
fn best_of(reports: &[(NodeId, FileHead)]) -> &(NodeId, FileHead)
    requires { 0 < length reports.now }
    ensures { Some result.now ≡ rows.best_in reports.now }
{
    &reports[choose(MRC_NODE, reports)]
}

/// A change of a file's list of members. Contracts see what is counted of it.
#[derive(Drop)]
pub struct Change {
    alloc: Global,
    times: Times,
    file: FileId,
    before: Location,
    next: Members,
    /// What old members have reported, in the order of counting.
    reports: Vec<(NodeId, FileHead)>,
    /// The greatest number of an epoch that they have promised.
    promised: u64,
    /// The clock of the closing that made the majority.
    since: Option<u64>,
    seats: Seats,
}

impl Model for Change {
    ghost use Rattle.change_rows.specs.Changes.{ChangeState};

    ghost Value = { ChangeState };

    ghost use Rattle.view_change.specs.Inside.{IsChange};

    ghost view = { λ c.
        record {
          times = c.times;
          file = c.file;
          before = c.before;
          reports = c.reports.items;
          since = c.since;
          seats = c.seats;
        } };

    ghost invariant = { λ c. IsChange c.before c.next c.reports.items c.promised c.since c.seats };
}

impl Change {
    /// A change of a file from where it is kept, at a version below 2^31, to these members. Nothing is counted yet.
    #[tactic(auto, using(change_rows::proofs::Seats::empty_seats))]
    pub fn new(alloc: Global, times: Times, file: FileId, old: Location, next: Members) -> Change
        requires { old.version < 2 ^ 31 }
        ensures { result ≡ rows.new_change times file old next }
    {
        let seats = Seats::new(&next);
        Change {
            alloc,
            times,
            file,
            before: old,
            next,
            reports: Vec::new(alloc),
            promised: 0,
            since: None,
            seats,
        }
    }

    /// The file.
    pub fn file(&self) -> FileId
        ensures { result ≡ self.now.file }
    {
        self.file
    }

    /// Where the file was kept when the change was asked for.
    pub fn before(&self) -> Location
        ensures { result ≡ self.now.before }
    {
        self.before
    }

    /// Where it is kept once the change has ended.
    pub fn next(&self) -> Location
        ensures { result ≡ rows.next_location self.now }
    {
        Location {
            version: self.before.version + 1,
            kind: self.before.kind,
            stripe: self.before.stripe,
            members: self.next,
        }
    }

    /// The old members that haven't answered, in their order: Close goes to them.
    pub fn unclosed(&self, alloc: Global) -> Result<Seq<NodeId>, OutOfMemory>
        ensures { IfOk result (λ nodes. nodes ≡ to_close self.now) }
    {
        let mut nodes = Vec::new(alloc);
        for node in self.before.members.as_slice() {
            if !self.has_closed(*node) {
                nodes.push(*node)?;
            }
        }
        Ok(Seq { items: nodes })
    }

    /// The new members that haven't answered, in their order: Install goes to them.
    pub fn uninstalled(&self, alloc: Global) -> Result<Seq<NodeId>, OutOfMemory>
        ensures { IfOk result (λ nodes. nodes ≡ to_install self.now) }
    {
        self.seats.waiting(alloc)
    }

    /// Whether the closing by this node was counted.
    fn has_closed(&self, node: NodeId) -> bool
        ensures { result ≡ rows.has_report self.now.reports node.0 }
    {
        self.reports.iter().any(|report| report.0.0 == node.0)
    }

    /// Whether a closing is to be counted.
    fn awaits_closing(&self, from: NodeId, version: u32) -> bool
        ensures { result ≡ rows.awaits_closing self.now from version }
    {
        version == self.before.version
            && self.before.members.contains(from)
            && !self.has_closed(from)
    }

    /// Counts the closing by an old member of this version, once; any other does nothing. It came at this clock, and reports this head, of
    /// which the promised number is below 2^62. Running out of memory leaves the change as it was.
    #[tactic(auto, using(change_rows::proofs::Promises::greatest_push))]
    pub fn closed(
        &mut self,
        now: u64,
        from: NodeId,
        version: u32,
        head: &FileHead,
    ) -> Result<(), OutOfMemory>
        requires clock { now < 2 ^ 62 }
        requires promised { head.now.promised.number < 2 ^ 62 }
        ensures ok { OnOk result (self.new ≡ rows.closed_by self.old now from version head.now) }
        ensures err { OnErr result (self.new ≡ self.old) }
    {
        if !self.awaits_closing(from, version) {
            return Ok(());
        }
        let copy = head.copy(self.alloc)?;
        self.reports.push((from, copy))?;
        self.promised = self.promised.max(head.promised.number);
        if self.reports.len() == majority_of(self.before.members.as_slice().len()) {
            self.since = Some(now);
        }
        Ok(())
    }

    /// Whether a head can be chosen at this clock.
    fn is_ready(&self, now: u64) -> bool
        ensures { result ≡ rows.is_ready self.now now }
    {
        let Some(moment) = self.since else {
            return false;
        };
        self.reports.len() >= majority_of(self.before.members.as_slice().len())
            && now >= moment + self.times.lease() + self.times.drift()
    }

    /// What is chosen at this clock: the greatest stamp of the heads that were reported, of equal ones the least node's, promised to the
    /// epoch of the metadata server above all that were promised. `None` exactly when fewer than a majority of the old members are
    /// counted, or the length of a lease and the drift haven't passed since the closing that made the majority.
    #[tactic(auto, using(crate::proofs::Chosen::some_counted, crate::proofs::Chosen::chosen_is, crate::proofs::Chosen::none_exactly))]
    pub fn ready(&self, now: u64) -> Result<Option<Choice>, OutOfMemory>
        ensures exact { IfOk result (λ choice. IsNone choice ↔ IsEarly self.now now) }
        ensures value { IfOk result (λ choice. choice ≡ rows.choice_at self.now now) }
    {
        if !self.is_ready(now) {
            return Ok(None);
        }
        let (source, reported) = best_of(self.reports.as_slice());
        let mut head = reported.copy(self.alloc)?;
        head.promised = Epoch {
            number: self.promised + 1,
            node: MRC_NODE,
        };
        Ok(Some(Choice {
            file: self.file,
            location: self.next(),
            head,
            source: *source,
        }))
    }

    /// Counts the installation by a new member of the version to come, once; any other does nothing. True exactly when it makes a majority
    /// of the new list.
    #[tactic(auto, using(change_rows::proofs::Seats::same_members))]
    pub fn installed(&mut self, from: NodeId, version: u32) -> bool
        ensures change { self.new ≡ (rows.installed_by self.old from version).change }
        ensures wins { result ≡ (rows.installed_by self.old from version).wins }
    {
        if version != self.before.version + 1 || !self.seats.await_installation(from) {
            return false;
        }
        self.seats.install(from);
        self.seats.installations() == majority_of(self.seats.len())
    }
}
