//! A hull that keeps the records in memory.
ghost use Rattle.std.specs.Prelude.{◌≡◌, ◌++◌, ◌∷◌, [], None, false, IfOk, OnOk, OnErr};
ghost use Rattle.world_spec.specs.World.{puts, loads};
ghost use Rattle.replica_records.specs.Logs.{records_in};
ghost use Rattle.world_hull.specs.Appends.{with_record, with_deed};
ghost use Rattle.world_hull.specs.Logs.{records_of, past_of};

use crate::errors::WorldErr;
use crate::hull::{Hull, Kept};
use crate::past::{Done, Past};
use disk_model::Stop;
use object_versions::BodyErr;
use replica_records::RecordLog;
use std::alloc::Global;
use std::collections::BTreeMap;
use xt_base::{Copies, FileId, NodeId, Octets, OutOfMemory, Stamp};
use xt_messages::{Keep, Msg, Record};

/// The records of a node, and what was done to them.
#[derive(Drop)]
struct NodeLog {
    log: RecordLog,
    past: Past,
}

impl NodeLog {
    /// No record.
    fn new(alloc: Global) -> NodeLog
        ensures records { records_in result.log ≡ [] }
        ensures past { result.past.deeds ≡ [] }
    {
        NodeLog {
            log: RecordLog::new(alloc),
            past: Past::new(),
        }
    }

    /// Puts a record after the others.
    fn push(&mut self, rec: Record) -> Result<(), OutOfMemory>
        ensures records { OnOk result (records_in self.new.log ≡ records_in self.old.log ++ rec ∷ []) }
        ensures past { OnOk result (self.new.past.deeds ≡ self.old.past.deeds ++ puts rec ∷ []) }
        ensures failed { OnErr result ((records_in self.new.log ≡ records_in self.old.log)
            × (self.new.past.deeds ≡ self.old.past.deeds)) }
    {
        let past = self.past.and(&Done::Puts(&rec));
        self.log.push(rec)?;
        self.past = past;
        Ok(())
    }
}

/// The records of each node in memory.
#[derive(Drop)]
pub struct ListHull {
    logs: BTreeMap<u32, NodeLog>,
}

impl ListHull {
    /// No record is kept.
    pub fn new(alloc: Global) -> ListHull
        ensures records { records_of result ≡ λ _. [] }
        ensures past { past_of result ≡ λ _. [] }
    {
        ListHull {
            logs: BTreeMap::new(alloc),
        }
    }

    /// Keeps the node's record.
    fn keep(&mut self, alloc: Global, node: NodeId, rec: Record) -> Result<(), OutOfMemory>
        ensures records { OnOk result (records_of self.new ≡
            with_record (records_of self.old) node rec) }
        ensures past { OnOk result (past_of self.new ≡ with_deed (past_of self.old) node (puts rec)) }
        ensures failed { OnErr result ((records_of self.new ≡ records_of self.old)
            × (past_of self.new ≡ past_of self.old)) }
    {
        match self.logs.get_mut(&node.0) {
            Some(own) => own.push(rec),
            None => {
                let mut own = NodeLog::new(alloc);
                own.push(rec)?;
                self.logs.insert(node.0, own)?;
                Ok(())
            }
        }
    }

    /// Copies of the node's records, in order.
    fn records(&self, alloc: Global, node: NodeId) -> Result<Vec<Record>, OutOfMemory>
        ensures { IfOk result (λ found. found.items ≡ records_of self.now node.0) }
    {
        match self.logs.get(&node.0) {
            Some(own) => own.log.copies(alloc),
            None => Ok(Vec::new(alloc)),
        }
    }

    /// The node's records are loaded for a start.
    fn load(&mut self, alloc: Global, node: NodeId) -> Result<(), OutOfMemory>
        ensures records { records_of self.new ≡ records_of self.old }
        ensures past { OnOk result (past_of self.new ≡ with_deed (past_of self.old) node loads) }
        ensures failed { OnErr result (past_of self.new ≡ past_of self.old) }
    {
        match self.logs.get_mut(&node.0) {
            Some(own) => {
                own.past = own.past.and(&Done::Loads);
                Ok(())
            }
            None => {
                let mut own = NodeLog::new(alloc);
                own.past = own.past.and(&Done::Loads);
                self.logs.insert(node.0, own)?;
                Ok(())
            }
        }
    }
}

impl Hull for ListHull {
    ghost kept = { records_of };

    ghost past = { past_of };

    ghost room = { record { overflow = λ _ _. None; rewrites_now = λ _ _. false; rewrites_idle = λ _ _ _ _. false } };

    ghost waits = { λ d id past keep i. false };

    fn carry(&mut self, alloc: Global, msg: &Msg) -> Result<Msg, WorldErr> {
        Ok(msg.copy(alloc)?)
    }

    fn append(
        &mut self,
        alloc: Global,
        node: NodeId,
        rec: &Record,
        stop: Option<Stop>,
    ) -> Result<Kept, WorldErr> {
        let end = Kept::by(stop);
        if end != Kept::StoppedLost {
            self.keep(alloc, node, rec.copy(alloc)?)?;
        }
        Ok(end)
    }

    fn revive(&mut self, alloc: Global, node: NodeId) -> Result<Vec<Record>, WorldErr> {
        let found = self.records(alloc, node)?;
        self.load(alloc, node)?;
        Ok(found)
    }

    fn may_compact(&self, _node: NodeId) -> bool {
        false
    }

    fn compact(&mut self, _alloc: Global, _node: NodeId, _keep: &Keep) -> Result<bool, WorldErr> {
        Ok(false)
    }

    fn body(
        &self,
        alloc: Global,
        node: NodeId,
        file: &FileId,
        object: u64,
        version: &Stamp,
    ) -> Result<Octets, BodyErr> {
        match self.logs.get(&node.0) {
            Some(own) => own.log.body(alloc, file, object, version),
            None => Err(BodyErr::NoSuchVersion),
        }
    }
}
