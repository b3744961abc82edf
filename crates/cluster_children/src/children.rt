ghost use Rattle.std.specs.Prelude.{◌≡◌, ◌≢◌, ◌≤◌, [], IfOk, OnOk, IfErr, OnErr};
ghost use Rattle.cluster_children.specs.Calls.{nodes_of, StartsOne, Starts, StartsFront, EndsStart, HasWaited, WaitsFront, EndsWait, Stops};

use cluster_words::{ClusterNode, child_words};
use command_words::ClusterJob;
use node_links::Spawner;
use std::alloc::Global;
use std::collections::VecDeque;
use std::marker::Model;
use xt_messages::Status;

/// The children that were started and not yet waited for, by the numbers that the spawner gave them, in the order in which they were
/// started.
#[derive(Drop)]
pub struct Children {
    numbers: VecDeque<u64>,
}

impl Model for Children {
    ghost use Rattle.std.specs.Prelude.{ℕ, List};

    ghost Value = { List ℕ };

    ghost view = { λ c. c.numbers.items };
}

impl Children {
    /// No child.
    pub fn new(alloc: Global) -> Children
        ensures { result ≡ [] }
    {
        Children {
            numbers: VecDeque::new(alloc),
        }
    }

    /// Starts a node.
    fn start<P: Spawner>(
        &mut self,
        alloc: Global,
        job: &ClusterJob,
        node: ClusterNode,
        spawner: &mut P,
    ) -> Result<(), Status>
        requires { job.now.port ≤ 65000 }
        ensures started { OnOk result (StartsOne job.now node (P.calls spawner.old)
            (P.calls spawner.new) self.old self.new) }
        ensures sound { OnOk result (P.fault_count spawner.new ≡ P.fault_count spawner.old) }
        ensures kept { OnErr result ((self.new ≡ self.old)
            × (P.calls spawner.new ≡ P.calls spawner.old)) }
        ensures cause { IfErr result (EndsStart (P.fault_count spawner.old)
            (P.fault_count spawner.new)) }
    {
        let Ok(words) = child_words(alloc, job, node) else {
            return Err(Status::OutOfMemory);
        };
        // what is started must be kept
        let Ok(()) = self.numbers.reserve(1) else {
            return Err(Status::OutOfMemory);
        };
        let Ok(child) = spawner.spawn(&words) else {
            return Err(Status::ChildFault {
                count: spawner.faults(),
            });
        };
        self.numbers.push_back(child).unwrap();
        Ok(())
    }

    /// Starts the nodes of a cluster: the DIR, the MRC and then the OSDs from number 1 on. An error reports that the spawner failed, or
    /// that memory ran out, at a node; those before it were started.
    pub fn start_all<P: Spawner>(
        &mut self,
        alloc: Global,
        job: &ClusterJob,
        spawner: &mut P,
    ) -> Result<(), Status>
        requires empty { self.old ≡ [] }
        requires port { job.now.port ≤ 65000 }
        ensures started { OnOk result (Starts job.now (P.calls spawner.old) (P.calls spawner.new)
            (nodes_of job.now.osds) self.new) }
        ensures sound { OnOk result (P.fault_count spawner.new ≡ P.fault_count spawner.old) }
        ensures front { OnErr result (StartsFront job.now (P.calls spawner.old)
            (P.calls spawner.new) (nodes_of job.now.osds) self.new) }
        ensures cause { IfErr result (EndsStart (P.fault_count spawner.old)
            (P.fault_count spawner.new)) }
    {
        self.start(alloc, job, ClusterNode::Dir, spawner)?;
        self.start(alloc, job, ClusterNode::Mrc, spawner)?;
        for before in 0..job.osds {
            self.start(alloc, job, ClusterNode::Osd(before + 1), spawner)?;
        }
        Ok(())
    }

    /// Waits for the first child, and reports whether there is one.
    fn wait<P: Spawner>(&mut self, spawner: &mut P) -> Result<bool, Status>
        ensures waited { IfOk result (HasWaited self.old self.new (P.calls spawner.old)
            (P.calls spawner.new)) }
        ensures sound { OnOk result (P.fault_count spawner.new ≡ P.fault_count spawner.old) }
        ensures kept { OnErr result ((self.new ≡ self.old) × (self.old ≢ [])
            × (P.calls spawner.new ≡ P.calls spawner.old)) }
        ensures cause { IfErr result (EndsWait (P.fault_count spawner.old)
            (P.fault_count spawner.new)) }
    {
        let Some(child) = self.numbers.front() else {
            return Ok(false);
        };
        let Ok(_) = spawner.wait(*child) else {
            return Err(Status::ChildFault {
                count: spawner.faults(),
            });
        };
        self.numbers.pop_front();
        Ok(true)
    }

    /// Waits for the children, in the order in which they were started. An error reports that the spawner failed over the first of those
    /// that are left.
    #[tactic(auto, using(crate::proofs::Called::waits_next))]
    pub fn wait_all<P: Spawner>(&mut self, spawner: &mut P) -> Result<(), Status>
        ensures front { WaitsFront (P.calls spawner.old) (P.calls spawner.new) self.old self.new }
        ensures all { OnOk result (self.new ≡ []) }
        ensures sound { OnOk result (P.fault_count spawner.new ≡ P.fault_count spawner.old) }
        ensures some { OnErr result (self.new ≢ []) }
        ensures cause { IfErr result (EndsWait (P.fault_count spawner.old)
            (P.fault_count spawner.new)) }
    {
        while self.wait(spawner)? {}
        Ok(())
    }

    /// Stops each child that wasn't waited for. One that can't be stopped is passed over.
    #[tactic(auto, using(crate::proofs::Called::stops_next))]
    pub fn stop_all<P: Spawner>(self, spawner: &mut P)
        ensures { Stops (P.calls spawner.old) (P.calls spawner.new) (P.fault_count spawner.old)
            (P.fault_count spawner.new) self }
    {
        for child in self.numbers {
            // the spawner has counted a failure
            let _ = spawner.stop(child);
        }
    }
}
