use dir_core::Dir;
use node_loop::Node;
use object_versions::{Bodies, StepErr};
use std::alloc::Global;
use xt_base::{NodeId, OutOfMemory};
use xt_messages::{Event, Keep, Msg};
use xt_protocol::Turned;

/// The directory service as a node that is served.
#[derive(Drop)]
pub struct ServedDir {
    pub dir: Dir,
}

impl Node for ServedDir {
    ghost use Rattle.server_rows.specs.Directory.{DirState};
    ghost use Rattle.server_limits.specs.Keeping.{DirRunsOn};
    ghost use Rattle.node_roles.specs.Roles.{dir_role};
    ghost use Rattle.node_roles.specs.Seeing.{dir_seen_runs, dir_known_runs};

    ghost State = { DirState };

    ghost role = { λ d. dir_role d.dir.secret };

    ghost state = { λ d. d.dir.state };

    ghost runs_on = { λ d records. DirRunsOn records d.dir.state };

    ghost seen_runs = { λ d told known seen. dir_seen_runs told known seen d.dir.state };

    ghost known_runs = { λ d told records. dir_known_runs told records d.dir.state };

    fn id(&self) -> NodeId {
        self.dir.id()
    }

    fn step<B: Bodies>(
        &mut self,
        alloc: Global,
        _bodies: &mut B,
        _now: u64,
        ev: &Event,
    ) -> Result<Turned, StepErr> {
        match self.dir.step(alloc, ev) {
            Ok(turned) => Ok(turned),
            Err(_) => Err(StepErr::OutOfMemory),
        }
    }

    fn keep(&self, _alloc: Global) -> Result<Option<Keep>, OutOfMemory> {
        Ok(None)
    }

    fn forget(&mut self, _keep: &Keep) {}

    fn stops(&self, msg: &Msg) -> Result<bool, OutOfMemory> {
        self.dir.stops(msg)
    }
}
