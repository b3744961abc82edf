use mrc_core::Mrc;
use node_loop::Node;
use object_versions::{Bodies, StepErr};
use std::alloc::Global;
use xt_base::{NodeId, OutOfMemory};
use xt_messages::{Event, Keep, Msg};
use xt_protocol::Turned;

/// The metadata server as a node that is served.
#[derive(Drop)]
pub struct ServedMrc {
    pub mrc: Mrc,
}

impl Node for ServedMrc {
    ghost use Rattle.server_rows.specs.Metadata.{MrcState};
    ghost use Rattle.server_limits.specs.Keeping.{MrcRunsOn};
    ghost use Rattle.node_roles.specs.Roles.{mrc_role};
    ghost use Rattle.node_roles.specs.Seeing.{mrc_seen_runs, mrc_known_runs};

    ghost State = { MrcState };

    ghost role = { λ m. mrc_role m.mrc.secret };

    ghost state = { λ m. m.mrc.state };

    ghost runs_on = { λ m records. MrcRunsOn m.mrc.secret records m.mrc.state };

    ghost seen_runs = { λ m told known seen. mrc_seen_runs m.mrc.secret told known seen m.mrc.state };

    ghost known_runs = { λ m told records. mrc_known_runs m.mrc.secret told records m.mrc.state };

    fn id(&self) -> NodeId {
        self.mrc.id()
    }

    #[tactic(auto, using(crate::proofs::Stepping::can_handle))]
    fn step<B: Bodies>(
        &mut self,
        _alloc: Global,
        _bodies: &mut B,
        now: u64,
        ev: &Event,
    ) -> Result<Turned, StepErr> {
        match self.mrc.step(now, ev) {
            Ok(turned) => Ok(turned),
            Err(_) => Err(StepErr::OutOfMemory),
        }
    }

    fn keep(&self, _alloc: Global) -> Result<Option<Keep>, OutOfMemory> {
        Ok(None)
    }

    fn forget(&mut self, _keep: &Keep) {}

    fn stops(&self, msg: &Msg) -> Result<bool, OutOfMemory> {
        self.mrc.stops(msg)
    }
}
