use node_loop::Node;
use object_versions::{Bodies, StepErr};
use osd_core::Osd;
use std::alloc::Global;
use xt_base::{NodeId, OutOfMemory};
use xt_messages::{Event, Keep, Msg};
use xt_protocol::Turned;

/// An OSD as a node that is served.
#[derive(Drop)]
pub struct ServedOsd {
    pub osd: Osd,
}

impl Node for ServedOsd {
    ghost use Rattle.xt_protocol.specs.OsdSteps.{OsdState};
    ghost use Rattle.node_roles.specs.Roles.{osd_role, OsdRunsOn};
    ghost use Rattle.node_roles.specs.Seeing.{osd_seen_runs, osd_known_runs};

    ghost State = { OsdState };

    ghost role = { λ o. osd_role o.osd.state.started.node o.osd.key };

    ghost state = { λ o. o.osd.state };

    ghost runs_on = { λ o records. OsdRunsOn records o.osd.state };

    ghost seen_runs = { λ o told known seen. osd_seen_runs told known seen o.osd.state };

    ghost known_runs = { λ o told records. osd_known_runs told records o.osd.state };

    fn id(&self) -> NodeId {
        self.osd.id()
    }

    fn step<B: Bodies>(
        &mut self,
        _alloc: Global,
        bodies: &mut B,
        now: u64,
        ev: &Event,
    ) -> Result<Turned, StepErr> {
        match self.osd.step(bodies, now, ev) {
            Ok(turned) => Ok(turned),
            Err(error) => Err(error),
        }
    }

    fn keep(&self, _alloc: Global) -> Result<Option<Keep>, OutOfMemory> {
        match self.osd.keep() {
            Ok(keep) => Ok(Some(keep)),
            Err(error) => Err(error),
        }
    }

    fn forget(&mut self, keep: &Keep) {
        self.osd.forget(keep);
    }

    fn stops(&self, msg: &Msg) -> Result<bool, OutOfMemory> {
        self.osd.stops(msg)
    }
}
