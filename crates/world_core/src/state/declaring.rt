//! What a world has: its times, nodes and files.
ghost use Rattle.std.specs.Prelude.{◌≡◌, ◌*◌, ◌^◌, ◌<◌, [], None, Err};
ghost use Rattle.xt_base.specs.TimeSettings.{AreTimes};
ghost use Rattle.world_spec.specs.World.{node_in, file_in};
ghost use Rattle.world_spec.specs.Lines.{declares, first_step, never_started};
ghost use Rattle.world_step.specs.Steps.{IsStepped};

use crate::state::State;
use time_line::{Entry, Line};
use world_host::{NodeCore, declared_file};
use world_hull::{Hull, WorldErr};
use world_spec::{NODES, PlacedFile, Role};
use world_step::{limit, tell};
use xt_base::{Boot, NodeId, Times};
use xt_messages::{Limited, Location};

impl<C: NodeCore, H: Hull> State<C, H> {
    /// Sets the lease length and the drift.
    pub fn set_times(&mut self, lease: u64, drift: u64) -> Result<(), WorldErr>
        requires times { AreTimes lease drift }
        requires first { self.old.doing.world.nodes ≡ [] }
        ensures { IsStepped self.old (first_step H.room self.old.doing (Line.Times lease drift))
            self.new result }
    {
        tell(&mut self.stepper.entries, Entry::Times { lease, drift })?;
        self.stepper
            .nodes
            .set_times(Times::new(lease, drift).unwrap());
        Ok(())
    }

    /// Declares a node of this role that doesn't run, where there is room for it.
    pub fn declare(&mut self, node: NodeId, role: Role) -> Result<(), WorldErr>
        requires { node_in self.old.doing.world.nodes node.0 ≡ None }
        ensures { IsStepped self.old (declares self.old.doing (never_started node role) [])
            self.new result }
    {
        if self.stepper.nodes.len() as u64 >= NODES {
            return Err(limit(Limited::Nodes));
        }
        self.stepper.nodes.declare(node, role)?;
        Ok(())
    }

    /// Declares a client, where there is room for it.
    pub fn declare_client(&mut self, node: NodeId, clock: u64) -> Result<(), WorldErr>
        requires own { node_in self.old.doing.world.nodes node.0 ≡ None }
        requires clock { clock < 2 ^ 62 }
        ensures { IsStepped self.old (first_step H.room self.old.doing (Line.Client node clock))
            self.new result }
    {
        if self.stepper.nodes.len() as u64 >= NODES {
            return Err(limit(Limited::Nodes));
        }
        let boot = Boot(1);
        self.stepper.nodes.declare_client(self.alloc, node, clock)?;
        tell(&mut self.stepper.entries, Entry::Up { node, boot, clock })?;
        Ok(())
    }

    /// Declares a file.
    pub fn declare_file(&mut self, number: u64, location: &Location) -> Result<(), WorldErr>
        requires { file_in self.old.doing.world.files number ≡ None }
        ensures { IsStepped self.old
            (first_step H.room self.old.doing (Line.File number location.now)) self.new result }
    {
        let file = PlacedFile {
            file: declared_file(number),
            location: *location,
        };
        self.files.declare(&file)?;
        tell(
            &mut self.stepper.entries,
            Entry::File {
                number,
                location: *location,
            },
        )?;
        Ok(())
    }
}
