ghost use Rattle.std.specs.Prelude.{◌≡◌, ◌++◌, ◌∷◌, [], false};
ghost use Rattle.world_spec.specs.World.{start_world};
ghost use Rattle.time_line.specs.Bounds.{AreLines};
ghost use Rattle.world_core.specs.RunStates.{IsApplied};

use crate::state::State;
use std::alloc::Global;
use std::marker::Model;
use time_line::{Entry, Line};
use world_host::NodeCore;
use world_hull::{Hull, WorldErr};
use world_limits::steps_fit;
use world_termination::lines_are_over;

/// A world of nodes over a hull. It is the run of its lines for as long as none ended early.
#[derive(Drop)]
pub struct World<C: NodeCore, H: Hull> {
    state: State<C, H>,
}

impl<C: NodeCore, H: Hull> Model for World<C, H> {
    ghost use Rattle.world_spec.specs.World as spec;
    ghost use Rattle.world_core.specs.RunStates.{IsRunSoFar};

    ghost Value = { spec.World };

    ghost view = { λ w. w.state.doing.world };

    ghost invariant = { λ w. IsRunSoFar H.room w.state.doing.world };
}

impl<C: NodeCore, H: Hull> World<C, H> {
    /// The world before the first line, over a hull that keeps no record.
    pub fn new(alloc: Global, hull: H) -> World<C, H>
        requires kept { H.kept hull ≡ λ _. [] }
        requires past { H.past hull ≡ λ _. [] }
        ensures { result ≡ start_world }
    {
        World {
            state: State::new(alloc, hull),
        }
    }

    /// The trace so far.
    pub fn entries(&self) -> &[Entry]
        ensures { result.now ≡ self.now.entries }
    {
        self.state.entries()
    }

    /// The lines so far.
    pub fn lines(&self) -> &[Line]
        ensures { result.now ≡ self.now.lines }
    {
        self.state.lines()
    }

    /// Takes a line. `Illegal` comes exactly where it breaks a rule, and the world is unchanged; `Full` and `Limit` exactly
    /// where it ends by that cause. After each error but `Illegal` the world takes no line again, and only its entries and
    /// lines are to be used: they are those of the steps that the line had finished.
    pub fn apply(&mut self, line: &Line) -> Result<(), WorldErr>
        requires going { self.old.ended ≡ false }
        requires values { AreLines (self.old.lines ++ line.now ∷ []) }
        ensures { IsApplied H.room self.old line.now self.new result }
    {
        if let Some(rule) = self.state.refusal(line) {
            return Err(WorldErr::Illegal { rule });
        }
        self.state.begin(line)?;
        steps_fit();
        lines_are_over();
        let end = self.state.run(line);
        self.state.show(end.is_err());
        if !end? {
            unreachable!()
        }
        Ok(())
    }
}
