ghost use Rattle.std.specs.Prelude.{◌≡◌, ◌+◌, ◌<◌, ◌≤◌, ◌++◌, ◌∷◌, [], false, true, length, take, OnOk, OnErr};
ghost use Rattle.world_spec.specs.World.{start_world};
ghost use Rattle.world_core.specs.RunStates.{resting, begun_with};

mod declaring;
mod events;
mod nodes;
mod rules;
mod running;

use crate::lines::{left_of, push_copy};
use std::alloc::Global;
use std::marker::Model;
use time_line::{Entry, Line};
use world_host::NodeCore;
use world_hull::Hull;
use world_nodes::Nodes;
use world_step::Stepper;
use world_tables::{DeclaredFiles, OwnMessages, SentMessages};
use xt_base::OutOfMemory;

/// A world of nodes over a hull, and the line at work.
#[derive(Drop)]
pub struct State<C: NodeCore, H: Hull> {
    alloc: Global,
    /// What the steps of nodes change.
    stepper: Stepper<C, H>,
    files: DeclaredFiles,
    lines: Vec<Line>,
    /// How many of the lines are shown: the last one isn't before it is done.
    shown: usize,
    /// How many deliveries the line still has.
    left: u128,
    /// Whether a line ended early: then the world takes no other.
    ended: bool,
}

impl<C: NodeCore, H: Hull> Model for State<C, H> {
    ghost use Rattle.std.specs.Prelude.{◌≤◌, length, take, drop};
    ghost use Rattle.world_step.specs.Steps.{Working};

    ghost Value = { Working };

    ghost view = { λ s. record {
      doing = record {
        world = record {
          times = s.stepper.nodes.times;
          nodes = s.stepper.nodes.nodes;
          files = s.files;
          made = s.stepper.made.items;
          sent = s.stepper.sent;
          entries = s.stepper.entries.items;
          lines = take s.shown s.lines.items;
          ended = s.ended;
        };
        own = s.stepper.own;
        left = s.left;
      };
      begun = drop s.shown s.lines.items;
    } };

    ghost invariant = { λ s. s.shown ≤ length s.lines.items };
}

impl<C: NodeCore, H: Hull> State<C, H> {
    /// The world before the first line, over a hull that keeps no record.
    pub fn new(alloc: Global, hull: H) -> State<C, H>
        requires kept { H.kept hull ≡ λ _. [] }
        requires past { H.past hull ≡ λ _. [] }
        ensures { result ≡ resting start_world }
    {
        State {
            alloc,
            stepper: Stepper {
                nodes: Nodes::new(alloc, hull),
                made: Vec::new(alloc),
                sent: SentMessages::new(alloc),
                own: OwnMessages::new(alloc),
                entries: Vec::new(alloc),
            },
            files: DeclaredFiles::new(alloc),
            lines: Vec::new(alloc),
            shown: 0,
            left: 0,
            ended: false,
        }
    }

    /// The trace so far.
    pub fn entries(&self) -> &[Entry]
        ensures { result.now ≡ self.now.doing.world.entries }
    {
        self.stepper.entries.as_slice()
    }

    /// The lines so far.
    pub fn lines(&self) -> &[Line]
        ensures { result.now ≡ self.now.doing.world.lines }
    {
        &self.lines[..self.shown]
    }

    /// A line begins: it isn't shown yet. Where it can't begin, it was the last one.
    pub fn begin(&mut self, line: &Line) -> Result<(), OutOfMemory>
        ensures begun { OnOk result (self.new ≡
            record { doing = begun_with self.old.doing.world line.now; begun = line.now ∷ [] }) }
        ensures failed { OnErr result
            (self.new.doing.world ≡ record self.old.doing.world { ended = true }) }
    {
        self.stepper.own.lose();
        self.left = left_of(line);
        self.lines.truncate(self.shown);
        match push_copy(self.alloc, &mut self.lines, line) {
            Ok(()) => Ok(()),
            Err(error) => {
                self.ended = true;
                Err(error)
            }
        }
    }

    /// The line that has begun is shown; it is the last one where it ended early.
    pub fn show(&mut self, ended: bool)
        ensures { self.new ≡
            record self.old {
              doing = record self.old.doing {
                world = record self.old.doing.world {
                  lines = self.old.doing.world.lines ++ self.old.begun;
                  ended = ended;
                };
              };
              begun = [];
            } }
    {
        self.shown = self.lines.len();
        self.ended = ended;
    }
}
