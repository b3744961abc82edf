//! The steps of a line.
ghost use Rattle.std.specs.Prelude.{◌≡◌, ◌+◌, ◌*◌, ◌<◌, [], false, true, Some, None, length};
ghost use Rattle.world_spec.specs.Rules.{refusal};
ghost use Rattle.world_spec.specs.Lines.{first_step, next_step, goes_on, opening, settles, OWN};
ghost use Rattle.world_limits.specs.Fits.{FitsWorld};
ghost use Rattle.world_step.specs.Steps.{IsStepped};
ghost use Rattle.world_core.specs.RunStates.{begun_with, IsTurned, HasTurned, HasRun, AllFit, MayStand};

use crate::lines::{closing_of, events_of};
use crate::state::State;
use time_line::Line;
use world_host::NodeCore;
use world_hull::{Hull, WorldErr};
use world_spec::Role;
use xt_base::{DIR_NODE, MRC_NODE};
use xt_messages::Event;

/// How many messages of a node to itself a file may have after one event.
const OWN: u128 = 65_684;

impl<C: NodeCore, H: Hull> State<C, H> {
    /// The first step of a line that breaks no rule. Settling is nothing but its deliveries.
    fn open(&mut self, line: &Line) -> Result<(), WorldErr>
        requires legal { refusal self.old.doing.world line.now ≡ None }
        requires values { MayStand self.old.doing.world line.now }
        requires own { self.old.doing.own ≡ [] }
        requires fits { FitsWorld self.old.doing.world [] }
        ensures { IsStepped self.old (first_step H.room self.old.doing line.now) self.new
            result }
    {
        match line {
            Line::Times { lease, drift } => self.set_times(*lease, *drift),
            Line::Osd { node } => self.declare(*node, Role::Osd),
            Line::Mrc => self.declare(MRC_NODE, Role::Mrc),
            Line::Dir => self.declare(DIR_NODE, Role::Dir),
            Line::Client { node, clock } => self.declare_client(*node, *clock),
            Line::File { number, location } => self.declare_file(*number, location),
            Line::Start { node, clock } => self.start(*node, *clock),
            Line::Stop { node } => self.stop(*node),
            Line::Crash { node, call, fill } => {
                self.plan_crash(*node, *call, *fill);
                Ok(())
            }
            Line::Cut { node, count } => {
                self.plan_cut(*node, *count);
                Ok(())
            }
            Line::Clock { node, clock } => self.set_clock(*node, *clock),
            Line::Tick { count } => self.tick(*count),
            Line::Wake { node } => self.event_comes(*node, &Event::Wake),
            Line::Call { client, call } => self.call(*client, call),
            Line::Again { client } => self.again(*client),
            Line::Aim { client, file, node } => self.aim(*client, *file, *node),
            Line::Deliver { number } => self.deliver(*number),
            Line::Drop { number } => {
                self.stepper.sent.settle(*number);
                Ok(())
            }
            Line::Settle { .. } => Ok(()),
        }
    }

    /// The next delivery of a line whose node has no message to itself left. True where the line is done.
    fn settle(&mut self) -> Result<bool, WorldErr>
        requires own { self.old.doing.own ≡ [] }
        requires fits { FitsWorld self.old.doing.world [] }
        ensures { IsTurned self.old (settles H.room self.old.doing self.old.doing.left) self.new
            result }
    {
        if self.left == 0 {
            return Ok(true);
        }
        let Some(number) = self.stepper.sent.least_pending() else {
            return Ok(true);
        };
        self.left -= 1;
        self.deliver(number)?;
        Ok(false)
    }

    /// One step of a line at work. True where the line is done.
    fn turn(&mut self) -> Result<bool, WorldErr>
        requires { FitsWorld self.old.doing.world self.old.doing.own }
        ensures { IsTurned self.old (next_step H.room (goes_on self.old.doing)) self.new
            result }
    {
        let Some(message) = self.stepper.own.take() else {
            return self.settle();
        };
        self.hand(message)?;
        Ok(false)
    }

    /// So many steps of a line at work, or as many as it has. True where the line is done.
    fn turns(&mut self, count: u128) -> Result<bool, WorldErr>
        requires { AllFit H.room (goes_on self.old.doing) }
        ensures { HasTurned H.room self.old count (goes_on self.old.doing) self.new result }
    {
        for made in 0..count {
            if self.turn()? {
                return Ok(true);
            }
        }
        Ok(false)
    }

    /// How many steps an event has at most, with the messages to itself that follow: each of them is about one of the files, or about one
    /// that is made in the line.
    fn turns_of_event(&self) -> u128
        ensures { let w = self.now.doing.world in
            result ≡ 1 + OWN * (1 + length w.files + length w.made) }
    {
        let files = self.files.len() as u128;
        let made = self.stepper.made.len() as u128;
        1 + OWN * (1 + files + made)
    }

    /// The steps of a line that breaks no rule and has begun, as many as it is allowed. True where it is done.
    pub fn run(&mut self, line: &Line) -> Result<bool, WorldErr>
        requires legal { refusal self.old.doing.world line.now ≡ None }
        requires values { MayStand self.old.doing.world line.now }
        requires begun { self.old.doing ≡ begun_with self.old.doing.world line.now }
        requires fits { AllFit H.room (opening self.old.doing.world line.now) }
        ensures { HasRun H.room self.old line.now self.new result }
    {
        let count = self.turns_of_event();
        self.open(line)?;
        for event in 0..events_of(line) {
            if self.turns(count)? {
                return Ok(true);
            }
        }
        self.turns(closing_of(line))
    }
}
