//! What comes to a node: an event, a call, a message.
ghost use Rattle.std.specs.Prelude.{◌≡◌, ◌<◌, ◌≤◌, Some, None};
ghost use Rattle.world_spec.specs.World.{node_in};
ghost use Rattle.client_rows.specs.Called.{called_file};
ghost use Rattle.world_spec.specs.NodeSteps.{event_comes};
ghost use Rattle.world_spec.specs.Lines.{delivers, calls, calls_again};
ghost use Rattle.world_spec.specs.Rules.{busy, no_call, no_called_file};
ghost use Rattle.world_limits.specs.Fits.{FitsComing, FitsCalling, FitsCallingAgain, FitsDelivery};
ghost use Rattle.world_host.specs.Calls.{declared_of};
ghost use Rattle.world_step.specs.Steps.{IsStepped};

use crate::state::State;
use world_host::{NodeCore, called_file};
use world_hull::{Hull, WorldErr};
use world_spec::PlacedFile;
use world_tables::DeclaredFiles;
use xt_base::{Copies, NodeId};
use xt_messages::{Call, Event, Msg};

/// The file of a call, if it is declared.
fn declared_of(files: &DeclaredFiles, call: &Call) -> Option<PlacedFile>
    ensures { result ≡ declared_of files.now (called_file call.now) }
{
    files.find(called_file(call)?)
}

impl<C: NodeCore, H: Hull> State<C, H> {
    /// An event comes to the node of this id. At one that doesn't run nothing comes of it.
    pub fn event_comes(&mut self, id: NodeId, ev: &Event) -> Result<(), WorldErr>
        requires { FitsComing self.old.doing.world id ev.now }
        ensures { IsStepped self.old (event_comes H.room self.old.doing id ev.now) self.new
            result }
    {
        let Some(place) = self.stepper.nodes.find(id) else {
            return Ok(());
        };
        match self.stepper.nodes.handle(place, ev)? {
            Some(turned) => self.stepper.end_of_step(self.alloc, place, turned),
            None => Ok(()),
        }
    }

    /// A client makes a call. Of a declared file it is given the capability first.
    pub fn call(&mut self, client: NodeId, call: &Call) -> Result<(), WorldErr>
        requires fits { FitsCalling self.old.doing.world client call.now }
        requires usable { no_called_file self.old.doing.world client (called_file call.now) ≡
            None }
        requires free { busy self.old.doing.world.nodes client ≡ None }
        ensures { IsStepped self.old
            (calls H.room self.old.doing (node_in self.old.doing.world.nodes client.0) call.now)
            self.new result }
    {
        let Some(place) = self.stepper.nodes.find(client) else {
            return Ok(());
        };
        let declared = declared_of(&self.files, call);
        match self.stepper.nodes.call(place, call, declared)? {
            Some(turned) => self.stepper.end_of_step(self.alloc, place, turned),
            None => Ok(()),
        }
    }

    /// A client makes its last call again, which ended as one that may be.
    pub fn again(&mut self, client: NodeId) -> Result<(), WorldErr>
        requires fits { FitsCallingAgain self.old.doing.world client }
        requires free { busy self.old.doing.world.nodes client ≡ None }
        requires may { no_call self.old.doing.world.nodes client ≡ None }
        ensures { IsStepped self.old
            (calls_again H.room self.old.doing (node_in self.old.doing.world.nodes client.0))
            self.new result }
    {
        let Some(place) = self.stepper.nodes.find(client) else {
            return Ok(());
        };
        match self.stepper.nodes.again(place)? {
            Some(turned) => self.stepper.end_of_step(self.alloc, place, turned),
            None => Ok(()),
        }
    }

    /// A message comes to its node.
    pub fn hand(&mut self, message: Msg) -> Result<(), WorldErr>
        requires { FitsComing self.old.doing.world message.to (Event.Deliver message) }
        ensures { IsStepped self.old
            (event_comes H.room self.old.doing message.to (Event.Deliver message)) self.new
            result }
    {
        self.event_comes(message.to, &Event::Deliver(message))
    }

    /// Delivers the message of this number, which is pending no more.
    pub fn deliver(&mut self, number: u128) -> Result<(), WorldErr>
        requires sent { 1 ≤ number }
        requires fits { FitsDelivery self.old.doing.world number }
        ensures { IsStepped self.old (delivers H.room self.old.doing number) self.new result }
    {
        let Some(message) = self.stepper.sent.message(number) else {
            return Ok(());
        };
        let message = message.copy(self.alloc)?;
        self.stepper.sent.settle(number);
        self.hand(message)
    }
}
