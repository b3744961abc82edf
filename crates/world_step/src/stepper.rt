ghost use Rattle.std.specs.Prelude.{◌≡◌, ◌<◌, ◌++◌, ◌∷◌, [], Some, Ok, length, IfErr, IfSome, OnOk};
ghost use Rattle.std.specs.List.{AllByRecursion};
ghost use Rattle.xt_messages.specs.Limits.{FitsMessage};
ghost use Rattle.world_spec.specs.World.{Node, Running};
ghost use Rattle.world_spec.specs.NodeSteps.{end_of_step, forgets_if, numbered};
ghost use Rattle.world_limits.specs.Fits.{FitsPlan, FitsNext, FitsTurned, FitsRunning, MayForget};
ghost use Rattle.world_nodes.specs.Nodes.{IsAt};
ghost use Rattle.world_tables.specs.Limits.{limit_passed};
ghost use Rattle.world_step.specs.Steps.{Around, working, IsStepped};
ghost use Rattle.world_step.specs.Endings.{given_by, FitsGiven, IsGiven, Halts, IsWithin, ended_whole, ended_sending, ended_in_append};

use crate::ending::{Ending, ending_of, front, halt_of};
use crate::entries::{entries_of, entries_to_cut, files_of, tell, tell_all};
use crate::limits::limit;
use disk_model::Stop;
use std::alloc::Global;
use std::mem::replace;
use time_line::Entry;
use world_host::NodeCore;
use world_hull::{Hull, WorldErr};
use world_nodes::Nodes;
use world_spec::PlacedFile;
use world_tables::{OwnMessages, SentMessages};
use xt_base::{NodeId, OptionalBox};
use xt_messages::{Marks, Msg, Msgs, Record};
use xt_protocol::Turned;

/// What the steps of nodes change in a world: its nodes, the files that the metadata server has made, the messages and the trace.
#[derive(Drop)]
pub struct Stepper<C: NodeCore, H: Hull> {
    pub nodes: Nodes<C, H>,
    /// The files that the metadata server has made, as the trace reports them.
    pub made: Vec<PlacedFile>,
    pub sent: SentMessages,
    /// The messages of the stepping node to itself that it hasn't handled, the first one next.
    pub own: OwnMessages,
    pub entries: Vec<Entry>,
}

/// Carries and numbers a message of a node, where it is to another declared node.
fn send_one<C: NodeCore, H: Hull>(
    alloc: Global,
    nodes: &mut Nodes<C, H>,
    sent: &mut SentMessages,
    node: NodeId,
    message: &Msg,
) -> Result<(), WorldErr>
    requires { FitsMessage message.now }
    ensures sent { OnOk result (sent.new ≡
        sent.old ++ numbered nodes.old.nodes node (message.now ∷ [])) }
    ensures same { nodes.new ≡ nodes.old }
    ensures error { IfErr result (λ error. error ≡ WorldErr.OutOfMemory) }
{
    if message.to.0 != node.0 && nodes.is_declared(message.to) {
        let carried = nodes.carry(alloc, message)?;
        sent.push(carried)?;
    }
    Ok(())
}

/// Carries and numbers the messages of a node to other declared nodes.
fn send<C: NodeCore, H: Hull>(
    alloc: Global,
    nodes: &mut Nodes<C, H>,
    sent: &mut SentMessages,
    node: NodeId,
    outs: &[Msg],
) -> Result<(), WorldErr>
    requires { AllByRecursion FitsMessage outs.now }
    ensures sent { OnOk result (sent.new ≡ sent.old ++ numbered nodes.old.nodes node outs.now) }
    ensures same { OnOk result (nodes.new ≡ nodes.old) }
    ensures error { IfErr result (λ error. error ≡ WorldErr.OutOfMemory) }
{
    for message in outs {
        send_one(alloc, nodes, sent, node, message)?;
    }
    Ok(())
}

/// Where the messages pass a limit, reports it.
fn test_limits(sent: &SentMessages) -> Result<(), WorldErr>
    ensures { IsWithin (limit_passed sent.now) result }
{
    match sent.passed() {
        Some(what) => Err(limit(what)),
        None => Ok(()),
    }
}

impl<C: NodeCore, H: Hull> Stepper<C, H> {
    /// The node at a place stops: its messages to itself are lost.
    pub fn halt(&mut self, place: usize)
        requires { place < length self.old.nodes.nodes }
        ensures { (around : Around) →
            Halts (working around self.old) place (working around self.new) }
    {
        self.nodes.stop(place);
        self.own.lose();
    }

    /// Keeps the record of a node's step, and numbers its messages to other nodes, within the limits.
    fn give(
        &mut self,
        alloc: Global,
        place: usize,
        rec: &OptionalBox<Record>,
        outs: &[Msg],
    ) -> Result<(), WorldErr>
        requires inside { place < length self.old.nodes.nodes }
        requires fits { (node : Node) → IsAt self.old.nodes.nodes place node →
            FitsNext node.kept rec.now }
        requires messages { AllByRecursion FitsMessage outs.now }
        ensures { (around : Around) (node : Node) → IsAt self.old.nodes.nodes place node →
            IsGiven H.room (working around self.old) node rec.now outs.now
            (working around self.new) result }
    {
        let node = self.nodes.id(place);
        self.nodes.keep(alloc, place, rec)?;
        send(alloc, &mut self.nodes, &mut self.sent, node, outs)?;
        test_limits(&self.sent)
    }

    /// After a record was put, the node at a place forgets the bodies that it doesn't need, where the hull rewrites its records now.
    fn forget(
        &mut self,
        alloc: Global,
        place: usize,
        rec: &OptionalBox<Record>,
    ) -> Result<(), WorldErr>
        requires inside { place < length self.old.nodes.nodes }
        requires fits { (node : Node) → IsAt self.old.nodes.nodes place node →
            IfSome node.up (λ running. MayForget node.kept running.core) }
        ensures { (around : Around) (node : Node) → IsAt self.old.nodes.nodes place node →
            IsStepped (working around self.old)
            (forgets_if H.room node.id rec.now (Ok (working around self.old).doing))
            (working around self.new) result }
    {
        if rec.is_some() {
            self.nodes.forget(alloc, place)?;
        }
        Ok(())
    }

    /// Ends a step with all that it gives.
    fn end_whole(
        &mut self,
        alloc: Global,
        place: usize,
        rec: &OptionalBox<Record>,
        outs: &mut Msgs,
        marks: &mut Marks,
    ) -> Result<(), WorldErr>
        requires inside { place < length self.old.nodes.nodes }
        requires fits { (node : Node) → IsAt self.old.nodes.nodes place node →
            FitsGiven node (given_by rec.now outs.old marks.old) }
        ensures { (around : Around) (node : Node) (running : Running) →
            IsAt self.old.nodes.nodes place node → node.up ≡ Some running →
            IsStepped (working around self.old)
            (ended_whole H.room (working around self.old).doing node running
            (given_by rec.now outs.old marks.old)) (working around self.new) result }
    {
        let node = self.nodes.id(place);
        let mut files = files_of(alloc, marks.as_slice())?;
        let mut told = entries_of(alloc, node, replace(marks, Marks::new(alloc)))?;
        self.give(alloc, place, rec, outs.as_slice())?;
        self.forget(alloc, place, rec)?;
        self.own.put(node, replace(outs, Msgs::new(alloc)))?;
        tell_all(&mut self.entries, &mut self.made, &mut told, &mut files)?;
        Ok(())
    }

    /// Ends a step in its sending: all comes of it but the later messages, and the node stops.
    fn cut_sending(
        &mut self,
        alloc: Global,
        place: usize,
        clock: u64,
        count: u128,
        rec: &OptionalBox<Record>,
        outs: &Msgs,
        marks: &mut Marks,
    ) -> Result<(), WorldErr>
        requires inside { place < length self.old.nodes.nodes }
        requires fits { (node : Node) → IsAt self.old.nodes.nodes place node →
            FitsTurned node.kept (given_by rec.now outs.now marks.old) }
        ensures { (around : Around) (node : Node) (running : Running) →
            IsAt self.old.nodes.nodes place node → node.up ≡ Some running → running.clock ≡ clock →
            IsStepped (working around self.old)
            (ended_sending H.room (working around self.old).doing node running count
            (given_by rec.now outs.now marks.old)) (working around self.new) result }
    {
        let node = self.nodes.id(place);
        let mut files = files_of(alloc, marks.as_slice())?;
        let marks = replace(marks, Marks::new(alloc));
        let mut told = entries_to_cut(alloc, node, clock, marks)?;
        self.give(alloc, place, rec, front(outs, count))?;
        tell_all(&mut self.entries, &mut self.made, &mut told, &mut files)?;
        self.halt(place);
        Ok(())
    }

    /// Ends a step in the append of its record: the node stops.
    fn stop_in_append(
        &mut self,
        alloc: Global,
        place: usize,
        clock: u64,
        stop: Stop,
        rec: &Record,
    ) -> Result<(), WorldErr>
        requires inside { place < length self.old.nodes.nodes }
        requires fits { (node : Node) → IsAt self.old.nodes.nodes place node →
            FitsNext node.kept (Some rec.now) }
        requires plan { FitsPlan (Some stop) }
        ensures { (around : Around) (node : Node) (running : Running) →
            IsAt self.old.nodes.nodes place node → node.up ≡ Some running → running.clock ≡ clock →
            IsStepped (working around self.old)
            (ended_in_append H.room (working around self.old).doing node running stop rec.now)
            (working around self.new) result }
    {
        let node = self.nodes.id(place);
        self.entries.reserve(1)?;
        let end = self.nodes.append(alloc, place, rec, Some(stop))?;
        test_limits(&self.sent)?;
        let how = halt_of(end);
        tell(&mut self.entries, Entry::Down { node, clock, how })?;
        self.halt(place);
        Ok(())
    }

    /// Ends a step by the plans for its node. What is reported or queued is taken out of `outs` and `marks`.
    fn end_by_plans(
        &mut self,
        alloc: Global,
        place: usize,
        rec: &OptionalBox<Record>,
        outs: &mut Msgs,
        marks: &mut Marks,
    ) -> Result<(), WorldErr>
        requires inside { place < length self.old.nodes.nodes }
        requires fits { (node : Node) → IsAt self.old.nodes.nodes place node →
            FitsGiven node (given_by rec.now outs.old marks.old) × IfSome node.up FitsRunning }
        ensures { (around : Around) (node : Node) (running : Running) →
            IsAt self.old.nodes.nodes place node → node.up ≡ Some running →
            IsStepped (working around self.old)
            (end_of_step H.room (working around self.old).doing node running
            (record { state = running.core; turned = given_by rec.now outs.old marks.old }))
            (working around self.new) result }
    {
        let Some(moment) = self.nodes.moment(place) else {
            return Ok(());
        };
        match ending_of(&moment, rec, outs) {
            Ending::Whole => self.end_whole(alloc, place, rec, outs, marks),
            Ending::InSending(count) => {
                self.cut_sending(alloc, place, moment.clock, count, rec, outs, marks)
            }
            Ending::InAppend(stop) => match rec.get() {
                Some(rec) => self.stop_in_append(alloc, place, moment.clock, stop, rec),
                None => Ok(()),
            },
        }
    }

    /// Ends a step of the running node at a place.
    pub fn end_of_step(
        &mut self,
        alloc: Global,
        place: usize,
        turned: Turned,
    ) -> Result<(), WorldErr>
        requires inside { place < length self.old.nodes.nodes }
        requires fits { (node : Node) → IsAt self.old.nodes.nodes place node →
            FitsGiven node turned × IfSome node.up FitsRunning }
        ensures { (around : Around) (node : Node) (running : Running) →
            IsAt self.old.nodes.nodes place node → node.up ≡ Some running →
            IsStepped (working around self.old)
            (end_of_step H.room (working around self.old).doing node running
            (record { state = running.core; turned = turned })) (working around self.new) result }
    {
        let (rec, mut outs, mut marks) = turned.into_parts();
        self.end_by_plans(alloc, place, &rec, &mut outs, &mut marks)
    }
}
