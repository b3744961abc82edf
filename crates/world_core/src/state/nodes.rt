//! What a line does to a node: it starts, stops, has its clock set or its next step planned.
ghost use Rattle.std.specs.Prelude.{◌≡◌, ◌+◌, ◌^◌, ◌<◌, ◌∷◌, [], Some, None, Err, IfOk, IfErr, length, filter, map};
ghost use Rattle.world_spec.specs.World.{Node, node_in};
ghost use Rattle.world_spec.specs.Rules.{clock_ends};
ghost use Rattle.world_spec.specs.Lines.{file_entry, first_step, is_untold};
ghost use Rattle.world_host.specs.Cores.{made_at};
ghost use Rattle.world_limits.specs.Fits.{FitsKept};
ghost use Rattle.xt_messages.specs.Limits.{FitsRecord};
ghost use Rattle.xt_protocol.specs.Folds.{fold_of, IsInPlace};
ghost use Rattle.world_hull.specs.Answers.{IsFullOrMemory, IsFullExactly};
ghost use Rattle.world_hull.specs.Appends.{kept_by};
ghost use Rattle.world_nodes.specs.Nodes.{IsAt, Changes, after_append};
ghost use Rattle.world_core.specs.Boots.{boot_behind};
ghost use Rattle.world_step.specs.Steps.{WentOn, IsStepped};

use crate::state::State;
use disk_model::Stop;
use std::alloc::Global;
use time_line::{Entry, Halt, Line};
use world_host::NodeCore;
use world_hull::{Hull, Kept, WorldErr};
use world_nodes::Nodes;
use world_spec::PlacedFile;
use world_step::{limit, tell, tell_all};
use world_tables::untold;
use xt_base::{Boot, COUNTS, NodeId, OutOfMemory};
use xt_messages::{Limited, Record};

impl<C: NodeCore, H: Hull> State<C, H> {
    /// A node starts from what its records say, with the start after its last one, and keeps that first. The files that a metadata server
    /// has made and that no entry reports yet are reported then; there is room for all entries before the start is kept.
    pub fn start(&mut self, node: NodeId, clock: u64) -> Result<(), WorldErr>
        requires clock { clock < 2 ^ 62 }
        requires kept { (found : Node) → node_in self.old.doing.world.nodes node.0 ≡ Some found →
            FitsKept found.kept }
        ensures { IsStepped self.old (first_step H.room self.old.doing (Line.Start node clock))
            self.new result }
    {
        let Some(place) = self.stepper.nodes.find(node) else {
            return Ok(());
        };
        let loaded = self.stepper.nodes.load(self.alloc, place)?;
        let Some(boot) = next_boot(loaded.folded.boot) else {
            return Err(limit(Limited::Boots));
        };
        self.stepper
            .nodes
            .start(self.alloc, place, loaded, boot, clock)?;
        let made = self.stepper.made.as_slice();
        let mut left = files_left(self.alloc, &self.stepper.nodes, made, place)?;
        let up = Entry::Up { node, boot, clock };
        let mut told = entries_of_start(self.alloc, up, left.as_slice())?;
        self.stepper.entries.reserve(told.len())?;
        self.stepper.made.reserve(left.len())?;
        keep_boot(self.alloc, &mut self.stepper.nodes, place, boot)?;
        tell_all(
            &mut self.stepper.entries,
            &mut self.stepper.made,
            &mut told,
            &mut left,
        )?;
        Ok(())
    }

    /// A running node stops between two steps.
    pub fn stop(&mut self, node: NodeId) -> Result<(), WorldErr>
        requires { self.old.doing.own ≡ [] }
        ensures { IsStepped self.old (first_step H.room self.old.doing (Line.Stop node))
            self.new result }
    {
        let Some(place) = self.stepper.nodes.find(node) else {
            return Ok(());
        };
        let Some(moment) = self.stepper.nodes.moment(place) else {
            return Ok(());
        };
        let (clock, how) = (moment.clock, Halt::Idle);
        tell(&mut self.stepper.entries, Entry::Down { node, clock, how })?;
        self.stepper.halt(place);
        Ok(())
    }

    /// Plans where the next append of a running node stops.
    pub fn plan_crash(&mut self, node: NodeId, call: u8, fill: u8)
        ensures step { first_step H.room self.old.doing (Line.Crash node call fill) ≡
            Ok self.new.doing }
        ensures rest { WentOn self.old self.new }
    {
        if let Some(place) = self.stepper.nodes.find(node) {
            let call = u64::from(call);
            self.stepper.nodes.plan_crash(place, Stop { call, fill });
        }
    }

    /// Plans after how many messages the next step of a running node that sends stops.
    pub fn plan_cut(&mut self, node: NodeId, count: u128)
        ensures step { first_step H.room self.old.doing (Line.Cut node count) ≡
            Ok self.new.doing }
        ensures rest { WentOn self.old self.new }
    {
        if let Some(place) = self.stepper.nodes.find(node) {
            self.stepper.nodes.plan_cut(place, count);
        }
    }

    /// Sets a running clock.
    pub fn set_clock(&mut self, node: NodeId, clock: u64) -> Result<(), WorldErr>
        ensures { IsStepped self.old (first_step H.room self.old.doing (Line.Clock node clock))
            self.new result }
    {
        tell(&mut self.stepper.entries, Entry::Clock { node, clock })?;
        if let Some(place) = self.stepper.nodes.find(node) {
            self.stepper.nodes.set_clock(place, clock);
        }
        Ok(())
    }

    /// Every running clock advances.
    pub fn tick(&mut self, count: u64) -> Result<(), WorldErr>
        requires { clock_ends count self.old.doing.world.nodes ≡ None }
        ensures { IsStepped self.old (first_step H.room self.old.doing (Line.Tick count))
            self.new result }
    {
        tell(&mut self.stepper.entries, Entry::Tick { count })?;
        self.stepper.nodes.tick(count);
        Ok(())
    }

    /// Sets a client's first target for a file.
    pub fn aim(&mut self, client: NodeId, file: u64, node: NodeId) -> Result<(), WorldErr>
        ensures { IsStepped self.old
            (first_step H.room self.old.doing (Line.Aim client file node)) self.new result }
    {
        if let Some(place) = self.stepper.nodes.find(client) {
            let declared = self.files.find(file);
            self.stepper.nodes.aim(place, file, declared, node)?;
        }
        Ok(())
    }
}

/// The files that the metadata server at a place has made and that no entry reports yet, in the order of making. `made` are those that
/// the trace reports.
fn files_left<C: NodeCore, H: Hull>(
    alloc: Global,
    nodes: &Nodes<C, H>,
    made: &[PlacedFile],
    place: usize,
) -> Result<Vec<PlacedFile>, OutOfMemory>
    requires { place < length nodes.now.nodes }
    ensures { IfOk result (λ left. (node : Node) → IsAt nodes.now.nodes place node →
        left.items ≡ filter (is_untold made.now) (made_at node.up)) }
{
    let files = nodes.files(alloc, place)?;
    untold(alloc, made, files.as_slice())
}

/// The lines of the trace for a start: the node is up, and these files are reported.
fn entries_of_start(
    alloc: Global,
    up: Entry,
    left: &[PlacedFile],
) -> Result<Vec<Entry>, OutOfMemory>
    ensures { IfOk result (λ entries. entries.items ≡ up ∷ map file_entry left.now) }
{
    let mut entries = Vec::new(alloc);
    tell(&mut entries, up)?;
    for known in left {
        let (number, location) = (known.file.number, known.location);
        tell(&mut entries, Entry::File { number, location })?;
    }
    Ok(entries)
}

/// Keeps the start of the node at a place.
fn keep_boot<C: NodeCore, H: Hull>(
    alloc: Global,
    nodes: &mut Nodes<C, H>,
    place: usize,
    boot: Boot,
) -> Result<Kept, WorldErr>
    requires inside { place < length nodes.old.nodes }
    requires fits { (node : Node) → IsAt nodes.old.nodes place node →
        FitsRecord (Record.Boot boot) × IsInPlace (fold_of node.kept) (Record.Boot boot) }
    ensures done { IfOk result (λ end. (end ≡ kept_by None)
        × Changes nodes.old place (after_append (Record.Boot boot) end) nodes.new) }
    ensures room { (node : Node) → IsAt nodes.old.nodes place node →
        IsFullExactly (H.room.overflow node.past (Record.Boot boot)) result }
    ensures error { IfErr result IsFullOrMemory }
{
    nodes.append(alloc, place, &Record::Boot { boot }, None)
}

/// The start after the last one, where there is one within the limit.
fn next_boot(last: Boot) -> Option<Boot>
    ensures { result ≡ boot_behind last }
{
    if last.0 < COUNTS - 1 {
        Some(Boot(last.0 + 1))
    } else {
        None
    }
}
