ghost use Rattle.std.specs.Prelude.{◌≡◌, ◌<◌, ◌^◌, Bool, List, Ok, Some, IfOk};
ghost use Rattle.std.specs.Option.{IfSome};
ghost use Rattle.xt_messages.specs.Limits.{FitsEvent};
ghost use Rattle.xt_messages.specs.declared.record.Record.{Record};
ghost use Rattle.xt_protocol.specs.Forgetting.{rewritten};
ghost use Rattle.object_store.specs.Texts.{AreRecords};
ghost use Rattle.world_spec.specs.NodeSteps.{one_more};
ghost use Rattle.object_versions.specs.KeptBodies.{fault_of, ReadsOnly};
ghost use Rattle.replica_records.specs.Known.{known_of, Sees};
ghost use Rattle.node_loop.specs.Events.{Fits};

use object_versions::{Bodies, StepErr};
use std::alloc::Global;
use xt_base::{NodeId, OutOfMemory};
use xt_messages::{Event, Keep, Msg};
use xt_protocol::Turned;

/// The core of a node that is served.
pub trait Node {
    ghost use Rattle.node_runs.specs.Runs.{Role};

    /// The type of its state.
    ghost State: { Type 0 };

    /// Its role, which no step changes.
    ghost role: { Self → Role State };

    /// Its state.
    ghost state: { Self → State };

    /// What holds of it and of the records that it keeps, from its start on and wherever it comes to: what a step gives then is
    /// within the limits.
    ghost runs_on: { Self → List Record → Type 0 };

    /// Which node it is.
    fn id(&self) -> NodeId
        ensures { result ≡ (role self.now).node };

    /// Its step on an event, at a reading of the clock. Its record is kept before it steps again.
    fn step<B: Bodies>(
        &mut self,
        alloc: Global,
        bodies: &mut B,
        now: u64,
        ev: &Event,
    ) -> Result<Turned, StepErr>
        requires clock { now < 2 ^ 62 }
        requires fits { FitsEvent ev.now }
        requires runs { (records : List Record) → B.agrees bodies.old records →
            runs_on self.old records }
        ensures step { IfOk result (λ turned. (records : List Record) → B.agrees bodies.new records →
            (role self.old).step records (state self.old) now ev.now ≡
            record { state = state self.new; turned = turned }) }
        ensures fits { IfOk result (λ turned. (records : List Record) → B.agrees bodies.new records →
            Fits records turned) }
        ensures runs { IfOk result (λ turned. (records : List Record) → B.agrees bodies.new records →
            runs_on self.new (one_more records turned.rec)) }
        ensures same { IfOk result (λ turned. role self.new ≡ role self.old) }
        ensures reads { ReadsOnly B.agrees B.fault_count bodies.old bodies.new (fault_of result) };

    /// The held bodies that it needs; None where its records are never rewritten.
    fn keep(&self, alloc: Global) -> Result<Option<Keep>, OutOfMemory>
        ensures needs { IfOk result (λ keep. keep ≡ (role self.now).keeps (state self.now)) }
        ensures may { (records : List Record) → runs_on self.now records →
            IfOk result (λ keep. IfSome keep (λ keep. AreRecords (rewritten keep records))) };

    /// Forgets the held bodies that aren't among these, where these are all that it needs. It takes no memory.
    fn forget(&mut self, keep: &Keep)
        ensures state { (role self.old).keeps (state self.old) ≡ Some keep.now →
            state self.new ≡ (role self.old).without keep.now (state self.old) }
        ensures same { role self.new ≡ role self.old }
        ensures runs { (role self.old).keeps (state self.old) ≡ Some keep.now →
            (records : List Record) → runs_on self.old records →
            runs_on self.new (rewritten keep.now records) };

    /// Whether a message ends it.
    fn stops(&self, msg: &Msg) -> Result<bool, OutOfMemory>
        ensures { result ≡ Ok ((role self.now).stops msg.now) };

    /// Where it runs on what is known of its records, it runs on what it sees of them.
    ghost seen_runs: { (node : Self) (told : Bool) (known seen : List Record) →
        Sees told known seen → runs_on node known → runs_on node seen };

    /// Where it runs on records, it runs on what is known of them.
    ghost known_runs: { (node : Self) (told : Bool) (records : List Record) →
        runs_on node records → runs_on node (known_of told records) };
}
