ghost use Rattle.std.specs.Prelude.{◌≡◌, ◌<◌, ◌^◌, true, false, List, Some, IfOk, OnOk};
ghost use Rattle.xt_messages.specs.declared.record.Record.{Record};
ghost use Rattle.xt_base.specs.TimeSettings.{TimeSettings};
ghost use Rattle.xt_base.specs.declared.ids.NodeId.{NodeId};
ghost use Rattle.xt_protocol.specs.OsdSteps.{osd_from};
ghost use Rattle.server_rows.specs.Directory.{dir_of};
ghost use Rattle.server_rows.specs.Metadata.{mrc_of};
ghost use Rattle.world_spec.specs.World.{Core, client, dir, mrc, osd, world_key};
ghost use Rattle.client_rows.specs.Holding.{held_of};
ghost use Rattle.world_spec.specs.NodeSteps.{core_step};
ghost use Rattle.world_spec.specs.Rules.{is_calling, can_repeat, held_by, file_held};
ghost use Rattle.world_spec.specs.Lines.{whole_client};
ghost use Rattle.xt_messages.specs.Limits.{FitsEvent};
ghost use Rattle.world_host.specs.Hosts.{node_with};
ghost use Rattle.world_host.specs.Cores.{AreRequests, IsCoreChanged, IsSaid, made_by};
ghost use Rattle.world_host.specs.Forgetting.{needed_at, forgets};
ghost use Rattle.world_host.specs.Calls.{IsUsable, aims_on};
ghost use Rattle.world_host.specs.Turns.{IsCoreStep, IsCoreCall, IsCoreCallAgain};

use object_versions::Bodies;
use std::alloc::Global;
use world_spec::PlacedFile;
use xt_base::{Boot, FileId, NodeId, OutOfMemory, Times};
use xt_messages::{Call, Event, Folded, Keep, Record};
use xt_protocol::Turned;

/// The code of a running node: an OSD, a client, the metadata server (MRC) or the directory service (DIR). After an error it isn't to be
/// used again.
pub trait NodeCore: Drop {
    /// Its state.
    ghost state: { Self → Core };

    /// Whether it is the core of the node of this id, whose steps are by these times.
    ghost is_of: { NodeId → TimeSettings → Self → Type 0 };

    /// An OSD's, which starts as this boot at the clock `now`, in milliseconds, from what its records say.
    fn osd(
        alloc: Global,
        id: NodeId,
        times: Times,
        folded: Folded,
        boot: Boot,
        now: u64,
    ) -> Result<Self, OutOfMemory>
        requires clock { now < 2 ^ 62 }
        requires records { IsSaid folded }
        ensures state { IfOk result (λ core. state core ≡
            osd (osd_from (record { node = id; boot = boot; times = times; start = now })
            folded.files)) }
        ensures own { IfOk result (λ core. is_of id times core) };

    /// A client's, which holds nothing and has made no call yet.
    fn client(alloc: Global, id: NodeId, times: Times, now: u64) -> Self
        requires { now < 2 ^ 62 }
        ensures state { state result ≡ client (whole_client now) }
        ensures own { is_of id times result };

    /// The metadata server's, which starts at the clock `now`, in milliseconds, from what its records say, under the key of a world.
    fn mrc(alloc: Global, records: &[Record], now: u64) -> Result<Self, OutOfMemory>
        requires clock { now < 2 ^ 62 }
        requires records { AreRequests records.now }
        ensures state { IfOk result (λ core. state core ≡ mrc (mrc_of world_key records.now now)) }
        ensures own { IfOk result (λ core. (id : NodeId) (times : TimeSettings) →
            is_of id times core) };

    /// The directory service's, which starts from what its records say.
    fn dir(alloc: Global, records: &[Record]) -> Result<Self, OutOfMemory>
        ensures state { IfOk result (λ core. state core ≡ dir (dir_of records.now)) }
        ensures own { IfOk result (λ core. (id : NodeId) (times : TimeSettings) →
            is_of id times core) };

    /// The step on an event, at a reading of the clock. A body that can't be read is reported as out of memory.
    fn handle<B: Bodies>(
        &mut self,
        bodies: &mut B,
        clock: u64,
        ev: &Event,
    ) -> Result<Turned, OutOfMemory>
        requires clock { clock < 2 ^ 62 }
        requires fits { FitsEvent ev.now }
        ensures step { IfOk result (λ turned.
            (records : List Record) → B.agrees bodies.new records →
            IsCoreStep state is_of (λ host.
            core_step host.times (node_with records host) (state self.old) clock ev.now) self.old
            self.new turned) }
        ensures later { (records : List Record) → B.agrees bodies.new records →
            B.agrees bodies.old records };

    /// A client makes a call; any other node makes none. `declared` is the file of the call, if a schedule declares it: the client is
    /// given its capability first. What the call uses is declared or held, and no call runs.
    fn call(
        &mut self,
        clock: u64,
        call: &Call,
        declared: Option<PlacedFile>,
    ) -> Result<Option<Turned>, OutOfMemory>
        requires clock { clock < 2 ^ 62 }
        requires free { is_calling (state self.old) ≡ false }
        requires held { IsUsable declared call.now (state self.old) }
        ensures { IfOk result (λ turned.
            IsCoreCall state is_of clock call.now declared self.old self.new turned) };

    /// A client makes its last call again; any other node makes none. It ended as one that may be made again.
    fn again(&mut self, clock: u64) -> Result<Option<Turned>, OutOfMemory>
        requires clock { clock < 2 ^ 62 }
        requires free { is_calling (state self.old) ≡ false }
        requires may { can_repeat (state self.old) ≡ true }
        ensures { IfOk result (λ turned.
            IsCoreCallAgain state is_of clock self.old self.new turned) };

    /// A client's first target for a file is this member.
    fn aim(&mut self, file: &FileId, node: NodeId) -> Result<(), OutOfMemory>
        ensures { OnOk result (IsCoreChanged state is_of (aims_on file.now node) self.old
            self.new) };

    /// The file of this number, if a client holds a capability of it.
    fn held(&self, number: u64) -> Option<PlacedFile>
        ensures { result ≡ file_held (held_of (held_by (state self.now)) number) };

    /// The files that the metadata server has made, in the order of making; any other node has made none.
    fn files(&self, alloc: Global) -> Result<Vec<PlacedFile>, OutOfMemory>
        ensures { IfOk result (λ files. files.items ≡ made_by (state self.now)) };

    /// The held bodies that an OSD needs; None at any other node, which holds none.
    fn keep(&self) -> Result<Option<Keep>, OutOfMemory>
        ensures { IfOk result (λ keep. keep ≡ needed_at (state self.now)) };

    /// An OSD forgets the held bodies that aren't among these, which are all that it needs.
    fn forget(&mut self, keep: &Keep)
        requires { needed_at (state self.old) ≡ Some keep.now }
        ensures { IsCoreChanged state is_of (forgets keep.now) self.old self.new };

    /// Whether a client's call runs.
    fn has_call(&self) -> bool
        ensures { result ≡ is_calling (state self.now) };

    /// Whether a client's last call ended as one that may be made again.
    fn may_repeat(&self) -> bool
        ensures { result ≡ can_repeat (state self.now) };
}
