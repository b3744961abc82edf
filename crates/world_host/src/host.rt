ghost use Rattle.std.specs.Prelude.{◌≡◌, ◌+◌, ◌<◌, ◌^◌, true, false, List, Option, Some, None, IfOk, IfSome, OnOk, OnErr};
ghost use Rattle.xt_messages.specs.declared.record.Record.{Record};
ghost use Rattle.std.specs.Option.{option_map};
ghost use Rattle.world_spec.specs.World.{client, is_client, is_osd, is_server};
ghost use Rattle.world_spec.specs.Rules.{has_call, may_go_again, held_in, file_held};
ghost use Rattle.client_rows.specs.Holding.{held_of};
ghost use Rattle.world_spec.specs.Lines.{runs, first_boot, core_starting, crashes, cuts, reads_clock, whole_client};
ghost use Rattle.xt_messages.specs.Limits.{FitsEvent};
ghost use Rattle.world_host.specs.Cores.{IsLoaded, made_at};
ghost use Rattle.world_host.specs.Hosts.{host_ticked, node_of, node_with, nothing_stored};
ghost use Rattle.world_host.specs.Forgetting.{needed_by, running_without};
ghost use Rattle.world_host.specs.Calls.{IsUsable, targets};
ghost use Rattle.world_host.specs.Turns.{Handles, Calls, CallsAgain, moment_of};

use crate::loaded::Loaded;
use crate::node_core::NodeCore;
use crate::running::{Moment, Running};
use disk_model::Stop;
use object_versions::Bodies;
use std::alloc::Global;
use std::marker::Model;
use world_spec::{PlacedFile, Role};
use xt_base::{Boot, NodeId, OutOfMemory, Times};
use xt_messages::{Call, Event, Keep};
use xt_protocol::Turned;

/// A declared node without what is stored for it. Contracts see its id, its role, its times and how it runs.
pub struct Host<C: NodeCore> {
    id: NodeId,
    role: Role,
    times: Times,
    up: Option<Running<C>>,
}

// A derived drop is part of the code of each function that may drop a value. This one is proved once.
impl<C: NodeCore> Drop for Host<C> {
    fn drop(self) {
        let Host {
            id: _,
            role: _,
            times: _,
            up: _,
        } = self;
    }
}

impl<C: NodeCore> Model for Host<C> {
    ghost use Rattle.world_host.specs.Hosts.{HostView};

    ghost Value = { HostView };

    ghost use Rattle.world_host.specs.Cores.{up_of, IsUpOf};

    ghost view = { λ host.
        record { id = host.id; role = host.role; times = host.times; up = up_of C.state host.up } };

    ghost invariant = { λ host. IsUpOf C.is_of host.id host.times host.up };
}

/// A running node with no plan to stop it.
fn fresh<C: NodeCore>(boot: Boot, clock: u64, core: C) -> Running<C>
    ensures { result ≡
        record { boot = boot; clock = clock; crash = None; cut = None; core = core } }
{
    Running {
        boot,
        clock,
        crash: None,
        cut: None,
        core,
    }
}

impl<C: NodeCore> Host<C> {
    /// A new node of this role, which doesn't run.
    pub fn resting(id: NodeId, role: Role, times: Times) -> Host<C>
        ensures { result ≡ record { id = id; role = role; times = times; up = None } }
    {
        Host {
            id,
            role,
            times,
            up: None,
        }
    }

    /// A new client, which runs for good.
    pub fn client(alloc: Global, id: NodeId, times: Times, clock: u64) -> Host<C>
        requires { clock < 2 ^ 62 }
        ensures { result ≡
            record {
              id = id;
              role = Role.Client;
              times = times;
              up = Some (runs first_boot clock (client (whole_client clock)));
            } }
    {
        let core = C::client(alloc, id, times, clock);
        Host {
            id,
            role: Role::Client,
            times,
            up: Some(fresh(Boot(1), clock, core)),
        }
    }

    pub fn id(&self) -> NodeId
        ensures { result ≡ self.now.id }
    {
        self.id
    }

    pub fn is_osd(&self) -> bool
        ensures { result ≡ is_osd (Some (node_of nothing_stored self.now)) }
    {
        self.role == Role::Osd
    }

    pub fn is_server(&self) -> bool
        ensures { result ≡ is_server (Some (node_of nothing_stored self.now)) }
    {
        self.role != Role::Client
    }

    pub fn is_client(&self) -> bool
        ensures { result ≡ is_client (Some (node_of nothing_stored self.now)) }
    {
        self.role == Role::Client
    }

    /// What its clock reads and what is planned for it, where it runs.
    pub fn moment(&self) -> Option<Moment>
        ensures { result ≡ option_map moment_of self.now.up }
    {
        let running = self.up.as_ref()?;
        Some(Moment {
            clock: running.clock,
            crash: running.crash,
            cut: running.cut,
        })
    }

    /// Whether a client's call runs.
    pub fn has_call(&self) -> bool
        ensures { result ≡ has_call self.now.up }
    {
        match &self.up {
            None => false,
            Some(running) => running.core.has_call(),
        }
    }

    /// Whether a client's last call ended as one that may be made again.
    pub fn may_repeat(&self) -> bool
        ensures { result ≡ may_go_again self.now.up }
    {
        match &self.up {
            None => false,
            Some(running) => running.core.may_repeat(),
        }
    }

    /// The file of this number, if a running client holds a capability of it.
    pub fn held(&self, number: u64) -> Option<PlacedFile>
        ensures { result ≡ file_held (held_of (held_in self.now.up) number) }
    {
        let running = self.up.as_ref()?;
        running.core.held(number)
    }

    /// The files that a running metadata server has made, in the order of making; none where no such server runs.
    pub fn files(&self, alloc: Global) -> Result<Vec<PlacedFile>, OutOfMemory>
        ensures { IfOk result (λ files. files.items ≡ made_at self.now.up) }
    {
        match &self.up {
            None => Ok(Vec::new(alloc)),
            Some(running) => running.core.files(alloc),
        }
    }

    /// What starts at a node of its role as this boot, from what its records say.
    #[tactic(auto, using(crate::proofs::Starting::said_loaded, crate::proofs::Starting::requests_loaded))]
    fn core_from(
        &self,
        alloc: Global,
        loaded: Loaded,
        boot: Boot,
        clock: u64,
    ) -> Result<C, OutOfMemory>
        requires clock { clock < 2 ^ 62 }
        requires loaded { IsLoaded loaded }
        ensures state { IfOk result (λ core. C.state core ≡
            core_starting self.now.times (node_with loaded.records.items self.now) boot clock
            self.now.role) }
        ensures own { IfOk result (λ core. C.is_of self.now.id self.now.times core) }
    {
        let Loaded { records, folded } = loaded;
        match self.role {
            Role::Osd => C::osd(alloc, self.id, self.times, folded, boot, clock),
            Role::Client => Ok(C::client(alloc, self.id, self.times, clock)),
            Role::Mrc => C::mrc(alloc, records.as_slice(), clock),
            Role::Dir => C::dir(alloc, records.as_slice()),
        }
    }

    /// It starts as this boot, from what its records say, which were loaded for that.
    pub fn start(
        &mut self,
        alloc: Global,
        loaded: Loaded,
        boot: Boot,
        clock: u64,
    ) -> Result<(), OutOfMemory>
        requires clock { clock < 2 ^ 62 }
        requires loaded { IsLoaded loaded }
        ensures ok { OnOk result (self.new ≡
            record self.old {
              up = Some
                  (runs boot clock
                  (core_starting self.old.times (node_with loaded.records.items self.old) boot
                  clock self.old.role));
            }) }
        ensures err { OnErr result (self.new ≡ self.old) }
    {
        let core = self.core_from(alloc, loaded, boot, clock)?;
        drop(self.up.replace(fresh(boot, clock, core)));
        Ok(())
    }

    /// It stops.
    pub fn stop(&mut self)
        ensures { self.new ≡ record self.old { up = None } }
    {
        drop(self.up.take());
    }

    /// Its next append stops so, where it runs.
    pub fn plan_crash(&mut self, stop: Stop)
        ensures { self.new ≡
            record self.old { up = option_map (crashes stop.call stop.fill) self.old.up } }
    {
        if let Some(running) = &mut self.up {
            running.crash = Some(stop);
        }
    }

    /// Its next step that sends stops after so many messages, where it runs.
    pub fn plan_cut(&mut self, count: u128)
        ensures { self.new ≡ record self.old { up = option_map (cuts count) self.old.up } }
    {
        if let Some(running) = &mut self.up {
            running.cut = Some(count);
        }
    }

    /// Its clock is set, where it runs.
    pub fn set_clock(&mut self, clock: u64)
        ensures { self.new ≡ record self.old { up = option_map (reads_clock clock) self.old.up } }
    {
        if let Some(running) = &mut self.up {
            running.clock = clock;
        }
    }

    /// Its clock advances by so many milliseconds, where it runs.
    pub fn tick(&mut self, count: u64)
        requires { IfSome self.old.up (λ running. running.clock + count < 2 ^ 64) }
        ensures { self.new ≡ host_ticked count self.old }
    {
        if let Some(running) = &mut self.up {
            running.clock += count;
        }
    }

    /// A client's first target for the file of a number is this member. The file is `declared`, if a schedule declares it, or else the one
    /// that the client holds; where there is none nothing changes. Where memory runs out it runs no more.
    pub fn aim(
        &mut self,
        number: u64,
        declared: Option<PlacedFile>,
        node: NodeId,
    ) -> Result<(), OutOfMemory>
        ensures ok { OnOk result (self.new ≡
            record self.old { up = option_map (targets declared number node) self.old.up }) }
        ensures err { OnErr result (self.new ≡ record self.old { up = None }) }
    {
        let Some(Running { core, .. }) = &mut self.up else {
            return Ok(());
        };
        let Some(found) = declared.or(core.held(number)) else {
            return Ok(());
        };
        match core.aim(&found.file, node) {
            Ok(()) => Ok(()),
            Err(error) => {
                drop(self.up.take());
                Err(error)
            }
        }
    }

    /// An event comes to it. None where it doesn't run. Where memory runs out it runs no more.
    pub fn handle<B: Bodies>(
        &mut self,
        bodies: &mut B,
        ev: &Event,
    ) -> Result<Option<Turned>, OutOfMemory>
        requires clock { IfSome self.old.up (λ running. running.clock < 2 ^ 62) }
        requires fits { FitsEvent ev.now }
        ensures handled { IfOk result (λ turned.
            (records : List Record) → B.agrees bodies.new records →
            Handles records ev.now self.old self.new turned) }
        ensures err { OnErr result (self.new ≡ record self.old { up = None }) }
        ensures later { (records : List Record) → B.agrees bodies.new records →
            B.agrees bodies.old records }
    {
        let Some(running) = &mut self.up else {
            return Ok(None);
        };
        match running.core.handle(bodies, running.clock, ev) {
            Ok(turned) => Ok(Some(turned)),
            Err(error) => {
                drop(self.up.take());
                Err(error)
            }
        }
    }

    /// The held bodies that it needs; None where no OSD runs.
    pub fn keep(&self) -> Result<Option<Keep>, OutOfMemory>
        ensures { IfOk result (λ keep. keep ≡ needed_by self.now.up) }
    {
        match &self.up {
            None => Ok(None),
            Some(running) => running.core.keep(),
        }
    }

    /// A running OSD forgets the held bodies that aren't among these, which are all that it needs.
    pub fn forget(&mut self, keep: &Keep)
        requires { needed_by self.old.up ≡ Some keep.now }
        ensures { self.new ≡
            record self.old { up = option_map (running_without keep.now) self.old.up } }
    {
        if let Some(running) = &mut self.up {
            running.core.forget(keep);
        }
    }

    /// A client makes a call. None where no client runs. `declared` is the file of the call, if a schedule declares it. What the
    /// call uses is declared or held, and no call runs. Where memory runs out it runs no more.
    pub fn call(
        &mut self,
        call: &Call,
        declared: Option<PlacedFile>,
    ) -> Result<Option<Turned>, OutOfMemory>
        requires clock { IfSome self.old.up (λ running. running.clock < 2 ^ 62) }
        requires free { has_call self.old.up ≡ false }
        requires held { IfSome self.old.up (λ running. IsUsable declared call.now running.core) }
        ensures called { IfOk result (λ turned.
            Calls call.now declared self.old self.new turned) }
        ensures err { OnErr result (self.new ≡ record self.old { up = None }) }
    {
        let Some(running) = &mut self.up else {
            return Ok(None);
        };
        match running.core.call(running.clock, call, declared) {
            Ok(turned) => Ok(turned),
            Err(error) => {
                drop(self.up.take());
                Err(error)
            }
        }
    }

    /// A client makes its last call again, which ended as one that may be. None where no client runs. Where memory runs out it runs no more.
    pub fn again(&mut self) -> Result<Option<Turned>, OutOfMemory>
        requires clock { IfSome self.old.up (λ running. running.clock < 2 ^ 62) }
        requires free { has_call self.old.up ≡ false }
        requires may { may_go_again self.old.up ≡ true }
        ensures called { IfOk result (λ turned. CallsAgain self.old self.new turned) }
        ensures err { OnErr result (self.new ≡ record self.old { up = None }) }
    {
        let Some(running) = &mut self.up else {
            return Ok(None);
        };
        match running.core.again(running.clock) {
            Ok(turned) => Ok(turned),
            Err(error) => {
                drop(self.up.take());
                Err(error)
            }
        }
    }
}
