ghost use Rattle.std.specs.Prelude.{◌≡◌, ◌<◌, ◌^◌, ◌↔◌, [], None, Some, IsSome, IsTrue, not, ◌&&◌, IfOk, OnOk, OnErr, Err};
ghost use Rattle.std.specs.Option.{option_copied, option_map};
ghost use Rattle.xt_base.specs.declared.TheConstants.{COUNTS};
ghost use Rattle.client_rows.specs.Clients.{aimed, raised, knows, known_in};
ghost use Rattle.client_rows.specs.Holding.{holds, held_of};
ghost use Rattle.client_rows.specs.Requests.{is_ready};
ghost use Rattle.client_rows.specs.Rows as rows;
ghost use Rattle.client_core.specs.Views.{Does, CallActs};
ghost use Rattle.client_core.specs.Answered.{is_answered, is_done};

use crate::calls::{
    first_stage, given, go_on, mark_told, put_made, result_of, set_stage, start, start_again,
};
use crate::holding::HeldFiles;
use crate::requests::{file_of, request_of};
use crate::waiting::handle;
use client_rows::{CallResult, MadeCall, Progress, Request, Stage};
use replica_client::ReplicaClient;
use std::alloc::Global;
use std::marker::Model;
use xt_base::{COUNTS, FileId, NodeId, OutOfMemory, SizeMark, Times};
use xt_messages::{Call, Capability, Event, Outcome};
use xt_protocol::{Turned, quiet};

/// Why a call isn't made.
#[derive(Clone, Copy)]
pub enum CallErr {
    /// A call runs.
    Busy,
    /// The last call didn't end as one that may be made again.
    NoCall,
    OutOfMemory,
}

/// A client. Contracts see which node it is, its times and its state.
#[derive(Drop)]
pub struct Client {
    alloc: Global,
    replicas: ReplicaClient,
    held: HeldFiles,
    made: Option<MadeCall>,
}

impl Model for Client {
    ghost use Rattle.std.specs.Prelude.{◌≡◌, None};
    ghost use Rattle.client_core.specs.Views.{ClientView};

    ghost Value = { ClientView };

    ghost view = { λ c. record {
      node = c.replicas.node;
      times = c.replicas.times;
      state = record { replicas = c.replicas.state; held = c.held; made = c.made };
    } };

    ghost invariant = { λ c. c.replicas.ended ≡ None };
}

impl Client {
    /// A client that has made no call and used no clock. Its first call has the number `first`.
    pub fn new(alloc: Global, node: NodeId, times: Times, first: u64) -> Client
        ensures { result ≡ record {
          node = node;
          times = times;
          state = record {
            replicas = record { last = 0; next = first; running = None; files = [] };
            held = [];
            made = None;
          };
        } }
    {
        Client::start(alloc, node, times, first, 0)
    }

    /// A client that has made no call, and whose clock reads `now`, in milliseconds. Its first call has the number `first`.
    pub fn start(alloc: Global, node: NodeId, times: Times, first: u64, now: u64) -> Client
        requires { now < 2 ^ 62 }
        ensures { result ≡ record {
          node = node;
          times = times;
          state = record {
            replicas = record { last = now; next = first; running = None; files = [] };
            held = [];
            made = None;
          };
        } }
    {
        Client {
            alloc,
            replicas: ReplicaClient::new(alloc, node, times, first, now),
            held: HeldFiles::new(alloc),
            made: None,
        }
    }

    /// Makes a call. A call on a file goes under the capability that is held for it. It takes the next number and is marked, and
    /// asks its first node; without a number left nothing comes of it. `Busy` exactly where a call runs.
    pub fn call(&mut self, now: u64, call: &Call) -> Result<Turned, CallErr>
        requires clock { now < 2 ^ 62 }
        requires held { IsTrue (is_ready self.old.state.held call.now) }
        ensures step { IfOk result (λ turned.
            Does (rows.called self.old.node self.old.times self.old.state now call.now) self.old
            self.new turned) }
        ensures busy { (result ≡ Err CallErr.Busy) ↔ IsTrue (rows.is_busy self.old.state.made) }
        ensures made { (result ≡ Err CallErr.NoCall) → ⊥ }
        ensures err { OnErr result (self.new ≡ self.old) }
    {
        if self.is_busy() {
            return Err(CallErr::Busy);
        }
        match self.begin(now, call) {
            Ok(turned) => Ok(turned),
            Err(_) => Err(CallErr::OutOfMemory),
        }
    }

    /// Makes the last call again, under the number that it had and without a mark. `Busy` exactly where a call runs; else `NoCall`
    /// exactly where the last call didn't end as one that may be made again.
    pub fn again(&mut self, now: u64) -> Result<Turned, CallErr>
        requires { now < 2 ^ 62 }
        ensures step { IfOk result (λ turned.
            Does (rows.called_again self.old.node self.old.times self.old.state now) self.old
            self.new turned) }
        ensures busy { (result ≡ Err CallErr.Busy) ↔ IsTrue (rows.is_busy self.old.state.made) }
        ensures none { (result ≡ Err CallErr.NoCall) ↔
            IsTrue (not (rows.is_busy self.old.state.made)
            && not (rows.may_repeat self.old.state.made)) }
        ensures err { OnErr result (self.new ≡ self.old) }
    {
        if self.is_busy() {
            return Err(CallErr::Busy);
        }
        if !self.may_repeat() {
            return Err(CallErr::NoCall);
        }
        match self.repeat(now) {
            Ok(turned) => Ok(turned),
            Err(_) => Err(CallErr::OutOfMemory),
        }
    }

    /// The step on an event at a reading of the clock. An Ok that the call waits for ends it in this step.
    pub fn step(&mut self, now: u64, ev: &Event) -> Result<Turned, OutOfMemory>
        requires { now < 2 ^ 62 }
        ensures step { IfOk result (λ turned.
            Does (rows.stepped self.old.node self.old.times self.old.state now ev.now) self.old
            self.new turned) }
        ensures answered { IfOk result (λ turned.
            IsTrue (is_answered self.old.state ev.now) →
            IsTrue (is_done (rows.result_in self.new.state.made))) }
        ensures err { OnErr result (self.new ≡ self.old) }
    {
        self.go_on(now, ev)
    }

    /// Whether what a call uses is held: the capability of its file.
    pub fn is_ready(&self, call: &Call) -> bool
        ensures { result ≡ is_ready self.now.state.held call.now }
    {
        match call {
            Call::Read { file, .. }
            | Call::Write { file, .. }
            | Call::Truncate { file, .. }
            | Call::Report { file, .. } => self.held.get(*file).is_some(),
            Call::Meta { .. } | Call::Registry { .. } => true,
        }
    }

    /// The number of its next call. From 2^62 on it makes none.
    pub fn next(&self) -> u64
        ensures { result ≡ self.now.state.replicas.next }
    {
        self.replicas.next()
    }

    /// The capability that is held for the file of this number.
    pub fn held(&self, file: u64) -> Option<&Capability>
        ensures { option_copied result ≡
            option_map (λ held. held.capability) (held_of self.now.state.held file) }
    {
        match self.held.get(file) {
            None => None,
            Some(held) => Some(&held.capability),
        }
    }

    /// Whether a call runs.
    pub fn is_busy(&self) -> bool
        ensures { result ≡ rows.is_busy self.now.state.made }
    {
        match &self.made {
            None => false,
            Some(made) => !matches!(made.stage, Stage::Ended { .. }),
        }
    }

    /// Whether its last call ended as one that may be made again.
    pub fn may_repeat(&self) -> bool
        ensures { result ≡ rows.may_repeat self.now.state.made }
    {
        match self.result() {
            Some(CallResult::Retry { .. }) => true,
            _ => false,
        }
    }

    /// How its last call ended: None before the first call, and while one runs.
    pub fn result(&self) -> Option<&CallResult>
        ensures { option_map (λ how. how.now) result ≡ rows.result_in self.now.state.made }
    {
        match &self.made {
            None => None,
            Some(made) => match &made.stage {
                Stage::Ended { result } => Some(result),
                Stage::OnReplicas | Stage::Waiting { .. } => None,
            },
        }
    }

    /// Holds a capability for later calls on its file, and joins the mark with what is known of its size.
    pub fn hold(&mut self, capability: &Capability, mark: SizeMark) -> Result<(), OutOfMemory>
        ensures ok { OnOk result (self.new ≡
            record self.old {
              state = record self.old.state
                  { held = holds self.old.state.held capability.now mark };
            }) }
        ensures err { OnErr result (self.new ≡ self.old) }
    {
        self.held.hold(capability, mark)
    }

    /// Its first target for a replicated file is this member.
    pub fn aim(&mut self, file: &FileId, node: NodeId) -> Result<(), OutOfMemory>
        ensures ok { OnOk result (self.new ≡
            record self.old {
              state = record self.old.state
                  { replicas = knows self.old.state.replicas file.now (aimed node) };
            }) }
        ensures err { OnErr result (self.new ≡ self.old) }
    {
        self.replicas.aim(file, node)
    }

    /// Its truncate epoch for a file is at least this one.
    pub fn raise(&mut self, file: &FileId, epoch: u64) -> Result<(), OutOfMemory>
        ensures ok { OnOk result (self.new ≡
            record self.old {
              state = record self.old.state
                  { replicas = knows self.old.state.replicas file.now (raised epoch) };
            }) }
        ensures err { OnErr result (self.new ≡ self.old) }
    {
        self.replicas.raise(file, epoch)
    }

    /// Its truncate epoch for a file: the greatest one that it has heard of, and 0 before.
    pub fn epoch(&self, file: &FileId) -> u64
        ensures { result ≡ (known_in self.now.state.replicas.files file.now).epoch }
    {
        self.replicas.epoch(file)
    }

    /// The last call goes on so.
    fn proceed(&mut self, now: u64, comes: Progress) -> Result<Turned, OutOfMemory>
        requires clock { now < 2 ^ 62 }
        requires made { IsSome self.old.state.made }
        ensures row { IfOk result (λ turned.
            CallActs (λ site client made. rows.proceeds site client made comes) now self.old
            self.new turned) }
        ensures err { OnErr result (self.new ≡ self.old) }
    {
        let Progress { learnt, next } = comes;
        let Some(made) = &self.made else {
            unreachable!()
        };
        let turned = given(
            self.alloc,
            &mut self.replicas,
            &mut self.held,
            made,
            &learnt,
            &next,
        )?;
        let deadline = self.replicas.deadline(now);
        self.replicas.pass(now);
        go_on(&mut self.made, next, deadline);
        Ok(turned)
    }

    /// Nothing comes of a reading of the clock, but that it was used.
    fn pass(&mut self, now: u64) -> Turned
        requires { now < 2 ^ 62 }
        ensures { Does (rows.passes self.old.state now) self.old self.new result }
    {
        let clock = self.replicas.clock(now);
        self.replicas.pass(clock);
        quiet(self.alloc)
    }

    /// A call begins where none runs.
    fn begin(&mut self, now: u64, call: &Call) -> Result<Turned, OutOfMemory>
        requires { now < 2 ^ 62 }
        ensures step { IfOk result (λ turned.
            Does (rows.called self.old.node self.old.times self.old.state now call.now) self.old
            self.new turned) }
        ensures err { OnErr result (self.new ≡ self.old) }
    {
        if self.replicas.next() >= COUNTS {
            return Ok(self.pass(now));
        }
        match request_of(self.alloc, &self.held, call)? {
            None => Ok(self.pass(now)),
            Some(request) => self.begin_request(now, call, request),
        }
    }

    /// A call that asks this begins.
    fn begin_request(
        &mut self,
        now: u64,
        call: &Call,
        request: Request,
    ) -> Result<Turned, OutOfMemory>
        requires clock { now < 2 ^ 62 }
        requires left { self.old.state.replicas.next < 2 ^ 62 }
        ensures step { IfOk result (λ turned.
            Does (rows.request_begins self.old.node self.old.times self.old.state now call.now
            request) self.old self.new turned) }
        ensures err { OnErr result (self.new ≡ self.old) }
    {
        let made = MadeCall {
            number: self.replicas.next(),
            stage: first_stage(&self.replicas, now, &request),
            request,
        };
        let turned = start(self.alloc, &mut self.replicas, now, call, &made.request)?;
        put_made(&mut self.made, made);
        Ok(turned)
    }

    /// The last call asks its first node once more.
    #[tactic(auto, unfolding(client_rows::specs::Rows::called_again))]
    fn repeat(&mut self, now: u64) -> Result<Turned, OutOfMemory>
        requires { now < 2 ^ 62 }
        ensures step { IfOk result (λ turned.
            Does (rows.called_again self.old.node self.old.times self.old.state now) self.old
            self.new turned) }
        ensures err { OnErr result (self.new ≡ self.old) }
    {
        let Some(made) = &self.made else {
            return Ok(self.pass(now));
        };
        let stage = first_stage(&self.replicas, now, &made.request);
        let turned = start_again(self.alloc, &mut self.replicas, now, made)?;
        set_stage(&mut self.made, stage);
        Ok(turned)
    }

    /// The last call goes on by an event.
    fn go_on(&mut self, now: u64, ev: &Event) -> Result<Turned, OutOfMemory>
        requires { now < 2 ^ 62 }
        ensures step { IfOk result (λ turned.
            Does (rows.goes_on_with self.old.node self.old.times self.old.state now ev.now
            self.old.state.made)
            self.old self.new turned) }
        ensures err { OnErr result (self.new ≡ self.old) }
    {
        let Some(made) = &self.made else {
            return Ok(self.pass(now));
        };
        match made.stage {
            Stage::OnReplicas => self.step_replicas(now, ev),
            Stage::Waiting { target, deadline } => {
                let clock = self.replicas.clock(now);
                let comes = handle(self.alloc, clock, &self.held, made, target, deadline, ev)?;
                self.proceed(clock, comes)
            }
            Stage::Ended { .. } => Ok(self.pass(now)),
        }
    }

    /// A step of the call on a replicated file that runs.
    fn step_replicas(&mut self, now: u64, ev: &Event) -> Result<Turned, OutOfMemory>
        requires clock { now < 2 ^ 62 }
        requires made { IsSome self.old.state.made }
        ensures step { IfOk result (λ turned.
            Does
            (rows.replicas_step self.old.node self.old.times self.old.state now ev.now)
            self.old self.new turned) }
        ensures err { OnErr result (self.new ≡ self.old) }
    {
        let told = mark_told(ev);
        let turned = self.replicas.step(now, ev)?;
        if let Some(outcome) = self.replicas.take_ended() {
            self.end_replicated(told, outcome);
        }
        Ok(turned)
    }

    /// The call on a replicated file has ended so, and an Ok reported this mark.
    fn end_replicated(&mut self, told: SizeMark, outcome: Outcome)
        requires { IsSome self.old.state.made }
        ensures { self.new ≡
            record self.old
            { state = rows.behind self.old.state self.old.state.made told (Some outcome) } }
    {
        let Some(made) = &self.made else {
            unreachable!()
        };
        let file = file_of(&made.request);
        if let Some(how) = result_of(&mut self.held, file, told, outcome) {
            set_stage(&mut self.made, Stage::Ended { result: how });
        }
    }
}
