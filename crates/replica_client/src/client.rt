ghost use Rattle.std.specs.Prelude.{◌≡◌, ◌<◌, ◌+◌, ◌^◌, ◌∷◌, [], Some, None, IsSome, is_some, IfOk, OnOk, OnErr, max};
ghost use Rattle.client_rows.specs.declared.RunningCall.{RunningCall};
ghost use Rattle.client_rows.specs.declared.ClientState.{ClientState};
ghost use Rattle.client_rows.specs.Steps.{stays};
ghost use Rattle.client_rows.specs.Clients as rows;
ghost use Rattle.xt_protocol.specs.Turns as turns;
ghost use Rattle.xt_messages.specs.declared.event.Mark.TheVariants as mark;
ghost use Rattle.replica_client.specs.Views.{Acts, CallActs};
ghost use Rattle.client_rows.specs.Ends.{ended_by};
ghost use Rattle.client_rows.specs.Again.{asks_first, again_of_client};

use crate::asking::{asks, begins, ends, first_target, gives, run, turn_to};
use crate::known::{KnownFiles, aimed, raised};
use client_members::{answers_in, next_target, was_tried, with_outcome};
use client_rows::{KnownFile, RunningCall, Tried};
use std::alloc::Global;
use std::marker::Model;
use std::mem;
use xt_base::{COUNTS, Copies, FileId, NodeId, Octets, OutOfMemory, Seq, Times};
use xt_messages::{
    AskRefusal, Call, Capability, Event, Marks, Msgs, Op, Outcome, Payload, Reply, Retry,
};
use xt_protocol::{Turned, one, quiet, sends};

/// A client's calls on replicated files, one at a time. Contracts see which node it is, its times and its state, and how the call
/// that ended last ended, until that is taken.
pub struct ReplicaClient {
    alloc: Global,
    node: NodeId,
    times: Times,
    last: u64,
    next: u64,
    running: Option<RunningCall>,
    files: KnownFiles,
    ended: Option<Outcome>,
}

// A derived drop is part of the code of each function that may drop a value. This one is proved once.
impl Drop for ReplicaClient {
    fn drop(self) {
        let ReplicaClient {
            alloc: _,
            node: _,
            times: _,
            last: _,
            next: _,
            running: _,
            files: _,
            ended: _,
        } = self;
    }
}

impl Model for ReplicaClient {
    ghost use Rattle.std.specs.Prelude.{◌<◌, ◌^◌};
    ghost use Rattle.replica_client.specs.Views.{ClientView};

    ghost Value = { ClientView };

    ghost view = { λ c. record {
      node = c.node;
      times = c.times;
      state = record { last = c.last; next = c.next; running = c.running; files = c.files };
      ended = c.ended;
    } };

    ghost invariant = { λ c. c.last < 2 ^ 62 };
}

/// A call is marked as ended, and this is known of a file from now on.
fn ends_knowing(
    alloc: Global,
    files: &mut KnownFiles,
    file: FileId,
    number: u64,
    known: KnownFile,
    outcome: &Outcome,
) -> Result<Marks, OutOfMemory>
    ensures marks { IfOk result (λ marks. marks ≡ mark.Done number outcome.now ∷ []) }
    ensures known { OnOk result (files.new ≡ rows.with_known files.old file known) }
    ensures err { OnErr result (files.new ≡ files.old) }
{
    let marks = ends(alloc, number, outcome)?;
    files.put(file, known)?;
    Ok(marks)
}

impl ReplicaClient {
    /// A client that has made no call: the number of its first one, and what its clock reads.
    pub fn new(alloc: Global, node: NodeId, times: Times, first: u64, now: u64) -> ReplicaClient
        requires { now < 2 ^ 62 }
        ensures { result ≡
            record {
              node = node;
              times = times;
              state = record { last = now; next = first; running = None; files = [] };
              ended = None;
            } }
    {
        ReplicaClient {
            alloc,
            node,
            times,
            last: now,
            next: first,
            running: None,
            files: KnownFiles::new(alloc),
            ended: None,
        }
    }

    /// Makes a call under a capability; what it does to the file is `op`. It is marked, and asks its first target. Without a
    /// number left nothing comes of it. It takes the place of a call that runs, so make one where none does.
    pub fn call(
        &mut self,
        now: u64,
        capability: Capability,
        call: &Call,
        op: Op,
    ) -> Result<Turned, OutOfMemory>
        requires { now < 2 ^ 62 }
        ensures step { IfOk result (λ turned.
            rows.call_of_client self.old.node self.old.times self.old.state now capability call.now
            op
            ≡ record { state = self.new.state; turned = turned }) }
        ensures same { IfOk result (λ turned. (self.new.node ≡ self.old.node)
            × (self.new.times ≡ self.old.times)) }
        ensures ended { IfOk result (λ turned. self.new.ended ≡ self.old.ended) }
        ensures err { OnErr result (self.new ≡ self.old) }
    {
        let now = now.max(self.last);
        if self.next >= COUNTS {
            return Ok(self.stay(now));
        }
        self.begin(now, capability, call, op)
    }

    /// A call that has ended is made again, under the number that it had: it asks its first target, as one that has asked nobody.
    /// It takes the place of a call that runs, so make one where none does.
    pub fn again(
        &mut self,
        now: u64,
        number: u64,
        capability: Capability,
        op: Op,
    ) -> Result<Turned, OutOfMemory>
        requires { now < 2 ^ 62 }
        ensures step { IfOk result (λ turned.
            again_of_client self.old.node self.old.times self.old.state now number capability op
            ≡ record { state = self.new.state; turned = turned }) }
        ensures same { IfOk result (λ turned.
            (self.new.node ≡ self.old.node) × (self.new.times ≡ self.old.times)) }
        ensures ended { IfOk result (λ turned. self.new.ended ≡ self.old.ended) }
        ensures err { OnErr result (self.new ≡ self.old) }
    {
        let now = now.max(self.last);
        let outs = self.ask_first(now, number, capability, op)?;
        Ok(sends(self.alloc, outs))
    }

    /// The step on an event at a reading of the clock.
    pub fn step(&mut self, now: u64, ev: &Event) -> Result<Turned, OutOfMemory>
        requires { now < 2 ^ 62 }
        ensures step { IfOk result (λ turned.
            rows.step_of_client self.old.node self.old.times self.old.state now ev.now
            ≡ record { state = self.new.state; turned = turned }) }
        ensures same { IfOk result (λ turned. (self.new.node ≡ self.old.node)
            × (self.new.times ≡ self.old.times)) }
        ensures ended { IfOk result (λ turned. self.new.ended ≡
            ended_by self.old.ended turned.marks) }
        ensures err { OnErr result (self.new ≡ self.old) }
    {
        let now = now.max(self.last);
        self.handle(now, ev)
    }

    /// Its truncate epoch for a file is at least this one.
    pub fn raise(&mut self, file: &FileId, epoch: u64) -> Result<(), OutOfMemory>
        ensures ok { OnOk result (self.new ≡
            record self.old { state = rows.knows self.old.state file.now (rows.raised epoch) }) }
        ensures err { OnErr result (self.new ≡ self.old) }
    {
        let known = raised(self.files.file(file), epoch);
        self.files.put(*file, known)
    }

    /// Its first target for a file is this member.
    pub fn aim(&mut self, file: &FileId, node: NodeId) -> Result<(), OutOfMemory>
        ensures ok { OnOk result (self.new ≡
            record self.old { state = rows.knows self.old.state file.now (rows.aimed node) }) }
        ensures err { OnErr result (self.new ≡ self.old) }
    {
        let known = aimed(self.files.file(file), node);
        self.files.put(*file, known)
    }

    /// Its truncate epoch for a file.
    pub fn epoch(&self, file: &FileId) -> u64
        ensures { result ≡ (rows.known_in self.now.state.files file.now).epoch }
    {
        self.files.file(file).epoch
    }

    /// How the call that ended last ended, unless that was taken before.
    pub fn take_ended(&mut self) -> Option<Outcome>
        ensures told { result ≡ self.old.ended }
        ensures taken { self.new ≡ record self.old { ended = None } }
    {
        self.ended.take()
    }

    /// The clock that it goes by at a reading: the greater of that and the one that it used last.
    pub fn clock(&self, now: u64) -> u64
        requires { now < 2 ^ 62 }
        ensures greater { result ≡ max now self.now.state.last }
        ensures bound { result < 2 ^ 62 }
    {
        now.max(self.last)
    }

    /// Until when a node that is asked at this clock may answer.
    pub fn deadline(&self, now: u64) -> u64
        requires { now < 2 ^ 62 }
        ensures { result ≡ now + self.now.times.lease }
    {
        now + self.times.lease()
    }

    /// Which node it is.
    pub fn node(&self) -> NodeId
        ensures { result ≡ self.now.node }
    {
        self.node
    }

    /// It has used this clock.
    pub fn pass(&mut self, now: u64)
        requires { now < 2 ^ 62 }
        ensures { self.new ≡ record self.old { state = record self.old.state { last = now } } }
    {
        self.last = now;
    }

    /// Takes a number for a call that isn't on a replicated file.
    pub fn take_number(&mut self) -> u64
        requires { self.old.state.next < 2 ^ 62 }
        ensures number { result ≡ self.old.state.next }
        ensures taken { self.new ≡
            record self.old { state = record self.old.state { next = self.old.state.next + 1 } } }
    {
        let number = self.next;
        self.next += 1;
        number
    }

    /// Whether a call runs.
    pub fn is_busy(&self) -> bool
        ensures { result ≡ is_some self.now.state.running }
    {
        self.running.is_some()
    }

    /// The number of its next call. From 2^62 on it makes none.
    pub fn next(&self) -> u64
        ensures { result ≡ self.now.state.next }
    {
        self.next
    }

    /// Nothing comes of an event.
    fn stay(&mut self, now: u64) -> Turned
        requires { now < 2 ^ 62 }
        ensures { Acts (λ site client. stays ClientState client) now self.old self.new result }
    {
        self.last = now;
        quiet(self.alloc)
    }

    /// The call that runs.
    fn running(&self) -> &RunningCall
        requires { IsSome self.now.state.running }
        ensures { self.now.state.running ≡ Some result.now }
    {
        let Some(call) = &self.running else {
            unreachable!()
        };
        call
    }

    /// A call takes the next number, is marked, and asks its first target.
    fn begin(
        &mut self,
        now: u64,
        capability: Capability,
        call: &Call,
        op: Op,
    ) -> Result<Turned, OutOfMemory>
        requires clock { now < 2 ^ 62 }
        requires left { self.old.state.next < 2 ^ 62 }
        ensures row { IfOk result (λ turned.
            Acts (λ site client. rows.begins_call site client capability call.now op) now self.old
            self.new turned) }
        ensures err { OnErr result (self.new ≡ self.old) }
    {
        let number = self.next;
        let marks = begins(self.alloc, number, call)?;
        match self.ask_first(now, number, capability, op) {
            Ok(outs) => {
                self.next = number + 1;
                Ok(gives(outs, marks))
            }
            Err(error) => {
                // by a call, so that it is no part of the way out
                drop(marks);
                Err(error)
            }
        }
    }

    /// A call of this number asks its first target, as one that has asked nobody: what it sends.
    fn ask_first(
        &mut self,
        now: u64,
        number: u64,
        capability: Capability,
        op: Op,
    ) -> Result<Msgs, OutOfMemory>
        requires { now < 2 ^ 62 }
        ensures row { IfOk result (λ outs.
            Acts (λ site client. asks_first site client number capability op) now self.old self.new
            (turns.sends outs)) }
        ensures err { OnErr result (self.new ≡ self.old) }
    {
        let known = self.files.file(&capability.file);
        let target = first_target(&capability.location.members, known.target);
        let tried = one(
            self.alloc,
            Tried {
                node: target,
                outcome: None,
            },
        )?;
        let outs = asks(self.alloc, self.node, target, number, &capability, &op)?;
        self.last = now;
        let deadline = now + self.times.lease();
        run(
            &mut self.running,
            RunningCall {
                number,
                capability,
                op,
                target,
                deadline,
                tried,
            },
        );
        Ok(outs)
    }

    /// An event is handled.
    fn handle(&mut self, now: u64, ev: &Event) -> Result<Turned, OutOfMemory>
        requires { now < 2 ^ 62 }
        ensures row { IfOk result (λ turned.
            Acts (λ site client. rows.event_comes site client ev.now) now self.old self.new
            turned) }
        ensures err { OnErr result (self.new ≡ self.old) }
    {
        match ev {
            Event::Deliver(msg) => self.hear(now, msg.from, &msg.payload),
            Event::Wake => self.wake(now),
            Event::Call(_) => Ok(self.stay(now)),
        }
    }

    /// A message comes. Replies alone count.
    fn hear(&mut self, now: u64, from: NodeId, payload: &Payload) -> Result<Turned, OutOfMemory>
        requires { now < 2 ^ 62 }
        ensures row { IfOk result (λ turned.
            Acts (λ site client. rows.message_comes site client from payload.now) now self.old
            self.new turned) }
        ensures err { OnErr result (self.new ≡ self.old) }
    {
        let Payload::Reply { number, reply, .. } = payload else {
            return Ok(self.stay(now));
        };
        self.hear_reply(now, from, *number, reply)
    }

    /// A reply counts where it is to the running call, from a member that was asked.
    fn hear_reply(
        &mut self,
        now: u64,
        from: NodeId,
        number: u64,
        reply: &Reply,
    ) -> Result<Turned, OutOfMemory>
        requires { now < 2 ^ 62 }
        ensures row { IfOk result (λ turned.
            Acts (λ site client. rows.reply_comes site client client.running from number reply.now)
            now self.old self.new turned) }
        ensures err { OnErr result (self.new ≡ self.old) }
    {
        let Some(call) = &self.running else {
            return Ok(self.stay(now));
        };
        if number == call.number && was_tried(call.tried.as_slice(), from) {
            return self.take_reply(now, from, reply);
        }
        Ok(self.stay(now))
    }

    /// Some time has passed: a target whose deadline has come is silent.
    fn wake(&mut self, now: u64) -> Result<Turned, OutOfMemory>
        requires { now < 2 ^ 62 }
        ensures row { IfOk result (λ turned.
            Acts (λ site client. rows.wakes site client client.running) now self.old self.new
            turned) }
        ensures err { OnErr result (self.new ≡ self.old) }
    {
        let Some(call) = &self.running else {
            return Ok(self.stay(now));
        };
        if call.deadline <= now {
            return self.turn_away(now, Retry::Silent);
        }
        Ok(self.stay(now))
    }

    /// The reply of a member that was asked ends the call, or turns it away.
    fn take_reply(&mut self, now: u64, from: NodeId, reply: &Reply) -> Result<Turned, OutOfMemory>
        requires clock { now < 2 ^ 62 }
        requires runs { IsSome self.old.state.running }
        ensures row { IfOk result (λ turned.
            CallActs (λ site client call. rows.answered site client call from reply.now) now
            self.old self.new turned) }
        ensures err { OnErr result (self.new ≡ self.old) }
    {
        match reply {
            Reply::Ok { count, bytes, .. } => self.serve(now, from, *count, bytes),
            Reply::NoLease { end } => self.turn_away_by(now, from, Retry::NoLease { end: *end }),
            Reply::NoMajority { have, need } => {
                let how = Retry::NoMajority {
                    have: *have,
                    need: *need,
                };
                self.turn_away_by(now, from, how)
            }
            Reply::Elsewhere { node, end } => {
                let how = Retry::Elsewhere {
                    node: *node,
                    end: *end,
                };
                self.turn_away_by(now, from, how)
            }
            Reply::Denied { rule } => self.refuse(now, AskRefusal::Denied { rule: *rule }),
            Reply::OldList { version } => self.refuse(
                now,
                AskRefusal::OldList { version: *version },
            ),
            Reply::OldEpoch { epoch } => self.refuse_epoch(now, *epoch),
            Reply::TooFar { object } => self.refuse(now, AskRefusal::TooFar { object: *object }),
            Reply::ClientsFull => self.refuse(now, AskRefusal::ClientsFull),
        }
    }

    /// The call was served. The member that served it is kept as the first target.
    fn serve(
        &mut self,
        now: u64,
        from: NodeId,
        count: u64,
        bytes: &Octets,
    ) -> Result<Turned, OutOfMemory>
        requires clock { now < 2 ^ 62 }
        requires runs { IsSome self.old.state.running }
        ensures row { IfOk result (λ turned.
            CallActs (λ site client call.
            rows.ends_call (rows.knows client call.capability.file (rows.aimed from)) call
            (Outcome.Ok count bytes.now))
            now self.old self.new turned) }
        ensures err { OnErr result (self.new ≡ self.old) }
    {
        let file = self.running().capability.file;
        let known = aimed(self.files.file(&file), from);
        let bytes = bytes.copy(self.alloc)?;
        self.end_knowing(now, known, Outcome::Ok { count, bytes })
    }

    /// The call is refused.
    fn refuse(&mut self, now: u64, refusal: AskRefusal) -> Result<Turned, OutOfMemory>
        requires clock { now < 2 ^ 62 }
        requires runs { IsSome self.old.state.running }
        ensures row { IfOk result (λ turned.
            CallActs (λ site client call. rows.ends_call client call (Outcome.Refused refusal)) now
            self.old self.new turned) }
        ensures err { OnErr result (self.new ≡ self.old) }
    {
        self.end(now, Outcome::Refused { refusal })
    }

    /// The call is refused for its truncate epoch. The file's is at least the reported one.
    fn refuse_epoch(&mut self, now: u64, epoch: u64) -> Result<Turned, OutOfMemory>
        requires clock { now < 2 ^ 62 }
        requires runs { IsSome self.old.state.running }
        ensures row { IfOk result (λ turned.
            CallActs (λ site client call.
            rows.ends_call (rows.knows client call.capability.file (rows.raised epoch)) call
            (Outcome.Refused (AskRefusal.OldEpoch epoch)))
            now self.old self.new turned) }
        ensures err { OnErr result (self.new ≡ self.old) }
    {
        let file = self.running().capability.file;
        let known = raised(self.files.file(&file), epoch);
        let refusal = AskRefusal::OldEpoch { epoch };
        self.end_knowing(now, known, Outcome::Refused { refusal })
    }

    /// The present target turns the call away; other members do nothing.
    fn turn_away_by(&mut self, now: u64, from: NodeId, how: Retry) -> Result<Turned, OutOfMemory>
        requires clock { now < 2 ^ 62 }
        requires runs { IsSome self.old.state.running }
        ensures row { IfOk result (λ turned.
            CallActs (λ site client call. rows.turned_away_by site client call from how) now
            self.old self.new turned) }
        ensures err { OnErr result (self.new ≡ self.old) }
    {
        let target = self.running().target;
        if from.0 != target.0 {
            return Ok(self.stay(now));
        }
        self.turn_away(now, how)
    }

    /// The present target has this outcome: the next member is asked, and with none left the call ends.
    fn turn_away(&mut self, now: u64, how: Retry) -> Result<Turned, OutOfMemory>
        requires clock { now < 2 ^ 62 }
        requires runs { IsSome self.old.state.running }
        ensures row { IfOk result (λ turned.
            CallActs (λ site client call. rows.turned_away site client call how) now self.old
            self.new turned) }
        ensures err { OnErr result (self.new ≡ self.old) }
    {
        let call = self.running();
        let members = call.capability.location.members;
        let tried = with_outcome(self.alloc, call.tried.as_slice(), call.target, &how)?;
        match next_target(tried.as_slice(), &members, &how) {
            Some(target) => self.ask(now, target, tried),
            None => self.give_up(now, &tried),
        }
    }

    /// The call asks this member, after those that were tried.
    fn ask(
        &mut self,
        now: u64,
        target: NodeId,
        mut tried: Seq<Tried>,
    ) -> Result<Turned, OutOfMemory>
        requires clock { now < 2 ^ 62 }
        requires runs { IsSome self.old.state.running }
        ensures row { IfOk result (λ turned.
            CallActs (λ site client call.
            rows.asks site client (record call { tried = tried }) target) now self.old self.new
            turned) }
        ensures err { OnErr result (self.new ≡ self.old) }
    {
        tried.push(Tried {
            node: target,
            outcome: None,
        })?;
        let call = self.running();
        let outs = asks(
            self.alloc,
            self.node,
            target,
            call.number,
            &call.capability,
            &call.op,
        )?;
        let deadline = now + self.times.lease();
        turn_to(&mut self.running, target, deadline, tried);
        self.last = now;
        Ok(sends(self.alloc, outs))
    }

    /// Each member was tried: the call ends, and may be made again.
    fn give_up(&mut self, now: u64, tried: &Seq<Tried>) -> Result<Turned, OutOfMemory>
        requires clock { now < 2 ^ 62 }
        requires runs { IsSome self.old.state.running }
        ensures row { IfOk result (λ turned.
            CallActs (λ site client call.
            rows.ends_call client call
            (Outcome.Retry (rows.answers_in tried.now call.capability.location.members)))
            now self.old self.new turned) }
        ensures err { OnErr result (self.new ≡ self.old) }
    {
        let members = self.running().capability.location.members;
        let answers = answers_in(self.alloc, tried.as_slice(), members.as_slice())?;
        self.end(now, Outcome::Retry { answers })
    }

    /// The call ends so.
    fn end(&mut self, now: u64, outcome: Outcome) -> Result<Turned, OutOfMemory>
        requires clock { now < 2 ^ 62 }
        requires runs { IsSome self.old.state.running }
        ensures row { IfOk result (λ turned.
            CallActs (λ site client call. rows.ends_call client call outcome) now self.old self.new
            turned) }
        ensures err { OnErr result (self.new ≡ self.old) }
    {
        let number = self.running().number;
        match ends(self.alloc, number, &outcome) {
            Ok(marks) => Ok(self.over(now, outcome, marks)),
            Err(error) => {
                // by a call, so that it is no part of the way out
                drop(outcome);
                Err(error)
            }
        }
    }

    /// The call ends so, and this is known of its file from now on.
    fn end_knowing(
        &mut self,
        now: u64,
        known: KnownFile,
        outcome: Outcome,
    ) -> Result<Turned, OutOfMemory>
        requires clock { now < 2 ^ 62 }
        requires runs { IsSome self.old.state.running }
        ensures row { IfOk result (λ turned.
            CallActs (λ site client call.
            rows.ends_call
            (record client { files = rows.with_known client.files call.capability.file known }) call
            outcome)
            now self.old self.new turned) }
        ensures err { OnErr result (self.new ≡ self.old) }
    {
        let running = self.running();
        let (file, number) = (running.capability.file, running.number);
        match ends_knowing(self.alloc, &mut self.files, file, number, known, &outcome) {
            Ok(marks) => Ok(self.over(now, outcome, marks)),
            Err(error) => {
                // by a call, so that it is no part of the way out
                drop(outcome);
                Err(error)
            }
        }
    }

    /// The call that ran has ended so, and these marks report it.
    fn over(&mut self, now: u64, ended: Outcome, marks: Marks) -> Turned
        requires { now < 2 ^ 62 }
        ensures told { result ≡ record { rec = None; outs = []; marks = marks } }
        ensures state { self.new ≡ record self.old {
          state = record self.old.state { last = now; running = None };
          ended = Some ended;
        } }
    {
        drop(self.running.take());
        drop(mem::replace(&mut self.ended, Some(ended)));
        self.last = now;
        gives(Seq::new(self.alloc), marks)
    }
}
