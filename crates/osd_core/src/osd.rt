ghost use Rattle.std.specs.Prelude.{◌≡◌, ◌<◌, ◌^◌, List, Ok, IfOk, IfSome, OnErr};
ghost use Rattle.xt_protocol.specs.SeenBodies.{body_by};
ghost use Rattle.object_versions.specs.KeptBodies.{fault_of, ReadsOnly};
ghost use Rattle.xt_protocol.specs.Forgetting.{keep_of, osd_without};
ghost use Rattle.xt_protocol.specs.OsdSteps.{handle_event, osd_from, step_of_osd};
ghost use Rattle.osd_files.specs.Views.{site_at};
ghost use Rattle.xt_messages.specs.Limits.{FitsEvent};
ghost use Rattle.xt_messages.specs.declared.record.Record.{Record};
ghost use Rattle.osd_core.specs.Keys.{FitsKey, sealed_by, stops_by, outside_of};
ghost use Rattle.osd_core.specs.Slots.{AreMet, AreRows, SameFiles, StepsFiles};

use crate::messages::{is_sealed, stops};
use crate::met::MetFiles;
use crate::slots::{forget_all, keep_all, met_from, take, wake};
use flease::{Awake, Silent};
use object_versions::{Bodies, SoughtBodies, StepErr};
use std::alloc::Global;
use std::marker::Model;
use xt_base::{Boot, NodeId, Octets, OutOfMemory, Seq, Times};
use xt_messages::{Event, Folded, Keep, Msg};
use xt_protocol::{Turned, quiet};

/// An OSD. Contracts see its key and its state.
pub struct Osd {
    alloc: Global,
    key: Option<Octets>,
    node: NodeId,
    silent: Silent,
    /// The clock that was used last.
    last: u64,
    met: MetFiles,
}

// A derived drop is part of the code of each function that may drop a value. This one is proved once.
impl Drop for Osd {
    fn drop(self) {
        let Osd {
            alloc: _,
            key: _,
            node: _,
            silent: _,
            last: _,
            met: _,
        } = self;
    }
}

impl Model for Osd {
    ghost use Rattle.osd_core.specs.Views.{OsdView, IsOsd};
    ghost use Rattle.osd_core.specs.Slots.{awake_of, states_of};

    ghost Value = { OsdView };

    ghost view = { λ o.
        record {
          key = o.key;
          state = record {
            started = o.silent;
            last = o.last;
            files = states_of (awake_of o.silent) o.met.slots.entries;
          };
        } };

    ghost invariant = { λ o. IsOsd o.key o.node o.silent o.last o.met };
}

/// An event at a clock, when the silence is over. After an error, since memory ran out or a body couldn't be read, each file is as it
/// was.
fn handle<B: Bodies>(
    alloc: Global,
    key: &Option<Octets>,
    met: &mut MetFiles,
    awake: Awake,
    bodies: &mut B,
    now: u64,
    ev: &Event,
) -> Result<Turned, StepErr>
    requires key { IfSome key.now FitsKey }
    requires met { AreMet awake met.old }
    requires clock { now < 2 ^ 62 }
    requires fits { FitsEvent ev.now }
    ensures step { IfOk result (λ turned. (records : List Record) → B.agrees bodies.new records →
        StepsFiles (λ files. handle_event (site_at awake now (sealed_by key.now) (body_by records))
        awake files ev.now) awake met.old met.new turned) }
    ensures same { OnErr result (SameFiles awake met.old met.new) }
    ensures reads { ReadsOnly B.agrees B.fault_count bodies.old bodies.new (fault_of result) }
{
    match ev {
        Event::Deliver(msg) => {
            let sealed = is_sealed(alloc, key, &msg.payload)?;
            take(alloc, met, awake, bodies, now, sealed, msg)
        }
        Event::Wake => Ok(wake(alloc, met, awake, now)?),
        Event::Call(_) => Ok(quiet(alloc)),
    }
}

impl Osd {
    /// An OSD that starts as this boot at the clock `now`, in milliseconds, from what its records say. A key has 1 to 64 bytes;
    /// without one every tag passes: so it is in a replay, whose capabilities are all its own.
    pub fn start(
        alloc: Global,
        node: NodeId,
        times: Times,
        key: Option<Octets>,
        folded: Folded,
        boot: Boot,
        now: u64,
    ) -> Result<Osd, OutOfMemory>
        requires clock { now < 2 ^ 62 }
        requires key { IfSome key FitsKey }
        requires rows { AreRows folded.files }
        ensures { IfOk result (λ osd. osd ≡
            record {
              key = key;
              state = osd_from (record { node = node; boot = boot; times = times; start = now })
                  folded.files;
            }) }
    {
        Ok(Osd {
            alloc,
            key,
            node,
            silent: Silent::new(times, node, boot, now),
            last: now,
            met: met_from(alloc, folded.files)?,
        })
    }

    /// The step on an event at a reading of the clock, in milliseconds. After an error, since memory ran out or a body couldn't
    /// be read, it is as it was.
    pub fn step<B: Bodies>(
        &mut self,
        bodies: &mut B,
        now: u64,
        ev: &Event,
    ) -> Result<Turned, StepErr>
        requires clock { now < 2 ^ 62 }
        requires fits { FitsEvent ev.now }
        ensures step { IfOk result (λ turned. (records : List Record) → B.agrees bodies.new records →
            step_of_osd (outside_of self.old.key records) self.old.state now ev.now ≡
            record { osd = self.new.state; turned = turned }) }
        ensures key { IfOk result (λ turned. self.new.key ≡ self.old.key) }
        ensures same { OnErr result (self.new ≡ self.old) }
        ensures reads { ReadsOnly B.agrees B.fault_count bodies.old bodies.new (fault_of result) }
    {
        let now = now.max(self.last);
        let Some(awake) = self.silent.awake(now) else {
            return Ok(quiet(self.alloc));
        };
        let turned = handle(self.alloc, &self.key, &mut self.met, awake, bodies, now, ev)?;
        self.last = now;
        Ok(turned)
    }

    /// The held bodies that it needs, file by file, those of a file by object and stamp.
    pub fn keep(&self) -> Result<Keep, OutOfMemory>
        ensures { IfOk result (λ keep. keep ≡ keep_of self.now.state) }
    {
        let mut keep = Seq::new(self.alloc);
        match keep_all(self.alloc, &self.met, &mut keep) {
            Ok(()) => Ok(keep),
            Err(error) => {
                drop(keep);
                Err(error)
            }
        }
    }

    /// Forgets the held bodies that aren't among these. It takes no memory.
    pub fn forget(&mut self, keep: &Keep)
        ensures { self.new ≡ record self.old { state = osd_without keep.now self.old.state } }
    {
        let keep = SoughtBodies::of(keep);
        forget_all(&mut self.met, &keep);
    }

    /// The node.
    pub fn id(&self) -> NodeId
        ensures { result ≡ self.now.state.started.node }
    {
        self.node
    }

    /// Whether a message ends the served OSD: a Stop with the right tag. Without a key no message does.
    pub fn stops(&self, msg: &Msg) -> Result<bool, OutOfMemory>
        ensures { result ≡ Ok (stops_by self.now.key msg.now.payload) }
    {
        stops(&self.key, &msg.payload)
    }
}
