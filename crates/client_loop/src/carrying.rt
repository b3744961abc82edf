ghost use Rattle.std.specs.Prelude.{◌≡◌, ◌≤◌, ◌<◌, ◌^◌, ◌+◌, ◌↔◌, Err, IsSome, IsTrue, true, false, IfOk, IfErr};
ghost use Rattle.xt_messages.specs.Limits.{FitsNode};
ghost use Rattle.xt_messages.specs.declared.event.Event.TheVariants as event;
ghost use Rattle.client_rows.specs.Requests.{is_ready};
ghost use Rattle.client_rows.specs.Rows as rows;
ghost use Rattle.client_limits.specs.Fits.{FitsCall, FitsClient};
ghost use Rattle.client_loop.specs.declared.course.Handed.TheVariants as handed_to;
ghost use Rattle.client_loop.specs.Listening.{HasDriveCause};
ghost use Rattle.client_loop.specs.Carrying.{FitsHanded, HasHanded, HasNotHanded, HasCalled, CannotCall, HasMoved, HasNotMoved, Nears, RestsRightly, is_over, HasCarried, CannotCarry};

use crate::course::{Course, Handed};
use crate::driver::Driver;
use crate::errors::{DriveErr, read};
use crate::giving::{give, make};
use client_core::Client;
use node_links::{Clock, Link};
use xt_base::COUNTS;
use xt_messages::Call;

impl Driver {
    /// Carries out a call: makes it, hands the client each message that comes and a Wake each eighth of a lease, and sends what it
    /// gives, until it has a result. A call that ends as one that may be made again is made again, half a lease later, until so
    /// many tries were made. `NumbersSpent` exactly where the client has no number left.
    pub fn carry_out<L: Link, C: Clock>(
        &mut self,
        client: &mut Client,
        call: &Call,
        tries: u32,
        link: &mut L,
        clock: &mut C,
    ) -> Result<(), DriveErr>
        requires idle { rows.is_busy client.old.state.made ≡ false }
        requires held { IsTrue (is_ready client.old.state.held call.now) }
        requires node { FitsNode client.old.node }
        requires fits { FitsClient client.old.state }
        requires call { FitsCall call.now }
        ensures same { (self.new.times ≡ self.old.times)
            × (self.new.sender.node ≡ self.old.sender.node)
            × (self.new.sender.boot ≡ self.old.sender.boot)
            × (self.new.listener.node ≡ self.old.listener.node)
            × (self.new.listener.turns ≡ self.old.listener.turns) }
        ensures client { (client.new.node ≡ client.old.node) × (client.new.times ≡ client.old.times)
            × FitsClient client.new.state }
        ensures carried { IfOk result (λ done. HasCarried
            (record { driver = self.old; client = client.old; call = call.now; tries = tries })
            (record {
              to_come = L.given link.old;
              sent = L.sent link.old;
              losses = L.loss_count link.old;
              to_read = C.readings clock.old;
            })
            (record {
              to_come = L.given link.new;
              sent = L.sent link.new;
              losses = L.loss_count link.new;
              to_read = C.readings clock.new;
            })
            self.new client.new) }
        ensures result { IfOk result (λ done. IsSome (rows.result_in client.new.state.made)) }
        ensures cannot { IfErr result (CannotCarry
            (record { driver = self.old; client = client.old; call = call.now; tries = tries })
            (record {
              to_come = L.given link.old;
              sent = L.sent link.old;
              losses = L.loss_count link.old;
              to_read = C.readings clock.old;
            })
            (record {
              to_come = L.given link.new;
              sent = L.sent link.new;
              losses = L.loss_count link.new;
              to_read = C.readings clock.new;
            })
            self.new client.new) }
        ensures numbers { (result ≡ Err DriveErr.NumbersSpent)
            ↔ (2 ^ 62 ≤ client.old.state.replicas.next) }
        ensures cause { IfErr result (HasDriveCause (L.fault_count link.old) (L.fault_count link.new)
            (C.fault_count clock.old) (C.fault_count clock.new)) }
        ensures faults { IfOk result (λ done. (L.fault_count link.new ≡ L.fault_count link.old)
            × (C.fault_count clock.new ≡ C.fault_count clock.old)) }
    {
        if client.next() >= COUNTS {
            return Err(DriveErr::NumbersSpent);
        }
        // the turns that were taken are within those that may be
        let _ = &self.listener;
        let mut course = match self.call(client, call, tries, link, clock) {
            Ok(course) => course,
            Err(error) => return Err(error),
        };
        // each move takes a turn, moves the next Wake on or begins a try: so the moves end
        for _ in 0..u64::MAX {
            if course.is_over(client) {
                return Ok(());
            }
            match self.advance(client, course, link, clock) {
                Ok(next) => course = next,
                Err(error) => return Err(error),
            }
        }
        unreachable!()
    }

    /// Makes the call, and sends what the client gives.
    fn call<L: Link, C: Clock>(
        &mut self,
        client: &mut Client,
        call: &Call,
        tries: u32,
        link: &mut L,
        clock: &mut C,
    ) -> Result<Course, DriveErr>
        requires idle { rows.is_busy client.old.state.made ≡ false }
        requires held { IsTrue (is_ready client.old.state.held call.now) }
        requires node { FitsNode client.old.node }
        requires fits { FitsClient client.old.state }
        requires call { FitsCall call.now }
        ensures same { (self.new.times ≡ self.old.times)
            × (self.new.sender.node ≡ self.old.sender.node)
            × (self.new.sender.boot ≡ self.old.sender.boot)
            × (self.new.listener ≡ self.old.listener) }
        ensures given { L.given link.new ≡ L.given link.old }
        ensures client { (client.new.node ≡ client.old.node) × (client.new.times ≡ client.old.times)
            × FitsClient client.new.state }
        ensures called { IfOk result (λ next. HasCalled
            (record { driver = self.old; client = client.old; call = call.now; tries = tries })
            (record {
              to_come = L.given link.old;
              sent = L.sent link.old;
              losses = L.loss_count link.old;
              to_read = C.readings clock.old;
            })
            (record {
              to_come = L.given link.new;
              sent = L.sent link.new;
              losses = L.loss_count link.new;
              to_read = C.readings clock.new;
            })
            (record { driver = self.new; client = client.new; course = next })) }
        ensures within { IfOk result (λ next. next.due < 2 ^ 62 + 2 ^ 40) }
        ensures not { IfErr result (CannotCall
            (record { driver = self.old; client = client.old; call = call.now; tries = tries })
            (record {
              to_come = L.given link.old;
              sent = L.sent link.old;
              losses = L.loss_count link.old;
              to_read = C.readings clock.old;
            })
            (record {
              to_come = L.given link.new;
              sent = L.sent link.new;
              losses = L.loss_count link.new;
              to_read = C.readings clock.new;
            })
            self.new client.new) }
        ensures cause { IfErr result (HasDriveCause (L.fault_count link.old) (L.fault_count link.new)
            (C.fault_count clock.old) (C.fault_count clock.new)) }
        ensures faults { IfOk result (λ done. (L.fault_count link.new ≡ L.fault_count link.old)
            × (C.fault_count clock.new ≡ C.fault_count clock.old)) }
    {
        let times = self.times();
        let now = match read(clock) {
            Ok(now) => now,
            Err(error) => return Err(error),
        };
        let outs = match make(client, call, now) {
            Ok(outs) => outs,
            Err(error) => return Err(error),
        };
        if self.send_all(outs.as_slice(), link).is_err() {
            return Err(DriveErr::OutOfMemory);
        }
        Ok(Course::of_call(&times, now, tries).settled(&times, now, client.may_repeat()))
    }

    /// Hands something to the client at a further reading of the clock, and sends what it gives.
    fn hand_over<L: Link, C: Clock>(
        &mut self,
        client: &mut Client,
        handed: &Handed,
        course: Course,
        link: &mut L,
        clock: &mut C,
    ) -> Result<Course, DriveErr>
        requires node { FitsNode client.old.node }
        requires fits { FitsClient client.old.state }
        requires handed { FitsHanded handed.now }
        requires again { handed.now ≡ handed_to.Again →
            rows.may_repeat client.old.state.made ≡ true }
        ensures same { (self.new.times ≡ self.old.times)
            × (self.new.sender.node ≡ self.old.sender.node)
            × (self.new.sender.boot ≡ self.old.sender.boot)
            × (self.new.listener ≡ self.old.listener) }
        ensures given { L.given link.new ≡ L.given link.old }
        ensures client { (client.new.node ≡ client.old.node) × (client.new.times ≡ client.old.times)
            × FitsClient client.new.state }
        ensures handed { IfOk result (λ next. HasHanded
            (record { driver = self.old; client = client.old; course = course })
            handed.now
            (record {
              to_come = L.given link.old;
              sent = L.sent link.old;
              losses = L.loss_count link.old;
              to_read = C.readings clock.old;
            })
            (record {
              to_come = L.given link.new;
              sent = L.sent link.new;
              losses = L.loss_count link.new;
              to_read = C.readings clock.new;
            })
            (record { driver = self.new; client = client.new; course = next })) }
        ensures wakes { IfOk result (λ next. handed.now ≡ handed_to.Event event.Wake →
            course.due < 2 ^ 62 → (course.due < next.due) × (next.due < 2 ^ 62 + 2 ^ 40)) }
        ensures not { IfErr result (HasNotHanded
            (record { driver = self.old; client = client.old; course = course })
            handed.now
            (record {
              to_come = L.given link.old;
              sent = L.sent link.old;
              losses = L.loss_count link.old;
              to_read = C.readings clock.old;
            })
            (record {
              to_come = L.given link.new;
              sent = L.sent link.new;
              losses = L.loss_count link.new;
              to_read = C.readings clock.new;
            })
            client.new) }
        ensures cause { IfErr result (HasDriveCause (L.fault_count link.old) (L.fault_count link.new)
            (C.fault_count clock.old) (C.fault_count clock.new)) }
        ensures faults { IfOk result (λ done. (L.fault_count link.new ≡ L.fault_count link.old)
            × (C.fault_count clock.new ≡ C.fault_count clock.old)) }
    {
        let times = self.times();
        let now = match read(clock) {
            Ok(now) => now,
            Err(error) => return Err(error),
        };
        let outs = match give(client, handed, now) {
            Ok(outs) => outs,
            Err(error) => return Err(error),
        };
        if self.send_all(outs.as_slice(), link).is_err() {
            return Err(DriveErr::OutOfMemory);
        }
        let course = course.after(&times, now, handed);
        Ok(course.settled(&times, now, client.may_repeat()))
    }

    /// A move: a look, and what it brings is handed to the client.
    fn advance<L: Link, C: Clock>(
        &mut self,
        client: &mut Client,
        course: Course,
        link: &mut L,
        clock: &mut C,
    ) -> Result<Course, DriveErr>
        requires node { FitsNode client.old.node }
        requires fits { FitsClient client.old.state }
        requires goes_on { is_over (record {
          driver = self.old;
          client = client.old;
          course = course;
        }) ≡ false }
        requires rests { RestsRightly course client.old }
        requires within { course.due < 2 ^ 62 + 2 ^ 40 }
        ensures same { (self.new.times ≡ self.old.times)
            × (self.new.sender.node ≡ self.old.sender.node)
            × (self.new.sender.boot ≡ self.old.sender.boot)
            × (self.new.listener.node ≡ self.old.listener.node)
            × (self.new.listener.turns ≡ self.old.listener.turns) }
        ensures client { (client.new.node ≡ client.old.node) × (client.new.times ≡ client.old.times)
            × FitsClient client.new.state }
        ensures moved { IfOk result (λ next. HasMoved
            (record { driver = self.old; client = client.old; course = course })
            (record {
              to_come = L.given link.old;
              sent = L.sent link.old;
              losses = L.loss_count link.old;
              to_read = C.readings clock.old;
            })
            (record {
              to_come = L.given link.new;
              sent = L.sent link.new;
              losses = L.loss_count link.new;
              to_read = C.readings clock.new;
            })
            (record { driver = self.new; client = client.new; course = next })) }
        ensures nears { IfOk result (λ next. Nears self.old.listener.spent course
            self.new.listener.spent next) }
        ensures rests { IfOk result (λ next. RestsRightly next client.new) }
        ensures turns { (self.new.listener.spent ≤ self.new.listener.turns)
            × (self.new.listener.turns < 2 ^ 62) }
        ensures not { IfErr result (HasNotMoved
            (record { driver = self.old; client = client.old; course = course })
            (record {
              to_come = L.given link.old;
              sent = L.sent link.old;
              losses = L.loss_count link.old;
              to_read = C.readings clock.old;
            })
            (record {
              to_come = L.given link.new;
              sent = L.sent link.new;
              losses = L.loss_count link.new;
              to_read = C.readings clock.new;
            })
            client.new) }
        ensures cause { IfErr result (HasDriveCause (L.fault_count link.old) (L.fault_count link.new)
            (C.fault_count clock.old) (C.fault_count clock.new)) }
        ensures faults { IfOk result (λ done. (L.fault_count link.new ≡ L.fault_count link.old)
            × (C.fault_count clock.new ≡ C.fault_count clock.old)) }
    {
        match self.look(course.stop(), link, clock) {
            Err(error) => Err(error),
            Ok(listened) => match course.brings(listened) {
                None => Ok(course),
                Some(handed) => self.hand_over(client, &handed, course, link, clock),
            },
        }
    }
}
