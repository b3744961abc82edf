ghost use Rattle.std.specs.Prelude.{◌≡◌, ◌≤◌, ◌<◌, ◌^◌, ◌+◌, ◌-◌, ◌/◌, ◌&&◌, not, is_some, None};
ghost use Rattle.xt_messages.specs.declared.event.Event.TheVariants as event;
ghost use Rattle.client_rows.specs.Rows as rows;
ghost use Rattle.client_loop.specs.declared.course.Handed.TheVariants as handed_to;
ghost use Rattle.client_loop.specs.Carrying.{period_of, or_end_of, stop_of, has_rested, late_by, handed_by, course_after, settled};
ghost use Rattle.node_runs.specs.Runs.{next_due};

use crate::listening::Listened;
use client_core::Client;
use xt_base::Times;
use xt_messages::Event;

/// How far a call is that is carried out.
#[derive(Clone, Copy)]
pub struct Course {
    /// When the next Wake is due.
    pub due: u64,
    /// How many tries are left after this one, or after the next one in a rest.
    pub left: u32,
    /// In a rest between two tries, until when it lasts.
    pub rest: Option<u64>,
}

/// What is handed to a client.
#[derive(Drop)]
pub enum Handed {
    Event { event: Event },
    /// Its last call, to be made again.
    Again,
}

/// How many milliseconds lie between two Wakes.
fn period_of(times: &Times) -> u64
    ensures value { result ≡ period_of times.now }
    ensures limit { (1 ≤ result) × (result < 2 ^ 40) }
{
    (times.lease() / 8).max(1)
}

/// When the next Wake is due after one that was due then.
fn next_due(period: u64, now: u64, due: u64) -> u64
    requires period { (1 ≤ period) × (period < 2 ^ 40) }
    requires clock { now < 2 ^ 62 }
    ensures value { result ≡ next_due period now due }
    ensures later { due < 2 ^ 62 → (due < result) × (result < 2 ^ 62 + 2 ^ 40) }
{
    let next = due.saturating_add(period);
    if next <= now { now + period } else { next }
}

/// How long a rest is.
fn rest_of(times: &Times) -> u64
    ensures { (result ≡ times.now.lease / 2) × (result < 2 ^ 40) }
{
    times.lease() / 2
}

/// Until when is listened, to the next Wake or to the end of a rest.
fn or_end_of(rest: Option<u64>, due: u64) -> u64
    ensures { result ≡ or_end_of rest due }
{
    match rest {
        None => due,
        Some(until) => until.min(due),
    }
}

/// Whether a rest is over at this reading.
fn has_rested(rest: Option<u64>, reading: u64) -> bool
    ensures { result ≡ has_rested rest reading }
{
    match rest {
        None => false,
        Some(until) => until <= reading,
    }
}

/// What a clock that is late brings: the next try, or a Wake.
fn late_by(rest: Option<u64>, reading: u64) -> Handed
    ensures { result ≡ late_by rest reading }
{
    if has_rested(rest, reading) {
        Handed::Again
    } else {
        Handed::Event { event: Event::Wake }
    }
}

impl Course {
    /// That of a call which is made now, and may be made so often.
    pub fn of_call(times: &Times, now: u64, tries: u32) -> Course
        requires { now < 2 ^ 62 }
        ensures value { result ≡ record {
          due = now + period_of times.now;
          left = tries - 1;
          rest = None;
        } }
        ensures within { result.due < 2 ^ 62 + 2 ^ 40 }
    {
        Course {
            due: now + period_of(times),
            left: tries.saturating_sub(1),
            rest: None,
        }
    }

    /// Until when is listened.
    pub fn stop(&self) -> u64
        ensures { result ≡ stop_of self.now }
    {
        or_end_of(self.rest, self.due)
    }

    /// What is handed to the client, where a look came to this.
    pub fn brings(&self, listened: Listened) -> Option<Handed>
        ensures { result ≡ handed_by self.now.rest listened }
    {
        match listened {
            Listened::Late { reading } => Some(late_by(self.rest, reading)),
            Listened::Nothing => None,
            Listened::Heard { msg } => Some(Handed::Event {
                event: Event::Deliver(msg),
            }),
        }
    }

    /// How far the call is once this was handed over.
    pub fn after(self, times: &Times, now: u64, handed: &Handed) -> Course
        requires { now < 2 ^ 62 }
        ensures value { result ≡ course_after times.now now self handed.now }
        ensures wakes { handed.now ≡ handed_to.Event event.Wake → self.due < 2 ^ 62 →
            (self.due < result.due) × (result.due < 2 ^ 62 + 2 ^ 40) }
    {
        match handed {
            Handed::Again => Course { rest: None, ..self },
            Handed::Event { event: Event::Wake } => Course {
                due: next_due(period_of(times), now, self.due),
                ..self
            },
            Handed::Event { event: _ } => self,
        }
    }

    /// How far it is after a step of the client, which may have ended a try as one that may be made again.
    pub fn settled(self, times: &Times, now: u64, repeats: bool) -> Course
        requires { now < 2 ^ 62 }
        ensures { result ≡ settled times.now now self repeats }
    {
        if self.left > 0 && repeats && self.rest.is_none() {
            Course {
                left: self.left - 1,
                rest: Some(now + rest_of(times)),
                ..self
            }
        } else {
            self
        }
    }

    /// Whether the call is over: its last try has ended, and no rest follows it.
    pub fn is_over(&self, client: &Client) -> bool
        ensures { result ≡ (not (is_some self.now.rest)
            && is_some (rows.result_in client.now.state.made)) }
    {
        self.rest.is_none() && client.result().is_some()
    }
}
