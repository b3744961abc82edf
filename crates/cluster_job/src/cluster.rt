//! A cluster from its start to its end, phase by phase.
ghost use Rattle.std.specs.Prelude.{◌≡◌, ◌≤◌, ◌<◌, ◌^◌, ◌+◌, ◌*◌, [], ℕ, List, Option, length, IfOk, OnOk, IfErr};
ghost use Rattle.node_links.specs.declared.children.ChildCall.{ChildCall};
ghost use Rattle.cluster_job.specs.Phases as spec;
ghost use Rattle.cluster_job.specs.Phases.{Comes, base_of, starting, registering, commanding};
ghost use Rattle.cluster_job.specs.Cluster.{EndsFrom, Leads, IsClusterJob};

use crate::listening::listen;
use crate::opening::{open, start};
use crate::parting::part;
use crate::registering::{register_all, unless_done};
use client_jobs::{CommandSession, close, run_lists};
use cluster_children::Children;
use cluster_lines::run_lines;
use command_words::{ClusterJob, Defaults};
use node_links::{Clock, Link, Sink, Source, Spawner};
use std::alloc::Global;
use xt_messages::Status;

/// The values of what a line leaves out.
fn base_of(job: &ClusterJob) -> Defaults
    ensures { result ≡ base_of job.now }
{
    Defaults {
        settings: job.settings,
        who: job.who,
    }
}

/// The time at which the OSDs are no longer silent and the MRC has learnt of them at a Wake.
fn settles_at(job: &ClusterJob, started: u64, registered: u64) -> u64
    requires times { (started < 2 ^ 62) × (registered < 2 ^ 62) }
    ensures { result ≡ spec.settles_at job.now started registered }
{
    let (lease, drift) = (job.settings.times.lease(), job.settings.times.drift());
    (started + lease + 2 * drift).max(registered + lease / 8 + drift)
}

/// Starts the children and receives what comes until they are up, and returns what the clock read when the last one was started. The last
/// line of an error was put.
fn set_up<K: Sink, L: Link, C: Clock, P: Spawner>(
    alloc: Global,
    job: &ClusterJob,
    session: &mut CommandSession,
    children: &mut Children,
    out: &mut K,
    link: &mut L,
    clock: &mut C,
    spawner: &mut P,
) -> Result<u64, Status>
    requires empty { children.old ≡ [] }
    requires port { job.now.port ≤ 65000 }
    ensures came { (left : Option (List ℕ)) (source : ℕ) → IfOk result (λ started.
        Comes job.now starting
        (record {
          situation = record {
            session = session.old;
            around = record {
              to_come = L.given link.old;
              sent = L.sent link.old;
              losses = L.loss_count link.old;
              to_read = C.readings clock.old;
            };
            left = left;
            held = K.held out.old;
            counts = record {
              link = L.fault_count link.old;
              clock = C.fault_count clock.old;
              source = source;
            };
            sink = K.fault_count out.old;
          };
          calls = P.calls spawner.old;
          child = P.fault_count spawner.old;
          children = [];
          started = 0;
          registered = 0;
        })
        registering
        (record {
          situation = record {
            session = session.new;
            around = record {
              to_come = L.given link.new;
              sent = L.sent link.new;
              losses = L.loss_count link.new;
              to_read = C.readings clock.new;
            };
            left = left;
            held = K.held out.new;
            counts = record {
              link = L.fault_count link.new;
              clock = C.fault_count clock.new;
              source = source;
            };
            sink = K.fault_count out.new;
          };
          calls = P.calls spawner.new;
          child = P.fault_count spawner.new;
          children = children.new;
          started = started;
          registered = 0;
        })) }
    ensures time { IfOk result (λ started. started < 2 ^ 62) }
    ensures ended { (left : Option (List ℕ)) (source : ℕ) → IfErr result (EndsFrom job.now starting
        (record {
          situation = record {
            session = session.old;
            around = record {
              to_come = L.given link.old;
              sent = L.sent link.old;
              losses = L.loss_count link.old;
              to_read = C.readings clock.old;
            };
            left = left;
            held = K.held out.old;
            counts = record {
              link = L.fault_count link.old;
              clock = C.fault_count clock.old;
              source = source;
            };
            sink = K.fault_count out.old;
          };
          calls = P.calls spawner.old;
          child = P.fault_count spawner.old;
          children = [];
          started = 0;
          registered = 0;
        })
        (record {
          around = record {
            to_come = L.given link.new;
            sent = L.sent link.new;
            losses = L.loss_count link.new;
            to_read = C.readings clock.new;
          };
          left = left;
          held = K.held out.new;
          calls = P.calls spawner.new;
          counts = record {
            link = L.fault_count link.new;
            clock = C.fault_count clock.new;
            source = source;
          };
          sink = K.fault_count out.new;
          child = P.fault_count spawner.new;
        })
        children.new) }
{
    let started = match start(alloc, job, children, clock, spawner) {
        Ok(started) => started,
        Err(why) => return Err(close(alloc, out, why)),
    };
    let up = started + job.settings.times.drift();
    match listen(session, up, link, clock) {
        Ok(()) => Ok(started),
        Err(why) => Err(close(alloc, out, why)),
    }
}

/// Registers the nodes, makes the lists, and receives what comes until the cluster has settled. The last line of an error was put.
fn settle<K: Sink, L: Link, C: Clock>(
    alloc: Global,
    job: &ClusterJob,
    session: &mut CommandSession,
    started: u64,
    out: &mut K,
    link: &mut L,
    clock: &mut C,
) -> Result<(), Status>
    requires port { job.now.port ≤ 65000 }
    requires time { started < 2 ^ 62 }
    ensures came { (left : Option (List ℕ)) (source : ℕ) (calls : Option (List ChildCall)) (child : ℕ) (children : List ℕ) →
        OnOk result ((registered : ℕ) × Comes job.now registering
        (record {
          situation = record {
            session = session.old;
            around = record {
              to_come = L.given link.old;
              sent = L.sent link.old;
              losses = L.loss_count link.old;
              to_read = C.readings clock.old;
            };
            left = left;
            held = K.held out.old;
            counts = record {
              link = L.fault_count link.old;
              clock = C.fault_count clock.old;
              source = source;
            };
            sink = K.fault_count out.old;
          };
          calls = calls;
          child = child;
          children = children;
          started = started;
          registered = 0;
        })
        commanding
        (record {
          situation = record {
            session = session.new;
            around = record {
              to_come = L.given link.new;
              sent = L.sent link.new;
              losses = L.loss_count link.new;
              to_read = C.readings clock.new;
            };
            left = left;
            held = K.held out.new;
            counts = record {
              link = L.fault_count link.new;
              clock = C.fault_count clock.new;
              source = source;
            };
            sink = K.fault_count out.new;
          };
          calls = calls;
          child = child;
          children = children;
          started = started;
          registered = registered;
        })) }
    ensures ended { (left : Option (List ℕ)) (source : ℕ) (calls : Option (List ChildCall)) (child : ℕ) (children : List ℕ) →
        IfErr result (EndsFrom job.now registering
        (record {
          situation = record {
            session = session.old;
            around = record {
              to_come = L.given link.old;
              sent = L.sent link.old;
              losses = L.loss_count link.old;
              to_read = C.readings clock.old;
            };
            left = left;
            held = K.held out.old;
            counts = record {
              link = L.fault_count link.old;
              clock = C.fault_count clock.old;
              source = source;
            };
            sink = K.fault_count out.old;
          };
          calls = calls;
          child = child;
          children = children;
          started = started;
          registered = 0;
        })
        (record {
          around = record {
            to_come = L.given link.new;
            sent = L.sent link.new;
            losses = L.loss_count link.new;
            to_read = C.readings clock.new;
          };
          left = left;
          held = K.held out.new;
          calls = calls;
          counts = record {
            link = L.fault_count link.new;
            clock = C.fault_count clock.new;
            source = source;
          };
          sink = K.fault_count out.new;
          child = child;
        })
        children) }
{
    let registered = match register_all(alloc, job, session, out, link, clock) {
        Ok(registered) => registered,
        Err(said) => return Err(said),
    };
    match unless_done(run_lists(alloc, &base_of(job), session, link, clock)) {
        Ok(()) => {}
        Err(why) => return Err(close(alloc, out, why)),
    }
    let until = settles_at(job, started, registered);
    match listen(session, until, link, clock) {
        Ok(()) => Ok(()),
        Err(why) => Err(close(alloc, out, why)),
    }
}

/// Runs the lines, orders each node to end, and waits for the children. The last line of the status was put, if it has one.
fn carry_on<S: Source, K: Sink, L: Link, C: Clock, P: Spawner>(
    alloc: Global,
    job: &ClusterJob,
    session: &mut CommandSession,
    children: &mut Children,
    src: &mut S,
    out: &mut K,
    link: &mut L,
    clock: &mut C,
    spawner: &mut P,
) -> Status
    requires some { 1 ≤ length job.now.key }
    requires short { length job.now.key ≤ 64 }
    ensures { (started registered : ℕ) → EndsFrom job.now commanding
        (record {
          situation = record {
            session = session.old;
            around = record {
              to_come = L.given link.old;
              sent = L.sent link.old;
              losses = L.loss_count link.old;
              to_read = C.readings clock.old;
            };
            left = S.left src.old;
            held = K.held out.old;
            counts = record {
              link = L.fault_count link.old;
              clock = C.fault_count clock.old;
              source = S.fault_count src.old;
            };
            sink = K.fault_count out.old;
          };
          calls = P.calls spawner.old;
          child = P.fault_count spawner.old;
          children = children.old;
          started = started;
          registered = registered;
        })
        (record {
          around = record {
            to_come = L.given link.new;
            sent = L.sent link.new;
            losses = L.loss_count link.new;
            to_read = C.readings clock.new;
          };
          left = S.left src.new;
          held = K.held out.new;
          calls = P.calls spawner.new;
          counts = record {
            link = L.fault_count link.new;
            clock = C.fault_count clock.new;
            source = S.fault_count src.new;
          };
          sink = K.fault_count out.new;
          child = P.fault_count spawner.new;
        })
        children.new result }
{
    match unless_done(run_lines(alloc, &base_of(job), session, src, out, link, clock)) {
        Ok(()) => {}
        Err(said) => return said,
    }
    match part(alloc, job, session, link) {
        Ok(()) => {}
        Err(why) => return close(alloc, out, why),
    }
    match children.wait_all(spawner) {
        Ok(()) => Status::Done,
        Err(why) => close(alloc, out, why),
    }
}

/// Goes through the phases as far as it can. The last line of the status was put, if it has one.
fn lead<S: Source, K: Sink, L: Link, C: Clock, P: Spawner>(
    alloc: Global,
    job: &ClusterJob,
    children: &mut Children,
    src: &mut S,
    out: &mut K,
    link: &mut L,
    clock: &mut C,
    spawner: &mut P,
) -> Status
    requires empty { children.old ≡ [] }
    requires port { job.now.port ≤ 65000 }
    requires turns { job.now.settings.turns < 2 ^ 62 }
    requires some { 1 ≤ length job.now.key }
    requires short { length job.now.key ≤ 64 }
    ensures { Leads job.now
        (record {
          around = record {
            to_come = L.given link.old;
            sent = L.sent link.old;
            losses = L.loss_count link.old;
            to_read = C.readings clock.old;
          };
          left = S.left src.old;
          held = K.held out.old;
          calls = P.calls spawner.old;
          counts = record {
            link = L.fault_count link.old;
            clock = C.fault_count clock.old;
            source = S.fault_count src.old;
          };
          sink = K.fault_count out.old;
          child = P.fault_count spawner.old;
        })
        (record {
          around = record {
            to_come = L.given link.new;
            sent = L.sent link.new;
            losses = L.loss_count link.new;
            to_read = C.readings clock.new;
          };
          left = S.left src.new;
          held = K.held out.new;
          calls = P.calls spawner.new;
          counts = record {
            link = L.fault_count link.new;
            clock = C.fault_count clock.new;
            source = S.fault_count src.new;
          };
          sink = K.fault_count out.new;
          child = P.fault_count spawner.new;
        })
        children.new result }
{
    let mut session = match open(alloc, job, link, clock) {
        Ok(session) => session,
        Err(why) => return close(alloc, out, why),
    };
    let started = match set_up(
        alloc,
        job,
        &mut session,
        children,
        out,
        link,
        clock,
        spawner,
    ) {
        Ok(started) => started,
        Err(said) => return said,
    };
    match settle(alloc, job, &mut session, started, out, link, clock) {
        Ok(()) => {}
        Err(said) => return said,
    }
    carry_on(
        alloc,
        job,
        &mut session,
        children,
        src,
        out,
        link,
        clock,
        spawner,
    )
}

/// Runs a cluster: starts its nodes, registers them, carries out the lines of the source, and ends the nodes. Each child that it hasn't
/// waited for is stopped once, whatever ends it.
pub fn run_cluster<S: Source, K: Sink, L: Link, C: Clock, P: Spawner>(
    alloc: Global,
    job: &ClusterJob,
    src: &mut S,
    out: &mut K,
    link: &mut L,
    clock: &mut C,
    spawner: &mut P,
) -> Status
    requires port { job.now.port ≤ 65000 }
    requires turns { job.now.settings.turns < 2 ^ 62 }
    requires some { 1 ≤ length job.now.key }
    requires short { length job.now.key ≤ 64 }
    ensures { IsClusterJob job.now
        (record {
          around = record {
            to_come = L.given link.old;
            sent = L.sent link.old;
            losses = L.loss_count link.old;
            to_read = C.readings clock.old;
          };
          left = S.left src.old;
          held = K.held out.old;
          calls = P.calls spawner.old;
          counts = record {
            link = L.fault_count link.old;
            clock = C.fault_count clock.old;
            source = S.fault_count src.old;
          };
          sink = K.fault_count out.old;
          child = P.fault_count spawner.old;
        })
        (record {
          around = record {
            to_come = L.given link.new;
            sent = L.sent link.new;
            losses = L.loss_count link.new;
            to_read = C.readings clock.new;
          };
          left = S.left src.new;
          held = K.held out.new;
          calls = P.calls spawner.new;
          counts = record {
            link = L.fault_count link.new;
            clock = C.fault_count clock.new;
            source = S.fault_count src.new;
          };
          sink = K.fault_count out.new;
          child = P.fault_count spawner.new;
        })
        result }
{
    let mut children = Children::new(alloc);
    let said = lead(alloc, job, &mut children, src, out, link, clock, spawner);
    children.stop_all(spawner);
    said
}
