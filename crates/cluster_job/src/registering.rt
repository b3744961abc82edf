//! The registration of the nodes.
ghost use Rattle.std.specs.Prelude.{◌≡◌, ◌≢◌, ◌≤◌, ◌<◌, ◌^◌, ℕ, List, Option, IfOk, OnOk, IfErr};
ghost use Rattle.cluster_job.specs.Registering as spec;
ghost use Rattle.cluster_job.specs.Registering.{registration_of, RunsLine, IsNotRegistered, HasRegistered, CannotRegister};

use crate::opening::read;
use client_jobs::{CommandSession, close, run_line};
use cluster_words::{ClusterNode, address};
use command_words::{ClientJob, ClusterJob, Order};
use node_links::{Clock, Link, Sink};
use std::alloc::Global;
use xt_base::{NodeId, OutOfMemory};
use xt_messages::Status;

/// The status of what ended without being done.
pub fn unless_done(said: Status) -> Result<(), Status>
    ensures done { OnOk result (said ≡ Status.Done) }
    ensures other { IfErr result (λ why. (why ≡ said) × (said ≢ Status.Done)) }
{
    match &said {
        Status::Done => Ok(()),
        _ => Err(said),
    }
}

/// The kind of a node in the registry: 1 is an OSD, and 2 an MRC.
fn kind_of(node: ClusterNode) -> u8
    ensures { result ≡ spec.kind_of node }
{
    match node {
        ClusterNode::Osd(_) => 1,
        _ => 2,
    }
}

/// The command that registers a node with its address.
fn registration(
    alloc: Global,
    job: &ClusterJob,
    node: ClusterNode,
) -> Result<ClientJob, OutOfMemory>
    requires { job.now.port ≤ 65000 }
    ensures { IfOk result (λ line. line ≡ registration_of job.now node) }
{
    Ok(ClientJob {
        settings: job.settings,
        who: job.who,
        dir: None,
        key: None,
        order: Order::Register {
            node: NodeId(node.number()),
            kind: kind_of(node),
            address: address(alloc, node.port(job.port))?,
        },
    })
}

/// Registers a node. The last line of an error was put.
fn register<K: Sink, L: Link, C: Clock>(
    alloc: Global,
    job: &ClusterJob,
    node: ClusterNode,
    session: &mut CommandSession,
    out: &mut K,
    link: &mut L,
    clock: &mut C,
) -> Result<(), Status>
    requires { job.now.port ≤ 65000 }
    ensures registered { (left : Option (List ℕ)) (source : ℕ) →
        OnOk result (RunsLine (registration_of job.now node)
        (record {
          session = session.old;
          around = record {
            to_come = L.given link.old;
            sent = L.sent link.old;
            losses = L.loss_count link.old;
            to_read = C.readings clock.old;
          };
          left = left;
          held = K.held out.old;
          counts = record {
            link = L.fault_count link.old;
            clock = C.fault_count clock.old;
            source = source;
          };
          sink = K.fault_count out.old;
        })
        (record {
          session = session.new;
          around = record {
            to_come = L.given link.new;
            sent = L.sent link.new;
            losses = L.loss_count link.new;
            to_read = C.readings clock.new;
          };
          left = left;
          held = K.held out.new;
          counts = record {
            link = L.fault_count link.new;
            clock = C.fault_count clock.new;
            source = source;
          };
          sink = K.fault_count out.new;
        })
        Status.Done) }
    ensures cannot { (left : Option (List ℕ)) (source : ℕ) →
        IfErr result (IsNotRegistered job.now node
        (record {
          session = session.old;
          around = record {
            to_come = L.given link.old;
            sent = L.sent link.old;
            losses = L.loss_count link.old;
            to_read = C.readings clock.old;
          };
          left = left;
          held = K.held out.old;
          counts = record {
            link = L.fault_count link.old;
            clock = C.fault_count clock.old;
            source = source;
          };
          sink = K.fault_count out.old;
        })
        (record {
          session = session.new;
          around = record {
            to_come = L.given link.new;
            sent = L.sent link.new;
            losses = L.loss_count link.new;
            to_read = C.readings clock.new;
          };
          left = left;
          held = K.held out.new;
          counts = record {
            link = L.fault_count link.new;
            clock = C.fault_count clock.new;
            source = source;
          };
          sink = K.fault_count out.new;
        })) }
{
    let Ok(line) = registration(alloc, job, node) else {
        return Err(close(alloc, out, Status::OutOfMemory));
    };
    unless_done(run_line(alloc, &line, session, out, link, clock))
}

/// Registers the MRC, and then the OSDs from number 1 on, and returns what the clock reads after the last one. The last line of an
/// error was put.
pub fn register_all<K: Sink, L: Link, C: Clock>(
    alloc: Global,
    job: &ClusterJob,
    session: &mut CommandSession,
    out: &mut K,
    link: &mut L,
    clock: &mut C,
) -> Result<u64, Status>
    requires { job.now.port ≤ 65000 }
    ensures registered { (left : Option (List ℕ)) (source : ℕ) →
        IfOk result (HasRegistered job.now
        (record {
          session = session.old;
          around = record {
            to_come = L.given link.old;
            sent = L.sent link.old;
            losses = L.loss_count link.old;
            to_read = C.readings clock.old;
          };
          left = left;
          held = K.held out.old;
          counts = record {
            link = L.fault_count link.old;
            clock = C.fault_count clock.old;
            source = source;
          };
          sink = K.fault_count out.old;
        })
        (record {
          session = session.new;
          around = record {
            to_come = L.given link.new;
            sent = L.sent link.new;
            losses = L.loss_count link.new;
            to_read = C.readings clock.new;
          };
          left = left;
          held = K.held out.new;
          counts = record {
            link = L.fault_count link.new;
            clock = C.fault_count clock.new;
            source = source;
          };
          sink = K.fault_count out.new;
        })) }
    ensures time { IfOk result (λ registered. registered < 2 ^ 62) }
    ensures cannot { (left : Option (List ℕ)) (source : ℕ) →
        IfErr result (CannotRegister job.now
        (record {
          session = session.old;
          around = record {
            to_come = L.given link.old;
            sent = L.sent link.old;
            losses = L.loss_count link.old;
            to_read = C.readings clock.old;
          };
          left = left;
          held = K.held out.old;
          counts = record {
            link = L.fault_count link.old;
            clock = C.fault_count clock.old;
            source = source;
          };
          sink = K.fault_count out.old;
        })
        (record {
          session = session.new;
          around = record {
            to_come = L.given link.new;
            sent = L.sent link.new;
            losses = L.loss_count link.new;
            to_read = C.readings clock.new;
          };
          left = left;
          held = K.held out.new;
          counts = record {
            link = L.fault_count link.new;
            clock = C.fault_count clock.new;
            source = source;
          };
          sink = K.fault_count out.new;
        })) }
{
    match register(alloc, job, ClusterNode::Mrc, session, out, link, clock) {
        Ok(()) => {}
        Err(said) => return Err(said),
    }
    for before in 0..job.osds {
        let node = ClusterNode::Osd(before + 1);
        match register(alloc, job, node, session, out, link, clock) {
            Ok(()) => {}
            Err(said) => return Err(said),
        }
    }
    match read(clock) {
        Ok(reading) => Ok(reading),
        Err(why) => Err(close(alloc, out, why)),
    }
}
