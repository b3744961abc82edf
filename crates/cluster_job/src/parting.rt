//! The orders to end, one for each node.
ghost use Rattle.std.specs.Prelude.{◌≡◌, ◌≤◌, ◌<◌, ◌^◌, length, ℕ, List, Option, IfOk, OnOk, IfErr};
ghost use Rattle.std.specs.List.{All};
ghost use Rattle.xt_messages.specs.Limits.{FitsMessage};
ghost use Rattle.cluster_job.specs.Parting as spec;
ghost use Rattle.cluster_job.specs.Phases.{Parts, EndsParting};

use capabilities::hmac;
use client_jobs::CommandSession;
use cluster_words::ClusterNode;
use command_words::ClusterJob;
use node_links::Link;
use std::alloc::Global;
use xt_base::{NodeId, OutOfMemory};
use xt_messages::{Msg, Msgs, Payload, Status};

/// A Stop of a client for a node.
fn stop_from(client: NodeId, tag: [u8; 32], node: ClusterNode) -> Msg
    ensures value { result ≡ spec.stop_from client tag node }
    ensures fits { FitsMessage result }
{
    let _fits = client.0;
    Msg {
        from: client,
        to: NodeId(node.number()),
        list: 1,
        payload: Payload::Stop { tag },
    }
}

/// A Stop for each node: the OSDs from number 1 on, then the MRC, and then the DIR.
fn farewells(alloc: Global, job: &ClusterJob) -> Result<Msgs, OutOfMemory>
    requires some { 1 ≤ length job.now.key }
    requires short { length job.now.key ≤ 64 }
    ensures value { IfOk result (λ msgs. msgs ≡ spec.farewells job.now) }
    ensures fits { IfOk result (All FitsMessage) }
{
    let client = job.who.id;
    let tag = hmac(job.key.as_slice(), b"stop")?;
    let mut msgs = Msgs::new(alloc);
    for before in 0..job.osds {
        msgs.push(stop_from(client, tag, ClusterNode::Osd(before + 1)))?;
    }
    msgs.push(stop_from(client, tag, ClusterNode::Mrc))?;
    msgs.push(stop_from(client, tag, ClusterNode::Dir))?;
    Ok(msgs)
}

/// Orders each node to end.
pub fn part<L: Link>(
    alloc: Global,
    job: &ClusterJob,
    session: &mut CommandSession,
    link: &mut L,
) -> Result<(), Status>
    requires some { 1 ≤ length job.now.key }
    requires short { length job.now.key ≤ 64 }
    ensures parted { (to_read left held : Option (List ℕ)) (clock source sink : ℕ) →
        OnOk result (Parts job.now
        (record {
          session = session.old;
          around = record {
            to_come = L.given link.old;
            sent = L.sent link.old;
            losses = L.loss_count link.old;
            to_read = to_read;
          };
          left = left;
          held = held;
          counts = record { link = L.fault_count link.old; clock = clock; source = source };
          sink = sink;
        })
        (record {
          session = session.new;
          around = record {
            to_come = L.given link.new;
            sent = L.sent link.new;
            losses = L.loss_count link.new;
            to_read = to_read;
          };
          left = left;
          held = held;
          counts = record { link = L.fault_count link.new; clock = clock; source = source };
          sink = sink;
        })) }
    ensures cannot { (to_read left held : Option (List ℕ)) (clock source sink : ℕ) →
        IfErr result (EndsParting job.now
        (record {
          session = session.old;
          around = record {
            to_come = L.given link.old;
            sent = L.sent link.old;
            losses = L.loss_count link.old;
            to_read = to_read;
          };
          left = left;
          held = held;
          counts = record { link = L.fault_count link.old; clock = clock; source = source };
          sink = sink;
        })
        (record {
          session = session.old;
          around = record {
            to_come = L.given link.new;
            sent = L.sent link.new;
            losses = L.loss_count link.new;
            to_read = to_read;
          };
          left = left;
          held = held;
          counts = record { link = L.fault_count link.new; clock = clock; source = source };
          sink = sink;
        })) }
{
    let Ok(msgs) = farewells(alloc, job) else {
        return Err(Status::OutOfMemory);
    };
    match session.driver.send_all(msgs.as_slice(), link) {
        Ok(()) => Ok(()),
        Err(_) => Err(Status::OutOfMemory),
    }
}
