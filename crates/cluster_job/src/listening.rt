//! The times at which a cluster only receives.
ghost use Rattle.std.specs.Prelude.{ℕ, List, Option, OnOk, IfErr};
ghost use Rattle.cluster_job.specs.Phases.{Hears, EndsHearing};

use client_jobs::{CommandSession, status_of};
use node_links::{Clock, Link};
use xt_messages::Status;

/// Receives what comes until the clock reads this time or more.
pub fn listen<L: Link, C: Clock>(
    session: &mut CommandSession,
    until: u64,
    link: &mut L,
    clock: &mut C,
) -> Result<(), Status>
    ensures heard { (left held : Option (List ℕ)) (source sink : ℕ) → OnOk result (Hears until
        (record {
          session = session.old;
          around = record {
            to_come = L.given link.old;
            sent = L.sent link.old;
            losses = L.loss_count link.old;
            to_read = C.readings clock.old;
          };
          left = left;
          held = held;
          counts = record {
            link = L.fault_count link.old;
            clock = C.fault_count clock.old;
            source = source;
          };
          sink = sink;
        })
        (record {
          session = session.new;
          around = record {
            to_come = L.given link.new;
            sent = L.sent link.new;
            losses = L.loss_count link.new;
            to_read = C.readings clock.new;
          };
          left = left;
          held = held;
          counts = record {
            link = L.fault_count link.new;
            clock = C.fault_count clock.new;
            source = source;
          };
          sink = sink;
        })) }
    ensures cannot { (left held : Option (List ℕ)) (source sink : ℕ) →
        IfErr result (EndsHearing until
        (record {
          session = session.old;
          around = record {
            to_come = L.given link.old;
            sent = L.sent link.old;
            losses = L.loss_count link.old;
            to_read = C.readings clock.old;
          };
          left = left;
          held = held;
          counts = record {
            link = L.fault_count link.old;
            clock = C.fault_count clock.old;
            source = source;
          };
          sink = sink;
        })
        (record {
          session = session.old;
          around = record {
            to_come = L.given link.new;
            sent = L.sent link.new;
            losses = L.loss_count link.new;
            to_read = C.readings clock.new;
          };
          left = left;
          held = held;
          counts = record {
            link = L.fault_count link.new;
            clock = C.fault_count clock.new;
            source = source;
          };
          sink = sink;
        })) }
{
    match session.driver.listen(until, link, clock) {
        Ok(()) => Ok(()),
        Err(error) => Err(status_of(error)),
    }
}
