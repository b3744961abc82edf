//! The session of a cluster, and the start of its nodes.
ghost use Rattle.std.specs.Prelude.{◌≡◌, ◌≤◌, ◌<◌, ◌^◌, ◌∷◌, [], ℕ, List, Option, IfOk, IfErr, OnOk};
ghost use Rattle.node_links.specs.declared.link.Datagram.{Datagram};
ghost use Rattle.node_runs.specs.Links.{Reads};
ghost use Rattle.client_jobs.specs.Running.{HasWhy};
ghost use Rattle.cluster_job.specs.Opening.{HasOpened, CannotOpen, HasStarted, CannotStart, session_at};

use client_jobs::{CommandSession, first_number};
use client_loop::Driver;
use cluster_children::Children;
use cluster_words::address;
use command_words::ClusterJob;
use node_links::{Clock, Link, Spawner};
use std::alloc::Global;
use xt_base::{Boot, OutOfMemory};
use xt_messages::Status;

/// Reads the clock.
pub fn read<C: Clock>(clock: &mut C) -> Result<u64, Status>
    ensures reads { IfOk result (λ reading. Reads (C.readings clock.old) (C.readings clock.new)
        (reading ∷ [])) }
    ensures time { IfOk result (λ reading. reading < 2 ^ 62) }
    ensures sound { OnOk result (C.fault_count clock.new ≡ C.fault_count clock.old) }
    ensures unread { IfErr result (λ why. (why ≡ Status.ClockFault (C.fault_count clock.new))
        × (C.readings clock.new ≡ C.readings clock.old)) }
    ensures cause { (link source : ℕ) → IfErr result (HasWhy
        (record { link = link; clock = C.fault_count clock.old; source = source })
        (record { link = link; clock = C.fault_count clock.new; source = source })) }
{
    match clock.now() {
        Ok(reading) => Ok(reading),
        Err(_) => Err(Status::ClockFault {
            count: clock.faults(),
        }),
    }
}

/// A session that begins at this reading.
fn session(alloc: Global, job: &ClusterJob, reading: u64) -> Result<CommandSession, OutOfMemory>
    requires turns { job.now.settings.turns < 2 ^ 62 }
    ensures { IfOk result (λ session. session ≡ session_at job.now reading) }
{
    let dir = address(alloc, job.port)?;
    let driver = Driver::new(
        alloc,
        job.who.id,
        Boot(first_number(reading)),
        job.settings.times,
        &dir,
        job.settings.turns,
    )?;
    Ok(CommandSession::new(alloc, driver))
}

/// Takes an address for the link, and reads the clock: the session of the cluster's commands.
pub fn open<L: Link, C: Clock>(
    alloc: Global,
    job: &ClusterJob,
    link: &mut L,
    clock: &mut C,
) -> Result<CommandSession, Status>
    requires turns { job.now.settings.turns < 2 ^ 62 }
    ensures opened { IfOk result (HasOpened job.now
        (record {
          to_come = L.given link.old;
          sent = L.sent link.old;
          losses = L.loss_count link.old;
          to_read = C.readings clock.old;
        })
        (record {
          to_come = L.given link.new;
          sent = L.sent link.new;
          losses = L.loss_count link.new;
          to_read = C.readings clock.new;
        })) }
    ensures sound { OnOk result ((L.fault_count link.new ≡ L.fault_count link.old)
        × (C.fault_count clock.new ≡ C.fault_count clock.old)) }
    ensures cannot { (source : ℕ) → IfErr result (CannotOpen
        (record {
          to_come = L.given link.old;
          sent = L.sent link.old;
          losses = L.loss_count link.old;
          to_read = C.readings clock.old;
        })
        (record {
          to_come = L.given link.new;
          sent = L.sent link.new;
          losses = L.loss_count link.new;
          to_read = C.readings clock.new;
        })
        (record {
          link = L.fault_count link.old;
          clock = C.fault_count clock.old;
          source = source;
        })
        (record {
          link = L.fault_count link.new;
          clock = C.fault_count clock.new;
          source = source;
        })) }
{
    if link.bind("127.0.0.1:0").is_err() {
        return Err(Status::LinkFault {
            count: link.faults(),
        });
    }
    let reading = match read(clock) {
        Ok(reading) => reading,
        Err(why) => return Err(why),
    };
    match session(alloc, job, reading) {
        Ok(session) => Ok(session),
        Err(_) => Err(Status::OutOfMemory),
    }
}

/// Starts the children, and returns what the clock reads after the last one.
pub fn start<C: Clock, P: Spawner>(
    alloc: Global,
    job: &ClusterJob,
    children: &mut Children,
    clock: &mut C,
    spawner: &mut P,
) -> Result<u64, Status>
    requires empty { children.old ≡ [] }
    requires port { job.now.port ≤ 65000 }
    ensures started { (given sent : Option (List Datagram)) (losses : ℕ) →
        IfOk result (HasStarted job.now
        (record {
          to_come = given;
          sent = sent;
          losses = losses;
          to_read = C.readings clock.old;
        })
        (record {
          to_come = given;
          sent = sent;
          losses = losses;
          to_read = C.readings clock.new;
        })
        (P.calls spawner.old) (P.calls spawner.new) children.new) }
    ensures time { IfOk result (λ started. started < 2 ^ 62) }
    ensures sound { OnOk result ((C.fault_count clock.new ≡ C.fault_count clock.old)
        × (P.fault_count spawner.new ≡ P.fault_count spawner.old)) }
    ensures cannot { (given sent : Option (List Datagram)) (losses link source : ℕ) →
        IfErr result (CannotStart job.now
        (record {
          to_come = given;
          sent = sent;
          losses = losses;
          to_read = C.readings clock.old;
        })
        (record {
          to_come = given;
          sent = sent;
          losses = losses;
          to_read = C.readings clock.new;
        })
        (P.calls spawner.old) (P.calls spawner.new) children.new
        (record { link = link; clock = C.fault_count clock.old; source = source })
        (record { link = link; clock = C.fault_count clock.new; source = source })
        (P.fault_count spawner.old) (P.fault_count spawner.new)) }
{
    if let Err(why) = children.start_all(alloc, job, spawner) {
        return Err(why);
    }
    match read(clock) {
        Ok(reading) => Ok(reading),
        Err(why) => Err(why),
    }
}
