//! The job that words ask for, and `run`.
ghost use Rattle.std.specs.Prelude.{◌≡◌, false, Some};
ghost use Rattle.command_words.specs.Jobs.{job_of};
ghost use Rattle.command_words.specs.Worked.{usual};
ghost use Rattle.asked_jobs.specs.Asking.{IsWithin};
ghost use Rattle.store_loading.specs.Loading.{medium};
ghost use Rattle.xtfs_run.specs.Doing.{Does};

use crate::serving::{run_directory, run_metadata, run_osd};
use crate::stores::{run_check, run_scrub, run_sweep};
use asked_jobs::asked_job;
use client_jobs::run_client;
use cluster_job::run_cluster;
use command_words::Job;
use disk_model::Disk;
use make_job::make;
use node_links::{Clock, Link, Sink, Source, Spawner};
use par_halves::NoGate;
use replay_job::run_replay;
use schedule_lines::finish;
use std::alloc::Global;
use std::thread::Threads;
use trace_audit::audit_text;
use xt_base::Words;
use xt_messages::Status;

/// Does a job.
fn do_job<R: Threads + Sync, S: Source, K: Sink, L: Link, D: Disk, C: Clock, P: Spawner>(
    rt: &R,
    alloc: Global,
    job: &Job,
    src: &mut S,
    out: &mut K,
    link: &mut L,
    disk: D,
    clock: &mut C,
    spawner: &mut P,
) -> (Status, D)
    requires { IsWithin job.now }
    ensures { Does (medium D.is_told D.kept D.moment D.left_since D.fault_count)
        (Some job.now)
        (record {
          left = S.left src.old;
          held = K.held out.old;
          given = L.given link.old;
          sent = L.sent link.old;
          losses = L.loss_count link.old;
          readings = C.readings clock.old;
          disk = disk;
          calls = P.calls spawner.old;
          source_faults = S.fault_count src.old;
          sink_faults = K.fault_count out.old;
          link_faults = L.fault_count link.old;
          clock_faults = C.fault_count clock.old;
          child_faults = P.fault_count spawner.old;
        })
        (record {
          left = S.left src.new;
          held = K.held out.new;
          given = L.given link.new;
          sent = L.sent link.new;
          losses = L.loss_count link.new;
          readings = C.readings clock.new;
          disk = result.1;
          calls = P.calls spawner.new;
          source_faults = S.fault_count src.new;
          sink_faults = K.fault_count out.new;
          link_faults = L.fault_count link.new;
          clock_faults = C.fault_count clock.new;
          child_faults = P.fault_count spawner.new;
        })
        result.0 }
{
    match job {
        Job::Replay => (run_replay(alloc, src, out), disk),
        Job::Audit => (audit_text(rt, alloc, src, out, &NoGate), disk),
        Job::Dir { serving } => run_directory(alloc, serving, out, link, disk, clock),
        Job::Mrc { dir, serving } => run_metadata(alloc, serving, dir, out, link, disk, clock),
        Job::Osd { id, dir, serving } => {
            run_osd(alloc, *id, serving, dir, out, link, disk, clock)
        }
        Job::Check { store, limit } => run_check(alloc, store, *limit, out, disk),
        Job::Scrub { store, limit } => run_scrub(rt, alloc, store, *limit, out, disk, &NoGate),
        Job::Sweep(sweep) => run_sweep(alloc, sweep, out, disk, clock),
        Job::Client(client) => (run_client(alloc, client, src, out, link, clock), disk),
        Job::Make { number, size } => (make(rt, alloc, *number, *size, out, &NoGate), disk),
        Job::Cluster(cluster) => {
            let status = run_cluster(alloc, cluster, src, out, link, clock, spawner);
            (status, disk)
        }
    }
}

/// Does all that the program does, as its words ask, and hands the disk back. The link isn't bound and the disk has no file before: the job
/// of a node binds the link and chooses the file. The spawner starts this program again, for the nodes of a cluster.
pub fn run<R: Threads + Sync, S: Source, K: Sink, L: Link, D: Disk, C: Clock, P: Spawner>(
    rt: &R,
    alloc: Global,
    words: &Words,
    src: &mut S,
    out: &mut K,
    link: &mut L,
    disk: D,
    clock: &mut C,
    spawner: &mut P,
) -> (Status, D)
    ensures { Does (medium D.is_told D.kept D.moment D.left_since D.fault_count)
        (job_of usual false words.now)
        (record {
          left = S.left src.old;
          held = K.held out.old;
          given = L.given link.old;
          sent = L.sent link.old;
          losses = L.loss_count link.old;
          readings = C.readings clock.old;
          disk = disk;
          calls = P.calls spawner.old;
          source_faults = S.fault_count src.old;
          sink_faults = K.fault_count out.old;
          link_faults = L.fault_count link.old;
          clock_faults = C.fault_count clock.old;
          child_faults = P.fault_count spawner.old;
        })
        (record {
          left = S.left src.new;
          held = K.held out.new;
          given = L.given link.new;
          sent = L.sent link.new;
          losses = L.loss_count link.new;
          readings = C.readings clock.new;
          disk = result.1;
          calls = P.calls spawner.new;
          source_faults = S.fault_count src.new;
          sink_faults = K.fault_count out.new;
          link_faults = L.fault_count link.new;
          clock_faults = C.fault_count clock.new;
          child_faults = P.fault_count spawner.new;
        })
        result.0 }
{
    match asked_job(alloc, words) {
        Ok(Some(job)) => do_job(rt, alloc, &job, src, out, link, disk, clock, spawner),
        Ok(None) => (finish(alloc, out, Status::Usage), disk),
        Err(_) => (finish(alloc, out, Status::OutOfMemory), disk),
    }
}
