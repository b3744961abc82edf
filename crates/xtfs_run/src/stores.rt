//! The commands on the stores of stopped nodes: the work, and then the last line of its status.
ghost use Rattle.asked_jobs.specs.Asking.{IsSecret};
ghost use Rattle.store_loading.specs.Loading.{medium};
ghost use Rattle.check_job.specs.Checking.{IsCheck};
ghost use Rattle.scrub_job.specs.Scrubbing.{IsScrub};
ghost use Rattle.xtfs_run.specs.Stores.{IsStoreCommand, IsSweepCommand};

use check_job::check_store;
use client_jobs::close;
use command_words::SweepJob;
use disk_model::Disk;
use node_links::{Clock, Sink};
use par_halves::Gate;
use scrub_job::scrub_store;
use std::alloc::Global;
use std::thread::Threads;
use sweep_job::sweep_store;
use xt_base::Name;
use xt_messages::Status;

/// Checks a store, and puts the last line of the status.
pub fn run_check<K: Sink, D: Disk>(
    alloc: Global,
    store: &Name,
    limit: u64,
    out: &mut K,
    disk: D,
) -> (Status, D)
    ensures { IsStoreCommand
        (IsCheck (medium D.is_told D.kept D.moment D.left_since D.fault_count) limit)
        disk result.1 (K.held out.old) (K.held out.new) (K.fault_count out.old)
        (K.fault_count out.new) result.0 }
{
    let (said, disk) = check_store(alloc, store.as_str(), limit, out, disk);
    (close(alloc, out, said), disk)
}

/// Scrubs a store, and puts the last line of the status.
pub fn run_scrub<R: Threads + Sync, K: Sink, D: Disk, G: Gate>(
    rt: &R,
    alloc: Global,
    store: &Name,
    limit: u64,
    out: &mut K,
    disk: D,
    gate: &G,
) -> (Status, D)
    ensures { IsStoreCommand
        (IsScrub (medium D.is_told D.kept D.moment D.left_since D.fault_count) limit)
        disk result.1 (K.held out.old) (K.held out.new) (K.fault_count out.old)
        (K.fault_count out.new) result.0 }
{
    let (said, disk) = scrub_store(rt, alloc, store.as_str(), limit, out, disk, gate);
    (close(alloc, out, said), disk)
}

/// Sweeps the store of an OSD, and puts the last line of the status.
pub fn run_sweep<K: Sink, D: Disk, C: Clock>(
    alloc: Global,
    sweep: &SweepJob,
    out: &mut K,
    disk: D,
    clock: &mut C,
) -> (Status, D)
    requires { IsSecret sweep.now.key }
    ensures { IsSweepCommand (medium D.is_told D.kept D.moment D.left_since D.fault_count)
        sweep.now
        (record { readings = C.readings clock.old; held = K.held out.old; disk = disk })
        (record { readings = C.readings clock.new; held = K.held out.new; disk = result.1 })
        (record { clock = C.fault_count clock.old; sink = K.fault_count out.old })
        (record { clock = C.fault_count clock.new; sink = K.fault_count out.new })
        result.0 }
{
    let settings = sweep.settings;
    let (said, disk) = sweep_store(
        alloc,
        sweep.store.as_str(),
        sweep.metadata.as_str(),
        sweep.key.as_slice(),
        settings.times,
        settings.limit,
        out,
        disk,
        clock,
    );
    (close(alloc, out, said), disk)
}
