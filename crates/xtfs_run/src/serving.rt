//! Serving as a node.
ghost use Rattle.std.specs.Prelude.{◌≡◌, ◌<◌, ◌≤◌};
ghost use Rattle.asked_jobs.specs.Asking.{IsSecret};
ghost use Rattle.store_loading.specs.Loading.{medium};
ghost use Rattle.node_jobs.specs.Roles.{dir_job, mrc_job, osd_job};
ghost use Rattle.xtfs_run.specs.Nodes.{IsNodeCommand};

use client_jobs::close;
use command_words::Serving;
use disk_model::Disk;
use node_jobs::{serve_directory, serve_metadata, serve_osd};
use node_links::{Clock, Link, Sink};
use std::alloc::Global;
use xt_base::{Address, NodeId};
use xt_messages::Status;

/// Serves the directory, and puts the last line of the status.
pub fn run_directory<K: Sink, L: Link, D: Disk, C: Clock>(
    alloc: Global,
    serving: &Serving,
    out: &mut K,
    link: &mut L,
    disk: D,
    clock: &mut C,
) -> (Status, D)
    requires { IsSecret serving.now.key }
    ensures { IsNodeCommand (medium D.is_told D.kept D.moment D.left_since D.fault_count)
        (dir_job serving.now)
        (record {
          given = L.given link.old;
          sent = L.sent link.old;
          losses = L.loss_count link.old;
          readings = C.readings clock.old;
          held = K.held out.old;
          disk = disk;
        })
        (record {
          given = L.given link.new;
          sent = L.sent link.new;
          losses = L.loss_count link.new;
          readings = C.readings clock.new;
          held = K.held out.new;
          disk = result.1;
        })
        (record {
          link = L.fault_count link.old;
          clock = C.fault_count clock.old;
          sink = K.fault_count out.old;
        })
        (record {
          link = L.fault_count link.new;
          clock = C.fault_count clock.new;
          sink = K.fault_count out.new;
        })
        result.0 }
{
    let (said, disk) = serve_directory(alloc, serving, out, link, disk, clock);
    (close(alloc, out, said), disk)
}

/// Serves the metadata, and puts the last line of the status.
pub fn run_metadata<K: Sink, L: Link, D: Disk, C: Clock>(
    alloc: Global,
    serving: &Serving,
    dir: &Address,
    out: &mut K,
    link: &mut L,
    disk: D,
    clock: &mut C,
) -> (Status, D)
    requires { IsSecret serving.now.key }
    ensures { IsNodeCommand (medium D.is_told D.kept D.moment D.left_since D.fault_count)
        (mrc_job dir.now serving.now)
        (record {
          given = L.given link.old;
          sent = L.sent link.old;
          losses = L.loss_count link.old;
          readings = C.readings clock.old;
          held = K.held out.old;
          disk = disk;
        })
        (record {
          given = L.given link.new;
          sent = L.sent link.new;
          losses = L.loss_count link.new;
          readings = C.readings clock.new;
          held = K.held out.new;
          disk = result.1;
        })
        (record {
          link = L.fault_count link.old;
          clock = C.fault_count clock.old;
          sink = K.fault_count out.old;
        })
        (record {
          link = L.fault_count link.new;
          clock = C.fault_count clock.new;
          sink = K.fault_count out.new;
        })
        result.0 }
{
    let (said, disk) = serve_metadata(alloc, serving, dir, out, link, disk, clock);
    (close(alloc, out, said), disk)
}

/// Serves as this OSD, and puts the last line of the status.
pub fn run_osd<K: Sink, L: Link, D: Disk, C: Clock>(
    alloc: Global,
    id: NodeId,
    serving: &Serving,
    dir: &Address,
    out: &mut K,
    link: &mut L,
    disk: D,
    clock: &mut C,
) -> (Status, D)
    requires { IsSecret serving.now.key }
    ensures { IsNodeCommand (medium D.is_told D.kept D.moment D.left_since D.fault_count)
        (osd_job id dir.now serving.now)
        (record {
          given = L.given link.old;
          sent = L.sent link.old;
          losses = L.loss_count link.old;
          readings = C.readings clock.old;
          held = K.held out.old;
          disk = disk;
        })
        (record {
          given = L.given link.new;
          sent = L.sent link.new;
          losses = L.loss_count link.new;
          readings = C.readings clock.new;
          held = K.held out.new;
          disk = result.1;
        })
        (record {
          link = L.fault_count link.old;
          clock = C.fault_count clock.old;
          sink = K.fault_count out.old;
        })
        (record {
          link = L.fault_count link.new;
          clock = C.fault_count clock.new;
          sink = K.fault_count out.new;
        })
        result.0 }
{
    let (said, disk) = serve_osd(alloc, id, serving, dir, out, link, disk, clock);
    (close(alloc, out, said), disk)
}
