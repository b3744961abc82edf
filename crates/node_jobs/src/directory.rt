ghost use Rattle.std.specs.Prelude.{◌≤◌, length};
ghost use Rattle.node_runs.specs.BatchEnds.{HasBatchCause};
ghost use Rattle.store_loading.specs.Loading.{medium};
ghost use Rattle.store_loading.specs.Sinks.{HasSinkCause};
ghost use Rattle.node_jobs.specs.Jobs.{IsNodeJob};
ghost use Rattle.node_jobs.specs.Roles.{dir_job};

use crate::readiness::{Ready, get_ready};
use crate::starting::period_of;
use command_words::Serving;
use dir_core::Dir;
use disk_model::Disk;
use node_links::{Clock, Link, Sink};
use node_loop::{Bounds, Ended, Site, serve};
use node_mail::{Ears, Sender};
use node_roles::ServedDir;
use own_messages::OwnMessages;
use std::alloc::Global;
use xt_base::DIR_NODE;
use xt_messages::Status;
use xt_parts::PartBuffer;

/// The longest datagram that a link gives, in bytes.
const DATAGRAM: usize = 65_536;

/// Runs the directory service until it ends. Returns why it ended.
pub fn serve_directory<K: Sink, L: Link, D: Disk, C: Clock>(
    alloc: Global,
    serving: &Serving,
    out: &mut K,
    link: &mut L,
    disk: D,
    clock: &mut C,
) -> (Status, D)
    requires some { 1 ≤ length serving.now.key }
    requires short { length serving.now.key ≤ 64 }
    ensures job { IsNodeJob (medium D.is_told D.kept D.moment D.left_since D.fault_count)
        (dir_job serving.now)
        (record {
          given = L.given link.old;
          sent = L.sent link.old;
          losses = L.loss_count link.old;
          readings = C.readings clock.old;
          held = K.held out.old;
          disk = disk;
        })
        (record {
          given = L.given link.new;
          sent = L.sent link.new;
          losses = L.loss_count link.new;
          readings = C.readings clock.new;
          held = K.held out.new;
          disk = result.1;
        })
        result.0 }
    ensures cause { HasBatchCause (L.fault_count link.old) (L.fault_count link.new)
        (C.fault_count clock.old) (C.fault_count clock.new) result.0 }
    ensures sink { HasSinkCause (K.fault_count out.old) (K.fault_count out.new) result.0 }
{
    let Ok(mut buf) = Vec::from_elem(alloc, 0, DATAGRAM) else {
        return (Status::OutOfMemory, disk);
    };
    let Ok(part) = PartBuffer::new(alloc) else {
        return (Status::OutOfMemory, disk);
    };
    let Ready {
        store,
        boot,
        reading,
    } = match get_ready(alloc, serving, b"ready 900\n", out, link, disk, clock) {
        Ok(ready) => ready,
        Err(Ended { status, disk }) => return (status, disk),
    };
    let Ok(dir) = Dir::start(alloc, serving.key.as_slice(), store.records()) else {
        return (Status::OutOfMemory, store.close());
    };
    let period = period_of(serving.settings.times);
    let mut site = Site {
        node: ServedDir { dir },
        sender: Sender {
            node: DIR_NODE,
            boot,
            count: 0,
        },
        part,
        ears: Ears::new(alloc),
        own: OwnMessages::new(alloc),
        clock: reading,
        due: reading + period,
        woken: false,
    };
    let bounds = Bounds {
        turns: serving.settings.turns,
        period,
    };
    serve(
        alloc,
        &mut site,
        link,
        clock,
        store,
        bounds,
        buf.as_mut_slice(),
    )
}
