ghost use Rattle.std.specs.Prelude.{◌≡◌, ◌≤◌, ◌<◌, ◌^◌, Some, length, string_bytes, IfOk};
ghost use Rattle.xt_protocol.specs.Folds.{fold_of};
ghost use Rattle.osd_core.specs.Slots.{AreRows};
ghost use Rattle.node_runs.specs.BatchEnds.{HasBatchCause};
ghost use Rattle.store_loading.specs.Loading.{medium};
ghost use Rattle.store_loading.specs.Sinks.{HasSinkCause};
ghost use Rattle.node_jobs.specs.Jobs.{IsNodeJob, osd_at, osd_ready};
ghost use Rattle.node_jobs.specs.Roles.{osd_job};

use crate::readiness::{Ready, get_ready};
use crate::starting::{ears_with, period_of};
use command_words::Serving;
use disk_model::Disk;
use node_links::{Clock, Link, Sink};
use node_loop::{Bounds, Ended, Site, serve};
use node_mail::Sender;
use node_roles::ServedOsd;
use osd_core::Osd;
use own_messages::OwnMessages;
use replica_records::fold;
use std::alloc::Global;
use xt_base::{Address, NodeId, Octets, OutOfMemory};
use xt_messages::{Record, Status};
use xt_parts::PartBuffer;

/// The longest datagram that a link gives, in bytes.
const DATAGRAM: usize = 65_536;

/// The line `ready N` of this OSD.
fn ready_text(alloc: Global, id: NodeId) -> Result<String, OutOfMemory>
    ensures text { IfOk result (λ text. string_bytes text ≡ osd_ready id) }
    ensures number { id.0 < 2 ^ 32 }
{
    let number = id.0;
    format!(in alloc; "ready {number}\n")
}

/// The OSD that starts from these records at a reading of its clock. Its boot is the last one in them.
fn started(
    alloc: Global,
    id: NodeId,
    serving: &Serving,
    records: &[Record],
    reading: u64,
) -> Result<Osd, OutOfMemory>
    requires some { 1 ≤ length serving.now.key }
    requires short { length serving.now.key ≤ 64 }
    requires clock { reading < 2 ^ 62 }
    requires rows { AreRows (fold_of records.now).files }
    ensures { IfOk result (λ osd. osd ≡
        record {
          key = Some serving.now.key;
          state = osd_at id serving.now.settings.times records.now reading;
        }) }
{
    let key = Octets::of(alloc, serving.key.as_slice())?;
    let folded = fold(alloc, records)?;
    let boot = folded.boot;
    Osd::start(
        alloc,
        id,
        serving.settings.times,
        Some(key),
        folded,
        boot,
        reading,
    )
}

/// Runs this OSD, with the directory service at an address, until it ends. Returns why it ended.
pub fn serve_osd<K: Sink, L: Link, D: Disk, C: Clock>(
    alloc: Global,
    id: NodeId,
    serving: &Serving,
    dir: &Address,
    out: &mut K,
    link: &mut L,
    disk: D,
    clock: &mut C,
) -> (Status, D)
    requires some { 1 ≤ length serving.now.key }
    requires short { length serving.now.key ≤ 64 }
    ensures job { IsNodeJob (medium D.is_told D.kept D.moment D.left_since D.fault_count)
        (osd_job id dir.now serving.now)
        (record {
          given = L.given link.old;
          sent = L.sent link.old;
          losses = L.loss_count link.old;
          readings = C.readings clock.old;
          held = K.held out.old;
          disk = disk;
        })
        (record {
          given = L.given link.new;
          sent = L.sent link.new;
          losses = L.loss_count link.new;
          readings = C.readings clock.new;
          held = K.held out.new;
          disk = result.1;
        })
        result.0 }
    ensures cause { HasBatchCause (L.fault_count link.old) (L.fault_count link.new)
        (C.fault_count clock.old) (C.fault_count clock.new) result.0 }
    ensures sink { HasSinkCause (K.fault_count out.old) (K.fault_count out.new) result.0 }
{
    let Ok(mut buf) = Vec::from_elem(alloc, 0, DATAGRAM) else {
        return (Status::OutOfMemory, disk);
    };
    let Ok(part) = PartBuffer::new(alloc) else {
        return (Status::OutOfMemory, disk);
    };
    let Ok(ears) = ears_with(alloc, dir) else {
        return (Status::OutOfMemory, disk);
    };
    let Ok(text) = ready_text(alloc, id) else {
        return (Status::OutOfMemory, disk);
    };
    let Ready {
        store,
        boot,
        reading,
    } = match get_ready(alloc, serving, text.as_bytes(), out, link, disk, clock) {
        Ok(ready) => ready,
        Err(Ended { status, disk }) => return (status, disk),
    };
    let Ok(osd) = started(alloc, id, serving, store.records(), reading) else {
        return (Status::OutOfMemory, store.close());
    };
    let period = period_of(serving.settings.times);
    let mut site = Site {
        node: ServedOsd { osd },
        sender: Sender {
            node: id,
            boot,
            count: 0,
        },
        part,
        ears,
        own: OwnMessages::new(alloc),
        clock: reading,
        due: reading + period,
        woken: false,
    };
    let bounds = Bounds {
        turns: serving.settings.turns,
        period,
    };
    serve(
        alloc,
        &mut site,
        link,
        clock,
        store,
        bounds,
        buf.as_mut_slice(),
    )
}
