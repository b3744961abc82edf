ghost use Rattle.std.specs.Prelude.{◌≡◌, ◌<◌, ◌^◌, IfOk, IfErr};
ghost use Rattle.object_store.specs.Access.{records_of, disk_of};
ghost use Rattle.node_runs.specs.Serving.{HasServeCause};
ghost use Rattle.node_loop.specs.Stores.{journal_at};
ghost use Rattle.store_loading.specs.Loading.{medium};
ghost use Rattle.store_loading.specs.Sinks.{HasSinkCause};
ghost use Rattle.node_jobs.specs.Jobs.{EndsEarly, IsReady};

use crate::booting::booted;
use crate::opening::opened;
use crate::starting::ready;
use command_words::Serving;
use disk_model::Disk;
use node_links::{Clock, Link, Sink};
use node_loop::Ended;
use object_store::Store;
use std::alloc::Global;
use xt_base::Boot;

/// A node that is ready to serve: its store with the record of its boot, that boot, and the reading of its clock after it was kept.
#[derive(Drop)]
pub struct Ready<D: Disk> {
    pub store: Store<D>,
    pub boot: Boot,
    pub reading: u64,
}

/// Makes a node ready: binds its link, loads or makes its store, appends its boot, reads its clock, and then writes the text.
pub fn get_ready<K: Sink, L: Link, D: Disk, C: Clock>(
    alloc: Global,
    serving: &Serving,
    text: &[u8],
    out: &mut K,
    link: &mut L,
    disk: D,
    clock: &mut C,
) -> Result<Ready<D>, Ended<D>>
    ensures ready { IfOk result (λ ready. IsReady
        (medium D.is_told D.kept D.moment D.left_since D.fault_count) text.now
        serving.now.settings.limit
        (record {
          given = L.given link.old;
          sent = L.sent link.old;
          losses = L.loss_count link.old;
          readings = C.readings clock.old;
          held = K.held out.old;
          disk = disk;
        })
        (record {
          given = L.given link.new;
          sent = L.sent link.new;
          losses = L.loss_count link.new;
          readings = C.readings clock.new;
          held = K.held out.new;
          disk = disk_of ready.store;
        })
        (records_of ready.store) ready.boot ready.reading (journal_at ready.store)) }
    ensures small { IfOk result (λ ready. ready.reading < 2 ^ 62) }
    ensures faults { IfOk result (λ ready. (L.fault_count link.new ≡ L.fault_count link.old)
        × (C.fault_count clock.new ≡ C.fault_count clock.old)
        × (K.fault_count out.new ≡ K.fault_count out.old)) }
    ensures ends { IfErr result (λ ended. EndsEarly
        (medium D.is_told D.kept D.moment D.left_since D.fault_count) text.now
        serving.now.settings.limit
        (record {
          given = L.given link.old;
          sent = L.sent link.old;
          losses = L.loss_count link.old;
          readings = C.readings clock.old;
          held = K.held out.old;
          disk = disk;
        })
        (record {
          given = L.given link.new;
          sent = L.sent link.new;
          losses = L.loss_count link.new;
          readings = C.readings clock.new;
          held = K.held out.new;
          disk = ended.disk;
        })
        ended.status) }
    ensures cause { IfErr result (λ ended.
        HasServeCause (L.fault_count link.old) (L.fault_count link.new)
        (C.fault_count clock.old) (C.fault_count clock.new) ended.status) }
    ensures sink { IfErr result (λ ended.
        HasSinkCause (K.fault_count out.old) (K.fault_count out.new) ended.status) }
{
    let opened = opened(
        alloc,
        serving.listen.as_str(),
        serving.store.as_str(),
        serving.settings.limit,
        link,
        disk,
    );
    let store = match opened {
        Ok(store) => store,
        Err(ended) => return Err(ended),
    };
    let (store, boot) = match booted(alloc, store) {
        Ok(booted) => booted,
        Err(ended) => return Err(ended),
    };
    match ready(clock, out, text) {
        Ok(reading) => Ok(Ready {
            store,
            boot,
            reading,
        }),
        Err(status) => Err(Ended {
            status,
            disk: store.close(),
        }),
    }
}
