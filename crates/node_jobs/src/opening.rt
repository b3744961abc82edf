ghost use Rattle.std.specs.Prelude.{◌≡◌, ℕ, IfOk, IfErr};
ghost use Rattle.node_runs.specs.Serving.{HasServeCause};
ghost use Rattle.store_loading.specs.Loading.{medium, IsLoaded};
ghost use Rattle.node_jobs.specs.Disks.{CannotOpen};
ghost use Rattle.store_loading.specs.Sinks.{HasSinkCause};

use disk_model::Disk;
use node_links::Link;
use node_loop::Ended;
use object_store::Store;
use std::alloc::Global;
use store_loading::store_at;
use xt_messages::Status;

/// Binds the link to its address, opens the store's file, and loads the store, whose journal has this limit in bytes.
pub fn opened<L: Link, D: Disk>(
    alloc: Global,
    listen: &str,
    path: &str,
    limit: u64,
    link: &mut L,
    disk: D,
) -> Result<Store<D>, Ended<D>>
    ensures given { L.given link.new ≡ L.given link.old }
    ensures sent { (L.sent link.new ≡ L.sent link.old)
        × (L.loss_count link.new ≡ L.loss_count link.old) }
    ensures loads { IfOk result (λ store. IsLoaded
        (medium D.is_told D.kept D.moment D.left_since D.fault_count) disk limit store) }
    ensures faults { IfOk result (λ store. L.fault_count link.new ≡ L.fault_count link.old) }
    ensures ends { IfErr result (λ ended. CannotOpen
        (medium D.is_told D.kept D.moment D.left_since D.fault_count) disk ended.disk ended.status) }
    ensures cause { (clock : ℕ) → IfErr result (λ ended.
        HasServeCause (L.fault_count link.old) (L.fault_count link.new) clock clock ended.status) }
    ensures sink { (sink : ℕ) → IfErr result (λ ended. HasSinkCause sink sink ended.status) }
{
    if link.bind(listen).is_err() {
        return Err(Ended {
            status: Status::LinkFault {
                count: link.faults(),
            },
            disk,
        });
    }
    store_at(alloc, path, limit, disk)
}
