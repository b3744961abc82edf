ghost use Rattle.std.specs.Prelude.{◌≡◌, IfOk, IfErr};
ghost use Rattle.store_loading.specs.Loading.{medium};
ghost use Rattle.node_jobs.specs.Disks.{IsBooted, CannotBoot};

use disk_model::Disk;
use node_loop::Ended;
use object_store::{AppendErr, Store};
use std::alloc::Global;
use store_loading::stored_boot;
use xt_base::Boot;
use xt_messages::{Limited, Record, Status};

/// The greatest number of a boot.
const LAST_BOOT: u64 = (1 << 62) - 1;

/// Appends the record of the boot after the last one in the store, and returns that boot.
pub fn booted<D: Disk>(alloc: Global, store: Store<D>) -> Result<(Store<D>, Boot), Ended<D>>
    ensures boots { IfOk result (λ done. IsBooted
        (medium D.is_told D.kept D.moment D.left_since D.fault_count) store done.0 done.1) }
    ensures ends { IfErr result (λ ended. CannotBoot
        (medium D.is_told D.kept D.moment D.left_since D.fault_count) store ended.disk ended.status) }
{
    let last = stored_boot(store.records());
    if last >= LAST_BOOT {
        return Err(Ended {
            status: Status::Limit {
                what: Limited::Boots,
                limit: LAST_BOOT,
            },
            disk: store.close(),
        });
    }
    let boot = Boot(last + 1);
    match store.put(alloc, &Record::Boot { boot }) {
        Ok(store) => Ok((store, boot)),
        Err(AppendErr::Broken { count, disk }) => Err(Ended {
            status: Status::DiskFault { count },
            disk,
        }),
        Err(AppendErr::Full { store, need, limit }) => Err(Ended {
            status: Status::JournalFull { need, limit },
            disk: store.close(),
        }),
        Err(AppendErr::OutOfMemory { store }) => Err(Ended {
            status: Status::OutOfMemory,
            disk: store.close(),
        }),
    }
}
