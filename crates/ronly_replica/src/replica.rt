ghost use Rattle.ronly_replica.specs.Pins.{IsPinned, pinned_prop};

use crate::pin::Pin;
use disk_model::Disk;
use object_store::Store;
use std::alloc::Global;

/// A read-only replica of a file as it stood at a count of writes, in a store with the objects that were fetched so far.
#[derive(Drop)]
pub struct Ronly<D: Disk> {
    pub(crate) alloc: Global,
    pub(crate) store: Store<D>,
    pub(crate) pin: Pin,
    /// The pin is within its limits.
    pub ghost fits: { IsPinned pin } by { pinned_prop pin },
}
