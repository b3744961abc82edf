//! What is found of the bodies of a store.
ghost use Rattle.std.specs.Prelude.{◌≡◌, IfOk};
ghost use Rattle.std.specs.List.{All};
ghost use Rattle.object_store.specs.Access.{records_of};
ghost use Rattle.object_store.specs.Texts.{AreRecords};
ghost use Rattle.scrub.specs.Report.{seals_of};
ghost use Rattle.scrub_job.specs.Checked.{AreFound, HasFound, IsThere};
ghost use Rattle.scrub_job.specs.declared.checking.Unread.TheVariants.{OutOfMemory};

use crate::sealing::seals_of;
use disk_model::Disk;
use object_store::{Reader, Store};
use par_halves::Gate;
use replica_records::fold;
use scrub::{Found, Item, ScrubErr, items, loaded_bodies_are_there, scrub};
use std::alloc::{AllocError, Global};
use std::thread::Threads;
use xt_messages::Record;

/// The number of bodies that a reader reads. It keeps each of them, so the next ones have a reader of their own.
const BATCH: usize = 64;

/// Why the bodies of a store aren't checked.
#[derive(Clone, Copy)]
pub enum Unread {
    /// A body couldn't be read.
    Failed,
    OutOfMemory,
}

impl From<AllocError> for Unread {
    ghost from_gives = { λ _ made. made ≡ OutOfMemory };

    fn from(_: AllocError) -> Unread {
        Unread::OutOfMemory
    }
}

/// What was found in a store: of each body, by file and object, and the seals of those that are new.
#[derive(Drop)]
pub struct Findings {
    pub report: Vec<Found>,
    pub seals: Vec<Record>,
}

/// What is found of these bodies, which are in memory together.
fn found_by<R: Threads + Sync, D: Disk, G: Gate>(
    rt: &R,
    alloc: Global,
    store: &Store<D>,
    items: &[Item],
    gate: &G,
) -> Result<Vec<Found>, Unread>
    requires { All (IsThere D.is_told (records_of store.now)) items.now }
    ensures { IfOk result (λ found.
        AreFound D.is_told (records_of store.now) items.now found.items) }
{
    let mut bodies = Reader::new(alloc, store);
    match scrub(rt, alloc, &mut bodies, items, gate) {
        Ok(found) => Ok(found),
        Err(ScrubErr::NoBody { .. }) => unreachable!(),
        Err(ScrubErr::BodyFault { .. }) => Err(Unread::Failed),
        Err(ScrubErr::OutOfMemory) => Err(Unread::OutOfMemory),
    }
}

/// What is found of these bodies, by as many readers as they need.
fn report_on<R: Threads + Sync, D: Disk, G: Gate>(
    rt: &R,
    alloc: Global,
    store: &Store<D>,
    items: &[Item],
    gate: &G,
) -> Result<Vec<Found>, Unread>
    requires { All (IsThere D.is_told (records_of store.now)) items.now }
    ensures { IfOk result (λ report.
        AreFound D.is_told (records_of store.now) items.now report.items) }
{
    let mut report = Vec::new(alloc);
    let mut rest = items;
    while !rest.is_empty() {
        let (now, later) = rest.split_at(rest.len().min(BATCH));
        let mut found = found_by(rt, alloc, store, now, gate)?;
        report.append(&mut found)?;
        rest = later;
    }
    Ok(report)
}

/// Checks the bodies that the heads of a store name. Nothing is written to it.
pub fn check_bodies<R: Threads + Sync, D: Disk, G: Gate>(
    rt: &R,
    alloc: Global,
    store: &Store<D>,
    gate: &G,
) -> Result<Findings, Unread>
    requires { AreRecords (records_of store.now) }
    ensures { IfOk result (HasFound D.is_told (records_of store.now)) }
{
    loaded_bodies_are_there();
    let folded = fold(alloc, store.records())?;
    let items = items(alloc, &folded, store.records())?;
    let report = report_on(rt, alloc, store, items.as_slice(), gate)?;
    let seals = seals_of(alloc, items.as_slice(), report.as_slice())?;
    Ok(Findings { report, seals })
}
