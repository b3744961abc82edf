ghost use Rattle.std.specs.Prelude.{◌≡◌, ◌≤◌, ◌<◌, ◌+◌, ◌-◌, ◌^◌, ◌∷◌, [], IsTrue, IfOk, OnOk, is_some, length};
ghost use Rattle.std.specs.List.{range_with_len};
ghost use Rattle.xt_base.specs.FieldLimits.{FitsBytes};
ghost use Rattle.xt_messages.specs.Limits.{FitsRecord};
ghost use Rattle.xt_journal.specs.Append.{IsWithAllOrNone};
ghost use Rattle.object_store.specs.Access as stored;
ghost use Rattle.object_store.specs.Texts.{texts_of};
ghost use Rattle.ronly_replica.specs.Pins as rows;
ghost use Rattle.ronly_replica.specs.Pins.{FitsPin};
ghost use Rattle.ronly_replica.specs.Access.{pin_of, records_of, disk_of};
ghost use Rattle.xt_protocol.specs.Folds.{fold_of, IsInPlace};
ghost use Rattle.ronly_replica.specs.Disks.{HasFetchCause, Leaves, without_bytes};
ghost use Rattle.ronly_replica.specs.Holding.{HoldEnds, KeepsFrozen, LeavesHeld, LeavesTaken, PutEnds, ReadEnds, ShowsFrozen, TakeEnds};
ghost use Rattle.ronly_replica.specs.Making as making;
ghost use Rattle.ronly_replica.specs.Making.{LoadEnds, MakeEnds, MakeLeaves, ShownEnds, WaitEnds};

use crate::errors::{MakeErr, RonlyErr};
use crate::origin::{Fetched, Origin};
use crate::pin::Pin;
use crate::replica::Ronly;
use crate::showing::{ShowErr, range_of};
use disk_model::Disk;
use object_store::{AppendErr, PutAllErr, StageErr, Store, Waiting};
use replica_records::fold;
use std::alloc::Global;
use xt_base::{Octets, OutOfMemory};
use xt_messages::{FileRow, Folded, Record};

/// What a file's row is pinned to, if it has a place.
fn pin_in(row: &FileRow) -> Option<Pin>
    ensures { result ≡ rows.pin_of row.now }
{
    match row.location {
        Some(location) => Some(Pin {
            file: row.file,
            location,
            count: row.head.stamp.count,
            mark: row.head.mark,
        }),
        None => None,
    }
}

/// How many files have a place, and what the last one of them is pinned to.
fn pins_in(folded: &Folded) -> (usize, Option<Pin>)
    ensures count { result.0 ≡ length (rows.pins_of folded.now.files) }
    ensures last { result.1 ≡ rows.last_of (rows.pins_of folded.now.files) }
{
    let mut pins = 0;
    let mut last = None;
    for row in folded.files.as_slice() {
        if let Some(pin) = pin_in(row) {
            pins += 1;
            last = Some(pin);
        }
    }
    (pins, last)
}

/// How many objects have bytes of the first so many.
fn objects_below(end: u64, stripe: u32) -> u64
    requires { 1 ≤ stripe }
    ensures { result ≡ rows.objects_below stripe end }
{
    if end == 0 {
        0
    } else {
        (end - 1) / u64::from(stripe) + 1
    }
}

/// Lets the records of a pin wait to be put after those of a store: where its content is kept, and then its head without versions.
fn waiting_for<D: Disk>(alloc: Global, store: &Store<D>, pin: &Pin) -> Result<Waiting, StageErr>
    requires { FitsPin pin.now }
    ensures { WaitEnds store.now pin.now result }
{
    let mut waiting = Waiting::new(alloc);
    match waiting.stage(alloc, store, &pin.view()) {
        Ok(()) => {}
        Err(error) => return Err(error),
    }
    match waiting.stage(alloc, store, &pin.head(alloc)) {
        Ok(()) => Ok(waiting),
        Err(error) => Err(error),
    }
}

impl<D: Disk> Ronly<D> {
    /// A replica that is pinned so, in a store that keeps no file with a place. The two records of the pin are put at once, so that a crash
    /// leaves a replica or the store as it was.
    pub fn make(alloc: Global, store: Store<D>, pin: &Pin) -> Result<Ronly<D>, MakeErr<D>>
        requires fits { FitsPin pin.now }
        requires empty { making.pins_in (stored.records_of store) ≡ [] }
        ensures makes { MakeEnds store pin.now result }
        ensures leaves { MakeLeaves store pin.now result }
    {
        let waiting = match waiting_for(alloc, &store, pin) {
            Ok(waiting) => waiting,
            Err(StageErr::Full { need, limit }) => return Err(MakeErr::Full { store, need, limit }),
            Err(StageErr::OutOfMemory) => {
                let disk = store.close();
                return Err(MakeErr::OutOfMemory { disk });
            }
        };
        match store.put_all(waiting) {
            Ok(store) => Ok(Ronly {
                alloc,
                store,
                pin: *pin,
            }),
            Err(PutAllErr::Broken { count, disk }) => Err(MakeErr::Broken { count, disk }),
            Err(PutAllErr::OutOfMemory { disk }) => Err(MakeErr::OutOfMemory { disk }),
        }
    }

    /// The replica in a store. `PinStore` comes exactly where the number of files with a place in it isn't 1.
    pub fn load(alloc: Global, store: Store<D>) -> Result<Ronly<D>, RonlyErr<D>>
        ensures { LoadEnds store result }
    {
        let folded: Result<Folded, OutOfMemory> = fold(alloc, store.records());
        match folded {
            Err(_) => Err(RonlyErr::Unloaded { store }),
            Ok(folded) => {
                let (pins, last) = pins_in(&folded);
                match last {
                    Some(pin) if pins == 1 => Ok(Ronly { alloc, store, pin }),
                    _ => Err(RonlyErr::PinStore {
                        store,
                        pins: pins as u64,
                    }),
                }
            }
        }
    }

    /// What it is pinned to.
    pub fn pin(&self) -> Pin
        ensures { result ≡ pin_of self.now }
    {
        self.pin
    }

    /// Whether an object is held.
    fn is_held(&self, object: u64) -> bool
        ensures { result ≡ is_some (rows.held_in (pin_of self.now) (records_of self.now) object) }
    {
        let version = self.pin.version();
        self.store
            .log()
            .place(&self.pin.file, object, &version)
            .is_some()
    }

    /// Puts a record that can come at any time.
    fn put(self, rec: &Record) -> Result<Ronly<D>, RonlyErr<D>>
        requires fits { FitsRecord rec.now }
        requires placed { IsInPlace (fold_of (records_of self)) rec.now }
        ensures puts { PutEnds self rec.now result }
        ensures leaves { Leaves self (IsWithAllOrNone (texts_of (records_of self))
            (texts_of (rec.now ∷ []))) result }
    {
        let Ronly { alloc, store, pin } = self;
        match store.put(alloc, rec) {
            Ok(store) => Ok(Ronly { alloc, store, pin }),
            Err(AppendErr::Broken { count, disk }) => Err(RonlyErr::Broken { count, disk }),
            Err(AppendErr::Full { store, need, limit }) => Err(RonlyErr::Full {
                replica: Ronly { alloc, store, pin },
                need,
                limit,
            }),
            Err(AppendErr::OutOfMemory { store }) => Err(RonlyErr::OutOfMemory {
                replica: Ronly { alloc, store, pin },
            }),
        }
    }

    /// Puts an object that was fetched, where that was at the pin's count.
    fn take(self, object: u64, fetched: Fetched) -> Result<Ronly<D>, RonlyErr<D>>
        requires { FitsBytes fetched.bytes }
        ensures takes { TakeEnds self object fetched result }
        ensures leaves { Leaves self
            (LeavesTaken (pin_of self) (records_of self) object fetched) result }
    {
        let Fetched { count, bytes, .. } = fetched;
        if count != self.pin.count {
            return Err(RonlyErr::Moved {
                replica: self,
                count,
            });
        }
        let rec = self.pin.stage(object, bytes);
        self.put(&rec)
    }

    /// Fetches an object and puts it, where it isn't held.
    fn hold<O: Origin>(self, origin: &mut O, object: u64) -> Result<Ronly<D>, RonlyErr<D>>
        requires { O.is_ready origin.old }
        ensures holds { HoldEnds O.fetches self origin.old origin.new (object ∷ []) result }
        ensures leaves { Leaves self (LeavesHeld O.fetches D.is_told (pin_of self)
            (records_of self) origin.old (object ∷ [])) result }
        ensures ready { IfOk result (λ next. O.is_ready origin.new) }
        ensures references { O.references origin.new ≡ O.references origin.old }
        ensures cause { HasFetchCause (O.link_faults origin.old) (O.link_faults origin.new)
            (O.clock_faults origin.old) (O.clock_faults origin.new) result }
    {
        if self.is_held(object) {
            return Ok(self);
        }
        match origin.fetch(object) {
            Ok(fetched) => self.take(object, fetched),
            Err(fault) => {
                if fault.is_memory() {
                    return Err(RonlyErr::OutOfMemory { replica: self });
                }
                Err(RonlyErr::Origin {
                    replica: self,
                    fault,
                })
            }
        }
    }

    /// Fetches the objects from the first up to the end that aren't held, in order up to the first refusal.
    fn hold_all<O: Origin>(
        self,
        origin: &mut O,
        first: u64,
        end: u64,
    ) -> Result<Ronly<D>, RonlyErr<D>>
        requires { O.is_ready origin.old }
        ensures holds { HoldEnds O.fetches self origin.old origin.new
            (range_with_len first (end - first)) result }
        ensures leaves { Leaves self (LeavesHeld O.fetches D.is_told (pin_of self)
            (records_of self) origin.old (range_with_len first (end - first))) result }
        ensures references { O.references origin.new ≡ O.references origin.old }
        ensures cause { HasFetchCause (O.link_faults origin.old) (O.link_faults origin.new)
            (O.clock_faults origin.old) (O.clock_faults origin.new) result }
    {
        let mut replica = self;
        for object in first..end {
            match replica.hold(origin, object) {
                Ok(next) => replica = next,
                Err(error) => return Err(error),
            }
        }
        Ok(replica)
    }

    /// The bytes of a range, as they are held.
    fn shown(self, from: u64, len: u64) -> Result<(Ronly<D>, Octets), RonlyErr<D>>
        requires range { from + len ≤ 2 ^ 48 }
        ensures { ShownEnds self from len result }
    {
        match range_of(self.alloc, &self.store, &self.pin, from, len) {
            Ok(bytes) => Ok((self, bytes)),
            Err(ShowErr::OutOfMemory) => Err(RonlyErr::OutOfMemory { replica: self }),
            Err(ShowErr::Failed) => {
                let mut disk = self.store.close();
                let count = disk.count_fault();
                Err(RonlyErr::Bodies { count, disk })
            }
        }
    }

    /// The bytes of a range below the pinned size. The range's objects below that size that aren't held are fetched, in order up to the
    /// first refusal, and each is put.
    pub fn read<O: Origin>(
        self,
        origin: &mut O,
        at: u64,
        len: u64,
    ) -> Result<(Ronly<D>, Octets), RonlyErr<D>>
        requires range { at + len ≤ 2 ^ 48 }
        requires ready { O.is_ready origin.old }
        ensures reads { ReadEnds O.fetches self origin.old origin.new at len result }
        ensures frozen { IfOk result (ShowsFrozen O.content O.stripe self origin.old at len) }
        ensures leaves { Leaves self (LeavesHeld O.fetches D.is_told (pin_of self)
            (records_of self) origin.old (rows.objects_of (pin_of self) at len))
            (without_bytes result) }
        ensures references { O.references origin.new ≡ O.references origin.old }
        ensures cause { HasFetchCause (O.link_faults origin.old) (O.link_faults origin.new)
            (O.clock_faults origin.old) (O.clock_faults origin.new) (without_bytes result) }
    {
        let alloc = self.alloc;
        let stripe = self.pin.location.stripe;
        let end = (at + len).min(self.pin.mark.size);
        if at >= end {
            return Ok((self, Octets::new(alloc)));
        }
        match self.hold_all(origin, at / u64::from(stripe), objects_below(end, stripe)) {
            Ok(replica) => replica.shown(at, end - at),
            Err(error) => Err(error),
        }
    }

    /// Fetches all objects below the pinned size that aren't held, in order up to the first refusal, and puts each.
    pub fn fill<O: Origin>(self, origin: &mut O) -> Result<Ronly<D>, RonlyErr<D>>
        requires { O.is_ready origin.old }
        ensures holds { HoldEnds O.fetches self origin.old origin.new
            (rows.objects_of (pin_of self) 0 (pin_of self).mark.size) result }
        ensures frozen { IfOk result (KeepsFrozen O.content O.stripe self origin.old) }
        ensures leaves { Leaves self (LeavesHeld O.fetches D.is_told (pin_of self)
            (records_of self) origin.old
            (rows.objects_of (pin_of self) 0 (pin_of self).mark.size)) result }
        ensures references { O.references origin.new ≡ O.references origin.old }
        ensures cause { HasFetchCause (O.link_faults origin.old) (O.link_faults origin.new)
            (O.clock_faults origin.old) (O.clock_faults origin.new) result }
    {
        let end = objects_below(self.pin.mark.size, self.pin.location.stripe);
        self.hold_all(origin, 0, end)
    }

    /// Hands the disk back.
    pub fn close(self) -> D
        ensures { result ≡ disk_of self }
    {
        self.store.close()
    }
}
