//! Where the entries of each file stand in a trace.
ghost use Rattle.std.specs.Prelude.{◌≡◌, ◌++◌, ◌∷◌, ◌==◌, ◌+◌, ◌*◌, ◌^◌, ◌≤◌, ℕ, Bool, List, [], OnOk, IfOk, option_map, length, if◌then◌else◌};
ghost use Rattle.std.specs.List.{sum_by};
ghost use Rattle.std.specs.Option.{option_or};
ghost use Rattle.time_line.specs.TimeLine.{location_in, location_told};
ghost use Rattle.judging.specs.Dealt.{file_called, file_of, is_common, ticks_of};
ghost use Rattle.trace_judge.specs.Deals.{places_from, ticks_from, is_of, location_at, places_in};
ghost use Rattle.trace_judge.specs.Rows.{call_in};
ghost use Rattle.trace_judge.specs.Views.{call_of};

use crate::calls::Calls;
use std::alloc::{AllocError, Global};
use std::collections::BTreeMap;
use time_line::Entry;
use xt_base::{NodeId, OpId};
use xt_messages::{Call, Location};

/// Where each file is that a trace reports; of two entries that report it the first counts.
#[derive(Drop)]
pub struct Locations<'a> {
    pub rows: BTreeMap<u64, &'a Location>,
}

impl<'a> Locations<'a> {
    /// One entry more. An error means that memory ran out.
    fn take(&mut self, e: &'a Entry) -> Result<(), AllocError>
        ensures { OnOk result ((file : ℕ) → location_at self.new.rows file ≡
            option_or (location_at self.old.rows file) (location_told file e.now)) }
    {
        if let Entry::File { number, location } = e {
            if !self.rows.contains_key(number) {
                self.rows.insert(*number, location)?;
            }
        }
        Ok(())
    }

    /// The locations that a trace reports. An error means that memory ran out.
    pub fn of(alloc: Global, entries: &'a [Entry]) -> Result<Locations<'a>, AllocError>
        ensures { IfOk result (λ locations. (file : ℕ) →
            location_at locations.rows file ≡ location_in file entries.now) }
    {
        let mut locations = Locations {
            rows: BTreeMap::new(alloc),
        };
        let mut rest = entries;
        while let [e, behind @ ..] = rest {
            locations.take(e)?;
            rest = behind;
        }
        Ok(locations)
    }

    /// Where the file is, if that is reported.
    pub fn get(&self, file: u64) -> Option<&'a Location>
        ensures { option_map (λ l. l.now) result ≡ location_at self.now.rows file }
    {
        self.rows.get(&file).copied()
    }
}

/// The file on whose content the call is, if it is on one.
fn file_called(call: Option<&Call>) -> Option<u64>
    ensures { result ≡ file_called (call_of call.entry) }
{
    match call {
        Some(Call::Read { file, .. }) => Some(*file),
        Some(Call::Write { file, .. }) => Some(*file),
        Some(Call::Truncate { file, .. }) => Some(*file),
        _ => None,
    }
}

/// The file of the call with this id, if it is on one.
fn file_of_call(calls: &Calls, client: NodeId, number: u64) -> Option<u64>
    ensures { result ≡ file_called (call_in calls.now.rows (record { client = client; number = number })) }
{
    file_called(calls.get(OpId { client, number }))
}

/// The file of an entry, if it is of one, where these are the calls of the trace.
fn file_of(calls: &Calls, e: &Entry) -> Option<u64>
    ensures { result ≡ file_of (λ id. call_in calls.now.rows id) e.now }
{
    match e {
        Entry::File { number, .. } => Some(*number),
        Entry::Begin { client, number, .. } => file_of_call(calls, *client, *number),
        Entry::Held { file, .. } => Some(*file),
        Entry::Active { file, .. } => Some(*file),
        Entry::Issue { file, .. } => Some(*file),
        Entry::Commit { file, .. } => Some(*file),
        Entry::Answer { file, .. } => Some(*file),
        Entry::Done { client, number, .. } => file_of_call(calls, *client, *number),
        _ => None,
    }
}

/// The places of each file's entries, counted from 0, in order.
#[derive(Drop)]
pub struct Places {
    pub rows: BTreeMap<u64, Vec<usize>>,
}

impl Places {
    /// One place more. An error means that memory ran out.
    fn put(&mut self, file: u64, place: usize) -> Result<(), AllocError>
        ensures { OnOk result ((f : ℕ) → places_in self.new.rows f ≡
            (if file == f then places_in self.old.rows f ++ place ∷ [] else places_in self.old.rows f)) }
    {
        self.rows.entry(file)?.or_default().push(place)?;
        Ok(())
    }

    /// One entry more, of a trace with these calls. An error means that memory ran out.
    fn take(&mut self, calls: &Calls, e: &Entry, place: usize) -> Result<(), AllocError>
        ensures { OnOk result ((file : ℕ) → places_in self.new.rows file ≡
            (if is_of (λ id. call_in calls.now.rows id) file e.now
            then places_in self.old.rows file ++ place ∷ [] else places_in self.old.rows file)) }
    {
        match file_of(calls, e) {
            Some(file) => self.put(file, place),
            None => Ok(()),
        }
    }

    /// The places of each file's entries in a trace with these calls. An error means that memory ran out.
    pub fn of(alloc: Global, entries: &[Entry], calls: &Calls) -> Result<Places, AllocError>
        ensures { IfOk result (λ places. (file : ℕ) → places_in places.rows file ≡
            places_from (is_of (λ id. call_in calls.now.rows id) file) 0 entries.now) }
    {
        let mut places = Places {
            rows: BTreeMap::new(alloc),
        };
        let mut place = 0usize;
        let mut rest = entries;
        while let [e, behind @ ..] = rest {
            places.take(calls, e, place)?;
            place += 1;
            rest = behind;
        }
        Ok(places)
    }

    /// The places of a file's entries.
    pub fn get(&self, file: u64) -> &[usize]
        ensures { result.now ≡ places_in self.now.rows file }
    {
        match self.rows.get(&file) {
            Some(places) => places.as_slice(),
            None => &[],
        }
    }
}

/// Whether the entry is of every file: a node starts or stops, or its clock is set.
fn is_common(e: &Entry) -> bool
    ensures { result ≡ is_common e.now }
{
    matches!(
        e,
        Entry::Clock { .. } | Entry::Up { .. } | Entry::Down { .. }
    )
}

/// Puts the place of the entry after the others, if it is of every file. An error means that memory ran out.
fn note_common(places: &mut Vec<usize>, e: &Entry, place: usize) -> Result<(), AllocError>
    ensures { OnOk result (places.new.items ≡
        (if is_common e.now then places.old.items ++ place ∷ [] else places.old.items)) }
{
    if is_common(e) {
        places.push(place)?;
    }
    Ok(())
}

/// The places of the entries of every file, counted from 0, in order. An error means that memory ran out.
pub fn common_places(alloc: Global, entries: &[Entry]) -> Result<Vec<usize>, AllocError>
    ensures { IfOk result (λ places. places.items ≡ places_from is_common 0 entries.now) }
{
    let mut places = Vec::new(alloc);
    let mut place = 0usize;
    let mut rest = entries;
    while let [e, behind @ ..] = rest {
        note_common(&mut places, e, place)?;
        place += 1;
        rest = behind;
    }
    Ok(places)
}

/// How far the running clocks advance by an entry, in milliseconds.
fn ticks_of(e: &Entry) -> u64
    ensures { result ≡ ticks_of e.now }
{
    match e {
        Entry::Tick { count } => *count,
        _ => 0,
    }
}

/// How far the running clocks have advanced before each entry, in milliseconds. An error means that memory ran out.
pub fn ticks_before(alloc: Global, entries: &[Entry]) -> Result<Vec<u128>, AllocError>
    ensures ticks { IfOk result (λ ticks. ticks.items ≡ ticks_from 0 entries.now) }
    ensures few { OnOk result (sum_by ticks_of entries.now ≤ length entries.now * 2 ^ 64) }
{
    let mut ticks = Vec::new(alloc);
    let mut sum = 0u128;
    let mut rest = entries;
    while let [e, behind @ ..] = rest {
        ticks.push(sum)?;
        sum += u128::from(ticks_of(e));
        rest = behind;
    }
    Ok(ticks)
}
