//! All files with a change at a metadata server.
ghost use Rattle.std.specs.Prelude.{◌≡◌, ◌<◌, ◌≤◌, ◌+◌, ◌^◌, ◌++◌, [], None, Some, MatchOption, IfOk, OnOk, OnErr, length, take, drop};
ghost use Rattle.std.specs.List.{insert};
ghost use Rattle.std.specs.Vec.{vec_len, vec_capacity};
ghost use Rattle.xt_protocol.specs.Turns as turns;
ghost use Rattle.xt_protocol.specs.Turns.{joined};
ghost use Rattle.change_rows.specs.Coordinating as rows;
ghost use Rattle.list_coordinator.specs.Places.{ChangesRise, IsChangePlace, rise_prop};
ghost use Rattle.list_coordinator.specs.Wakes.{asked_alone, asked_before, chosen_at, chosen_of, first_ripe};

use crate::carried::Carried;
use crate::messages::{chosen, install_each};
use change_rows::Choice;
use std::alloc::Global;
use std::mem;
use xt_base::{COUNTS, FileId, Members, NodeId, OptionalBox, OutOfMemory, Seq, Times};
use xt_messages::{FileHead, Location, Msgs};
use xt_protocol::{Turned, quiet, sends};

/// The files with a change at a metadata server, by volume and then by number. A file is found by halves.
#[derive(Drop)]
pub struct Changes {
    pub files: Vec<Carried>,
    ghost rise: { ChangesRise files.items } by { rise_prop files.items },
}

/// A choice, and where the file stands that it is for.
#[derive(Drop)]
pub struct Ripe {
    place: usize,
    choice: Choice,
}

/// Where the change of a file stands, or else where it belongs.
fn change_place(files: &[Carried], file: &FileId) -> Result<usize, usize>
    requires { ChangesRise files.now }
    ensures { IsChangePlace files.now file.now result }
{
    files.binary_search_by_key(file, |carried| carried.file())
}

/// Puts a change in the place of another one, which is dropped by one call.
fn put(place: &mut Carried, carried: Carried)
    ensures { place.new ≡ carried }
{
    drop(mem::replace(place, carried));
}

/// Puts a change between the others, where there is room for it.
fn insert(files: &mut Vec<Carried>, place: usize, carried: Carried)
    requires place { place ≤ vec_len files.old }
    requires room { vec_len files.old < vec_capacity files.old }
    ensures { files.new.items ≡ insert files.old.items place carried }
{
    match files.insert(place, carried) {
        Ok(()) => {}
        Err(_) => unreachable!(),
    }
}

/// Takes these messages after the others.
fn add(outs: &mut Msgs, mut more: Msgs) -> Result<(), OutOfMemory>
    ensures { OnOk result (outs.new ≡ outs.old ++ more) }
{
    outs.items.append(&mut more.items)?;
    Ok(())
}

/// Whether the promised number of a choice's head is one: each is below 2^62.
fn has_number(choice: &Choice) -> bool
    ensures { result ≡ rows.has_number choice.now }
{
    choice.head.promised.number < COUNTS
}

/// What a file gets chosen at this clock, if it does. One that doesn't is asked again, after the messages; but nothing where no number is
/// left for its promise.
fn pass(
    alloc: Global,
    carried: &Carried,
    now: u64,
    outs: &mut Msgs,
) -> Result<Option<Choice>, OutOfMemory>
    ensures chosen { IfOk result (λ chosen. chosen ≡ chosen_of (rows.ripe now carried.now)) }
    ensures asked { OnOk result (outs.new ≡ outs.old ++ asked_alone now carried.now) }
{
    let ripe = carried.ripe(now)?;
    match ripe {
        None => {
            let more = carried.reminders(alloc)?;
            add(outs, more)?;
            Ok(None)
        }
        Some(choice) => {
            if has_number(&choice) {
                Ok(Some(choice))
            } else {
                Ok(None)
            }
        }
    }
}

/// The first file that gets a choice at this clock, if one does. What those before it are asked again comes after the messages.
fn first_ripe(
    alloc: Global,
    files: &[Carried],
    now: u64,
    outs: &mut Msgs,
) -> Result<Option<Ripe>, OutOfMemory>
    ensures ripe { IfOk result (λ ripe. ripe ≡ first_ripe now files.now) }
    ensures asked { OnOk result (outs.new ≡ outs.old ++ asked_before now files.now) }
{
    for (place, carried) in files.iter().enumerate() {
        let chosen = pass(alloc, carried, now, outs)?;
        if let Some(choice) = chosen {
            return Ok(Some(Ripe { place, choice }));
        }
    }
    Ok(None)
}

/// What all of these are asked again comes after the messages.
fn ask_all(alloc: Global, files: &[Carried], outs: &mut Msgs) -> Result<(), OutOfMemory>
    ensures { OnOk result (outs.new ≡ outs.old ++ rows.all_reminders files.now) }
{
    for carried in files {
        let more = carried.reminders(alloc)?;
        add(outs, more)?;
    }
    Ok(())
}

impl Changes {
    /// No file has a change.
    pub fn new(alloc: Global) -> Changes
        ensures { result.files.items ≡ [] }
    {
        Changes {
            files: Vec::new(alloc),
        }
    }

    /// The change of a file, if it has one.
    pub fn of(&self, file: &FileId) -> Option<&Carried>
        ensures { MatchOption result (rows.running_of self.now.files.items file.now ≡ None)
            (λ carried. rows.running_of self.now.files.items file.now ≡ Some carried.now) }
    {
        match change_place(self.files.as_slice(), file) {
            Ok(place) => Some(&self.files[place]),
            Err(_) => None,
        }
    }

    /// Makes room for one more file with a change. The files stay.
    pub fn reserve(&mut self) -> Result<(), OutOfMemory>
        ensures files { self.new.files.items ≡ self.old.files.items }
        ensures room { OnOk result (vec_len self.new.files < vec_capacity self.new.files) }
    {
        self.files.reserve(1)
    }

    /// A change that was asked for begins, from where the file is, at a version below 2^31, to these members; one that has ended makes way
    /// for it. There is room for it, so it takes no memory.
    pub fn begin(&mut self, alloc: Global, times: Times, file: FileId, old: Location, next: Members)
        requires version { old.version < 2 ^ 31 }
        requires room { vec_len self.old.files < vec_capacity self.old.files }
        ensures { self.new.files.items ≡ rows.begins times self.old.files.items file old next }
    {
        let carried = Carried::begin(alloc, times, file, old, next);
        match change_place(self.files.as_slice(), &file) {
            Ok(place) => put(&mut self.files[place], carried),
            Err(place) => insert(&mut self.files, place, carried),
        }
    }

    /// The change of a file that is unlinked ends, if it has one.
    pub fn end(&mut self, file: &FileId)
        ensures { self.new.files.items ≡ rows.without_file self.old.files.items file.now }
    {
        if let Ok(place) = change_place(self.files.as_slice(), file) {
            drop(self.files.remove(place));
        }
    }

    /// What was recorded as chosen for a file, where it has a change.
    pub fn take_choice(&mut self, choice: Choice)
        ensures { self.new.files.items ≡ rows.after_choice self.old.files.items choice }
    {
        match change_place(self.files.as_slice(), &choice.file) {
            Ok(place) => self.files[place].choose(choice),
            Err(_) => drop(choice),
        }
    }

    /// A list was recorded as the file's, where it has a change.
    pub fn take_listing(&mut self, file: &FileId)
        ensures { self.new.files.items ≡ rows.after_listing self.old.files.items file.now }
    {
        if let Ok(place) = change_place(self.files.as_slice(), file) {
            self.files[place].list();
        }
    }

    /// Closed: it counts for a file without a choice. The promised number is below 2^62. After an error the changes are as they were.
    pub fn count_closing(
        &mut self,
        now: u64,
        from: NodeId,
        file: &FileId,
        version: u32,
        head: &FileHead,
    ) -> Result<(), OutOfMemory>
        requires clock { now < 2 ^ 62 }
        requires promised { head.now.promised.number < 2 ^ 62 }
        ensures ok { OnOk result (self.new.files.items ≡
            (rows.closing_comes self.old.files.items now from file.now version head.now).running) }
        ensures err { OnErr result (self.new.files.items ≡ self.old.files.items) }
    {
        match change_place(self.files.as_slice(), file) {
            Ok(place) => self.files[place].count_closing(now, from, version, head),
            Err(_) => Ok(()),
        }
    }

    /// Installed: it counts for a file with a choice. The one that makes a majority of the new list ends the change, once. After an error
    /// the changes are as they were.
    pub fn count_installation(
        &mut self,
        alloc: Global,
        from: NodeId,
        file: &FileId,
        version: u32,
    ) -> Result<Turned, OutOfMemory>
        ensures ok { IfOk result (λ turned.
            rows.installation_comes self.old.files.items from file.now version ≡
            record { running = self.new.files.items; turned = turned }) }
        ensures err { OnErr result (self.new.files.items ≡ self.old.files.items) }
    {
        match change_place(self.files.as_slice(), file) {
            Ok(place) => self.files[place].count_installation(alloc, from, version),
            Err(_) => Ok(quiet(alloc)),
        }
    }

    /// Wanted: a new member of a file with a choice is to install it.
    pub fn wanted(&self, alloc: Global, from: NodeId, file: &FileId) -> Result<Turned, OutOfMemory>
        ensures { IfOk result (λ turned. turned ≡
            (rows.wanted_comes self.now.files.items from file.now).turned) }
    {
        match self.of(file) {
            Some(carried) => carried.wanted(alloc, from),
            None => Ok(quiet(alloc)),
        }
    }

    /// The file that stands at this place gets the choice: it is kept, and goes to each of the new members after these messages; the files
    /// after it are asked again. After an error the changes are as they were.
    fn choose(&mut self, alloc: Global, ripe: Ripe, mut outs: Msgs) -> Result<Turned, OutOfMemory>
        requires { ripe.place < length self.old.files.items }
        ensures ok { IfOk result (λ turned.
            chosen_at (take ripe.place self.old.files.items) (drop ripe.place self.old.files.items)
            outs ripe.choice ≡
            record { running = self.new.files.items; turned = turned }) }
        ensures err { OnErr result (self.new.files.items ≡ self.old.files.items) }
    {
        let Ripe { place, choice } = ripe;
        let members = self.files[place].next().members;
        install_each(alloc, &choice, members.as_slice(), &mut outs)?;
        ask_all(alloc, &self.files.as_slice()[place + 1..], &mut outs)?;
        let rec = OptionalBox::some(alloc, chosen(alloc, &choice)?)?;
        self.files[place].choose(choice);
        Ok(Turned {
            rec,
            outs,
            marks: Seq::new(alloc),
        })
    }

    /// A Wake at a clock, after these messages: the first file that is ripe gets its choice, and all others are asked again. A file that is
    /// ripe and has no number left for its promise is neither given a choice nor asked. After an error the changes are as they were.
    pub fn wake(&mut self, alloc: Global, now: u64, mut outs: Msgs) -> Result<Turned, OutOfMemory>
        ensures turned { IfOk result (λ turned. turned ≡
            joined (turns.sends outs) (rows.woken now self.old.files.items).turned) }
        ensures running { OnOk result (self.new.files.items ≡
            (rows.woken now self.old.files.items).running) }
        ensures err { OnErr result (self.new.files.items ≡ self.old.files.items) }
    {
        match first_ripe(alloc, self.files.as_slice(), now, &mut outs)? {
            None => Ok(sends(alloc, outs)),
            Some(ripe) => self.choose(alloc, ripe, outs),
        }
    }
}
