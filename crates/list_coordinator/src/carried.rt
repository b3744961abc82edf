//! A file's change at a metadata server.
ghost use Rattle.std.specs.Prelude.{◌≡◌, ◌<◌, ◌^◌, [], None, Some, MatchOption, IfOk, OnOk, OnErr, false};
ghost use Rattle.change_rows.specs.Changes.{new_change, next_location};
ghost use Rattle.change_rows.specs.Coordinating as rows;
ghost use Rattle.list_coordinator.specs.Carrying.{installs};

use crate::messages::{install_to, installation, listing};
use change_rows::Choice;
use std::alloc::Global;
use std::marker::Model;
use std::mem;
use view_change::Change;
use xt_base::{FileId, MRC_NODE, Members, NodeId, OutOfMemory, Times};
use xt_messages::{FileHead, Location, Msgs, Payload};
use xt_protocol::{Turned, quiet, sends_one, to_each};

/// A file's change: what is counted of it since the server's start, what was chosen for it, and whether its list is the file's.
#[derive(Drop)]
pub struct Carried {
    change: Change,
    choice: Option<Choice>,
    listed: bool,
}

impl Model for Carried {
    ghost use Rattle.change_rows.specs.Coordinating.{Running};

    ghost Value = { Running };

    ghost view = { λ c. record { change = c.change; choice = c.choice; listed = c.listed } };
}

impl Carried {
    /// A change that was asked for, from where the file is, at a version below 2^31, to these members.
    pub fn begin(alloc: Global, times: Times, file: FileId, old: Location, next: Members) -> Carried
        requires { old.version < 2 ^ 31 }
        ensures { result ≡
            record { change = new_change times file old next; choice = None; listed = false } }
    {
        Carried {
            change: Change::new(alloc, times, file, old, next),
            choice: None,
            listed: false,
        }
    }

    /// The file.
    pub fn file(&self) -> FileId
        ensures { result ≡ rows.file_of self.now }
    {
        self.change.file()
    }

    /// Where the file was when the change was asked for.
    pub fn before(&self) -> Location
        ensures { result ≡ self.now.change.before }
    {
        self.change.before()
    }

    /// Where it is once the change has ended.
    pub fn next(&self) -> Location
        ensures { result ≡ next_location self.now.change }
    {
        self.change.next()
    }

    /// What was chosen for it, if anything was.
    pub fn choice(&self) -> Option<&Choice>
        ensures { MatchOption result (self.now.choice ≡ None) (λ choice. self.now.choice ≡
            Some choice.now) }
    {
        match &self.choice {
            Some(choice) => Some(choice),
            None => None,
        }
    }

    /// Whether the list of its choice is the file's.
    pub fn is_listed(&self) -> bool
        ensures { result ≡ self.now.listed }
    {
        self.listed
    }

    /// This is chosen for it.
    pub fn choose(&mut self, choice: Choice)
        ensures { self.new ≡ rows.with_choice choice self.old }
    {
        drop(mem::replace(&mut self.choice, Some(choice)));
    }

    /// The list of its choice is the file's from now on.
    pub fn list(&mut self)
        ensures { self.new ≡ rows.with_listed self.old }
    {
        self.listed = true;
    }

    /// The version to come, while the change runs.
    pub fn version_to_come(&self) -> Option<u32>
        ensures { result ≡ rows.version_of (Some self.now) }
    {
        if self.listed {
            None
        } else {
            Some(self.next().version)
        }
    }

    /// What the members are asked again: without a choice each old member that hasn't answered is to close the file, with one each new
    /// member that hasn't is to install it.
    pub fn reminders(&self, alloc: Global) -> Result<Msgs, OutOfMemory>
        ensures { IfOk result (λ outs. outs ≡ rows.reminders self.now) }
    {
        match &self.choice {
            None => {
                let payload = Payload::Close {
                    file: self.change.file(),
                    version: self.change.before().version,
                };
                let members = self.change.unclosed(alloc)?;
                to_each(alloc, MRC_NODE, members.items.as_slice(), &payload)
            }
            Some(choice) => {
                let payload = installation(alloc, choice)?;
                let members = self.change.uninstalled(alloc)?;
                to_each(alloc, MRC_NODE, members.items.as_slice(), &payload)
            }
        }
    }

    /// What the file is ready to choose at this clock, if it has no choice yet.
    pub fn ripe(&self, now: u64) -> Result<Option<Choice>, OutOfMemory>
        ensures { IfOk result (λ choice. choice ≡ rows.ripe now self.now) }
    {
        match &self.choice {
            None => self.change.ready(now),
            Some(_) => Ok(None),
        }
    }

    /// Counts a closing, where nothing is chosen yet. The promised number is below 2^62. Running out of memory leaves the change as it was.
    pub fn count_closing(
        &mut self,
        now: u64,
        from: NodeId,
        version: u32,
        head: &FileHead,
    ) -> Result<(), OutOfMemory>
        requires clock { now < 2 ^ 62 }
        requires promised { head.now.promised.number < 2 ^ 62 }
        ensures ok { OnOk result
            (self.new ≡ rows.counts_closing self.old now from version head.now self.old.choice) }
        ensures err { OnErr result (self.new ≡ self.old) }
    {
        match &self.choice {
            None => self.change.closed(now, from, version, head),
            Some(_) => Ok(()),
        }
    }

    /// Counts an installation, where a head is chosen. The one that makes a majority of the new list ends the change, once. Running out of
    /// memory leaves the change as it was.
    pub fn count_installation(
        &mut self,
        alloc: Global,
        from: NodeId,
        version: u32,
    ) -> Result<Turned, OutOfMemory>
        ensures ok { IfOk result (λ turned. installs self.old from version self.old.choice ≡
            record { running = self.new; turned = turned }) }
        ensures err { OnErr result (self.new ≡ self.old) }
    {
        let Some(choice) = &self.choice else {
            return Ok(quiet(alloc));
        };
        let ends = listing(alloc, choice)?;
        if self.change.installed(from, version) && !self.listed {
            self.listed = true;
            Ok(ends)
        } else {
            Ok(quiet(alloc))
        }
    }

    /// A new member can go on with what it is to install: it is told again.
    pub fn wanted(&self, alloc: Global, from: NodeId) -> Result<Turned, OutOfMemory>
        ensures { IfOk result (λ turned.
            turned ≡ (rows.wanted_of [] from (Some self.now)).turned) }
    {
        let Some(choice) = &self.choice else {
            return Ok(quiet(alloc));
        };
        if !choice.location.members.contains(from) {
            return Ok(quiet(alloc));
        }
        sends_one(alloc, install_to(alloc, choice, from)?)
    }
}
