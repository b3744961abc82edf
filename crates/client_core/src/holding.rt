ghost use Rattle.std.specs.Prelude.{◌≡◌, [], OnOk, OnErr};
ghost use Rattle.std.specs.Option.{option_copied};
ghost use Rattle.client_rows.specs.Holding as spec;

use client_rows::HeldFile;
use std::alloc::Global;
use std::collections::BTreeMap;
use std::marker::Model;
use truncate_epochs::merge;
use xt_base::{OutOfMemory, SizeMark};
use xt_messages::Capability;

/// What is held of files, rising by their numbers.
#[derive(Drop)]
pub struct HeldFiles {
    files: BTreeMap<u64, HeldFile>,
}

impl Model for HeldFiles {
    ghost use Rattle.client_rows.specs.Holding.{Held};

    ghost Value = { Held };

    ghost view = { λ held. held.files.entries };
}

impl HeldFiles {
    /// Nothing is held.
    pub fn new(alloc: Global) -> HeldFiles
        ensures { result ≡ [] }
    {
        HeldFiles {
            files: BTreeMap::new(alloc),
        }
    }

    /// What is held of the file of this number.
    pub fn get(&self, file: u64) -> Option<&HeldFile>
        ensures { option_copied result ≡ spec.held_of self.now file }
    {
        self.files.get(&file)
    }

    /// The mark of a file, with this one joined.
    pub fn mark_with(&self, file: u64, mark: SizeMark) -> SizeMark
        ensures { result ≡ spec.mark_with self.now file mark }
    {
        match self.get(file).copied() {
            None => mark,
            Some(held) => merge(held.mark, mark),
        }
    }

    /// Holds this capability of its file from now on, and joins the mark.
    pub fn hold(&mut self, capability: &Capability, mark: SizeMark) -> Result<(), OutOfMemory>
        ensures ok { OnOk result (self.new ≡ spec.holds self.old capability.now mark) }
        ensures err { OnErr result (self.new ≡ self.old) }
    {
        let file = capability.file.number;
        let held = HeldFile {
            capability: *capability,
            mark: self.mark_with(file, mark),
        };
        self.files.insert(file, held)?;
        Ok(())
    }

    /// Joins a mark with that of a file that is held.
    pub fn join(&mut self, file: u64, mark: SizeMark)
        ensures { self.new ≡ spec.joins self.old file mark }
    {
        let Some(held) = self.get(file).copied() else {
            return;
        };
        let held = HeldFile {
            capability: held.capability,
            mark: merge(held.mark, mark),
        };
        match self.files.insert(file, held) {
            Ok(_) => {}
            Err(_) => unreachable!(),
        }
    }
}
