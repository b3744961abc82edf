//! The declared files, found by their numbers.
ghost use Rattle.std.specs.Prelude.{◌≡◌, ◌++◌, ◌∷◌, [], None, OnOk, OnErr, length};
ghost use Rattle.world_spec.specs.World.{file_in};

use std::alloc::{AllocError, Global};
use std::collections::BTreeMap;
use std::marker::Model;
use world_spec::PlacedFile;
use xt_base::OutOfMemory;

/// The declared files, in order. Contracts see the list.
#[derive(Drop)]
pub struct DeclaredFiles {
    list: Vec<PlacedFile>,
    places: BTreeMap<u64, PlacedFile>,
}

impl Model for DeclaredFiles {
    ghost use Rattle.std.specs.Prelude.{List};
    ghost use Rattle.world_spec.specs.declared.PlacedFile.{PlacedFile};

    ghost Value = { List PlacedFile };

    ghost use Rattle.world_tables.specs.Places.{AreFilePlaces};

    ghost view = { λ files. files.list.items };

    ghost invariant = { λ files. AreFilePlaces files.list.items files.places };
}

impl DeclaredFiles {
    /// No file.
    pub fn new(alloc: Global) -> DeclaredFiles
        ensures { result ≡ [] }
    {
        DeclaredFiles {
            list: Vec::new(alloc),
            places: BTreeMap::new(alloc),
        }
    }

    /// How many there are.
    pub fn len(&self) -> usize
        ensures { result ≡ length self.now }
    {
        self.list.len()
    }

    /// The declared file of this number.
    pub fn find(&self, number: u64) -> Option<PlacedFile>
        ensures { result ≡ file_in self.now number }
    {
        self.places.get(&number).copied()
    }

    /// Declares a file whose number isn't declared yet.
    pub fn declare(&mut self, file: &PlacedFile) -> Result<(), OutOfMemory>
        requires { file_in self.old file.now.file.number ≡ None }
        ensures ok { OnOk result (self.new ≡ self.old ++ file.now ∷ []) }
        ensures err { OnErr result (self.new ≡ self.old) }
    {
        let number = file.file.number;
        self.list.push(*file)?;
        match self.places.insert(number, *file) {
            Ok(_) => Ok(()),
            Err(_) => {
                self.list.pop();
                Err(AllocError)
            }
        }
    }
}
