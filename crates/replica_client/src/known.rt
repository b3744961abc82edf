ghost use Rattle.std.specs.Prelude.{◌≡◌, [], OnOk, OnErr};
ghost use Rattle.client_rows.specs.Clients.{known_in, with_known, aimed, raised};

use client_rows::KnownFile;
use std::alloc::Global;
use std::collections::BTreeMap;
use std::marker::Model;
use xt_base::{FileId, NodeId, OutOfMemory};

/// Nothing is known of a file.
const UNKNOWN: KnownFile = KnownFile {
    target: None,
    epoch: 0,
};

/// The files that a client knows, rising, with what it knows of each.
#[derive(Drop)]
pub struct KnownFiles {
    files: BTreeMap<FileId, KnownFile>,
}

impl Model for KnownFiles {
    ghost use Rattle.client_rows.specs.Clients.{KnownFiles as Known};

    ghost Value = { Known };

    ghost view = { λ known. known.files.entries };
}

impl KnownFiles {
    /// None is known.
    pub fn new(alloc: Global) -> KnownFiles
        ensures { result ≡ [] }
    {
        KnownFiles {
            files: BTreeMap::new(alloc),
        }
    }

    /// What is known of a file.
    pub fn file(&self, file: &FileId) -> KnownFile
        ensures { result ≡ known_in self.now file.now }
    {
        self.files.get(file).copied().unwrap_or(UNKNOWN)
    }

    /// Knows this of a file from now on.
    pub fn put(&mut self, file: FileId, known: KnownFile) -> Result<(), OutOfMemory>
        ensures ok { OnOk result (self.new ≡ with_known self.old file known) }
        ensures err { OnErr result (self.new ≡ self.old) }
    {
        self.files.insert(file, known)?;
        Ok(())
    }
}

/// The file with this first target.
pub fn aimed(known: KnownFile, node: NodeId) -> KnownFile
    ensures { result ≡ aimed node known }
{
    KnownFile {
        target: Some(node),
        epoch: known.epoch,
    }
}

/// The file with at least this truncate epoch.
pub fn raised(known: KnownFile, epoch: u64) -> KnownFile
    ensures { result ≡ raised epoch known }
{
    KnownFile {
        target: known.target,
        epoch: known.epoch.max(epoch),
    }
}
