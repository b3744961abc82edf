ghost use Rattle.world_cores.specs.Cores.{core_of, IsOf};

use crate::calls;
use crate::files::files_of;
use client_core::Client;
use dir_core::Dir;
use mrc_core::Mrc;
use object_versions::Bodies;
use osd_core::Osd;
use std::alloc::{AllocError, Global};
use world_host::NodeCore;
use world_spec::PlacedFile;
use xt_base::{Boot, FileId, NodeId, Octets, OutOfMemory, Times};
use xt_messages::{Call, Event, Folded, Keep, Record};
use xt_protocol::Turned;

/// The key of a world: its capabilities are sealed under it.
pub const WORLD_KEY: [u8; 32] = [0; 32];

/// The code of a running node, by its role.
#[derive(Drop)]
pub enum Core {
    Osd(Osd),
    Client { alloc: Global, client: Client },
    Mrc(Mrc),
    Dir { alloc: Global, dir: Dir },
}

impl NodeCore for Core {
    ghost state = { core_of };

    ghost is_of = { IsOf };

    fn osd(
        alloc: Global,
        id: NodeId,
        times: Times,
        folded: Folded,
        boot: Boot,
        now: u64,
    ) -> Result<Core, OutOfMemory> {
        let key = Octets::of(alloc, &WORLD_KEY)?;
        Ok(Core::Osd(Osd::start(alloc, id, times, Some(key), folded, boot, now)?))
    }

    fn client(alloc: Global, id: NodeId, times: Times, now: u64) -> Core {
        Core::Client {
            alloc,
            client: Client::start(alloc, id, times, 1, now),
        }
    }

    fn mrc(alloc: Global, records: &[Record], now: u64) -> Result<Core, OutOfMemory> {
        Ok(Core::Mrc(Mrc::start(alloc, &WORLD_KEY, records, now)?))
    }

    fn dir(alloc: Global, records: &[Record]) -> Result<Core, OutOfMemory> {
        Ok(Core::Dir {
            alloc,
            dir: Dir::start(alloc, &WORLD_KEY, records)?,
        })
    }

    fn handle<B: Bodies>(
        &mut self,
        bodies: &mut B,
        clock: u64,
        ev: &Event,
    ) -> Result<Turned, OutOfMemory> {
        match self {
            Core::Osd(osd) => match osd.step(bodies, clock, ev) {
                Ok(turned) => Ok(turned),
                Err(_) => Err(AllocError),
            },
            Core::Client { client, .. } => client.step(clock, ev),
            Core::Mrc(mrc) => mrc.step(clock, ev),
            Core::Dir { alloc, dir } => dir.step(*alloc, ev),
        }
    }

    fn call(
        &mut self,
        clock: u64,
        call: &Call,
        declared: Option<PlacedFile>,
    ) -> Result<Option<Turned>, OutOfMemory> {
        match self {
            Core::Client { alloc, client } => {
                Ok(Some(calls::call(*alloc, client, clock, call, declared)?))
            }
            Core::Osd(_) | Core::Mrc(_) | Core::Dir { .. } => Ok(None),
        }
    }

    fn again(&mut self, clock: u64) -> Result<Option<Turned>, OutOfMemory> {
        match self {
            Core::Client { alloc, client } => Ok(Some(calls::again(*alloc, client, clock)?)),
            Core::Osd(_) | Core::Mrc(_) | Core::Dir { .. } => Ok(None),
        }
    }

    fn aim(&mut self, file: &FileId, node: NodeId) -> Result<(), OutOfMemory> {
        match self {
            Core::Client { client, .. } => client.aim(file, node),
            Core::Osd(_) | Core::Mrc(_) | Core::Dir { .. } => Ok(()),
        }
    }

    fn held(&self, number: u64) -> Option<PlacedFile> {
        match self {
            Core::Client { client, .. } => client.held(number).map(|held| PlacedFile {
                file: held.file,
                location: held.location,
            }),
            Core::Osd(_) | Core::Mrc(_) | Core::Dir { .. } => None,
        }
    }

    fn files(&self, alloc: Global) -> Result<Vec<PlacedFile>, OutOfMemory> {
        match self {
            Core::Mrc(mrc) => files_of(alloc, mrc),
            Core::Osd(_) | Core::Client { .. } | Core::Dir { .. } => Ok(Vec::new(alloc)),
        }
    }

    fn keep(&self) -> Result<Option<Keep>, OutOfMemory> {
        match self {
            Core::Osd(osd) => Ok(Some(osd.keep()?)),
            Core::Client { .. } | Core::Mrc(_) | Core::Dir { .. } => Ok(None),
        }
    }

    fn forget(&mut self, keep: &Keep) {
        match self {
            Core::Osd(osd) => osd.forget(keep),
            Core::Client { .. } | Core::Mrc(_) | Core::Dir { .. } => {}
        }
    }

    fn has_call(&self) -> bool {
        match self {
            Core::Client { client, .. } => client.is_busy(),
            Core::Osd(_) | Core::Mrc(_) | Core::Dir { .. } => false,
        }
    }

    fn may_repeat(&self) -> bool {
        match self {
            Core::Client { client, .. } => client.may_repeat(),
            Core::Osd(_) | Core::Mrc(_) | Core::Dir { .. } => false,
        }
    }
}
