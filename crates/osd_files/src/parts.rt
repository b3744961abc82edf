ghost use Rattle.std.specs.Prelude.{◌≡◌, ◌<◌, ◌^◌};
ghost use Rattle.peer_searches.specs.Sound.{AreSound};
ghost use Rattle.replica_primary.specs.Moves.{peers_under};
ghost use Rattle.osd_files.specs.Owners.{owner_at, owner_of, renewer_of};

use crate::lead::Lead;
use flease::{Acceptor, Awake, FileLease};
use osd_requests::OpenAsks;
use peer_searches::Searches;
use replica_state::Replica;
use std::alloc::Global;
use xt_messages::HeldSet;

/// The parts of a file at an OSD that is awake: what is kept of it, and what a stop loses.
#[derive(Drop)]
pub struct Parts {
    pub alloc: Global,
    pub awake: Awake,
    pub replica: Replica,
    /// The bodies that were staged since the file's last head or update.
    pub staged: HeldSet,
    pub acceptor: Acceptor,
    pub lease: FileLease,
    pub lead: Lead,
    /// How far the primary has come with what its peers lack of the replica's head.
    pub searches: Searches,
    /// The end of a lease that this boot met last in time, 0 before the first.
    pub last_end: u64,
    /// The clock at which the file was asked for last.
    pub used: u64,
    pub asks: OpenAsks,
    ghost node: { lead.node ≡ awake.node },
    ghost file: { lead.file ≡ replica.file },
    ghost owner: { owner_of lease ≡ owner_at awake },
    ghost renewer: { renewer_of (owner_at awake) lease ≡ owner_at awake },
    ghost past: { used < 2 ^ 62 },
    ghost sound: { AreSound replica.head.versions (peers_under lead.primary.tenure) searches },
}
