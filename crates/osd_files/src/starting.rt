ghost use Rattle.std.specs.Prelude.{◌≡◌};
ghost use Rattle.xt_protocol.specs.FileStates.{file_from};
ghost use Rattle.osd_files.specs.Views.{shown};
ghost use Rattle.osd_files.specs.Whole.{RowRises};

use crate::lead::Lead;
use crate::parts::Parts;
use flease::{Acceptor, Awake, FileLease};
use osd_requests::OpenAsks;
use peer_searches::Searches;
use replica_state::Replica;
use std::alloc::Global;
use xt_messages::{FileRow, HeldSet};

/// A file at an OSD that has just started, from what its records say.
pub fn file_from(alloc: Global, awake: &Awake, row: FileRow) -> Parts
    requires { RowRises row }
    ensures { shown result ≡ record { awake = awake.now; state = file_from awake.now row } }
{
    let replica = Replica::new(alloc, row.file, row.head, row.held, row.closed);
    let lead = Lead::new(alloc, awake.node(), replica.file(), row.location);
    Parts {
        alloc,
        awake: *awake,
        replica,
        staged: HeldSet::new(alloc),
        acceptor: Acceptor::new(awake.boot()),
        lease: FileLease::new(*awake),
        lead,
        searches: Searches::new(alloc),
        last_end: 0,
        used: 0,
        asks: OpenAsks::new(alloc),
    }
}
