//! What the disk of a served node never leaves, as the contract of a function that does nothing.
ghost use Rattle.node_runs.specs.Laws.{NoneComesBack};

use disk_model::Disk;

/// Where a disk kept lists of records in turn, and a crash leaves the last of them or another one after that, a crash leaves no list
/// that is older than what was kept when it came.
pub fn no_older_records_come_back<D: Disk>()
    ensures { NoneComesBack D.moment D.left_since }
{}
