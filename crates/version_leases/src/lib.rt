//! The leases of a file version by version, where its list changes: the step of an OSD is moves of the lease world of each version, and they
//! spare the nodes that have left the version.
//!
//! Definitions and theorems alone; nothing runs here.
#![tactic(auto)]

ghost use Rattle.version_leases.specs.Steps.{StepsAreMoves};

/// In the lease world of each version of a file's list, the step of a running OSD is moves that spare the nodes that have left the version: it
/// is seen there as it is while it stores that version, as new before, and as gone later. An end is reported at the version that is stored.
pub fn steps_are_moves()
    ensures { StepsAreMoves }
{}
