//! How a node's messages to itself wait, in every run of `world_spec`: in a chain.
//!
//! For each file of an OSD there is at most one between its primary and its own replica, and while it waits the file's row stays as
//! it is. What can still follow from those that wait is weighed for each file: by its lease's messages, by that one message, by its
//! asks, and by what it lacks. Each that is handled leaves less, and an event brings `OWN` for a file at most. A node that forgets
//! bodies between two of them changes neither. From what a client or a server sends itself no message follows. Definitions and
//! theorems alone; nothing runs here.
#![tactic(auto)]

ghost use Rattle.world_spec.specs.NodeSteps.{Room};
ghost use Rattle.own_messages_wait.specs.OwnStatuses.{OwnStatusesStand};

/// A status that an OSD sent itself is of the head that it still has when the message comes: in every run of lines within their
/// limits, at each step of a line, and in every room.
pub fn own_statuses_stand()
    ensures { (room : Room) → OwnStatusesStand room }
{}
