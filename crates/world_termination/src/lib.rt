//! The ends of lines: the number of steps that `world_spec` allows a line of a schedule is enough for it in every run.
//!
//! A node's messages to itself that follow one event come to an end: what may still come of those that wait is weighed in
//! `own_messages_wait`, each that is handled leaves less, and an event brings `OWN` for a file at most: a message is about one file, a Wake
//! about all that are known.
#![tactic(auto)]

ghost use Rattle.world_spec.specs.NodeSteps.{Room};
ghost use Rattle.world_spec.specs.Runs.{IsEnough};

/// Every line of every run is over after its steps: it is done, or it ended early. So it is of any lines within their limits, and in
/// every room.
pub fn lines_are_over()
    ensures over { (room : Room) → IsEnough room }
{}
