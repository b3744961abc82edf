//! A file's change as a metadata server carries it out: what it asks of the members again, when a head is ready to be chosen, and what the
//! members' answers do.
//!
//! `Carried` is one file's change, and `Changes` the files with one. Each call equals its definition in `change_rows` (`Coordinating`), or
//! that of one file here (`Carrying`), which is the same in the table of all files. Clocks are in milliseconds, below 2^62.
#![tactic(auto)]

mod carried;
mod changes;
mod messages;

ghost use Rattle.std.specs.Prelude.{◌≡◌, ℕ, List, Some};
ghost use Rattle.xt_base.specs.declared.ids.NodeId.{NodeId};
ghost use Rattle.change_rows.specs.declared.Choice.{Choice};
ghost use Rattle.change_rows.specs.Coordinating.{Running, installation_under, with_running};
ghost use Rattle.list_coordinator.specs.Carrying.{installs};

pub use carried::Carried;
pub use changes::Changes;

/// What an installation does to one file's change, it does in the table of all: this change is put in its place.
pub fn one_file_at_a_time()
    ensures { (running : List Running) (r : Running) (from : NodeId) (version : ℕ)
        (choice : Choice) →
        (let step = installs r from version (Some choice) in
        installation_under running from version r (Some choice) ≡
        record { running = with_running running step.running; turned = step.turned }) }
{}
