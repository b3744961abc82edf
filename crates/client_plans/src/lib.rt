//! What each client command does: its operations, one after the other, each by the results of the earlier ones, and what it writes.
//!
//! A command is a stage and two functions: `operation_of`, the call of a stage, and `goes_on`, the next stage and what is written
//! after a result. Definitions, their types and worked commands; nothing runs here.
#![tactic(auto)]

mod stage;

ghost use Rattle.client_plans.specs.Worked.{IsStat, IsStatOfRoot, AreLocated, IsListed, IsEmptyPut, IsPut, IsExisting, IsGet, IsHexGet, IsPastEnd, IsTruncate, IsRegistered, IsAbsent, IsUnregistered, IsNotThere, AreShown, IsRefused, IsRetried, AsksPages, AsksPieces};

pub use stage::{Goes, Stage};

/// Worked commands: what they ask, how they end and what they write.
pub fn worked_commands()
    ensures stat { IsStat }
    ensures directory { IsStatOfRoot }
    ensures located { AreLocated }
    ensures listed { IsListed }
    ensures empty { IsEmptyPut }
    ensures put { IsPut }
    ensures existing { IsExisting }
    ensures get { IsGet }
    ensures hex { IsHexGet }
    ensures past { IsPastEnd }
    ensures truncate { IsTruncate }
    ensures registered { IsRegistered }
    ensures absent { IsAbsent }
    ensures unregistered { IsUnregistered }
    ensures not_there { IsNotThere }
    ensures shown { AreShown }
    ensures refused { IsRefused }
    ensures retried { IsRetried }
    ensures pages { AsksPages }
    ensures pieces { AsksPieces }
{}
