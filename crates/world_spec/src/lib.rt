//! A run of a world of nodes of all roles, as definitions: OSDs with replicated and striped files, clients, the metadata server and
//! the directory service; what each line of a schedule does, step by step, and the entries that it adds to the trace.
//!
//! The types here are the parts of a world that hold no lease; a type that holds an OSD's state is in `specs/`.
#![tactic(auto)]

use xt_base::FileId;
use xt_messages::{Location, Msg};

/// How many nodes a schedule may declare.
pub const NODES: u64 = 64;

/// How many messages may be numbered.
pub const MESSAGES: u64 = 1_048_576;

/// How many bytes the frames of the numbered messages may have in all.
pub const MESSAGE_BYTES: u64 = 1_073_741_824;

/// What a node is declared as.
#[derive(Clone, Copy)]
pub enum Role {
    Osd,
    Client,
    Mrc,
    Dir,
}

/// A file that a schedule declares or that the metadata server made, and where it is.
#[derive(Clone, Copy)]
pub struct PlacedFile {
    pub file: FileId,
    pub location: Location,
}

/// A message that was sent; it is pending until it is delivered or dropped.
#[derive(Drop)]
pub struct Sent {
    pub message: Msg,
    pub pending: bool,
}

ghost use Rattle.std.specs.Prelude.{◌≡◌, ℕ, Some, None, List, [], ◌∷◌};
ghost use Rattle.xt_messages.specs.declared.status.Rule.TheVariants as rule;
ghost use Rattle.time_line.specs.declared.entry.Entry.{Entry};
ghost use Rattle.time_line.specs.declared.line.Line.{Line};
ghost use Rattle.world_spec.specs.World.{World};
ghost use Rattle.world_spec.specs.NodeSteps.{Room};
ghost use Rattle.world_spec.specs.Runs.{IsPartOf, IsEnough, IsRun, IsRunInto, AreRunsSafe};
ghost use Rattle.time_line.specs.Verdicts.{IsSafe, IsBroken, Break};
ghost use Rattle.world_spec.specs.ServerExamples.{granted, granted_trace, left_out, left_out_trace, metadata, metadata_trace, registry, registry_trace};
ghost use Rattle.world_spec.specs.Examples.{missing_in, ample, trace_of, trace_in, rule_behind, room_for, eager, restless, taught, taught_trace, full, full_trace, fuller_trace, alone, alone_trace, turns_edge, turns_edge_trace, silence, silence_trace, drifting, clock_set, repeats, repeats_trace, vanished, vanished_trace, found, found_trace, third_answers, third_answers_trace, none_answers, none_answers_trace, node, made_again, made_again_trace, goes_again, striped, striped_trace, cut_short, cut_short_trace, fed_again, fed_again_trace, fed_later, fed_later_trace, held_in_turn, held_in_turn_trace};

/// The definitions are read.
pub fn definitions()
    ensures safe { (es : List Entry) → IsSafe es → IsSafe es }
    ensures broken { (b : Break) (es : List Entry) → IsBroken b es → IsBroken b es }
    ensures parts { (room : Room) (w part : World) (l : Line) → IsPartOf room w l part →
        IsPartOf room w l part }
    ensures run { (room : Room) (ls : List Line) (es : List Entry) → IsRun room ls es →
        IsRun room ls es }
    ensures into { (room : Room) (ls : List Line) (l : Line) (es : List Entry) →
        IsRunInto room ls l es → IsRunInto room ls l es }
    ensures all_safe { (room : Room) → AreRunsSafe room → AreRunsSafe room }
    ensures enough { (room : Room) → IsEnough room → IsEnough room }
{}

/// What a few schedules come to.
pub fn examples()
    ensures one { trace_of alone ≡ alone_trace }
    ensures edge { trace_of turns_edge ≡ turns_edge_trace }
    ensures silent { trace_of silence ≡ silence_trace }
    ensures full { trace_in (room_for 2) full ≡ full_trace }
    ensures fuller { trace_in (room_for 4) full ≡ fuller_trace }
    ensures taught { trace_of taught ≡ taught_trace }
    ensures forgetful { trace_in eager repeats ≡ repeats_trace }
    ensures forgetful_lost { trace_in eager vanished ≡ vanished_trace }
    ensures forgetful_there { trace_in eager found ≡ found_trace }
    ensures forgetful_fed { trace_in eager fed_again ≡ fed_again_trace }
    ensures forgotten_body { missing_in eager fed_again ≡ 1 }
    ensures kept_body { missing_in ample fed_again ≡ 0 }
    ensures forgetful_turns { trace_in eager held_in_turn ≡ held_in_turn_trace }
    ensures restless_there { trace_in restless found ≡ found_trace }
    ensures restless_turns { trace_in restless held_in_turn ≡ held_in_turn_trace }
    ensures restless_fed { trace_in restless fed_later ≡ fed_later_trace }
    ensures forgotten_between { missing_in restless fed_later ≡ 1 }
    ensures kept_between { missing_in eager fed_later ≡ 0 }
    ensures drifts { rule_behind drifting clock_set ≡ Some (rule.Drift 101 0) }
    ensures again { trace_of repeats ≡ repeats_trace }
    ensures lost { trace_of vanished ≡ vanished_trace }
    ensures there { trace_of found ≡ found_trace }
    ensures third { trace_of third_answers ≡ third_answers_trace }
    ensures retried { trace_of none_answers ≡ none_answers_trace }
    ensures made_again { trace_of made_again ≡ made_again_trace }
    ensures no_call { rule_behind made_again goes_again ≡ Some (rule.NoCall (node 10)) }
    ensures striped { trace_of striped ≡ striped_trace }
    ensures cut_short { trace_of cut_short ≡ cut_short_trace }
    ensures granted { trace_of granted ≡ granted_trace }
    ensures left_out { trace_of left_out ≡ left_out_trace }
    ensures metadata { trace_of metadata ≡ metadata_trace }
    ensures registry { trace_of registry ≡ registry_trace }
{}
