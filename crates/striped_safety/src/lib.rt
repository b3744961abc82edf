//! Striped files in every run of the world: where one client alone has begun calls on a striped file and each of them has ended well, each
//! read shows the asked range of the content that the operations begun before it make, in their order.
//!
//! The file and its client have a world of their own (`StripedWorld`): its members, the asks and replies that were ever sent, and how
//! far the client is. A member may get any ask at any time, as often as it comes, may stop after its record or before it, and may forget
//! bodies that its head doesn't name. That reads show the content is shown there, over every list of moves. Each step of a run is then shown
//! to be such moves, or none, for every striped file and every client; or the client hasn't the file to itself, or a call of it never ends
//! well. A step of the metadata server or the directory service is none. A grant brings a mark of the file, but none that is above the
//! client's own: marks come from replies alone, and no other client has any. Theorems alone; nothing runs here.
#![tactic(auto)]

ghost use Rattle.std.specs.Prelude.{◌≡◌, None, List, [], ◌∷◌, ◌++◌};
ghost use Rattle.replica_safety.specs.Lists.{Has};
ghost use Rattle.time_line.specs.Bounds.{AreLines};
ghost use Rattle.time_line.specs.declared.entry.Entry.{Entry};
ghost use Rattle.time_line.specs.declared.line.Line.{Line};
ghost use Rattle.world_spec.specs.Examples.{trace_of, cut_short};
ghost use Rattle.world_spec.specs.NodeSteps.{Room};
ghost use Rattle.world_spec.specs.Rules.{refusal};
ghost use Rattle.world_spec.specs.Runs.{run_of, IsRunInto};
ghost use Rattle.striped_safety.specs.Example.{ShowsAByte};
ghost use Rattle.striped_safety.specs.StripedFiles.{IsUsedByOne, IsStripedSafe};
ghost use Rattle.striped_safety.specs.StripedWorld.{Setting, Move, ReadShown, IsSetting, MayAll, after_all, first_world, IsRight};

/// The trace of every run of any lines is safe for striped files, and so it is after some steps of a line more: where one client alone
/// has begun calls on a striped file, and each of these has ended well, each read shows the asked range of what the operations begun before
/// it made, in their order. The client may do anything else between: calls on other files, and to the servers.
pub fn striped_files_are_safe()
    ensures whole { (room : Room) (lines : List Line) → AreLines lines →
        IsStripedSafe (run_of room lines).entries }
    ensures part { (room : Room) (lines : List Line) (l : Line) (entries : List Entry) →
        AreLines (lines ++ l ∷ []) → refusal (run_of room lines) l ≡ None →
        IsRunInto room lines l entries → IsStripedSafe entries }
{}

/// Such files are there: in a run with a write, a truncation that is made again, and two reads, one client alone uses the file, and
/// each of its calls ends well.
pub fn a_file_is_used_by_one()
    ensures lines { AreLines cut_short }
    ensures used { IsUsedByOne 1 (trace_of cut_short) }
{}

/// In a striped file's own world each read that the client shows is the asked range of what its operations before it made, in their
/// order: whatever asks come late or twice, and wherever members stop.
pub fn reads_show_the_content()
    ensures { (s : Setting) (moves : List Move) (r : ReadShown) → IsSetting s →
        MayAll s first_world moves → Has r (after_all s first_world moves).reads → IsRight s r }
{}

/// Such moves are there: a read shows the byte that two writes and a truncation left.
pub fn a_read_shows_a_byte()
    ensures { ShowsAByte }
{}
