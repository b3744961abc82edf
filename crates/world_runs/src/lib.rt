//! What every run of the world keeps to: at no moment do two nodes hold one file, a node acts as a file's primary only while it
//! holds the file, the clocks of nodes stay within the drift, what OSDs are asked, act for and answer has begun before, and calls on replicated files end well only as they were
//! answered before.
//!
//! The walk over lines, steps and ways to end is done once, for any property of worlds. All is said of every list of lines and every
//! room, and of a line that ended early; each step is shown to be moves of the lease world of each file (`lease_runs`).
#![tactic(auto)]

ghost use Rattle.std.specs.Prelude.{◌≡◌, ℕ, true, None, List, [], ◌∷◌, ◌++◌, take};
ghost use Rattle.time_line.specs.declared.entry.Entry.{Entry};
ghost use Rattle.time_line.specs.declared.line.Line.{Line};
ghost use Rattle.world_spec.specs.NodeSteps.{Room};
ghost use Rattle.world_spec.specs.Rules.{refusal};
ghost use Rattle.world_spec.specs.Lines.{begins, steps, so_far};
ghost use Rattle.time_line.specs.Bounds.{AreLines};
ghost use Rattle.world_runs.specs.Worlds.{IsInOrder, IsNextInOrder};
ghost use Rattle.world_spec.specs.Runs.{run_of, IsRunInto};
ghost use Rattle.time_line.specs.Clauses.{AreApart, HoldersAct, AreOnce, AnswersShow, EndsAreAnswered, AreFresh};
ghost use Rattle.time_line.specs.TimeLine.{is_replicated, holds};
ghost use Rattle.world_spec.specs.Examples.{node, trace_of, vanished};
ghost use Rattle.world_runs.specs.Acts.{ActsHaveBegun};
ghost use Rattle.world_runs.specs.Clocks.{ClocksAreClose};
ghost use Rattle.world_runs.specs.Asks.{AsksHaveBegun, NextHasBegun};

/// At no moment of a run of any lines do two nodes hold a file; nor after some steps of a line more.
pub fn nodes_are_apart()
    ensures whole { (room : Room) (lines : List Line) (file : ℕ) → AreLines lines →
        AreApart file (run_of room lines).entries }
    ensures part { (room : Room) (lines : List Line) (l : Line) (file : ℕ) (entries : List Entry) →
        AreLines (lines ++ l ∷ []) → refusal (run_of room lines) l ≡ None →
        IsRunInto room lines l entries → AreApart file entries }
{}

/// A node that becomes active as a file's primary, issues, commits or answers holds the file at that moment.
pub fn holders_act()
    ensures whole { (room : Room) (lines : List Line) (file : ℕ) → AreLines lines →
        HoldersAct file (run_of room lines).entries }
    ensures part { (room : Room) (lines : List Line) (l : Line) (file : ℕ) (entries : List Entry) →
        AreLines (lines ++ l ∷ []) → refusal (run_of room lines) l ≡ None →
        IsRunInto room lines l entries → HoldersAct file entries }
{}

/// What holds of the world at every moment of a run, also in the midst of a line: what an OSD has of a file is what its records
/// say, and is sound; what the servers know is what their records say, and the files that the metadata server made are reported in the
/// order of making; lists, asks, grants, reports and what clients hold are of files that are declared or made; nodes stand in the
/// trace as they run; who has a lease holds its file by the trace; and no two nodes lead a file.
pub fn worlds_are_in_order()
    ensures whole { (room : Room) (lines : List Line) → AreLines lines →
        IsInOrder (run_of room lines) [] }
    ensures steps { (room : Room) (lines : List Line) (l : Line) (k : ℕ) →
        AreLines (lines ++ l ∷ []) → refusal (run_of room lines) l ≡ None →
        IsNextInOrder (steps k room (begins (run_of room lines) l)) }
{}

/// The clocks of the nodes that run, OSDs, servers and clients, are at most the drift of the world's times apart: in every run of any
/// lines, and after each step of a line more. The lease rests on it, and each rule on clocks is for it.
pub fn clocks_stay_close()
    ensures whole { (room : Room) (lines : List Line) → AreLines lines →
        ClocksAreClose (run_of room lines) }
    ensures steps { (room : Room) (lines : List Line) (l : Line) (k : ℕ) →
        AreLines (lines ++ l ∷ []) → refusal (run_of room lines) l ≡ None →
        ClocksAreClose (so_far (steps k room (begins (run_of room lines) l))) }
{}

/// Leases are held, and pass on: in a run of three replicas one holds the file, and when its lease is over another does.
pub fn a_lease_passes_on()
    ensures lines { AreLines vanished }
    ensures first { holds (take 10 (trace_of vanished)) (node 1) 1 ≡ true }
    ensures later { holds (trace_of vanished) (node 2) 1 ≡ true }
{}

/// Every ask that was ever sent is of a call that has begun on its file: it asks what that call does, within its limits. So it is in
/// every run of any lines, and after each step of a line more.
pub fn asks_have_begun()
    ensures whole { (room : Room) (lines : List Line) → AreLines lines →
        AsksHaveBegun (run_of room lines) [] }
    ensures steps { (room : Room) (lines : List Line) (l : Line) (k : ℕ) →
        AreLines (lines ++ l ∷ []) → refusal (run_of room lines) l ≡ None →
        NextHasBegun (steps k room (begins (run_of room lines) l)) }
{}

/// A write that is issued or committed on a file, and a call that is answered on it, had begun on that file before: in every run of any
/// lines, and after some steps of a line more.
pub fn acts_have_begun()
    ensures whole { (room : Room) (lines : List Line) (file : ℕ) → AreLines lines →
        ActsHaveBegun file (run_of room lines).entries }
    ensures part { (room : Room) (lines : List Line) (l : Line) (file : ℕ) (entries : List Entry) →
        AreLines (lines ++ l ∷ []) → refusal (run_of room lines) l ≡ None →
        IsRunInto room lines l entries → ActsHaveBegun file entries }
{}

/// A call on a replicated file that ends well, with a count and bytes, was answered so on that file before, and had begun on it before
/// that answer: in every run of any lines, and after some steps of a line more.
pub fn ends_are_answered()
    ensures whole { (room : Room) (lines : List Line) (file : ℕ) → AreLines lines →
        is_replicated file (run_of room lines).entries ≡ true →
        EndsAreAnswered file (run_of room lines).entries }
    ensures part { (room : Room) (lines : List Line) (l : Line) (file : ℕ) (entries : List Entry) →
        AreLines (lines ++ l ∷ []) → refusal (run_of room lines) l ≡ None →
        IsRunInto room lines l entries → is_replicated file entries ≡ true →
        EndsAreAnswered file entries }
{}

/// Where the ends of calls on a file were answered, each write stands once in the order, and answers show the file, the ends are
/// fresh: a read counts the writes that had ended well before it began, and no fewer than an earlier read; and writes keep the
/// order in which they were made.
pub fn answered_ends_are_fresh()
    ensures { (file : ℕ) (entries : List Entry) → EndsAreAnswered file entries →
        AreOnce file entries → AnswersShow file entries → AreFresh file entries }
{}
