//! The trace of every run of OSDs and clients is safe, for each replicated file: at no moment two nodes hold it; only its holder acts;
//! there is one order of its writes, in which each stands once and had begun before; answers show the file as it stands; and the ends
//! of calls, as the callers see them, are fresh.
//!
//! The crate has no code to run. It says so of every list of lines within their limits, in every room, and also after each finished
//! step of a line more: whatever is lost, repeated or comes late, and wherever a node stops, in its appends and sendings too.
#![tactic(auto)]

pub mod files;

ghost use Rattle.std.specs.Prelude.{◌≡◌, ℕ, true, None, List, [], ◌∷◌, ◌++◌};
ghost use Rattle.time_line.specs.declared.entry.Entry.{Entry};
ghost use Rattle.time_line.specs.declared.line.Line.{Line};
ghost use Rattle.time_line.specs.Bounds.{AreLines};
ghost use Rattle.time_line.specs.Clauses.{IsMoment, AreOnce, AnswersShow};
ghost use Rattle.world_spec.specs.Examples.{trace_of, found, found_trace, vanished, vanished_trace};
ghost use Rattle.world_spec.specs.NodeSteps.{Room};
ghost use Rattle.world_spec.specs.Rules.{refusal};
ghost use Rattle.world_spec.specs.Runs.{run_of, IsRunInto, AreRunsSafe};
ghost use Rattle.time_line.specs.TimeLine.{is_replicated, stripe_of};
ghost use Rattle.time_line.specs.Verdicts.{apart, acting, one_order, once, shown, fresh, IsSafe, Break, IsBroken};
ghost use Rattle.file_runs.specs.Traces.{HaveBegun};
ghost use Rattle.world_runs.specs.Acts.{ActsHaveBegun};
ghost use Rattle.world_safety.specs.Asks.{operations_of};
ghost use Rattle.world_safety.specs.Runs.{HasOneOrder};
ghost use Rattle.world_safety.specs.Traces.{AlwaysHolds};
ghost use Rattle.world_safety.specs.Examples.{caught_up, caught_up_trace};

/// The trace of every run is safe, and so is the trace after each finished step of a line more.
pub fn runs_are_safe()
    ensures whole { (room : Room) → AreRunsSafe room }
    ensures part { (room : Room) (lines : List Line) (l : Line) (entries : List Entry) →
        AreLines (lines ++ l ∷ []) → refusal (run_of room lines) l ≡ None →
        IsRunInto room lines l entries → IsSafe entries }
{}

/// At no moment two nodes hold a file.
pub fn nodes_are_apart()
    ensures { AlwaysHolds apart }
{}

/// A node becomes active, issues, commits or answers only while it holds the file.
pub fn holders_act()
    ensures { AlwaysHolds acting }
{}

/// There is one order of a file's writes: whoever becomes active or commits reports its length and its last write.
pub fn writes_have_one_order()
    ensures { AlwaysHolds one_order }
{}

/// Each write stands once in that order, and had begun before it was put there.
pub fn writes_stand_once()
    ensures { AlwaysHolds once }
{}

/// Each answer shows the file as it stands: a read the asked range of the content after all writes so far, and their number; a write
/// its place among them.
pub fn answers_show_the_file()
    ensures { AlwaysHolds shown }
{}

/// The ends of calls are fresh: each was answered so before; a read counts every write that had ended before it began, and no fewer
/// writes than a read that had ended by then; a write that begins after another has ended gets the later place.
pub fn ends_are_fresh()
    ensures { AlwaysHolds fresh }
{}

/// A front of a safe trace is safe, so a safe trace is broken nowhere.
pub fn safe_traces_are_not_broken()
    ensures fronts { (entries moment : List Entry) → IsMoment moment entries → IsSafe entries →
        IsSafe moment }
    ensures nowhere { (entries : List Entry) (b : Break) → IsSafe entries → IsBroken b entries → ⊥ }
{}

/// Of a trace whose acts on a file are of calls that have begun on it: calls have begun as their operations say. Where what it reports of
/// the file fits one order, and issues each write first, each write stands once in the order and had begun before, and answers show the
/// file as it stands.
pub fn what_is_told_has_begun()
    ensures begun { (file : ℕ) (entries : List Entry) → ActsHaveBegun file entries →
        HaveBegun (operations_of file entries) file entries }
    ensures stand_once { (file : ℕ) (entries : List Entry) → ActsHaveBegun file entries →
        HasOneOrder (stripe_of file entries) (operations_of file entries) file entries →
        AreOnce file entries }
    ensures answers_show { (file : ℕ) (entries : List Entry) → ActsHaveBegun file entries →
        HasOneOrder (stripe_of file entries) (operations_of file entries) file entries →
        AnswersShow file entries }
{}

/// None of this is empty. There is a run in which a write reaches one replica but its primary, nobody gets an answer about it, and the next
/// primary finds it; and one in which it reaches nobody else, and vanishes.
pub fn writes_are_found_or_vanish()
    ensures found_lines { AreLines found }
    ensures found_file { is_replicated 1 found_trace ≡ true }
    ensures vanished_lines { AreLines vanished }
    ensures vanished_file { is_replicated 1 vanished_trace ≡ true }
{}

/// And one in which a replica starts late and lacks writes, is brought up to the head, and makes the majority when another one stops.
pub fn a_replica_is_caught_up()
    ensures lines { AreLines caught_up }
    ensures trace { trace_of caught_up ≡ caught_up_trace }
    ensures file { is_replicated 1 caught_up_trace ≡ true }
{}
