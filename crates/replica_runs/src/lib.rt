//! Why all acts of a file's primaries are on one line: replication of one file, for one version of its replica list, in two worlds.
//!
//! Every run of a world of writes, of lists and small steps, is a history of `replica_safety`; every run of a world of heads, of what an
//! OSD keeps and small steps that its rows are made of, is one of the first world; and each step of an OSD on the file is a list of these.
//! It promises that after every run all entries fit one order of writes, which each read shows as it was, each write once.
#![tactic(auto)]

ghost use Rattle.std.specs.Prelude.{map, ℕ, List};
ghost use Rattle.replica_safety.specs.Epochs.{name};
ghost use Rattle.replica_safety.specs.Line.{AreOnOneLine};
ghost use Rattle.replica_safety.specs.Lists.{AreDistinct};
ghost use Rattle.replica_runs.specs.Answers.{ReadsShow, AreFresh, HasEpochs, AlwaysOfWorlds};
ghost use Rattle.replica_runs.specs.HeadOrder.{AreOnOneOrder, AreChanges, IssuesComeFirst, order_of, order_at, known_at};
ghost use Rattle.replica_runs.specs.HeadSample.{SampleRuns};
ghost use Rattle.replica_runs.specs.HeadSteps.{AlwaysOfHeads};
ghost use Rattle.replica_runs.specs.Made.{IsMade};
ghost use Rattle.replica_runs.specs.Weaker.{KeepsLost};
ghost use Rattle.replica_runs.specs.Marks.{Always, AnswersShow, AreMade, acts_of, line_at};
ghost use Rattle.xt_messages.specs.declared.file.Op.{Op};
ghost use Rattle.replica_runs.specs.FileView.{AlwaysShowsFile, AlwaysStops, LeavesOthers, AsksStay};

/// After every run of a world of writes:
///
/// - the acts are on one line, which has no write twice, and each write is made for those before it;
/// - each answer shows that line as it was: a read its writes and the body of an object, a write its place;
/// - each read shows the asked range of the content of the line, and no answer before it has a greater count;
/// - each epoch has one chosen head and one list of updates, of which all heads that are kept or sent are made.
pub fn runs_are_on_one_line()
    ensures one_line { Always (λ stripe ops start ms. AreOnOneLine start.line (acts_of ms)) }
    ensures once { Always (λ stripe ops start ms. AreDistinct (map name (line_at start ms))) }
    ensures answers { Always (λ stripe ops start ms. AnswersShow start ms) }
    ensures made { Always (λ stripe ops start ms. AreMade (IsMade stripe ops) (line_at start ms)) }
    ensures reads { Always (λ stripe ops start ms. ReadsShow stripe ops start ms) }
    ensures fresh { Always (λ stripe ops start ms. AreFresh ms) }
    ensures epochs { AlwaysOfWorlds HasEpochs }
{}

/// After every run of a world of heads, in the words of the entries: each entry fits the order of writes as it was then, the
/// order has no write twice, and each read shows the content of all its writes. What stands in it are writes and truncations, each
/// issued before it was put there, or there or open at the start.
pub fn rows_are_on_one_order()
    ensures one_order { AlwaysOfHeads (λ stripe ops start entries.
        AreOnOneOrder stripe ops (order_at start) entries) }
    ensures issued { AlwaysOfHeads (λ stripe ops start entries.
        IssuesComeFirst (known_at start) (order_at start) entries) }
    ensures changes { AlwaysOfHeads (λ stripe ops start entries.
        AreChanges ops (order_of (order_at start) entries)) }
{}

/// Such runs come to something: a byte is written, committed by two of three, and read.
pub fn a_run_reads_a_byte()
    ensures { SampleRuns }
{}

/// A replica that takes a head takes every version that it names, not the greater ones alone: else the body of a write stays that is
/// lost by the head (`a_write_is_taken_back` of `replica_safety`).
pub fn greater_versions_do_not_do()
    ensures { KeepsLost 0 }
{}

/// Each step of a file on a message that was sent, and on a Wake, is a list of small steps of its node in the world of heads: what is
/// kept changes by the step's record alone, the primary after it is the one that is seen, every message of the step was sent, its
/// marks are the entries, and what holds of a file goes on to hold.
pub fn steps_of_a_file_are_small_steps()
    ensures { AlwaysShowsFile }
{}

/// A node that stops after a step, however few of its messages got out, or in its append, with its record kept or lost, has
/// taken a list of small steps; and no list of small steps of one node changes which other node holds.
pub fn stops_are_small_steps()
    ensures stops { AlwaysStops }
    ensures others { LeavesOthers }
{}

/// The asks of a file stay within their limits, where those that come are.
pub fn asks_stay_within_limits()
    ensures { (stripe : ℕ) (ops : ℕ × ℕ → Op) (members : List ℕ) → AsksStay stripe ops members }
{}
