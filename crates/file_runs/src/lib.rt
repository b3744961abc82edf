//! Runs of one replicated file among OSDs: its nodes take the steps of `xt_protocol`, stop in or after any of them, and start again from
//! what they keep. Who holds the file is given: at no moment two nodes do.
//!
//! It promises that after every such run, from every start that may begin, the marks of all nodes fit one order of writes, each read
//! shows the content of that order as it was, and no write stands in it twice; and says so in the words of a trace (`world_spec`).
#![tactic(auto)]

ghost use Rattle.file_runs.specs.FileRuns.{AlwaysOnOneOrder};
ghost use Rattle.file_runs.specs.Sample.{SampleRuns};
ghost use Rattle.file_runs.specs.TraceRuns.{RunsAreSafe};
ghost use Rattle.file_runs.specs.Traces.{TracesAreOnOneOrder, TracesShow, TracesIssueFirst, TracesAreOnce, FitsShow};

/// After every run of a file among OSDs, all that its nodes have marked is reported by entries that fit one order of writes: who is
/// active or commits reports the order's length and its last write, what is issued is one past it, a read is answered with its
/// length and the asked range of its content, and a write with its place. What stands in the order had been issued before.
pub fn runs_are_on_one_order()
    ensures { AlwaysOnOneOrder }
{}

/// Such runs come to something: at one OSD a lease is won, an epoch drawn, a byte written and committed, and read by the next call.
pub fn a_run_reads_a_byte()
    ensures { SampleRuns }
{}

/// Where what a trace reports of a file fits one order of writes, each claim of the trace agrees with the order that the trace
/// itself gives, and no write is in it twice.
pub fn traces_are_on_one_order()
    ensures { TracesAreOnOneOrder }
{}

/// Where only writes and truncations stand in that order, each answer in the trace shows it as it was: a read its length and the
/// asked range of its content, a write its place.
pub fn traces_show()
    ensures { TracesShow }
{}

/// Every run of a file among OSDs (`file_runs`) that begins with nothing written has a trace of one order of writes, where no
/// write stands twice and which each answer shows as it was.
pub fn every_run_of_a_file_is_safe()
    ensures { RunsAreSafe }
{}

/// Where what a trace reports of a file issues each write first, each write that stands in the order at a moment has been issued by
/// then, also one that an activation puts there.
pub fn writes_are_issued_first()
    ensures { TracesIssueFirst }
{}

/// Where the calls have begun as the operations of the ids say, answers that show the order as it was show the file as it stands.
pub fn fitting_answers_show_the_file()
    ensures { FitsShow }
{}

/// And then each write stands in the order once, and had begun before.
pub fn writes_stand_once()
    ensures { TracesAreOnce }
{}
