//! Each file of a world is a run of OSDs of that file alone (`file_runs`): after every list of lines, and after each step of a line
//! more. So each replicated file has one order of writes in the trace, which its answers show.
//!
//! So it is shown of each thing that may happen in a line, and put together by the walk over lines (`world_runs`).

ghost use Rattle.std.specs.Prelude.{◌≡◌, ℕ, Option, None, List, [], ◌∷◌, ◌++◌};
ghost use Rattle.xt_base.specs.declared.ids.FileId.{FileId};
ghost use Rattle.xt_messages.specs.declared.record.Record.{Record};
ghost use Rattle.xt_protocol.specs.FileStates.{FileState};
ghost use Rattle.file_runs.specs.FileRuns.{keeping};
ghost use Rattle.world_spec.specs.NodeSteps.{one_more, Room};
ghost use Rattle.time_line.specs.declared.entry.Entry.{Entry};
ghost use Rattle.time_line.specs.declared.line.Line.{Line};
ghost use Rattle.world_spec.specs.World.{World};
ghost use Rattle.time_line.specs.Bounds.{AreLines};
ghost use Rattle.world_spec.specs.Rules.{refusal};
ghost use Rattle.world_spec.specs.Lines.{begins, steps};
ghost use Rattle.world_spec.specs.Runs.{run_of, IsPartOf, IsRunInto};
ghost use Rattle.world_safety.specs.Seen.{kept_seen, IsOf, IsNotOf};
ghost use Rattle.world_safety.specs.Events.{MessagesShow, OthersRest, SilentRest, WakesShow, StopsShow, StartsShow, ServersRest, PlansRest, TicksRest, DeclaredRest};
ghost use Rattle.world_safety.specs.May.{StepsStand, HoldersMakeRoom};
ghost use Rattle.world_safety.specs.Leaders.{StepsMay, LeadersGoOn, LeadersStop};
ghost use Rattle.world_safety.specs.Winners.{WinsInTime, WinnersAreAlone};
ghost use Rattle.world_safety.specs.Steps.{MessagesRun, WakesRun, OutsideRuns};
ghost use Rattle.world_safety.specs.Asks.{MessagesCome, OutsideIsIdle, OperationsAre};
ghost use Rattle.world_safety.specs.Tellings.{AlwaysTelling, TellingIsSafe};
ghost use Rattle.world_safety.specs.Senders.{SendsAsItself};
ghost use Rattle.world_safety.specs.Runs.{FilesAreRuns, NextAreRuns, ArePlaced, FilesAreSafe};

/// One record more changes what a node keeps of the file that it is of, and of no other file.
pub fn records_are_of_a_file()
    ensures own { (file : FileId) (records : List Record) (old state : Option FileState)
        (rec : Option Record) → IsOf file rec →
        keeping (kept_seen file records old) state rec ≡
        kept_seen file (one_more records rec) state }
    ensures other { (file : FileId) (records : List Record) (state : Option FileState)
        (rec : Option Record) → IsNotOf file rec →
        kept_seen file (one_more records rec) state ≡ kept_seen file records state }
{}

/// A message to an OSD is a step of the file that it concerns, also where the OSD stops in its append and the record is kept; every
/// other file rests, or stops. In silence nothing comes of any event.
pub fn messages_are_steps_of_a_file()
    ensures its { MessagesShow }
    ensures others { OthersRest }
    ensures silent { SilentRest }
{}

/// A node that stops loses its state of every file, and keeps its records and bodies.
pub fn stops_lose_the_state()
    ensures { StopsShow }
{}

/// A Wake of an OSD is a step of each file that it has met; a file that it hasn't met rests.
pub fn wakes_are_steps_of_each_file()
    ensures { WakesShow }
{}

/// An OSD that starts has of every file what its records say; where another node starts, nothing shows.
pub fn starts_read_the_records()
    ensures osds { StartsShow }
    ensures others { ServersRest }
{}

/// Clocks and plans to stop don't show in any file; nor does what a client has, nor a node that is declared.
pub fn what_does_not_show()
    ensures plans { PlansRest }
    ensures ticks { TicksRest }
    ensures declared { DeclaredRest }
{}

/// In a world that is in order a step of a file at an OSD starts from what the file's node is, and an unlapsed tenure leads.
pub fn steps_stand_on_the_node()
    ensures { StepsStand }
{}

/// Where nobody but one node leads a file, whoever else held it may lose it, and who leads still holds.
pub fn holders_make_room()
    ensures { HoldersMakeRoom }
{}

/// What the steps of a file mark, its tales report; and no other entry of the trace reports anything of the file. Where a trace reports
/// so what the tales of a run of the file report, it has one order of the file's writes, no write is in it twice, and each answer on
/// the file shows it as it was.
pub fn traces_tell_the_tales()
    ensures telling { AlwaysTelling }
    ensures safe { TellingIsSafe }
{}

/// A message that concerns a file can arrive at it, but for an ask for what leaves the object: that is refused, and does to the file
/// what a message does that can always arrive. The operations of the calls in a trace are theirs at each moment of it.
pub fn messages_may_come()
    ensures come { MessagesCome }
    ensures outside { OutsideIsIdle }
    ensures operations { OperationsAre }
{}

/// Where who leads in the world holds the file in the file's world, a step of the file can happen there; and after a step, and after a
/// stop, who leads holds.
pub fn steps_may_come()
    ensures may { StepsMay }
    ensures leaders { LeadersGoOn }
    ensures stopped { LeadersStop }
{}

/// A lease that a step wins isn't over yet; and nobody else leads a file whose lease a node holds so, where no two nodes hold it by the
/// trace.
pub fn winners_are_alone()
    ensures time { WinsInTime }
    ensures alone { WinnersAreAlone }
{}

/// A message to an OSD is a few events of the world of the file that it concerns, which can happen there: who doesn't lead loses the
/// file, where the step wins it; and then the file's step. They lead to what the world shows of the file, and who leads holds. An ask
/// for what leaves the object is the step of a Fetch.
pub fn messages_are_runs_of_a_file()
    ensures inside { MessagesRun }
    ensures outside { OutsideRuns }
{}

/// So is a Wake of an OSD, for each file that it has met.
pub fn wakes_are_runs_of_each_file()
    ensures { WakesRun }
{}

/// The messages of a step of a file have the OSD as their sender, and concern that file.
pub fn messages_are_of_their_step()
    ensures { SendsAsItself }
{}

/// What a world shows of a file is what a run of the file comes to, that begins with nothing written; the trace reports what the run's
/// tales report, and each message about the file was sent in the run. So it is of each file, after every list of lines, and at each step
/// of a line more.
pub fn files_are_runs()
    ensures whole { (room : Room) (lines : List Line) → AreLines lines →
        FilesAreRuns (run_of room lines) [] }
    ensures steps { (room : Room) (lines : List Line) (l : Line) (k : ℕ) →
        AreLines (lines ++ l ∷ []) → refusal (run_of room lines) l ≡ None →
        NextAreRuns (steps k room (begins (run_of room lines) l)) }
{}

/// The trace reports where each file is, declared or made, within the limits: after every list of lines, and after some steps of a line
/// more.
pub fn files_are_placed()
    ensures whole { (room : Room) (lines : List Line) → AreLines lines →
        ArePlaced (run_of room lines) }
    ensures part { (room : Room) (lines : List Line) (l : Line) (part : World) →
        AreLines (lines ++ l ∷ []) → refusal (run_of room lines) l ≡ None →
        IsPartOf room (run_of room lines) l part → ArePlaced part }
{}

/// What the trace reports of a replicated file fits one order of writes and truncations: each claim agrees with the order of writes
/// that the trace gives, no write is in it twice, and each answer shows the order as it was. So it is in every run of any lines,
/// and after some steps of a line more.
pub fn files_are_safe()
    ensures whole { (room : Room) (lines : List Line) → AreLines lines →
        FilesAreSafe (run_of room lines).entries }
    ensures part { (room : Room) (lines : List Line) (l : Line) (entries : List Entry) →
        AreLines (lines ++ l ∷ []) → refusal (run_of room lines) l ≡ None →
        IsRunInto room lines l entries → FilesAreSafe entries }
{}
