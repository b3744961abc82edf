//! What holds of the state of a file at an OSD at every moment, where lists change: what is proved of the rows of one list
//! (`osd_invariants`), of the steps on messages of any list.
#![tactic(auto)]

ghost use Rattle.std.specs.Prelude.{ℕ};
ghost use Rattle.xt_base.specs.declared.ids.NodeId.{NodeId};
ghost use Rattle.xt_messages.specs.declared.message.Payload.{Payload};
ghost use Rattle.xt_protocol.specs.FileStates.{FileState, Site};
ghost use Rattle.osd_invariants.specs.OpenAsks.{IsWithinLimits};
ghost use Rattle.list_rows.specs.ListRows.{step_of_message};
ghost use Rattle.list_invariants.specs.OpenLists.{OpenListsAreTaken, StepIs};
ghost use Rattle.list_invariants.specs.Sound.{StaysSound};
ghost use Rattle.list_invariants.specs.Keeping.{KeepsByRecord};
ghost use Rattle.list_invariants.specs.OpenAsks.{AsksStay};
ghost use Rattle.list_invariants.specs.AtOnce.{AnswersReads, AnswersWrites, HoldsLeases, RenewsLeases, StartsRounds};

/// A step on a message is that of the rows of one list, where the message is of the open list; else it is what is overdue, and then a row of
/// its own.
pub fn steps_take_open_lists()
    ensures { (site : Site) (s : FileState) (from : NodeId) (list : ℕ) (content : Payload) →
        StepIs site s from list content (step_of_message site s from list content) }
{}

/// The other way, each message of the rows of one list that is of the open list makes the step of those rows, and so does an ask for it.
pub fn open_lists_are_taken()
    ensures { OpenListsAreTaken }
{}

/// Every step keeps a file sound.
pub fn files_stay_sound()
    ensures { StaysSound }
{}

/// What is kept of a file follows the records of its steps.
pub fn files_follow_records()
    ensures { KeepsByRecord }
{}

/// The operations of a file's open asks stay within their limits, where those that come are.
pub fn operations_stay_within_limits()
    ensures { AsksStay IsWithinLimits }
{}

/// What nothing speaks against comes in that very step, where the message is of the open list: the answer to a read and to a write, a lease
/// and its renewal, and the Reads of a round.
pub fn steps_answer_at_once()
    ensures reads { AnswersReads }
    ensures writes { AnswersWrites }
    ensures leases { HoldsLeases }
    ensures renewals { RenewsLeases }
    ensures rounds { StartsRounds }
{}
