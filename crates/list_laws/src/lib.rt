//! What a message may do to a file where lists change: the rows of one list take it, and what they send carries the version of the list; or a
//! row of its own does.
#![tactic(auto)]

ghost use Rattle.std.specs.Prelude.{◌≡◌, ℕ, true};
ghost use Rattle.std.specs.List.{AllByRecursion};
ghost use Rattle.xt_base.specs.declared.ids.NodeId.{NodeId};
ghost use Rattle.xt_messages.specs.Limits.{is_of_list};
ghost use Rattle.xt_messages.specs.declared.file.Capability.{Capability};
ghost use Rattle.xt_messages.specs.declared.file.Op.{Op};
ghost use Rattle.xt_messages.specs.declared.message.Payload.{Payload};
ghost use Rattle.xt_messages.specs.declared.message.Payload.TheVariants as payload;
ghost use Rattle.xt_protocol.specs.FileStates.{FileState, FileStep, Site};
ghost use Rattle.xt_protocol.specs.FileSteps.{message_comes};
ghost use Rattle.list_rows.specs.ListRows.{message_taken, step_of_message, with_version};
ghost use Rattle.list_laws.specs.Outcomes.{RowGives};
ghost use Rattle.list_laws.specs.Saying.{Says};
ghost use Rattle.list_laws.specs.Takes.{IsOpenAt, ListRow, StepTakes, Takes};
ghost use Rattle.list_laws.specs.Versions.{CarriesVersion, SaysTheSame};

/// Each message that is taken does what the rows of one list do, or what one of six rows of its own does.
pub fn a_message_is_taken_so()
    ensures { (site : Site) (s : FileState) (from : NodeId) (list : ℕ) (content : Payload) →
        Takes site s from list content (message_taken site s from list content) }
{}

/// The other way, a message of the rows of one list that is of the open list comes to them, and so does an ask for that list.
pub fn an_open_list_is_taken()
    ensures messages { (site : Site) (s : FileState) (from : NodeId) (list : ℕ) (content : Payload) →
        is_of_list content ≡ true → IsOpenAt s list →
        message_taken site s from list content ≡ message_comes site s from content }
    ensures asks { (site : Site) (s : FileState) (from : NodeId) (list number : ℕ)
        (capability : Capability) (asked : Op) → IsOpenAt s capability.location.version →
        message_taken site s from list (payload.Ask number capability asked) ≡
        message_comes site s from (payload.Ask number capability asked) }
{}

/// A row of its own leaves all as it is, and perhaps says something; stages a body; closes the file; or installs a later list.
pub fn own_rows_give_so()
    ensures { (site : Site) (s : FileState) (from : NodeId) (content : Payload) (step : FileStep) →
        ListRow site s from content step → RowGives site s from content step }
{}

/// What a row of its own says of the file is so once the row is done: a Closed that the file is closed at that version, with this head, and so
/// on.
pub fn own_rows_say_what_is_so()
    ensures { (site : Site) (s : FileState) (from : NodeId) (content : Payload) (step : FileStep) →
        ListRow site s from content step →
        AllByRecursion (Says site step.state.kept) step.turned.outs }
{}

/// A whole step is so too: the step of the rows of one list, or what is overdue and then a row of its own.
pub fn a_step_takes_so()
    ensures { (site : Site) (s : FileState) (from : NodeId) (list : ℕ) (content : Payload) →
        StepTakes site s from list content (step_of_message site s from list content) }
{}

/// What a step sends of the rows of one list carries the version that is put on it, and nothing else of its messages changes.
pub fn messages_carry_the_version()
    ensures carried { (version : ℕ) (step : FileStep) →
        AllByRecursion (CarriesVersion version) (with_version version step).turned.outs }
    ensures said { (version : ℕ) (step : FileStep) →
        SaysTheSame step.turned.outs (with_version version step).turned.outs }
{}
