//! What joining promises of whole runs, as the contracts of functions that do nothing. Callers that need a promise
//! in a proof call its function.

ghost use Rattle.xt_parts.specs.Laws.{ReadsLayout, ReadsLayoutOnly, StepsInOrder, WholeInOrder, EarlyInOrder, WholeInAnyOrder, EarlyInAnyOrder, NeverMixes, StaysFew, StaysApart, ForgetsGiven, ForgetsDropped};

/// The bytes of a part are read as they are laid out, and no other bytes are read as a part.
pub fn reads_the_layout()
    ensures found { ReadsLayout }
    ensures only { ReadsLayoutOnly }
{}

/// The parts of a message, taken in order, give the message at the last of them and nothing before. The joiner is
/// as it was before the first. It must have had room, and nothing of this message.
pub fn joins_in_order()
    ensures steps { StepsInOrder }
    ensures whole { WholeInOrder }
    ensures early { EarlyInOrder }
{}

/// The same where the parts come in any order and again and again: the last index that was missing gives the message.
pub fn joins_in_any_order()
    ensures whole { WholeInAnyOrder }
    ensures early { EarlyInAnyOrder }
{}

/// Where each sender sends one message under each boot and number, and all parts were cut from these messages, none
/// is refused, and each message that is given is one of those, whatever the order, the repeats and the losses.
pub fn never_mixes_messages()
    ensures { NeverMixes }
{}

/// A message that was given, or dropped as the oldest of too many, is forgotten: its next part begins it again. No
/// message is half joined twice, and never are too many half joined.
pub fn forgets_messages()
    ensures few { StaysFew }
    ensures apart { StaysApart }
    ensures given { ForgetsGiven }
    ensures dropped { ForgetsDropped }
{}
