ghost use Rattle.std.specs.Prelude.{◌≡◌};
ghost use Rattle.osd_files.specs.Light.{asks_rest, is_light};
ghost use Rattle.osd_files.specs.Views.{shown};

use crate::parts::Parts;
use xt_messages::Payload;

/// Whether no ask waits, and that of an issued update stays with it, since the primary is active. Then what becomes of the asks
/// after the primary needs no memory.
pub fn asks_rest(file: &Parts) -> bool
    ensures { result ≡ asks_rest (shown file.now).state }
{
    file.asks.none_waits() && (!file.asks.has_issued() || file.lead.is_active())
}

/// Whether the file takes this message in place, so that it is as it was after an error: an ask where a list is stored; what is to
/// the replica; an acknowledgement or the report of a staged body where the asks rest.
pub fn is_light(file: &Parts, content: &Payload) -> bool
    ensures { result ≡ is_light (shown file.now) content.now }
{
    match content {
        Payload::Ask { .. } => file.lead.location().is_some(),
        Payload::Gather { .. }
        | Payload::Fetch { .. }
        | Payload::Stage { .. }
        | Payload::Head { .. }
        | Payload::Update { .. } => true,
        Payload::Staged { .. } | Payload::Ack { .. } => asks_rest(file),
        _ => false,
    }
}
