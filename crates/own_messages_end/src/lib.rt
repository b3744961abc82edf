//! The messages of a served OSD to itself come to an end, with no world around it.
//!
//! What may still come of those that aren't handled is weighed as `own_messages_wait` weighs it. It falls with each that is handled, whatever
//! the OSD's records and whatever capabilities pass, it stays where the OSD forgets, and an event from outside brings `OWN` for a file
//! at most. Definitions and theorems alone; nothing runs here.
#![tactic(auto)]

ghost use Rattle.std.specs.Prelude.{◌≡◌, ◌<◌, ◌≤◌, ◌^◌, ◌+◌, ◌-◌, ◌*◌, [], ◌∷◌, ℕ, Bool, List, length};
ghost use Rattle.xt_messages.specs.declared.event.Event.{Event};
ghost use Rattle.xt_messages.specs.declared.event.Event.TheVariants as event;
ghost use Rattle.xt_messages.specs.declared.file.Capability.{Capability};
ghost use Rattle.xt_messages.specs.declared.message.Msg.{Msg};
ghost use Rattle.xt_messages.specs.Limits.{FitsEvent};
ghost use Rattle.world_spec.specs.Lines.{OWN};
ghost use Rattle.own_messages_end.specs.Queues.{Working, AreEnough, IsOutside, Reaches, forgotten, handles};

/// An OSD that has no message to itself left meets an event from outside: it has none left again once it has handled so many of them,
/// wherever it forgets in between.
pub fn own_messages_end()
    ensures { (sealed : Capability → Bool) (w : Working) (reading : ℕ) (happens : Event) →
        Reaches sealed w → w.own ≡ [] → reading < 2 ^ 62 → FitsEvent happens →
        IsOutside w.osd.started.node happens → (let then = handles sealed w reading happens in
        AreEnough sealed reading (1 + OWN * length then.osd.files) then) }
{}

/// Where so many are enough, one fewer are enough after each message to itself: a measure for a loop that handles them until none is
/// left.
pub fn own_messages_fall()
    ensures { (sealed : Capability → Bool) (reading k : ℕ) (w : Working) (m : Msg) (rest : List Msg) →
        w.own ≡ m ∷ rest → AreEnough sealed reading k w →
        (1 ≤ k) × AreEnough sealed reading (k - 1) (handles sealed (record w { own = rest }) reading (event.Deliver m)) }
{}

/// And where an OSD forgets, as many are enough as before.
pub fn forgetting_adds_none()
    ensures { (sealed : Capability → Bool) (reading k : ℕ) (w : Working) →
        AreEnough sealed reading k w → AreEnough sealed reading k (forgotten w) }
{}
