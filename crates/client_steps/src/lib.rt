//! What a client sends, keeps and reports, row by row of all its calls: each step on an event, each call and each call that is made
//! again.
//!
//! The walk over the rows of a client is done once, for any property of what is asked under a number: whatever is asked was asked by a
//! call of the client under that number, so who knows it of each call as it begins knows it of all messages. The lemmas say so of any
//! property; a contract here says so of any test.
#![tactic(auto)]

ghost use Rattle.std.specs.Prelude.{◌≡◌, ◌≢◌, ◌<◌, ◌^◌, ℕ, Bool, Some};
ghost use Rattle.xt_base.specs.TimeSettings.{TimeSettings};
ghost use Rattle.xt_base.specs.declared.ids.NodeId.{NodeId};
ghost use Rattle.xt_base.specs.declared.ids.SizeMark.{SizeMark};
ghost use Rattle.xt_messages.specs.declared.file.Capability.{Capability};
ghost use Rattle.xt_messages.specs.declared.file.Op.{Op};
ghost use Rattle.xt_messages.specs.declared.message.Msg.{Msg};
ghost use Rattle.xt_messages.specs.declared.message.Payload.TheVariants as payload;
ghost use Rattle.xt_messages.specs.declared.event.Call.{Call};
ghost use Rattle.xt_messages.specs.declared.event.Event.{Event};
ghost use Rattle.xt_messages.specs.declared.event.Event.TheVariants as event;
ghost use Rattle.client_rows.specs.declared.requests.Request.{Request};
ghost use Rattle.client_rows.specs.declared.holding.HeldFile.{HeldFile};
ghost use Rattle.client_rows.specs.Holding.{Held, held_of, holds};
ghost use Rattle.client_rows.specs.Requests.{request_of};
ghost use Rattle.client_rows.specs.Rows.{WholeClient, passes, stepped, called, called_again};
ghost use Rattle.client_steps.specs.Asked.{IsOnFile, AllHeld, GrantIs, MadeIs, ClientIs, EventStepIs, CallStepIs, AgainStepIs};
ghost use Rattle.client_steps.specs.Tests.{Passes};

/// The steps of a client, for any test of what is asked under a number.
pub fn asks_are_of_calls()
    ensures stepped { (test : ℕ → Request → Bool) (node : NodeId) (times : TimeSettings)
        (c : WholeClient) (reading : ℕ) (happens : Event) → ClientIs (Passes test) c →
        EventStepIs (Passes test) node happens c.replicas.next
        (stepped node times c reading happens) }
    ensures called { (test : ℕ → Request → Bool) (node : NodeId) (times : TimeSettings)
        (c : WholeClient) (reading : ℕ) (k : Call) → ClientIs (Passes test) c →
        ((asked : Request) → request_of c.held k ≡ Some asked → c.replicas.next < 2 ^ 62 →
        Passes test c.replicas.next asked) →
        CallStepIs (Passes test) node c reading k (called node times c reading k) }
    ensures again { (test : ℕ → Request → Bool) (node : NodeId) (times : TimeSettings)
        (c : WholeClient) (reading : ℕ) → ClientIs (Passes test) c →
        AgainStepIs (Passes test) node c (called_again node times c reading) }
{}

/// What a client holds stays what it was granted, where no call to the metadata server runs.
pub fn what_is_held_stays()
    ensures { (test : ℕ → Capability → Bool) (node : NodeId) (times : TimeSettings)
        (c : WholeClient) (reading : ℕ) (happens : Event) →
        MadeIs (λ n asked. IsOnFile asked) c.made →
        AllHeld (Passes test) c.held →
        AllHeld (Passes test) (stepped node times c reading happens).state.held }
{}

/// After an event a client holds what it held, and what the event granted: each capability is such a one, where each was before it
/// and the one that the event grants is, if it grants one.
pub fn what_is_held_was_granted()
    ensures { (test : ℕ → Capability → Bool) (node : NodeId) (times : TimeSettings)
        (c : WholeClient) (reading : ℕ) (happens : Event) →
        GrantIs (Passes test) happens →
        AllHeld (Passes test) c.held →
        AllHeld (Passes test) (stepped node times c reading happens).state.held }
{}

/// A capability that is held is found under the number of its file, and what is held of other files stays.
pub fn what_is_granted_is_found()
    ensures found { (held : Held) (capability : Capability) (mark : SizeMark) →
        (h : HeldFile) × (held_of (holds held capability mark) capability.file.number ≡ Some h) ×
        (h.capability ≡ capability) }
    ensures others { (held : Held) (capability : Capability) (mark : SizeMark) (n : ℕ) →
        n ≢ capability.file.number → held_of (holds held capability mark) n ≡ held_of held n }
{}

/// An ask that comes to a client does nothing, but that the clock was used.
pub fn asks_to_clients_do_nothing()
    ensures { (node : NodeId) (times : TimeSettings) (c : WholeClient) (reading : ℕ) (msg : Msg)
        (number : ℕ) (capability : Capability) (asked : Op) →
        msg.payload ≡ payload.Ask number capability asked →
        stepped node times c reading (event.Deliver msg) ≡ passes c reading }
{}
