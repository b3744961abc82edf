//! The limits of what a client holds and asks: what it sends is within those of messages, in each of its calls and steps, and it keeps
//! no record.
//!
//! Definitions and theorems alone; nothing runs here.
#![tactic(auto)]

ghost use Rattle.std.specs.Prelude.{◌<◌, ◌^◌, None, [], ℕ};
ghost use Rattle.xt_base.specs.TimeSettings.{TimeSettings};
ghost use Rattle.xt_base.specs.declared.ids.NodeId.{NodeId};
ghost use Rattle.xt_messages.specs.declared.event.Call.{Call};
ghost use Rattle.xt_messages.specs.declared.event.Event.{Event};
ghost use Rattle.xt_messages.specs.Limits.{FitsNode, FitsEvent};
ghost use Rattle.client_rows.specs.Rows.{WholeClient, called, called_again, stepped};
ghost use Rattle.client_limits.specs.Fits.{FitsCall, FitsClient, FitsStep};

/// A client that has made no call, whatever its clock and its first number are.
pub fn new_clients_fit()
    ensures { (clock first : ℕ) → FitsClient (record {
      replicas = record { last = clock; next = first; running = None; files = [] };
      held = [];
      made = None;
    }) }
{}

/// A call within its limits.
pub fn calls_fit()
    ensures { (node : NodeId) (times : TimeSettings) (client : WholeClient) (reading : ℕ)
        (asked : Call) → FitsNode node → FitsClient client → FitsCall asked →
        FitsStep (called node times client reading asked) }
{}

/// The last call, made again.
pub fn repeated_calls_fit()
    ensures { (node : NodeId) (times : TimeSettings) (client : WholeClient) (reading : ℕ) →
        FitsNode node → FitsClient client → FitsStep (called_again node times client reading) }
{}

/// A step on an event within its limits.
pub fn steps_fit()
    ensures { (node : NodeId) (times : TimeSettings) (client : WholeClient) (reading : ℕ)
        (happens : Event) → FitsNode node → FitsClient client → FitsEvent happens →
        FitsStep (stepped node times client reading happens) }
{}
