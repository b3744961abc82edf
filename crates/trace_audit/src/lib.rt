//! The audit of a trace: its entries are taken from a source and judged, and what the verdict is goes to a sink.
//!
//! `audit_text` promises that what was taken is the text of the entries, or of those before the line that ended the audit;
//! that `safe` is put exactly where their trace is safe, and else the least entry by which it is broken and the least clause
//! there; that each status comes where it is due; and that a fault ends the audit, and is reported only where its object's count
//! rose.
#![tactic(auto)]

mod auditing;
mod next;
mod reading;
mod verdict;

pub use auditing::audit_text;
pub use next::{NextEntry, next_entry};
pub use reading::read_trace;
pub use verdict::audit_halves;

/// How many bytes a trace may have, its line feeds among them.
pub const TRACE_BYTES: u64 = 1_073_741_824;
