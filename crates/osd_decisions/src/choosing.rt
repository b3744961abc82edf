//! Which of the heads that were reported a new primary chooses, and which bodies it wants then. The greatest stamp is chosen; among
//! equal ones the own node's, and then the least node's. Versions that rise are searched by halves, others one by one.
ghost use Rattle.std.specs.Prelude.{◌≡◌, ◌<◌, IfOk, IsTrue, length, slice_get};
ghost use Rattle.xt_protocol.specs.Stamps.{has_version};
ghost use Rattle.xt_protocol.specs.Choice.{is_better, difference};
ghost use Rattle.object_versions.specs.Rising.{held_rise};
ghost use Rattle.osd_decisions.specs.Reports.{best_report};

use object_versions::{has_version, held_rise, is_below, is_held, is_stamp};
use std::alloc::Global;
use xt_base::{NodeId, OutOfMemory, Seq};
use xt_messages::{FileHead, ObjectVersion, Versions};

/// Whether the first report is better than the second, for a primary on this node.
pub fn is_better(own: NodeId, a: NodeId, first: &FileHead, b: NodeId, second: &FileHead) -> bool
    ensures { result ≡ is_better own (a, first.now) (b, second.now) }
{
    let is_preferred = b.0 != own.0 && (a.0 == own.0 || a.0 < b.0);
    is_below(second.stamp, first.stamp) || is_stamp(second.stamp, first.stamp) && is_preferred
}

/// The place of the best of these reports, of which there is one at least, for a primary on this node.
pub fn choose(own: NodeId, reports: &[(NodeId, FileHead)]) -> usize
    requires { 0 < length reports.now }
    ensures { slice_get reports.now result ≡ best_report own reports.now }
{
    let mut best = 0;
    for place in 1..reports.len() {
        let (a, first) = &reports[place];
        let (b, second) = &reports[best];
        if is_better(own, *a, first, *b, second) {
            best = place;
        }
    }
    best
}

/// Whether a version is among these, which are searched by halves if they rise.
fn is_known(known: &[ObjectVersion], rises: bool, version: ObjectVersion) -> bool
    requires { IsTrue rises → IsTrue (held_rise known.now) }
    ensures { result ≡ has_version known.now version }
{
    if rises {
        is_held(known, version)
    } else {
        has_version(known, version)
    }
}

/// The versions that are wanted and not known, in the order of those wanted.
#[tactic(auto, unfolding(xt_protocol::specs::Choice::difference))]
pub fn difference(alloc: Global, have: &Versions, want: &Versions) -> Result<Versions, OutOfMemory>
    ensures { IfOk result (λ missing. missing ≡ difference have.now want.now) }
{
    let known = have.as_slice();
    let rises = held_rise(known);
    let mut missing = Seq::new(alloc);
    for version in want.as_slice() {
        if !is_known(known, rises, *version) {
            missing.push(*version)?;
        }
    }
    Ok(missing)
}
