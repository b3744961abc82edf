ghost use Rattle.std.specs.Prelude.{◌≡◌, ℕ, ◌+◌, ◌<◌, ◌≤◌, ◌^◌, None, OnOk, IfOk};
ghost use Rattle.std.specs.Ordering.{nat_cmp};
ghost use Rattle.std.specs.BTreeMap.{get};
ghost use Rattle.xt_base.specs.declared.ids.NodeId.{NodeId};
ghost use Rattle.time_line.specs.Clauses.{acts_on};
ghost use Rattle.judging.specs.Pass.{looked_at, fits_acting, fits_apart, holder_after};
ghost use Rattle.trace_judge.specs.Short.{reading_after, ticks_after, holds_at};

use crate::readings::Readings;
use std::alloc::{AllocError, Global};
use time_line::Entry;
use xt_base::NodeId;

/// Who holds a file, as far as the entries so far say: how each node stands to it, and the node that was the last to hold it.
#[derive(Drop)]
pub struct Leases {
    pub drift: u64,
    pub holder: Option<NodeId>,
    pub readings: Readings,
}

impl Leases {
    /// Nothing has been seen.
    pub fn new(alloc: Global, file: u64, drift: u64) -> Leases
        ensures drift { result.drift ≡ drift }
        ensures file { result.readings.file ≡ file }
        ensures holder { result.holder ≡ None }
        ensures ticks { result.readings.ticks ≡ 0 }
        ensures rows { (n : NodeId) → get nat_cmp result.readings.rows n.0 ≡ None }
    {
        Leases {
            drift,
            holder: None,
            readings: Readings::new(alloc, file),
        }
    }

    /// Whether the node that acts on the file by the entry, if one does, holds it.
    pub fn lets(&self, e: &Entry) -> bool
        requires room { self.now.readings.ticks + 2 ^ 66 < 2 ^ 128 }
        ensures { result ≡ fits_acting (acts_on self.now.readings.file e.now)
            (λ n. holds_at self.now.drift self.now.readings.ticks
            (get nat_cmp self.now.readings.rows n.0)) }
    {
        match e {
            Entry::Active { node, file, .. } if *file == self.readings.file => {
                self.readings.holds(self.drift, *node)
            }
            Entry::Issue { node, file, .. } if *file == self.readings.file => {
                self.readings.holds(self.drift, *node)
            }
            Entry::Commit { node, file, .. } if *file == self.readings.file => {
                self.readings.holds(self.drift, *node)
            }
            Entry::Answer { node, file, .. } if *file == self.readings.file => {
                self.readings.holds(self.drift, *node)
            }
            _ => true,
        }
    }

    /// One entry more; whether, if no two nodes held the file before, none do now. An error means that memory ran out.
    pub fn take(&mut self, e: &Entry) -> Result<bool, AllocError>
        requires room { self.old.readings.ticks + 2 ^ 67 < 2 ^ 128 }
        ensures drift { self.new.drift ≡ self.old.drift }
        ensures file { self.new.readings.file ≡ self.old.readings.file }
        ensures few { OnOk result (self.new.readings.ticks ≤ self.old.readings.ticks + 2 ^ 64) }
        ensures ticks { OnOk result (self.new.readings.ticks ≡
            ticks_after self.old.readings.ticks e.now) }
        ensures rows { OnOk result ((n : NodeId) → get nat_cmp self.new.readings.rows n.0 ≡
            reading_after n self.old.readings.file self.old.readings.ticks
            (get nat_cmp self.old.readings.rows n.0) e.now) }
        ensures fits { IfOk result (λ fits. fits ≡
            fits_apart self.old.holder (looked_at self.old.readings.file e.now)
            (λ n. holds_at self.old.drift self.new.readings.ticks
            (get nat_cmp self.new.readings.rows n.0))) }
        ensures holder { OnOk result (self.new.holder ≡
            holder_after self.old.holder (looked_at self.old.readings.file e.now)
            (λ n. holds_at self.old.drift self.new.readings.ticks
            (get nat_cmp self.new.readings.rows n.0))) }
    {
        self.readings.take(e)?;
        let node = match e {
            Entry::Clock { node, clock: _ } => *node,
            Entry::Held { node, file, end: _ } if *file == self.readings.file => *node,
            _ => return Ok(true),
        };
        if !self.readings.holds(self.drift, node) {
            return Ok(true);
        }
        let alone = match self.holder {
            None => true,
            Some(other) => other.0 == node.0 || !self.readings.holds(self.drift, other),
        };
        self.holder = Some(node);
        Ok(alone)
    }
}
