ghost use Rattle.std.specs.Prelude.{◌≡◌, ℕ, ◌+◌, ◌<◌, ◌≤◌, ◌^◌, None, OnOk};
ghost use Rattle.std.specs.Ordering.{nat_cmp};
ghost use Rattle.std.specs.BTreeMap.{get};
ghost use Rattle.xt_base.specs.declared.ids.NodeId.{NodeId};
ghost use Rattle.trace_judge.specs.Short.{reading_after, ticks_after, holds_at};

use std::alloc::{AllocError, Global};
use std::collections::BTreeMap;
use time_line::Entry;
use xt_base::NodeId;

/// What a running node's clock read when that was reported last, the sum of the ticks until then, and the end of its lease.
#[derive(Drop)]
pub struct Reading {
    pub clock: u64,
    pub ticks: u128,
    pub end: Option<u64>,
}

/// How each node stands to a file.
#[derive(Drop)]
pub struct Readings {
    pub file: u64,
    pub ticks: u128,
    pub rows: BTreeMap<u32, Reading>,
}

impl Readings {
    /// Nothing has been seen.
    pub fn new(alloc: Global, file: u64) -> Readings
        ensures file { result.file ≡ file }
        ensures ticks { result.ticks ≡ 0 }
        ensures rows { (n : NodeId) → get nat_cmp result.rows n.0 ≡ None }
    {
        Readings {
            file,
            ticks: 0,
            rows: BTreeMap::new(alloc),
        }
    }

    /// One entry more. An error means that memory ran out.
    pub fn take(&mut self, e: &Entry) -> Result<(), AllocError>
        requires room { self.old.ticks + 2 ^ 64 < 2 ^ 128 }
        ensures file { self.new.file ≡ self.old.file }
        ensures few { self.new.ticks ≤ self.old.ticks + 2 ^ 64 }
        ensures ticks { OnOk result (self.new.ticks ≡ ticks_after self.old.ticks e.now) }
        ensures rows { OnOk result ((n : NodeId) → get nat_cmp self.new.rows n.0 ≡
            reading_after n self.old.file self.old.ticks (get nat_cmp self.old.rows n.0) e.now) }
    {
        match e {
            Entry::Up {
                node,
                boot: _,
                clock,
            } => {
                self.rows.insert(
                    node.0,
                    Reading {
                        clock: *clock,
                        ticks: self.ticks,
                        end: None,
                    },
                )?;
            }
            Entry::Down {
                node,
                clock: _,
                how: _,
            } => {
                let _ = self.rows.remove(&node.0);
            }
            Entry::Clock { node, clock } => {
                if let Some(row) = self.rows.get_mut(&node.0) {
                    row.clock = *clock;
                    row.ticks = self.ticks;
                }
            }
            Entry::Tick { count } => {
                self.ticks += *count as u128;
            }
            Entry::Held { node, file, end } => {
                if *file == self.file {
                    if let Some(row) = self.rows.get_mut(&node.0) {
                        row.end = Some(*end);
                    }
                }
            }
            _ => {}
        }
        Ok(())
    }

    /// Whether the node holds the file.
    pub fn holds(&self, drift: u64, node: NodeId) -> bool
        requires room { self.now.ticks + 2 ^ 66 < 2 ^ 128 }
        ensures { result ≡ holds_at drift self.now.ticks (get nat_cmp self.now.rows node.0) }
    {
        let Some(reading) = self.rows.get(&node.0) else {
            return false;
        };
        let Some(end) = reading.end else {
            return false;
        };
        let since = self.ticks.saturating_sub(reading.ticks);
        reading.clock as u128 + since + (drift as u128) < end as u128
    }
}
