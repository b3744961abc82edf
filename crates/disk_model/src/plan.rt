ghost use Rattle.std.specs.Prelude.{◌≡◌, ◌+◌, true, is_err};
ghost use Rattle.disk_model.specs.Disk.{GoesByPlan};
ghost use Rattle.xt_base.specs.Faults.{counted, fault_count_after};

use xt_base::{CallList, Failed};

/// Where a disk in memory stops: in its write or sync of this number, counted from 1 at the making. Each later
/// call fails. A crash then leaves the byte `fill` at each place that isn't synced.
#[derive(Clone, Copy)]
pub struct Stop {
    pub call: u64,
    pub fill: u8,
}

/// Which calls fail, and how many were made and failed. A count that is at `u64::MAX` stays there.
#[derive(Drop)]
pub struct Plan {
    pub failing: CallList,
    pub stop: Option<Stop>,
    pub calls: u64,
    /// Those of the calls that write or sync.
    pub changes: u64,
    pub faults: u64,
}

impl Plan {
    ghost use Rattle.disk_model.specs.Plan.{planned, fails_at, has_stopped};

    /// Counts a call that only looks.
    pub fn look(&mut self) -> Result<(), Failed>
        ensures plan { GoesByPlan 1 0 (planned self.old) (planned self.new) (is_err result) }
        ensures count { self.new.faults ≡ fault_count_after (is_err result) self.old.faults }
        ensures stop { self.new.stop ≡ self.old.stop }
    {
        self.calls = self.calls.saturating_add(1);
        self.answer()
    }

    /// Counts a call that writes or syncs.
    pub fn change(&mut self) -> Result<(), Failed>
        ensures plan { GoesByPlan 0 1 (planned self.old) (planned self.new) (is_err result) }
        ensures count { self.new.faults ≡ fault_count_after (is_err result) self.old.faults }
        ensures stop { self.new.stop ≡ self.old.stop }
    {
        self.calls = self.calls.saturating_add(1);
        self.changes = self.changes.saturating_add(1);
        self.answer()
    }

    fn answer(&mut self) -> Result<(), Failed>
        ensures answer { is_err result ≡
            fails_at self.old.failing self.old.stop (counted self.old.calls)
            (counted self.old.changes) }
        ensures count { self.new.faults ≡ fault_count_after (is_err result) self.old.faults }
        ensures failing { self.new.failing ≡ self.old.failing }
        ensures stop { self.new.stop ≡ self.old.stop }
        ensures calls { self.new.calls ≡ self.old.calls }
        ensures changes { self.new.changes ≡ self.old.changes }
    {
        if self.fails() {
            self.count_fault();
            return Err(Failed);
        }
        Ok(())
    }

    /// Counts a failure.
    pub fn count_fault(&mut self)
        ensures count { self.new.faults ≡ fault_count_after true self.old.faults }
        ensures failing { self.new.failing ≡ self.old.failing }
        ensures stop { self.new.stop ≡ self.old.stop }
        ensures calls { self.new.calls ≡ self.old.calls }
        ensures changes { self.new.changes ≡ self.old.changes }
    {
        self.faults = self.faults.saturating_add(1);
    }

    fn fails(&self) -> bool
        ensures { result ≡
            fails_at self.now.failing self.now.stop (counted self.now.calls)
            (counted self.now.changes) }
    {
        let call = self.calls;
        self.failing.as_slice().contains(&call) || self.has_stopped()
    }

    fn has_stopped(&self) -> bool
        ensures { result ≡ has_stopped self.now.stop (counted self.now.changes) }
    {
        match self.stop {
            Some(stop) => stop.call <= self.changes,
            None => false,
        }
    }
}
