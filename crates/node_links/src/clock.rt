ghost use Rattle.std.specs.Prelude.{◌≡◌, ◌<◌, ◌^◌, ◌≤◌, ℕ, List, Option, Some, None, length, drop, is_err, IfOk, OnErr, IfSome};
ghost use Rattle.std.specs.List.{All};
ghost use Rattle.xt_base.specs.Faults.{fault_count_after};
ghost use Rattle.node_links.specs.Links.{next_reading, readings_left};

use std::io::{self, ErrorKind};
use std::time::{self, SystemTime, UNIX_EPOCH};
use xt_base::{CallList, Failed, Seq};

/// Readings of a clock, in milliseconds.
pub type Readings = Seq<u64>;

/// A clock that is read in milliseconds.
pub trait Clock {
    /// The readings that are to come, where they are known.
    ghost readings: { Self → Option (List ℕ) };

    /// How often it couldn't be read.
    ghost fault_count: { Self → ℕ };

    /// How often it couldn't be read.
    fn faults(&self) -> u64
        ensures { result ≡ fault_count self.now };

    /// Reads it.
    fn now(&mut self) -> Result<u64, Failed>
        ensures limit { IfOk result (λ reading. reading < 2 ^ 62) }
        ensures reads { IfOk result (λ reading. IfSome (readings self.old) (λ left.
            (reading ≡ next_reading left) × (readings self.new ≡ Some (readings_left left)))) }
        ensures untold { readings self.old ≡ None → readings self.new ≡ None }
        ensures kept { OnErr result (readings self.new ≡ readings self.old) }
        ensures faults { fault_count self.new ≡
            fault_count_after (is_err result) (fault_count self.old) };
}

/// A clock that gives these readings in order, and then the last one again, or 0 where there is none. The calls that are named, from
/// 1, fail.
#[derive(Drop)]
pub struct FixedClock {
    readings: Readings,
    next: usize,
    failing: CallList,
    calls: u64,
    faults: u64,
    ghost inside: { next ≤ length readings },
    ghost limits: { All (λ reading. reading < 2 ^ 62) readings },
}

impl FixedClock {
    /// A clock of these readings.
    pub fn new(readings: Readings, failing: CallList) -> FixedClock
        requires { All (λ reading. reading < 2 ^ 62) readings }
        ensures { (result.readings ≡ readings) × (result.next ≡ 0) × (result.faults ≡ 0) }
    {
        FixedClock {
            readings,
            next: 0,
            failing,
            calls: 0,
            faults: 0,
        }
    }
}

impl Clock for FixedClock {
    ghost readings = { λ c. Some (drop c.next c.readings) };

    ghost fault_count = { λ c. c.faults };

    fn faults(&self) -> u64 {
        self.faults
    }

    fn now(&mut self) -> Result<u64, Failed> {
        self.calls = self.calls.saturating_add(1);
        if self.failing.as_slice().contains(&self.calls) {
            self.faults = self.faults.saturating_add(1);
            return Err(Failed);
        }
        let left = &self.readings.as_slice()[self.next..];
        match left {
            [] => Ok(0),
            [reading] => Ok(*reading),
            [reading, _, ..] => {
                let reading = *reading;
                self.next += 1;
                Ok(reading)
            }
        }
    }
}

/// The wall clock, which the nodes of a cluster share within the drift.
#[derive(Drop)]
pub struct SystemClock<R: time::Clock> {
    rt: R,
    faults: u64,
}

impl<R: time::Clock> SystemClock<R> {
    /// A clock that hasn't failed.
    pub fn new(rt: R) -> SystemClock<R>
        ensures { result.faults ≡ 0 }
    {
        SystemClock { rt, faults: 0 }
    }
}

/// Milliseconds since 1970.
fn millis<R: time::Clock>(rt: &R) -> io::Result<u64>
    ensures { IfOk result (λ reading. reading < 2 ^ 62) }
{
    let Ok(since) = SystemTime::now(rt)?.duration_since(UNIX_EPOCH) else {
        return Err(ErrorKind::InvalidData.into());
    };
    match u64::try_from(since.as_millis()) {
        Ok(reading) if reading < 1 << 62 => Ok(reading),
        _ => Err(ErrorKind::InvalidData.into()),
    }
}

impl<R: time::Clock> Clock for SystemClock<R> {
    ghost readings = { λ _. None };

    ghost fault_count = { λ c. c.faults };

    fn faults(&self) -> u64 {
        self.faults
    }

    fn now(&mut self) -> Result<u64, Failed> {
        match millis(&self.rt) {
            Ok(reading) => Ok(reading),
            Err(_) => {
                self.faults = self.faults.saturating_add(1);
                Err(Failed)
            }
        }
    }
}
