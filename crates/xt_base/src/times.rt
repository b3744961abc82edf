ghost use Rattle.std.specs.Prelude.{◌≡◌, ◌≤◌, ◌<◌, ◌+◌, ◌*◌, ◌/◌, ◌^◌, ℕ, IsOk, IfOk, ◌↔◌};
ghost use Rattle.xt_base.specs.TimeSettings.{AreTimes};

use std::marker::Model;

/// The length of a lease and the greatest difference of two running clocks, in milliseconds.
#[derive(Clone, Copy)]
pub struct Times {
    lease: u64,
    drift: u64,
}

impl Model for Times {
    ghost use Rattle.xt_base.specs.TimeSettings.{TimeSettings, AreTimes};

    ghost Value = { TimeSettings };

    ghost view = { λ t. record { lease = t.lease; drift = t.drift } };

    ghost invariant = { λ t. AreTimes t.lease t.drift };

    ghost inverse = { λ t. record { lease = t.lease; drift = t.drift } };
}

/// Not `0 < 2 * drift < lease < 2^40`.
#[derive(Clone, Copy)]
pub struct BadTimes;

impl Times {
    /// The times where a schedule or a command names none: 14 seconds and 1 second.
    pub const DEFAULT_LEASE: u64 = 14_000;

    /// See [`Times::DEFAULT_LEASE`].
    pub const DEFAULT_DRIFT: u64 = 1_000;

    /// Both in milliseconds. `BadTimes` exactly where `0 < 2 * drift < lease < 2^40` is false.
    pub fn new(lease: u64, drift: u64) -> Result<Times, BadTimes>
        ensures exact { IsOk result ↔ AreTimes lease drift }
        ensures value { IfOk result (λ times. (times.lease ≡ lease) × (times.drift ≡ drift)) }
    {
        if drift > 0 && lease < 1 << 40 && drift < 1 << 40 && 2 * drift < lease {
            Ok(Times { lease, drift })
        } else {
            Err(BadTimes)
        }
    }

    /// The length of a lease.
    pub fn lease(&self) -> u64
        ensures value { result ≡ self.now.lease }
        ensures times { AreTimes self.now.lease self.now.drift }
    {
        self.lease
    }

    /// The greatest difference of two running clocks.
    pub fn drift(&self) -> u64
        ensures value { result ≡ self.now.drift }
        ensures times { AreTimes self.now.lease self.now.drift }
    {
        self.drift
    }

    /// How long a round or an ask may wait: half a lease, rounded down.
    pub fn wait(&self) -> u64
        ensures { result ≡ self.now.lease / 2 }
    {
        self.lease / 2
    }
}

/// How many of `n` members make a majority. Two majorities share a member.
pub fn majority(n: u8) -> u8
    requires { 1 ≤ n }
    ensures { result ≡ n / 2 + 1 }
{
    n / 2 + 1
}
