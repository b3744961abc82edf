ghost use Rattle.std.specs.Prelude.{◌≡◌, ◌<◌, ◌+◌, ◌^◌, ◌↔◌, IsNone};
ghost use Rattle.xt_protocol.specs.LeaseRows as protocol;

use std::marker::Model;
use xt_base::{Boot, NodeId, Times};

/// An OSD that has just started and drops every message.
#[derive(Drop)]
pub struct Silent {
    times: Times,
    node: NodeId,
    boot: Boot,
    start: u64,
}

impl Model for Silent {
    ghost use Rattle.std.specs.Prelude.{◌<◌, ◌^◌};
    ghost use Rattle.xt_protocol.specs.LeaseRows as protocol;

    ghost Value = { protocol.Silent };

    ghost view = { λ s. record { node = s.node; boot = s.boot; times = s.times; start = s.start } };

    ghost invariant = { λ s. s.start < 2 ^ 62 };

    ghost inverse = { λ s.
        record { times = s.times; node = s.node; boot = s.boot; start = s.start } };
}

/// An OSD whose silence is over.
#[derive(Clone, Copy)]
pub struct Awake {
    times: Times,
    node: NodeId,
    boot: Boot,
}

impl Model for Awake {
    ghost use Rattle.xt_protocol.specs.LeaseRows as protocol;

    ghost Value = { protocol.Awake };

    ghost view = { λ a. record { node = a.node; boot = a.boot; times = a.times } };

    ghost inverse = { λ a. record { times = a.times; node = a.node; boot = a.boot } };
}

impl Silent {
    /// A boot of a node that starts at the clock `start`, below 2^62.
    pub fn new(times: Times, node: NodeId, boot: Boot, start: u64) -> Silent
        requires { start < 2 ^ 62 }
        ensures { result ≡ record { node = node; boot = boot; times = times; start = start } }
    {
        Silent {
            times,
            node,
            boot,
            start,
        }
    }

    /// `None` exactly until the clock has advanced by the lease length and the drift since the start.
    pub fn awake(&self, now: u64) -> Option<Awake>
        ensures exact { IsNone result
            ↔ (now < self.now.start + self.now.times.lease + self.now.times.drift) }
        ensures value { result ≡ protocol.awake_at self.now now }
    {
        if now < self.start + self.times.lease() + self.times.drift() {
            return None;
        }
        Some(Awake {
            times: self.times,
            node: self.node,
            boot: self.boot,
        })
    }
}

impl Awake {
    /// The node.
    pub fn node(&self) -> NodeId
        ensures { result ≡ self.now.node }
    {
        self.node
    }

    /// Its boot.
    pub fn boot(&self) -> Boot
        ensures { result ≡ self.now.boot }
    {
        self.boot
    }

    /// The times that it goes by.
    pub fn times(&self) -> Times
        ensures { result ≡ self.now.times }
    {
        self.times
    }
}
