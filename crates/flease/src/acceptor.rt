ghost use Rattle.std.specs.Prelude.{◌≡◌};
ghost use Rattle.xt_protocol.specs.Register as protocol;
ghost use Rattle.flease.specs.Answers.{shown_read, shown_write};

use std::marker::Model;
use xt_base::{Ballot, Boot, Lease, NodeId};

/// One boot of a node as an acceptor of a file's lease. Contracts see what it has promised and accepted.
#[derive(Clone, Copy)]
pub struct Acceptor {
    boot: Boot,
    promised: Option<Ballot>,
    accepted: Option<Lease>,
}

impl Model for Acceptor {
    ghost use Rattle.xt_protocol.specs.Register as protocol;

    ghost Value = { protocol.Acceptor };

    ghost view = { λ a. record { boot = a.boot; promised = a.promised; accepted = a.accepted } };

    ghost inverse = { λ a. record { boot = a.boot; promised = a.promised; accepted = a.accepted } };
}

/// The answer to a Read.
#[derive(Clone, Copy)]
pub enum ReadAnswer {
    /// The ballot is promised. The report is the accepted lease.
    Promise { report: Option<Lease> },
    /// The promised ballot isn't below the Read's.
    Refused { seen: Ballot },
}

/// The answer to a Write.
#[derive(Clone, Copy)]
pub enum WriteAnswer {
    Accepted,
    /// Another ballot was promised last.
    Refused { seen: Ballot },
    /// The Write was meant for another boot of the node.
    OtherBoot,
}

/// What a refused Write is shown where nothing was promised.
const NO_BALLOT: Ballot = Ballot {
    count: 0,
    node: NodeId(0),
    boot: Boot(0),
};

impl Acceptor {
    /// An acceptor that has promised and accepted nothing.
    pub fn new(boot: Boot) -> Acceptor
        ensures { result ≡ protocol.new_acceptor boot }
    {
        Acceptor {
            boot,
            promised: None,
            accepted: None,
        }
    }

    /// Promises the ballot, unless one at least as high was promised.
    pub fn on_read(&mut self, ballot: Ballot) -> ReadAnswer
        ensures state { self.new ≡ (protocol.on_read self.old ballot).acceptor }
        ensures answer { result ≡ shown_read (protocol.on_read self.old ballot).answer }
    {
        if let Some(seen) = self.promised
            && ballot <= seen
        {
            return ReadAnswer::Refused { seen };
        }
        self.promised = Some(ballot);
        ReadAnswer::Promise {
            report: self.accepted,
        }
    }

    /// Accepts the lease where it is written to this boot by the ballot that was promised last.
    pub fn on_write(&mut self, ballot: Ballot, boot: Boot, lease: Lease) -> WriteAnswer
        ensures state { self.new ≡ (protocol.on_write self.old ballot boot lease).acceptor }
        ensures answer { result ≡
            shown_write (protocol.on_write self.old ballot boot lease).answer }
    {
        if self.boot != boot {
            return WriteAnswer::OtherBoot;
        }
        if self.promised != Some(ballot) {
            return WriteAnswer::Refused {
                seen: self.promised.unwrap_or(NO_BALLOT),
            };
        }
        self.accepted = Some(lease);
        WriteAnswer::Accepted
    }

    /// The lease that was accepted last.
    pub fn lease(&self) -> Option<Lease>
        ensures { result ≡ self.now.accepted }
    {
        self.accepted
    }

    /// The boot.
    pub fn boot(&self) -> Boot
        ensures { result ≡ self.now.boot }
    {
        self.boot
    }
}
