ghost use Rattle.std.specs.Prelude.{◌≡◌, ◌≤◌, ◌∷◌, [], ℕ, List, Option, length, is_err, IfOk, OnOk, OnErr};
ghost use Rattle.xt_base.specs.Faults.{Rose, fault_count_after};
ghost use Rattle.node_links.specs.Links.{IsGot};
ghost use Rattle.node_links.specs.Streams.{Puts};

use xt_base::{Address, Failed, Octets, Seq};

/// A datagram: where the other end is, and its bytes.
#[derive(Drop)]
pub struct Datagram {
    pub peer: Address,
    pub bytes: Octets,
}

/// Datagrams, in order.
pub type Datagrams = Seq<Datagram>;

/// What a receive gave.
#[derive(Clone, Copy)]
pub enum Got {
    /// A datagram of this length, at the front of the buffer, and where it came from.
    Piece { from: Address, len: usize },
    /// There was no datagram to give.
    NothingYet,
}

/// A socket for datagrams.
pub trait Link {
    ghost use Rattle.node_links.specs.declared.link.Datagram.{Datagram};

    /// The datagrams that are to come, where they are known.
    ghost given: { Self → Option (List Datagram) };

    /// The datagrams that went, where they are known.
    ghost sent: { Self → Option (List Datagram) };

    /// How often a bind or a receive has failed.
    ghost fault_count: { Self → ℕ };

    /// How often a send has failed.
    ghost loss_count: { Self → ℕ };

    /// How often a bind or a receive has failed.
    fn faults(&self) -> u64
        ensures { result ≡ fault_count self.now };

    /// How often a send has failed.
    fn losses(&self) -> u64
        ensures { result ≡ loss_count self.now };

    /// Puts an address of its own.
    fn bind(&mut self, address: &str) -> Result<(), Failed>
        ensures given { given self.new ≡ given self.old }
        ensures sent { sent self.new ≡ sent self.old }
        ensures faults { fault_count self.new ≡
            fault_count_after (is_err result) (fault_count self.old) }
        ensures losses { loss_count self.new ≡ loss_count self.old };

    /// Sends a datagram. One that can't be sent is lost, and counted.
    fn send(&mut self, to: &Address, piece: &[u8]) -> Result<(), Failed>
        ensures given { given self.new ≡ given self.old }
        ensures went { OnOk result (Puts (sent self.old) (sent self.new)
            (record { peer = to.now; bytes = piece.now } ∷ [])) }
        ensures lost { OnErr result (sent self.new ≡ sent self.old) }
        ensures faults { fault_count self.new ≡ fault_count self.old }
        ensures losses { loss_count self.new ≡
            fault_count_after (is_err result) (loss_count self.old) };

    /// The next datagram, for which it waits this many milliseconds at most. With 0 it doesn't wait: it gives one that is there already.
    fn receive(&mut self, wait: u64, buf: &mut [u8]) -> Result<Got, Failed>
        requires { 65536 ≤ length buf.old }
        ensures long { length buf.new ≡ length buf.old }
        ensures got { IfOk result (IsGot (given self.old) (given self.new) buf.new) }
        ensures kept { OnErr result (given self.new ≡ given self.old) }
        ensures sent { sent self.new ≡ sent self.old }
        ensures faults { fault_count self.new ≡
            fault_count_after (is_err result) (fault_count self.old) }
        ensures losses { loss_count self.new ≡ loss_count self.old };
}
