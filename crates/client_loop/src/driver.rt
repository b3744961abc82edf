ghost use Rattle.std.specs.Prelude.{◌≡◌, ◌≤◌, ◌<◌, ◌^◌, [], length, IfOk, IfErr, OnOk, OnErr};
ghost use Rattle.std.specs.Option.{IfSome};
ghost use Rattle.std.specs.List.{All};
ghost use Rattle.xt_messages.specs.Limits.{FitsMessage};
ghost use Rattle.node_runs.specs.Links.{Sends};
ghost use Rattle.node_runs.specs.Posting.{HasPosted};
ghost use Rattle.node_runs.specs.Hearing.{address_of, with_address};
ghost use Rattle.client_loop.specs.Listening.{HasLooked, CannotLook, HasDriveCause, FitsListened};
ghost use Rattle.client_loop.specs.Terms.{terms_of, on_terms};
ghost use Rattle.client_loop.specs.Waiting.{HasWaited, CannotWait, HearsOnce, HasListened, CannotListen};
ghost use Rattle.client_loop.specs.Mailing.{IsTaken, FrontMailed};
ghost use Rattle.client_loop.specs.Carrying.{mails};

use crate::errors::DriveErr;
use crate::listening::{Listened, Listener};
use crate::mailing::{mail, mail_all};
use crate::terms::Terms;
use node_links::{Clock, Link};
use node_mail::{Ears, Sender};
use std::alloc::Global;
use std::marker::Model;
use xt_base::{Address, Boot, DIR_NODE, NodeId, OutOfMemory, Times};
use xt_messages::Msg;
use xt_parts::PartBuffer;

/// A client's end of a link: where nodes are reached, the half joined messages, how many messages it has sent in this boot, and how
/// many receives it has made of those that it may make. Contracts see these, and its times.
#[derive(Drop)]
pub struct Driver {
    alloc: Global,
    sender: Sender,
    part: PartBuffer,
    times: Times,
    pub(crate) listener: Listener,
    buf: Vec<u8>,
}

impl Model for Driver {
    ghost use Rattle.std.specs.Prelude.{◌≡◌, ◌≤◌, ◌<◌, ◌^◌, length};
    ghost use Rattle.client_loop.specs.Listening.{DriverView};

    ghost Value = { DriverView };

    ghost view = { λ d. record { sender = d.sender; times = d.times; listener = d.listener } };

    ghost invariant = { λ d. (length d.buf.items ≡ 65536) × (d.listener.spent ≤ d.listener.turns)
        × (d.listener.turns < 2 ^ 62) };
}

impl Driver {
    /// The end of a link of this node, in this boot, which knows where the DIR is and may make so many receives.
    pub fn new(
        alloc: Global,
        node: NodeId,
        boot: Boot,
        times: Times,
        dir: &Address,
        turns: u64,
    ) -> Result<Driver, OutOfMemory>
        requires { turns < 2 ^ 62 }
        ensures { IfOk result (λ driver. driver ≡ record {
          sender = record { node = node; boot = boot; count = 0 };
          times = times;
          listener = record {
            node = node;
            ears = record { halves = []; book = with_address [] (record { 0 = 900 }) dir.now };
            turns = turns;
            spent = 0;
          };
        }) }
    {
        let mut ears = Ears::new(alloc);
        ears.put(DIR_NODE, *dir)?;
        Ok(Driver {
            alloc,
            sender: Sender {
                node,
                boot,
                count: 0,
            },
            part: PartBuffer::new(alloc)?,
            times,
            listener: Listener {
                node,
                ears,
                turns,
                spent: 0,
            },
            buf: Vec::from_elem(alloc, 0u8, 65_536)?,
        })
    }

    /// The terms on which it works.
    pub fn terms(&self) -> Terms
        ensures value { result ≡ terms_of self.now }
        ensures turns { (result.spent ≤ result.turns) × (result.turns < 2 ^ 62) }
    {
        Terms {
            sender: self.sender,
            times: self.times,
            turns: self.listener.turns,
            spent: self.listener.spent,
        }
    }

    /// Works on these terms from now on. What was heard so far stays: where nodes are reached, and the half joined messages.
    pub fn set_terms(&mut self, terms: &Terms)
        requires { (terms.now.spent ≤ terms.now.turns) × (terms.now.turns < 2 ^ 62) }
        ensures { self.new ≡ on_terms self.old terms.now }
    {
        self.sender = terms.sender;
        self.times = terms.times;
        self.listener.node = terms.sender.node;
        self.listener.turns = terms.turns;
        self.listener.spent = terms.spent;
    }

    /// Sends a message: true exactly where its receiver has an address and each of its parts was taken by the link.
    pub fn send<L: Link>(&mut self, msg: &Msg, link: &mut L) -> Result<bool, OutOfMemory>
        requires fits { FitsMessage msg.now }
        ensures given { L.given link.new ≡ L.given link.old }
        ensures faults { L.fault_count link.new ≡ L.fault_count link.old }
        ensures same { (self.new.times ≡ self.old.times) × (self.new.listener ≡ self.old.listener) }
        ensures taken { IfOk result (IsTaken self.old.sender msg.now (L.sent link.old)
            (L.sent link.new) (L.loss_count link.old) (L.loss_count link.new)
            (address_of self.old.listener.ears.book msg.now.to)) }
        ensures none { OnErr result ((self.new ≡ self.old) × (L.sent link.new ≡ L.sent link.old)
            × (L.loss_count link.new ≡ L.loss_count link.old)) }
    {
        mail(
            self.alloc,
            &mut self.sender,
            &mut self.part,
            self.listener.ears.book(),
            msg,
            link,
        )
    }

    /// Sends these messages, in order. Where memory runs out, a front of them was sent.
    pub fn send_all<L: Link>(&mut self, msgs: &[Msg], link: &mut L) -> Result<(), OutOfMemory>
        requires fits { All FitsMessage msgs.now }
        ensures given { L.given link.new ≡ L.given link.old }
        ensures faults { L.fault_count link.new ≡ L.fault_count link.old }
        ensures same { (self.new.times ≡ self.old.times) × (self.new.listener ≡ self.old.listener)
            × (self.new.sender.node ≡ self.old.sender.node)
            × (self.new.sender.boot ≡ self.old.sender.boot) }
        ensures sends { OnOk result (HasPosted (mails self.old msgs.now) self.new.sender.count
            (Sends (L.sent link.old) (L.sent link.new) (L.loss_count link.old)
            (L.loss_count link.new))) }
        ensures front { OnErr result (FrontMailed self.old.sender.node self.old.sender.boot
            self.old.listener.ears.book self.old.sender.count msgs.now
            (Sends (L.sent link.old) (L.sent link.new) (L.loss_count link.old)
            (L.loss_count link.new))) }
    {
        mail_all(
            self.alloc,
            &mut self.sender,
            &mut self.part,
            self.listener.ears.book(),
            msgs,
            link,
        )
    }

    /// Its times.
    pub(crate) fn times(&self) -> Times
        ensures { result ≡ self.now.times }
    {
        self.times
    }

    /// Looks for a message until this time.
    pub(crate) fn look<L: Link, C: Clock>(
        &mut self,
        until: u64,
        link: &mut L,
        clock: &mut C,
    ) -> Result<Listened, DriveErr>
        ensures same { (self.new.times ≡ self.old.times) × (self.new.sender ≡ self.old.sender) }
        ensures node { self.new.listener.node ≡ self.old.listener.node }
        ensures turns { (self.new.listener.turns ≡ self.old.listener.turns)
            × (self.new.listener.spent ≤ self.new.listener.turns)
            × (self.new.listener.turns < 2 ^ 62) }
        ensures sent { (L.sent link.new ≡ L.sent link.old)
            × (L.loss_count link.new ≡ L.loss_count link.old) }
        ensures looked { IfOk result (HasLooked until self.old.listener (L.given link.old)
            (L.given link.new) (C.readings clock.old) (C.readings clock.new) self.new.listener) }
        ensures fits { IfOk result FitsListened }
        ensures cannot { IfErr result (CannotLook until self.old.listener (L.given link.old)
            (L.given link.new) (C.readings clock.old) (C.readings clock.new)) }
        ensures cause { IfErr result (HasDriveCause (L.fault_count link.old) (L.fault_count link.new)
            (C.fault_count clock.old) (C.fault_count clock.new)) }
        ensures faults { IfOk result (λ made. (L.fault_count link.new ≡ L.fault_count link.old)
            × (C.fault_count clock.new ≡ C.fault_count clock.old)) }
    {
        self.listener
            .look(until, self.buf.as_mut_slice(), link, clock)
    }

    /// The next joined message that is one whole frame for this node, or none, exactly where the clock reads this time or more. The
    /// clock is read before each receive, which waits for what is left.
    pub fn next<L: Link, C: Clock>(
        &mut self,
        until: u64,
        link: &mut L,
        clock: &mut C,
    ) -> Result<Option<Msg>, DriveErr>
        ensures same { (self.new.times ≡ self.old.times) × (self.new.sender ≡ self.old.sender) }
        ensures sent { (L.sent link.new ≡ L.sent link.old)
            × (L.loss_count link.new ≡ L.loss_count link.old) }
        ensures waited { IfOk result (HasWaited until self.old.listener (L.given link.old)
            (L.given link.new) (C.readings clock.old) (C.readings clock.new) self.new.listener) }
        ensures fits { IfOk result (λ message. IfSome message FitsMessage) }
        ensures cannot { IfErr result (CannotWait until self.old.listener (L.given link.old)
            (L.given link.new) (C.readings clock.old) (C.readings clock.new)) }
        ensures cause { IfErr result (HasDriveCause (L.fault_count link.old) (L.fault_count link.new)
            (C.fault_count clock.old) (C.fault_count clock.new)) }
    {
        // the turns that were taken are within those that may be
        let _ = &self.listener;
        for _ in 0..u64::MAX {
            match self.look(until, link, clock) {
                Ok(Listened::Late { reading: _ }) => return Ok(None),
                Ok(Listened::Nothing) => {}
                Ok(Listened::Heard { msg }) => return Ok(Some(msg)),
                Err(error) => return Err(error),
            }
        }
        unreachable!()
    }

    /// Looks for a message until this time, and reports whether the clock reads that or more. A message does nothing.
    fn hear<L: Link, C: Clock>(
        &mut self,
        until: u64,
        link: &mut L,
        clock: &mut C,
    ) -> Result<bool, DriveErr>
        ensures same { (self.new.times ≡ self.old.times) × (self.new.sender ≡ self.old.sender) }
        ensures turns { (self.new.listener.turns ≡ self.old.listener.turns)
            × (self.new.listener.spent ≤ self.new.listener.turns)
            × (self.new.listener.turns < 2 ^ 62) }
        ensures sent { (L.sent link.new ≡ L.sent link.old)
            × (L.loss_count link.new ≡ L.loss_count link.old) }
        ensures looked { IfOk result (HearsOnce until self.old.listener (L.given link.old)
            (L.given link.new) (C.readings clock.old) (C.readings clock.new) self.new.listener) }
        ensures cannot { IfErr result (CannotLook until self.old.listener (L.given link.old)
            (L.given link.new) (C.readings clock.old) (C.readings clock.new)) }
        ensures cause { IfErr result (HasDriveCause (L.fault_count link.old) (L.fault_count link.new)
            (C.fault_count clock.old) (C.fault_count clock.new)) }
        ensures sound { IfOk result (λ late. (L.fault_count link.new ≡ L.fault_count link.old)
            × (C.fault_count clock.new ≡ C.fault_count clock.old)) }
    {
        match self.look(until, link, clock) {
            Ok(Listened::Late { reading: _ }) => Ok(true),
            Ok(Listened::Nothing) => Ok(false),
            Ok(Listened::Heard { msg: _ }) => Ok(false),
            Err(error) => Err(error),
        }
    }

    /// Hears what comes, until the clock reads this time or more. The clock is read before each receive, which waits for what is left.
    pub fn listen<L: Link, C: Clock>(
        &mut self,
        until: u64,
        link: &mut L,
        clock: &mut C,
    ) -> Result<(), DriveErr>
        ensures same { (self.new.times ≡ self.old.times) × (self.new.sender ≡ self.old.sender) }
        ensures sent { (L.sent link.new ≡ L.sent link.old)
            × (L.loss_count link.new ≡ L.loss_count link.old) }
        ensures listened { OnOk result (HasListened until self.old.listener (L.given link.old)
            (L.given link.new) (C.readings clock.old) (C.readings clock.new) self.new.listener) }
        ensures cannot { IfErr result (CannotListen until self.old.listener (L.given link.old)
            (L.given link.new) (C.readings clock.old) (C.readings clock.new)) }
        ensures cause { IfErr result (HasDriveCause (L.fault_count link.old) (L.fault_count link.new)
            (C.fault_count clock.old) (C.fault_count clock.new)) }
        ensures sound { OnOk result ((L.fault_count link.new ≡ L.fault_count link.old)
            × (C.fault_count clock.new ≡ C.fault_count clock.old)) }
    {
        // the turns that were taken are within those that may be
        let _ = &self.listener;
        for _ in 0..u64::MAX {
            match self.hear(until, link, clock) {
                Ok(true) => return Ok(()),
                Ok(false) => {}
                Err(error) => return Err(error),
            }
        }
        unreachable!()
    }
}
