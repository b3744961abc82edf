ghost use Rattle.std.specs.Prelude.{◌≡◌, ◌≤◌, ◌+◌, length, IfOk, OnOk, OnErr};
ghost use Rattle.std.specs.List.{list_all};
ghost use Rattle.xt_messages.specs.Limits.{FitsMessage};
ghost use Rattle.xt_parts.specs.Part.{parts_of};
ghost use Rattle.node_runs.specs.Links.{Sends, OneSent};
ghost use Rattle.node_runs.specs.Posting.{sent_to, datagrams_to};
ghost use Rattle.node_mail.specs.Posts.{datagrams_of, datagrams_of_all};

use crate::packed::Post;
use message_ids::MessageId;
use node_links::Link;
use std::alloc::{AllocError, Global};
use xt_base::{Address, Boot, FRAME, NodeId, OutOfMemory};
use xt_frames::encode;
use xt_messages::Msg;
use xt_parts::{PartBuffer, part_count};

/// What a node sends in a boot, and how many messages it has sent.
#[derive(Clone, Copy)]
pub struct Sender {
    pub node: NodeId,
    pub boot: Boot,
    pub count: u64,
}

/// Hands a part to a link, and says whether it was taken.
fn hand<L: Link>(link: &mut L, to: &Address, part: &[u8]) -> bool
    ensures given { L.given link.new ≡ L.given link.old }
    ensures faults { L.fault_count link.new ≡ L.fault_count link.old }
    ensures sent { OneSent (L.sent link.old) (L.sent link.new) (L.loss_count link.old)
        (L.loss_count link.new) (record { peer = to.now; bytes = part.now }) result }
{
    match link.send(to, part) {
        Ok(()) => true,
        Err(_) => false,
    }
}

/// Cuts a message into parts and hands them to a link, one after the other. Says whether each was taken. What fails is lost.
fn send_parts<L: Link>(
    link: &mut L,
    to: &Address,
    part: &mut PartBuffer,
    id: MessageId,
    message: &[u8],
) -> bool
    requires { length message.now ≤ FRAME }
    ensures given { L.given link.new ≡ L.given link.old }
    ensures faults { L.fault_count link.new ≡ L.fault_count link.old }
    ensures sends { (sends : Sends (L.sent link.old) (L.sent link.new) (L.loss_count link.old)
        (L.loss_count link.new) (sent_to to.now (parts_of id message.now)))
        × (result ≡ list_all (λ ok. ok) sends.taken) }
{
    let mut all = true;
    for index in 0..part_count(message.len()) as u8 {
        part.cut(id, message, index);
        all &= hand(link, to, part.as_slice());
    }
    all
}

impl Post {
    /// Sends the message, part by part, and reports whether each part was taken. What fails is lost.
    pub fn release<L: Link>(&self, part: &mut PartBuffer, link: &mut L) -> bool
        ensures given { L.given link.new ≡ L.given link.old }
        ensures faults { L.fault_count link.new ≡ L.fault_count link.old }
        ensures sends { (sends : Sends (L.sent link.old) (L.sent link.new) (L.loss_count link.old)
            (L.loss_count link.new) (datagrams_of self.now))
            × (result ≡ list_all (λ ok. ok) sends.taken) }
    {
        send_parts(link, &self.address, part, self.id, self.frame.as_slice())
    }
}

/// Sends messages, one after the other, each as `Post::release` does.
pub fn release_all<L: Link>(posts: &[Post], part: &mut PartBuffer, link: &mut L)
    ensures given { L.given link.new ≡ L.given link.old }
    ensures faults { L.fault_count link.new ≡ L.fault_count link.old }
    ensures sends { Sends (L.sent link.old) (L.sent link.new) (L.loss_count link.old)
        (L.loss_count link.new) (datagrams_of_all posts.now) }
{
    for post in posts {
        post.release(part, link);
    }
}

impl Sender {
    /// Numbers a message to a node that has an address, and encodes it. Where no number is left, the error is `OutOfMemory`, as it is
    /// where memory runs out; the sender is as it was then.
    pub fn pack(&mut self, alloc: Global, address: &Address, msg: &Msg) -> Result<Post, OutOfMemory>
        requires fits { FitsMessage msg.now }
        ensures same { (self.new.node ≡ self.old.node) × (self.new.boot ≡ self.old.boot) }
        ensures count { OnOk result (self.new ≡ record self.old { count = self.old.count + 1 }) }
        ensures packed { IfOk result (λ post. datagrams_of post ≡ datagrams_to address.now
            (record { sender = self.old.node; boot = self.old.boot; number = self.old.count + 1 })
            msg.now) }
        ensures none { OnErr result (self.new ≡ self.old) }
    {
        let frame = encode(alloc, msg)?;
        let Some(number) = self.count.checked_add(1) else {
            return Err(AllocError);
        };
        self.count = number;
        Ok(Post {
            address: *address,
            id: MessageId {
                sender: self.node,
                boot: self.boot,
                number,
            },
            frame,
        })
    }

    /// Sends a message to a node that has an address at once: `pack`, then `release`.
    pub fn post<L: Link>(
        &mut self,
        alloc: Global,
        part: &mut PartBuffer,
        address: &Address,
        msg: &Msg,
        link: &mut L,
    ) -> Result<bool, OutOfMemory>
        requires fits { FitsMessage msg.now }
        ensures given { L.given link.new ≡ L.given link.old }
        ensures faults { L.fault_count link.new ≡ L.fault_count link.old }
        ensures count { OnOk result (self.new ≡ record self.old { count = self.old.count + 1 }) }
        ensures sends { IfOk result (λ all.
            (sends : Sends (L.sent link.old) (L.sent link.new) (L.loss_count link.old)
            (L.loss_count link.new) (datagrams_to address.now
            (record { sender = self.old.node; boot = self.old.boot; number = self.old.count + 1 })
            msg.now)) × (all ≡ list_all (λ ok. ok) sends.taken)) }
        ensures none { OnErr result ((self.new ≡ self.old) × (L.sent link.new ≡ L.sent link.old)
            × (L.loss_count link.new ≡ L.loss_count link.old)) }
    {
        let post = self.pack(alloc, address, msg)?;
        Ok(post.release(part, link))
    }

    /// Sends a message to a node that has an address. What fails is lost.
    pub fn send_to<L: Link>(
        &mut self,
        alloc: Global,
        part: &mut PartBuffer,
        address: &Address,
        msg: &Msg,
        link: &mut L,
    ) -> Result<(), OutOfMemory>
        requires fits { FitsMessage msg.now }
        ensures given { L.given link.new ≡ L.given link.old }
        ensures faults { L.fault_count link.new ≡ L.fault_count link.old }
        ensures same { (self.new.node ≡ self.old.node) × (self.new.boot ≡ self.old.boot) }
        ensures count { OnOk result (self.new ≡ record self.old { count = self.old.count + 1 }) }
        ensures sends { OnOk result (Sends (L.sent link.old) (L.sent link.new) (L.loss_count link.old)
            (L.loss_count link.new) (datagrams_to address.now
            (record { sender = self.old.node; boot = self.old.boot; number = self.old.count + 1 })
            msg.now)) }
        ensures none { OnErr result ((L.sent link.new ≡ L.sent link.old)
            × (L.loss_count link.new ≡ L.loss_count link.old)) }
    {
        self.post(alloc, part, address, msg, link)?;
        Ok(())
    }
}
