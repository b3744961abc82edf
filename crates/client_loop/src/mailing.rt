ghost use Rattle.std.specs.Prelude.{◌≡◌, IfOk, OnOk, OnErr};
ghost use Rattle.std.specs.List.{All};
ghost use Rattle.xt_messages.specs.Limits.{FitsMessage};
ghost use Rattle.node_runs.specs.Hearing.{address_of};
ghost use Rattle.node_runs.specs.Posting.{none_posted, HasPosted};
ghost use Rattle.node_runs.specs.Links.{Sends};
ghost use Rattle.client_loop.specs.Mailing.{one_mailed, mailed, FrontMailed, IsTaken};

use node_links::Link;
use node_mail::{Book, Sender};
use std::alloc::Global;
use xt_base::OutOfMemory;
use xt_messages::Msg;
use xt_parts::PartBuffer;

/// Sends a message, if its receiver has an address, and reports whether each of its parts was taken.
pub fn mail<L: Link>(
    alloc: Global,
    sender: &mut Sender,
    part: &mut PartBuffer,
    book: &Book,
    msg: &Msg,
    link: &mut L,
) -> Result<bool, OutOfMemory>
    requires fits { FitsMessage msg.now }
    ensures given { L.given link.new ≡ L.given link.old }
    ensures faults { L.fault_count link.new ≡ L.fault_count link.old }
    ensures same { (sender.new.node ≡ sender.old.node) × (sender.new.boot ≡ sender.old.boot) }
    ensures sends { OnOk result (HasPosted
        (one_mailed sender.old.node sender.old.boot book.now (none_posted sender.old.count) msg.now)
        sender.new.count
        (Sends (L.sent link.old) (L.sent link.new) (L.loss_count link.old) (L.loss_count link.new))) }
    ensures taken { IfOk result (IsTaken sender.old msg.now (L.sent link.old) (L.sent link.new)
        (L.loss_count link.old) (L.loss_count link.new) (address_of book.now msg.now.to)) }
    ensures none { OnErr result ((sender.new ≡ sender.old) × (L.sent link.new ≡ L.sent link.old)
        × (L.loss_count link.new ≡ L.loss_count link.old)) }
{
    match book.address(msg.to) {
        None => Ok(false),
        Some(address) => sender.post(alloc, part, &address, msg, link),
    }
}

/// Sends messages, in order. Where memory runs out, a front of them was sent.
pub fn mail_all<L: Link>(
    alloc: Global,
    sender: &mut Sender,
    part: &mut PartBuffer,
    book: &Book,
    msgs: &[Msg],
    link: &mut L,
) -> Result<(), OutOfMemory>
    requires fits { All FitsMessage msgs.now }
    ensures given { L.given link.new ≡ L.given link.old }
    ensures faults { L.fault_count link.new ≡ L.fault_count link.old }
    ensures same { (sender.new.node ≡ sender.old.node) × (sender.new.boot ≡ sender.old.boot) }
    ensures sends { OnOk result (HasPosted
        (mailed sender.old.node sender.old.boot book.now (none_posted sender.old.count) msgs.now)
        sender.new.count
        (Sends (L.sent link.old) (L.sent link.new) (L.loss_count link.old) (L.loss_count link.new))) }
    ensures front { OnErr result (FrontMailed sender.old.node sender.old.boot book.now
        sender.old.count msgs.now
        (Sends (L.sent link.old) (L.sent link.new) (L.loss_count link.old) (L.loss_count link.new))) }
{
    for msg in msgs {
        mail(alloc, sender, part, book, msg, link)?;
    }
    Ok(())
}
