ghost use Rattle.std.specs.Prelude.{◌≡◌, Bool, OnOk, OnErr};
ghost use Rattle.std.specs.List.{All};
ghost use Rattle.xt_messages.specs.Limits.{FitsMessage};
ghost use Rattle.node_runs.specs.Posting.{one_posted, posted, none_posted, HasPosted, HasSentFront};
ghost use Rattle.node_runs.specs.Links.{Sends};
ghost use Rattle.node_mail.specs.Posts.{datagrams_of_all};
ghost use Rattle.object_store.specs.Waits.{recs_of};
ghost use Rattle.node_loop.specs.Batched.{HasMailed, posts_of, puts_of, WaitsAfter};

use crate::batch::Batch;
use node_links::Link;
use node_mail::{Book, Post, Sender};
use std::alloc::Global;
use xt_base::OutOfMemory;
use xt_messages::Msg;
use xt_parts::PartBuffer;

/// Sends one of a step's messages, unless it is to the node itself or nobody knows where its receiver is.
#[tactic(auto, using(crate::proofs::Sent::nothing_sent))]
fn send_one<L: Link>(
    alloc: Global,
    sender: &mut Sender,
    part: &mut PartBuffer,
    book: &Book,
    msg: &Msg,
    link: &mut L,
) -> Result<(), OutOfMemory>
    requires fits { FitsMessage msg.now }
    ensures given { L.given link.new ≡ L.given link.old }
    ensures faults { L.fault_count link.new ≡ L.fault_count link.old }
    ensures same { (sender.new.node ≡ sender.old.node) × (sender.new.boot ≡ sender.old.boot) }
    ensures sends { OnOk result (HasPosted
        (one_posted sender.old.node sender.old.boot book.now (none_posted sender.old.count) msg.now)
        sender.new.count
        (Sends (L.sent link.old) (L.sent link.new) (L.loss_count link.old) (L.loss_count link.new))) }
    ensures none { OnErr result ((L.sent link.new ≡ L.sent link.old)
        × (L.loss_count link.new ≡ L.loss_count link.old)) }
{
    if msg.to == sender.node {
        return Ok(());
    }
    match book.address(msg.to) {
        None => Ok(()),
        Some(address) => sender.send_to(alloc, part, &address, msg, link),
    }
}

/// Sends a step's messages to others, in order. Where memory runs out, a prefix of them was sent.
pub fn send_all<L: Link>(
    alloc: Global,
    sender: &mut Sender,
    part: &mut PartBuffer,
    book: &Book,
    msgs: &[Msg],
    link: &mut L,
) -> Result<(), OutOfMemory>
    requires fits { All FitsMessage msgs.now }
    ensures given { L.given link.new ≡ L.given link.old }
    ensures faults { L.fault_count link.new ≡ L.fault_count link.old }
    ensures same { (sender.new.node ≡ sender.old.node) × (sender.new.boot ≡ sender.old.boot) }
    ensures sends { OnOk result (HasPosted
        (posted sender.old.node sender.old.boot book.now (none_posted sender.old.count) msgs.now)
        sender.new.count
        (Sends (L.sent link.old) (L.sent link.new) (L.loss_count link.old) (L.loss_count link.new))) }
    ensures front { OnErr result (HasSentFront
        sender.old.node sender.old.boot book.now sender.old.count msgs.now
        (Sends (L.sent link.old) (L.sent link.new) (L.loss_count link.old) (L.loss_count link.new))) }
{
    for msg in msgs {
        send_one(alloc, sender, part, book, msg, link)?;
    }
    Ok(())
}

/// Lets one of a step's messages wait, unless it is to the node itself or nobody knows where its receiver is.
fn pack_one(
    alloc: Global,
    sender: &mut Sender,
    book: &Book,
    msg: &Msg,
    posts: &mut Vec<Post>,
) -> Result<(), OutOfMemory>
    requires fits { FitsMessage msg.now }
    ensures same { (sender.new.node ≡ sender.old.node) × (sender.new.boot ≡ sender.old.boot) }
    ensures waits { OnOk result (HasPosted
        (one_posted sender.old.node sender.old.boot book.now (none_posted sender.old.count) msg.now)
        sender.new.count (WaitsAfter posts.old.items posts.new.items)) }
    ensures none { OnErr result (posts.new.items ≡ posts.old.items) }
{
    if msg.to == sender.node {
        return Ok(());
    }
    match book.address(msg.to) {
        None => Ok(()),
        Some(address) => {
            let post = sender.pack(alloc, &address, msg)?;
            posts.push(post)?;
            Ok(())
        }
    }
}

/// Lets a step's messages to others wait after those that wait, in order. Where memory runs out, a prefix of them does.
fn pack_all(
    alloc: Global,
    sender: &mut Sender,
    book: &Book,
    msgs: &[Msg],
    posts: &mut Vec<Post>,
) -> Result<(), OutOfMemory>
    requires fits { All FitsMessage msgs.now }
    ensures same { (sender.new.node ≡ sender.old.node) × (sender.new.boot ≡ sender.old.boot) }
    ensures waits { OnOk result (HasPosted
        (posted sender.old.node sender.old.boot book.now (none_posted sender.old.count) msgs.now)
        sender.new.count (WaitsAfter posts.old.items posts.new.items)) }
    ensures prefix { OnErr result (HasSentFront
        sender.old.node sender.old.boot book.now sender.old.count msgs.now
        (WaitsAfter posts.old.items posts.new.items)) }
{
    for msg in msgs {
        pack_one(alloc, sender, book, msg, posts)?;
    }
    Ok(())
}

/// Sends a step's messages to others at once, where nothing waits; else they wait after what does, in order. Where memory runs out, that is done
/// with a prefix of them.
pub fn mail<L: Link>(
    alloc: Global,
    sender: &mut Sender,
    part: &mut PartBuffer,
    book: &Book,
    msgs: &[Msg],
    batch: &mut Batch,
    link: &mut L,
) -> Result<(), OutOfMemory>
    requires fits { All FitsMessage msgs.now }
    ensures given { L.given link.new ≡ L.given link.old }
    ensures faults { L.fault_count link.new ≡ L.fault_count link.old }
    ensures same { (sender.new.node ≡ sender.old.node) × (sender.new.boot ≡ sender.old.boot) }
    ensures records { batch.new.records ≡ batch.old.records }
    ensures mails { (told : Bool) → OnOk result (HasPosted
        (posted sender.old.node sender.old.boot book.now (none_posted sender.old.count) msgs.now)
        sender.new.count
        (HasMailed (puts_of told batch.new) (posts_of batch.old) (posts_of batch.new)
        (L.sent link.old) (L.sent link.new) (L.loss_count link.old) (L.loss_count link.new))) }
    ensures prefix { (told : Bool) → OnErr result (HasSentFront
        sender.old.node sender.old.boot book.now sender.old.count msgs.now
        (HasMailed (puts_of told batch.new) (posts_of batch.old) (posts_of batch.new)
        (L.sent link.old) (L.sent link.new) (L.loss_count link.old) (L.loss_count link.new))) }
{
    if batch.is_empty() {
        send_all(alloc, sender, part, book, msgs, link)
    } else {
        pack_all(alloc, sender, book, msgs, &mut batch.posts)
    }
}
