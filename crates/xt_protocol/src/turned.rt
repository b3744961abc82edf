ghost use Rattle.std.specs.Prelude.{◌≡◌, ◌∷◌, ◌++◌, [], IfOk, OnOk};
ghost use Rattle.xt_protocol.specs.Turns as rows;

use std::alloc::Global;
use std::mem;
use xt_base::{Copies, FileId, NodeId, Octets, OpId, OptionalBox, OutOfMemory, Seq, SizeMark};
use xt_messages::{Mark, Marks, Msg, Msgs, Payload, Record, Reply};

/// What a step gives: at most one record, which is kept first; then its marks; then its messages, in order.
pub struct Turned {
    pub rec: OptionalBox<Record>,
    pub outs: Msgs,
    pub marks: Marks,
}

impl Turned {
    /// Its record, its messages and its marks.
    pub fn into_parts(self) -> (OptionalBox<Record>, Msgs, Marks)
        ensures rec { result.0 ≡ self.rec }
        ensures outs { result.1 ≡ self.outs }
        ensures marks { result.2 ≡ self.marks }
    {
        let Turned { rec, outs, marks } = self;
        (rec, outs, marks)
    }
}

// A derived drop is part of the code of each function that may drop a value, and proved there. This is proved once.
impl Drop for Turned {
    fn drop(self) {
        let Turned {
            rec: _,
            outs: _,
            marks: _,
        } = self;
    }
}

/// Nothing comes of a row.
pub fn quiet(alloc: Global) -> Turned
    ensures { result ≡ rows.quiet }
{
    Turned {
        rec: OptionalBox::none(),
        outs: Seq::new(alloc),
        marks: Seq::new(alloc),
    }
}

/// A record alone, if there is one.
pub fn keeps(alloc: Global, rec: Option<Record>) -> Result<Turned, OutOfMemory>
    ensures { IfOk result (λ turned. turned ≡ rows.keeps rec) }
{
    let rec = OptionalBox::of(alloc, rec)?;
    Ok(Turned {
        rec,
        outs: Seq::new(alloc),
        marks: Seq::new(alloc),
    })
}

/// Messages alone.
pub fn sends(alloc: Global, outs: Msgs) -> Turned
    ensures { result ≡ rows.sends outs }
{
    Turned {
        rec: OptionalBox::none(),
        outs,
        marks: Seq::new(alloc),
    }
}

/// One item as a list.
pub fn one<T: Drop>(alloc: Global, item: T) -> Result<Seq<T>, OutOfMemory>
    ensures { IfOk result (λ made. made ≡ item ∷ []) }
{
    let mut items = Seq::new(alloc);
    items.push(item)?;
    Ok(items)
}

/// One message alone.
pub fn sends_one(alloc: Global, message: Msg) -> Result<Turned, OutOfMemory>
    ensures { IfOk result (λ turned. turned ≡ rows.sends (message ∷ [])) }
{
    Ok(sends(alloc, one(alloc, message)?))
}

/// A mark alone.
pub fn shows(alloc: Global, mark: Mark) -> Result<Turned, OutOfMemory>
    ensures { IfOk result (λ turned. turned ≡ rows.shows mark) }
{
    let marks = one(alloc, mark)?;
    Ok(Turned {
        rec: OptionalBox::none(),
        outs: Seq::new(alloc),
        marks,
    })
}

/// A message of a node.
pub fn message(from: NodeId, to: NodeId, payload: Payload) -> Msg
    ensures { result ≡ rows.message from to payload }
{
    Msg {
        from,
        to,
        list: 1,
        payload,
    }
}

/// A reply to the client of an ask.
pub fn reply_to(node: NodeId, file: &FileId, id: OpId, reply: Reply) -> Msg
    ensures { result ≡ rows.reply_to node file.now id reply }
{
    let payload = Payload::Reply {
        number: id.number,
        file: *file,
        reply,
    };
    message(node, id.client, payload)
}

/// The client gets an answer other than Ok.
pub fn tells(
    alloc: Global,
    node: NodeId,
    file: &FileId,
    id: OpId,
    reply: Reply,
) -> Result<Turned, OutOfMemory>
    ensures { IfOk result (λ turned. turned ≡ rows.tells node file.now id reply) }
{
    sends_one(alloc, reply_to(node, file, id, reply))
}

/// The client is answered Ok, and that is marked.
pub fn answers(
    alloc: Global,
    node: NodeId,
    file: &FileId,
    id: OpId,
    count: u64,
    mark: SizeMark,
    bytes: Octets,
) -> Result<Turned, OutOfMemory>
    ensures { IfOk result (λ turned. turned ≡ rows.answers node file.now id count mark bytes) }
{
    let shown = bytes.copy(alloc)?;
    let told = Mark::Answer {
        file: file.number,
        id,
        count,
        bytes: shown,
    };
    let marks = one(alloc, told)?;
    let reply = Reply::Ok { count, mark, bytes };
    let outs = one(alloc, reply_to(node, file, id, reply))?;
    Ok(Turned {
        rec: OptionalBox::none(),
        outs,
        marks,
    })
}

/// The same to each of these nodes, in order.
pub fn to_each(
    alloc: Global,
    from: NodeId,
    nodes: &[NodeId],
    payload: &Payload,
) -> Result<Msgs, OutOfMemory>
    ensures { IfOk result (λ outs. outs ≡ rows.to_each from nodes.now payload.now) }
{
    let mut outs = Seq::new(alloc);
    for to in nodes {
        outs.push(message(from, *to, payload.copy(alloc)?))?;
    }
    Ok(outs)
}

/// Takes these items after the others.
fn append<T: Drop>(items: &mut Seq<T>, more: &mut Seq<T>) -> Result<(), OutOfMemory>
    ensures { OnOk result (items.new ≡ items.old ++ more.old) }
{
    if items.items.is_empty() {
        mem::swap(items, more);
        return Ok(());
    }
    items.items.append(&mut more.items)?;
    Ok(())
}

/// Takes what the next part of a step gives after what the first one gave. No two parts of a step make a record.
pub fn extend(first: &mut Turned, next: &mut Turned) -> Result<(), OutOfMemory>
    ensures { OnOk result (first.new ≡ rows.joined first.old next.old) }
{
    append(&mut first.outs, &mut next.outs)?;
    append(&mut first.marks, &mut next.marks)?;
    if first.rec.is_none() {
        mem::swap(&mut first.rec, &mut next.rec);
    }
    Ok(())
}

/// What one part of a step gives, and then what the next one gives. No two parts of a step make a record.
pub fn join(mut first: Turned, mut next: Turned) -> Result<Turned, OutOfMemory>
    ensures { IfOk result (λ turned. turned ≡ rows.joined first next) }
{
    let extended = extend(&mut first, &mut next);
    // what is left of it is empty, and is dropped apart from the ways out
    drop(next);
    extended?;
    Ok(first)
}
