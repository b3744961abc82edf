//! The records, marks and messages of a change that was chosen.
ghost use Rattle.std.specs.Prelude.{◌≡◌, ◌∷◌, ◌++◌, [], map, IfOk, OnOk, Some};
ghost use Rattle.change_rows.specs.Coordinating as rows;
ghost use Rattle.xt_messages.specs.declared.message.Payload.TheVariants as payload;

use change_rows::Choice;
use std::alloc::Global;
use xt_base::{Copies, MRC_NODE, NodeId, OptionalBox, OutOfMemory, Seq};
use xt_messages::{Mark, Msg, Msgs, Payload, Record};
use xt_protocol::{Turned, message, one};

/// What a new member is to install.
pub fn installation(alloc: Global, choice: &Choice) -> Result<Payload, OutOfMemory>
    ensures { IfOk result (λ made.
        made ≡
        payload.Install choice.now.file choice.now.location choice.now.head choice.now.source) }
{
    Ok(Payload::Install {
        file: choice.file,
        location: choice.location,
        head: choice.head.copy(alloc)?,
        source: choice.source,
    })
}

/// A new member is to install what was chosen.
pub fn install_to(alloc: Global, choice: &Choice, to: NodeId) -> Result<Msg, OutOfMemory>
    ensures { IfOk result (λ made. made ≡ rows.install_to choice.now to) }
{
    Ok(message(MRC_NODE, to, installation(alloc, choice)?))
}

/// Each of these nodes is to install what was chosen: that comes after the messages.
pub fn install_each(
    alloc: Global,
    choice: &Choice,
    nodes: &[NodeId],
    outs: &mut Msgs,
) -> Result<(), OutOfMemory>
    ensures { OnOk result (outs.new ≡ outs.old ++ map (rows.install_to choice.now) nodes.now) }
{
    for node in nodes {
        outs.push(install_to(alloc, choice, *node)?)?;
    }
    Ok(())
}

/// The record of a choice.
pub fn chosen(alloc: Global, choice: &Choice) -> Result<Record, OutOfMemory>
    ensures { IfOk result (λ made. made ≡ rows.chosen choice.now) }
{
    Ok(Record::Choice {
        file: choice.file,
        location: choice.location,
        head: choice.head.copy(alloc)?,
        source: choice.source,
    })
}

/// The list of a choice is the file's from now on: this is kept, and shown.
pub fn listing(alloc: Global, choice: &Choice) -> Result<Turned, OutOfMemory>
    ensures { IfOk result (λ made. made ≡ record {
      rec = Some (rows.listed choice.now);
      outs = [];
      marks = rows.list_mark choice.now ∷ [];
    }) }
{
    let rec = OptionalBox::some(
        alloc,
        Record::Listed {
            file: choice.file,
            version: choice.location.version,
        },
    )?;
    let marks = one(
        alloc,
        Mark::List {
            file: choice.file,
            version: choice.location.version,
            members: choice.location.members,
        },
    )?;
    Ok(Turned {
        rec,
        outs: Seq::new(alloc),
        marks,
    })
}
