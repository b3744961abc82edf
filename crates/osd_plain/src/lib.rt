//! A striped file at an OSD: each member keeps the objects that it owns and answers for them alone, without a lease.
//!
//! `Member::step` equals the rows of the definitions (`plain_step` of `xt_protocol`): list or range refused, read served, and a write or
//! a truncation by how it stands to the head, which is borrowed, and stays as it is. `Plain` has a head of its own, which changes as the
//! step's record says. No head is copied, and no body but into a record or a reply. Where memory runs out or a body can't be read, the
//! file is as it was.
#![tactic(auto)]

mod member;
mod plain;
mod serving;

ghost use Rattle.std.specs.Prelude.{◌≡◌, Option};
ghost use Rattle.xt_messages.specs.declared.record.Record.{Record};
ghost use Rattle.xt_messages.specs.declared.record.FileRow.{FileRow};
ghost use Rattle.xt_protocol.specs.ReplicaRows.{kept_after};
ghost use Rattle.xt_protocol.specs.PlainRows.{PlainFile, plain_after};

pub use member::Member;
pub use plain::Plain;
pub use xt_protocol::PlainActed;

/// The head that a step leaves is the one that its record makes of the head before it, whatever else is kept of the file: so a
/// member that starts again from its records goes on where it was.
pub fn head_is_of_record()
    ensures { (p : PlainFile) (row : FileRow) (rec : Option Record) → row.head ≡ p.head →
        (kept_after row rec).head ≡ (plain_after p rec).head }
{}
