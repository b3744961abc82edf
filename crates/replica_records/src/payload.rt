ghost use Rattle.std.specs.Prelude.{◌≡◌, ◌<◌, ◌≤◌, ◌^◌, length, IfOk, MatchResult, Ok};
ghost use Rattle.xt_messages.specs.Limits.{FitsRecord};
ghost use Rattle.xt_messages.specs.declared.record.Record.{Record};
ghost use Rattle.replica_records.specs.declared.errors.RecordErr.TheVariants.{OutOfMemory};
ghost use Rattle.replica_records.specs.RecordText.{record_text};
ghost use Rattle.replica_records.specs.RecordFields.{Gives, recorded};

use crate::errors::RecordErr;
use crate::reading::record_at;
use crate::writing::put_record;
use std::alloc::Global;
use xt_base::{Octets, OutOfMemory};
use xt_messages::Record;
use xt_wire::{FieldReader, FieldWriter};

/// Room for most records, in bytes: those with a body make room for it.
const ROOM: usize = 256;

/// The one spelling of a record within its limits.
pub fn record_bytes(alloc: Global, rec: &Record) -> Result<Octets, OutOfMemory>
    requires { FitsRecord rec.now }
    ensures text { IfOk result (λ bytes. bytes ≡ record_text rec.now) }
    ensures some { IfOk result (λ bytes. 1 ≤ length bytes) }
    ensures short { IfOk result (λ bytes. length bytes < 2 ^ 32) }
{
    let mut writer = FieldWriter::with_capacity(alloc, ROOM)?;
    put_record(&mut writer, rec)?;
    let made = writer.finish()?;
    Ok(made)
}

/// The record that these bytes are, all of them.
#[tactic(auto, unfolding(crate::specs::RecordFields::recorded))]
fn whole_record(alloc: Global, bytes: &[u8]) -> Result<Record, RecordErr>
    ensures { Gives result (recorded bytes.now) }
{
    let mut reader = FieldReader::new(bytes);
    let rec = record_at(&mut reader, alloc)?;
    if reader.left() != 0 {
        return Err(RecordErr::BadRecord);
    }
    Ok(rec)
}

/// The record whose spelling these bytes are. `BadRecord` exactly where they are no record's, unless memory runs out.
pub fn read_record(alloc: Global, bytes: &[u8]) -> Result<Record, RecordErr>
    // What is read is a record within its limits, whose spelling these bytes are.
    ensures found { IfOk result (λ rec. FitsRecord rec × (bytes.now ≡ record_text rec)) }
    // The spelling of a record within its limits is read, unless memory runs out.
    ensures only { (rec : Record) → FitsRecord rec → bytes.now ≡ record_text rec →
        MatchResult result (λ given. given ≡ rec) (λ e. e ≡ OutOfMemory) }
{
    whole_record(alloc, bytes)
}
