ghost use Rattle.std.specs.Prelude.{◌≡◌};
ghost use Rattle.replica_records.specs.RecordFields.{fault_of};

use thiserror::Error;
use xt_wire::FieldErr;

/// Why bytes weren't read as a record.
#[derive(Clone, Copy, Debug, Error)]
pub enum RecordErr {
    #[error("the bytes aren't one record")]
    BadRecord,
    #[error("no memory was left")]
    OutOfMemory,
}

impl From<FieldErr> for RecordErr {
    ghost from_gives = { λ e made. made ≡ fault_of e };

    fn from(error: FieldErr) -> RecordErr {
        match error {
            FieldErr::OutOfMemory => RecordErr::OutOfMemory,
            FieldErr::Short | FieldErr::Over | FieldErr::NotText | FieldErr::Unfit =>
                RecordErr::BadRecord,
        }
    }
}
