//! The files of calls.
ghost use Rattle.std.specs.Prelude.{◌≡◌};
ghost use Rattle.client_rows.specs.Called.{called_file};
ghost use Rattle.world_spec.specs.Lines.{declared_file};

use xt_base::{FileId, VolumeId};
use xt_messages::Call;

/// The file that a schedule declares under this number.
pub fn declared_file(number: u64) -> FileId
    ensures { result ≡ declared_file number }
{
    FileId {
        volume: VolumeId::NIL,
        number,
    }
}

/// The file that a call uses.
pub fn called_file(call: &Call) -> Option<u64>
    ensures { result ≡ called_file call.now }
{
    match call {
        Call::Read { file, .. }
        | Call::Write { file, .. }
        | Call::Truncate { file, .. }
        | Call::Report { file, .. } => Some(*file),
        Call::Meta { .. } | Call::Registry { .. } => None,
    }
}
