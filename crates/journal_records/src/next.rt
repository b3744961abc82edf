ghost use Rattle.std.specs.Prelude.{◌≤◌, length};
ghost use Rattle.journal_records.specs.Records.{IsNext};

use byteorder::{BigEndian, ByteOrder};
use disk_model::OPEN_GATE;

/// What is in a place where a record may be.
pub enum Next<'a> {
    Closed,
    CutOff,
    Record { payload: &'a [u8], rest: &'a [u8] },
}

/// What is at a gate: after an open one a record, of which the next gate is the end.
pub fn next_record(rest: &[u8]) -> Next<'_>
    requires { 1 ≤ length rest.now }
    ensures { IsNext rest.now result }
{
    if rest[0] != OPEN_GATE {
        return Next::Closed;
    }
    let behind = &rest[1..];
    if behind.len() < 4 {
        return Next::CutOff;
    }
    let len = BigEndian::read_u32(behind) as usize;
    let body = &behind[4..];
    if len == 0 || body.len() <= len {
        return Next::CutOff;
    }
    let (payload, rest) = body.split_at(len);
    Next::Record { payload, rest }
}
