//! What is at a gate of a disk.
ghost use Rattle.std.specs.Prelude.{◌≡◌, ◌<◌, false, IsTrue, IfOk, is_err, length};
ghost use Rattle.xt_journal.specs.Ahead.{size_of, source_of};
ghost use Rattle.xt_journal.specs.Nexts.{HasRoom, IsNextAt};

use crate::ahead::ReadAhead;
use byteorder::{BigEndian, ByteOrder};
use disk_model::{Disk, OPEN_GATE};
use xt_base::Failed;

/// What is in a place where a record may be.
#[derive(Clone, Copy)]
pub enum Next {
    Closed,
    CutOff,
    /// A record, with the length of its payload in bytes, and the payload's first byte.
    Record { len: usize, kind: u8 },
}

/// What is at a gate: after an open one a record, of which the next gate is the end. Of the payload only the first byte is read.
pub fn next_at<D: Disk>(ahead: &mut ReadAhead<'_, D>, gate: u64) -> Result<Next, Failed>
    requires gate { gate < size_of ahead.old }
    requires whole { IsTrue D.is_told →
        size_of ahead.old ≡ length (D.kept (source_of ahead.old)).read }
    ensures next { IsTrue D.is_told →
        IfOk result (IsNextAt (D.kept (source_of ahead.old)).read gate) }
    ensures room { IfOk result (HasRoom (size_of ahead.old) gate) }
    ensures sure { IsTrue D.is_told → is_err result ≡ false }
    ensures source { source_of ahead.new ≡ source_of ahead.old }
    ensures size { size_of ahead.new ≡ size_of ahead.old }
{
    let left = ahead.size() - gate - 1;
    let mut first = [0; 1];
    ahead.read(gate, first.as_mut_slice())?;
    if first[0] != OPEN_GATE {
        return Ok(Next::Closed);
    }
    if left < 4 {
        return Ok(Next::CutOff);
    }
    let mut number = [0; 4];
    ahead.read(gate + 1, number.as_mut_slice())?;
    let len = BigEndian::read_u32(&number) as usize;
    if len == 0 || left - 4 <= len as u64 {
        return Ok(Next::CutOff);
    }
    let mut kind = [0; 1];
    ahead.read(gate + 5, kind.as_mut_slice())?;
    Ok(Next::Record { len, kind: kind[0] })
}
