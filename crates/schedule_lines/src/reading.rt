ghost use Rattle.std.specs.Prelude.{◌≡◌, ◌≢◌, ◌≤◌, ◌<◌, ℕ, List, [], ◌∷◌, ◌++◌, Bool, true, false, length, IfOk, OnOk, OnErr, MatchOption};
ghost use Rattle.node_links.specs.Streams.{Takes, IsAtEnd};
ghost use Rattle.xt_base.specs.Faults.{Rose};
ghost use Rattle.schedule_lines.specs.RawLine.{IsRawLine, IsPiece};

use memchr::memchr;
use node_links::Source;
use time_line::LINE_BYTES;
use xt_base::{Failed, OutOfMemory};

/// Why the reading of a line ended.
#[derive(Clone, Copy)]
pub enum RawLine {
    /// Nothing was left.
    End,
    /// A line feed came.
    Whole,
    /// The source ended within the line.
    Unended,
    /// One byte more came than a line may have.
    TooLong,
    /// The source failed.
    Failed,
    /// There was no memory for one byte more.
    OutOfMemory,
}

/// The byte that ends a line.
const LINE_FEED: u8 = b'\n';

/// How many bytes of a line are taken at most: one more than it may have.
const MOST: usize = LINE_BYTES as usize + 1;

/// Whether a byte is left: where none was read ahead, the source reads.
fn is_left<S: Source>(src: &mut S) -> Result<bool, Failed>
    ensures left { S.left src.new ≡ S.left src.old }
    ensures more { result ≡ Ok true → 1 ≤ length (S.ahead src.new) }
    ensures end { result ≡ Ok false → IsAtEnd (S.left src.old) }
    ensures sound { OnOk result (S.fault_count src.new ≡ S.fault_count src.old) }
    ensures failed { OnErr result (Rose (S.fault_count src.old) (S.fault_count src.new)) }
{
    if src.ahead().is_empty() {
        src.fill()?;
    }
    Ok(!src.ahead().is_empty())
}

/// Takes one byte, or none at the end of the source.
pub fn take_byte<S: Source>(src: &mut S) -> Result<Option<u8>, Failed>
    ensures taken { IfOk result (λ byte.
        MatchOption byte (IsAtEnd (S.left src.old) × Takes (S.left src.old) (S.left src.new) [])
        (λ b. Takes (S.left src.old) (S.left src.new) (b ∷ []))) }
    ensures sound { OnOk result (S.fault_count src.new ≡ S.fault_count src.old) }
    ensures failed { OnErr result (Rose (S.fault_count src.old) (S.fault_count src.new)) }
    ensures kept { OnErr result (S.left src.new ≡ S.left src.old) }
{
    if !is_left(src)? {
        return Ok(None);
    }
    let byte = src.ahead()[0];
    src.consume(1);
    Ok(Some(byte))
}

/// Takes what was read ahead of a line, `room` bytes at most, and its line feed if that is among them: whether it was.
fn take_piece<S: Source>(src: &mut S, line: &mut Vec<u8>, room: usize) -> Result<bool, OutOfMemory>
    requires some { 1 ≤ length (S.ahead src.old) }
    requires room { 1 ≤ room }
    ensures piece { IfOk result (λ whole.
        IsPiece room (S.left src.old) (S.left src.new) line.old.items line.new.items whole) }
    ensures err { OnErr result (Takes (S.left src.old) (S.left src.new) []) }
    ensures sound { S.fault_count src.new ≡ S.fault_count src.old }
{
    let ahead = src.ahead();
    let front = &ahead[..ahead.len().min(room)];
    match memchr(LINE_FEED, front) {
        Some(at) => {
            line.extend_from_slice(&front[..at])?;
            src.consume(at + 1);
            Ok(true)
        }
        None => {
            let count = front.len();
            line.extend_from_slice(front)?;
            src.consume(count);
            Ok(false)
        }
    }
}

/// Reads the bytes of the next line into `line`, and says why it stopped.
pub fn read_raw<S: Source>(src: &mut S, line: &mut Vec<u8>) -> RawLine
    ensures line { IsRawLine (S.left src.old) (S.left src.new) line.new.items result }
    ensures sound { result ≢ RawLine.Failed → S.fault_count src.new ≡ S.fault_count src.old }
    ensures failed { result ≡ RawLine.Failed →
        Rose (S.fault_count src.old) (S.fault_count src.new) }
{
    line.clear();
    while line.len() < MOST {
        match is_left(src) {
            Ok(true) => {}
            Ok(false) if line.is_empty() => return RawLine::End,
            Ok(false) => return RawLine::Unended,
            Err(Failed) => return RawLine::Failed,
        }
        match take_piece(src, line, MOST - line.len()) {
            Ok(true) => return RawLine::Whole,
            Ok(false) => {}
            Err(_) => return RawLine::OutOfMemory,
        }
    }
    RawLine::TooLong
}
