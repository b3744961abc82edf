ghost use Rattle.std.specs.Prelude.{◌<◌};

use itoa::Buffer;
use std::alloc::Global;
use xt_base::{NodeId, Octets, OpId, OutOfMemory};

/// A part of what is written.
#[derive(Clone, Copy)]
pub(crate) enum Word<'a> {
    Text(&'a [u8]),
    /// A number as it is: a name.
    Name(u64),
    /// A number with a comma before each three digits: how many.
    Count(u64),
    /// Bytes in hex, or how many where they are more than a few.
    Bytes(&'a [u8]),
}

/// How many bytes are written in hex at most.
const FEW: usize = 4;

fn push_name(out: &mut Vec<u8>, number: u64) -> Result<(), OutOfMemory> {
    let mut buffer = Buffer::new();
    out.extend_from_slice(buffer.format(number).as_bytes())
}

/// Appends the last three digits of a number.
fn push_three(out: &mut Vec<u8>, number: u64) -> Result<(), OutOfMemory> {
    out.push(b'0' + (number / 100 % 10) as u8)?;
    out.push(b'0' + (number / 10 % 10) as u8)?;
    out.push(b'0' + (number % 10) as u8)?;
    Ok(())
}

/// Appends a number with a comma before each three digits.
fn push_count(out: &mut Vec<u8>, number: u64) -> Result<(), OutOfMemory> {
    if number < 1000 {
        return push_name(out, number);
    }
    push_count(out, number / 1000)?;
    out.push(b',')?;
    push_three(out, number)
}

/// The hex digit of a number below 16.
fn hex_digit(number: u8) -> u8
    requires { number < 16 }
{
    if number < 10 {
        b'0' + number
    } else {
        b'a' - 10 + number
    }
}

fn push_hex(out: &mut Vec<u8>, bytes: &[u8]) -> Result<(), OutOfMemory> {
    for byte in bytes {
        out.push(hex_digit(*byte / 16))?;
        out.push(hex_digit(*byte % 16))?;
    }
    Ok(())
}

fn push_bytes(out: &mut Vec<u8>, bytes: &[u8]) -> Result<(), OutOfMemory> {
    if bytes.is_empty() {
        return out.extend_from_slice(b"nothing");
    }
    if bytes.len() <= FEW {
        return push_hex(out, bytes);
    }
    push_count(out, bytes.len() as u64)?;
    out.extend_from_slice(b" bytes")
}

fn push_word(out: &mut Vec<u8>, word: &Word<'_>) -> Result<(), OutOfMemory> {
    match word {
        Word::Text(text) => out.extend_from_slice(text),
        Word::Name(number) => push_name(out, *number),
        Word::Count(number) => push_count(out, *number),
        Word::Bytes(bytes) => push_bytes(out, bytes),
    }
}

/// Appends words as they are, with nothing between.
pub(crate) fn push_words(out: &mut Vec<u8>, words: &[Word<'_>]) -> Result<(), OutOfMemory> {
    for word in words {
        push_word(out, word)?;
    }
    Ok(())
}

/// These words, with nothing between.
pub(crate) fn words(alloc: Global, words: &[Word<'_>]) -> Result<Octets, OutOfMemory> {
    let mut out = Vec::new(alloc);
    push_words(&mut out, words)?;
    Octets::from_vec(out)
}

/// The name of a node.
pub(crate) fn node_name(node: NodeId) -> Word<'static> {
    Word::Name(u64::from(node.0))
}

/// Appends a text and a call's id: its client and its number.
pub(crate) fn push_id(out: &mut Vec<u8>, text: &[u8], id: OpId) -> Result<(), OutOfMemory> {
    push_words(
        out,
        &[
            Word::Text(text),
            node_name(id.client),
            Word::Text(b"."),
            Word::Name(id.number),
        ],
    )
}
