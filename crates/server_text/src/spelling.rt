//! Printing a line word by word.
ghost use Rattle.std.specs.Prelude.{◌≡◌, ◌++◌, ◌∷◌, ◌<◌, [], map, OnOk};
ghost use Rattle.std.specs.Fmt.{decimal};
ghost use Rattle.server_text.specs.Words.{behind, spaced, hex_digit, hex_pair, hex_of, hex_or_dash, mode_word, node_words};
ghost use Rattle.server_text.specs.WordText.{phrase_words, text_of};
ghost use Rattle.server_text.specs.RequestText.{kind_word};

use xt_base::{Name, NodeId, OutOfMemory};
use xt_messages::Kind;

/// Appends a number below 2^64.
#[tactic(auto, using(crate::proofs::Digits::digits_behind, crate::proofs::Digits::one_digit))]
pub fn push_digits(out: &mut Vec<u8>, number: u64) -> Result<(), OutOfMemory>
    ensures { OnOk result (out.new.items ≡ out.old.items ++ decimal number) }
{
    if number < 10 {
        out.push(b'0' + number as u8)?;
        return Ok(());
    }
    push_digits(out, number / 10)?;
    out.push(b'0' + (number % 10) as u8)?;
    Ok(())
}

/// Appends a number below 2^128.
#[tactic(auto, using(crate::proofs::Digits::digits_behind))]
pub fn push_wide_digits(out: &mut Vec<u8>, number: u128) -> Result<(), OutOfMemory>
    ensures { OnOk result (out.new.items ≡ out.old.items ++ decimal number) }
{
    if let Ok(small) = u64::try_from(number) {
        return push_digits(out, small);
    }
    push_wide_digits(out, number / 10)?;
    out.push(b'0' + (number % 10) as u8)?;
    Ok(())
}

/// A word of a line, by what it spells.
#[derive(Clone, Copy)]
pub enum Word<'a> {
    /// These bytes.
    Text(&'a [u8]),
    Name(&'a Name),
    Number(u64),
    /// A number below 2^32.
    Small(u32),
    /// A number below 2^128.
    Wide(u128),
    /// A node's number.
    Node(NodeId),
    /// A mode, as three octal digits.
    Mode(u16),
    /// Bytes in hex.
    Hex(&'a [u8]),
}

/// What most rules and refusals are spelled by: a name, and what it is about.
#[derive(Clone, Copy)]
pub enum Phrase {
    Lone(&'static [u8]),
    Counted(&'static [u8], u64),
    /// With a number below 2^128.
    Wide(&'static [u8], u128),
    Pair(&'static [u8], u64, u64),
    At(&'static [u8], NodeId),
}

/// The digit of a number below 16.
fn hex_digit(number: u8) -> u8
    requires { number < 16 }
    ensures { result ≡ hex_digit number }
{
    if number < 10 {
        b'0' + number
    } else {
        b'a' - 10 + number
    }
}

/// Appends a byte's two hex digits.
fn push_byte(out: &mut Vec<u8>, byte: u8) -> Result<(), OutOfMemory>
    ensures { OnOk result (out.new.items ≡ out.old.items ++ hex_pair byte) }
{
    out.push(hex_digit(byte / 16))?;
    out.push(hex_digit(byte % 16))?;
    Ok(())
}

/// Appends two hex digits a byte.
fn push_hex(out: &mut Vec<u8>, bytes: &[u8]) -> Result<(), OutOfMemory>
    ensures { OnOk result (out.new.items ≡ out.old.items ++ hex_of bytes.now) }
{
    out.reserve(bytes.len().saturating_mul(2))?;
    for byte in bytes {
        push_byte(out, *byte)?;
    }
    Ok(())
}

/// A mode as three octal digits.
fn mode_digits(mode: u16) -> [u8; 3]
    ensures { result ≡ mode_word mode }
{
    [
        b'0' + (mode / 64 % 8) as u8,
        b'0' + (mode / 8 % 8) as u8,
        b'0' + (mode % 8) as u8,
    ]
}

/// Appends bytes as they are.
fn push_bytes(out: &mut Vec<u8>, bytes: &[u8]) -> Result<(), OutOfMemory>
    ensures { OnOk result (out.new.items ≡ out.old.items ++ bytes.now) }
{
    out.extend_from_slice(bytes)?;
    Ok(())
}

/// Appends a space and a word.
pub fn push_word(out: &mut Vec<u8>, word: &Word<'_>) -> Result<(), OutOfMemory>
    ensures { OnOk result (out.new.items ≡ out.old.items ++ 32 ∷ text_of word.now) }
{
    out.push(b' ')?;
    match word {
        Word::Text(bytes) => push_bytes(out, bytes),
        Word::Name(name) => push_bytes(out, name.as_str().as_bytes()),
        Word::Number(number) => push_digits(out, *number),
        Word::Small(number) => push_digits(out, u64::from(*number)),
        Word::Wide(number) => push_wide_digits(out, *number),
        Word::Node(node) => push_digits(out, u64::from(node.0)),
        Word::Mode(mode) => push_bytes(out, &mode_digits(*mode)),
        Word::Hex(bytes) => push_hex(out, bytes),
    }
}

/// Appends words, a space before each.
pub fn push_words(out: &mut Vec<u8>, words: &[Word<'_>]) -> Result<(), OutOfMemory>
    ensures { OnOk result (out.new.items ≡ out.old.items ++ behind (map text_of words.now)) }
{
    for word in words {
        push_word(out, word)?;
    }
    Ok(())
}

/// Appends a name and words, one space between.
pub fn push_named_words(
    out: &mut Vec<u8>,
    name: &[u8],
    words: &[Word<'_>],
) -> Result<(), OutOfMemory>
    ensures { OnOk result (out.new.items ≡
        out.old.items ++ spaced (name.now ∷ map text_of words.now)) }
{
    out.extend_from_slice(name)?;
    push_words(out, words)
}

/// Appends a space and a name.
pub fn push_lone(out: &mut Vec<u8>, name: &[u8]) -> Result<(), OutOfMemory>
    ensures { OnOk result (out.new.items ≡ out.old.items ++ behind (name.now ∷ [])) }
{
    push_words(out, &[Word::Text(name)])
}

/// Appends a name and a number, a space before each.
pub fn push_counted(out: &mut Vec<u8>, name: &[u8], number: u64) -> Result<(), OutOfMemory>
    ensures { OnOk result (out.new.items ≡
        out.old.items ++ behind (name.now ∷ decimal number ∷ [])) }
{
    push_words(out, &[Word::Text(name), Word::Number(number)])
}

/// Appends a name and two numbers, a space before each.
pub fn push_pair(out: &mut Vec<u8>, name: &[u8], first: u64, second: u64) -> Result<(), OutOfMemory>
    ensures { OnOk result (out.new.items ≡
        out.old.items ++ behind (name.now ∷ decimal first ∷ decimal second ∷ [])) }
{
    push_words(
        out,
        &[Word::Text(name), Word::Number(first), Word::Number(second)],
    )
}

/// Appends the words of a phrase, a space before each.
pub fn push_phrase(out: &mut Vec<u8>, phrase: &Phrase) -> Result<(), OutOfMemory>
    ensures { OnOk result (out.new.items ≡ out.old.items ++ behind (phrase_words phrase.now)) }
{
    match phrase {
        Phrase::Lone(name) => push_lone(out, name),
        Phrase::Counted(name, number) => push_counted(out, name, *number),
        Phrase::Wide(name, number) => push_words(out, &[Word::Text(name), Word::Wide(*number)]),
        Phrase::Pair(name, first, second) => push_pair(out, name, *first, *second),
        Phrase::At(name, node) => push_words(out, &[Word::Text(name), Word::Node(*node)]),
    }
}

/// Bytes in hex, or a dash where there are none.
pub fn hex_or_dash(bytes: &[u8]) -> Word<'_>
    ensures { text_of result ≡ hex_or_dash bytes.now }
{
    if bytes.is_empty() {
        Word::Text(b"-")
    } else {
        Word::Hex(bytes)
    }
}

/// The word of a kind.
pub fn kind_word(kind: Kind) -> &'static [u8]
    ensures { result.now ≡ kind_word kind }
{
    match kind {
        Kind::Replicated => b"rep",
        Kind::Striped => b"str",
    }
}

/// Appends the nodes, a space before each.
pub fn push_nodes(out: &mut Vec<u8>, nodes: &[NodeId]) -> Result<(), OutOfMemory>
    ensures { OnOk result (out.new.items ≡ out.old.items ++ behind (node_words nodes.now)) }
{
    for node in nodes {
        push_word(out, &Word::Node(*node))?;
    }
    Ok(())
}
