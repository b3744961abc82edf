//! Reading a line word by word: numbers, bytes and texts.
ghost use Rattle.std.specs.Prelude.{◌≡◌, ◌==◌, true, false, IfOk, MatchOption};
ghost use Rattle.std.specs.List.{position};
ghost use Rattle.std.specs.Str.{is_utf8};
ghost use Rattle.server_text.specs.Reading.{first_word, other_words, number_of, number_at, digit_of, byte_of, bytes_of, mode_in, text_in};

use std::alloc::Global;
use xt_base::{Name, Octets, OutOfMemory};

/// Where the first space is.
fn first_space(words: &[u8]) -> Option<usize>
    ensures { result ≡ position (λ byte. byte == 32) words.now }
{
    words.iter().position(|byte| *byte == b' ')
}

/// The bytes before the first space, and those after it.
#[tactic(auto, unfolding(crate::specs::Reading::first_word, crate::specs::Reading::other_words))]
pub fn cut(words: &[u8]) -> (&[u8], &[u8])
    ensures word { result.0.now ≡ first_word words.now }
    ensures rest { result.1.now ≡ other_words words.now }
{
    match first_space(words) {
        Some(place) => (&words[..place], &words[place + 1..]),
        None => (words, &[]),
    }
}

/// The number that digits spell, or the greatest below 2^8. Another word gives some number.
#[tactic(auto, unfolding(crate::specs::Reading::number_of))]
pub fn u8_of(word: &[u8]) -> u8
    ensures { result ≡ number_of 8 word.now }
{
    word.iter().fold(0, |number: u8, byte| {
        number
            .saturating_mul(10)
            .saturating_add(byte.saturating_sub(b'0'))
    })
}

/// The number that digits spell, or the greatest below 2^32. Another word gives some number.
#[tactic(auto, unfolding(crate::specs::Reading::number_of))]
pub fn u32_of(word: &[u8]) -> u32
    ensures { result ≡ number_of 32 word.now }
{
    word.iter().fold(0, |number: u32, byte| {
        number
            .saturating_mul(10)
            .saturating_add(u32::from(byte.saturating_sub(b'0')))
    })
}

/// The number that digits spell, or the greatest below 2^64. Another word gives some number.
#[tactic(auto, unfolding(crate::specs::Reading::number_of))]
pub fn u64_of(word: &[u8]) -> u64
    ensures { result ≡ number_of 64 word.now }
{
    word.iter().fold(0, |number: u64, byte| {
        number
            .saturating_mul(10)
            .saturating_add(u64::from(byte.saturating_sub(b'0')))
    })
}

/// The number that digits spell, or the greatest below 2^128. Another word gives some number.
#[tactic(auto, unfolding(crate::specs::Reading::number_of))]
pub fn u128_of(word: &[u8]) -> u128
    ensures { result ≡ number_of 128 word.now }
{
    word.iter().fold(0, |number: u128, byte| {
        number
            .saturating_mul(10)
            .saturating_add(u128::from(byte.saturating_sub(b'0')))
    })
}

/// The first word's number, or the greatest below 2^8, and the other words.
#[tactic(auto, unfolding(crate::specs::Reading::number_at))]
pub fn u8_at(words: &[u8]) -> (u8, &[u8])
    ensures number { result.0 ≡ (number_at 8 words.now).0 }
    ensures rest { result.1.now ≡ (number_at 8 words.now).1 }
{
    let (word, rest) = cut(words);
    (u8_of(word), rest)
}

/// The first word's number, or the greatest below 2^32, and the other words.
#[tactic(auto, unfolding(crate::specs::Reading::number_at))]
pub fn u32_at(words: &[u8]) -> (u32, &[u8])
    ensures number { result.0 ≡ (number_at 32 words.now).0 }
    ensures rest { result.1.now ≡ (number_at 32 words.now).1 }
{
    let (word, rest) = cut(words);
    (u32_of(word), rest)
}

/// The first word's number, or the greatest below 2^64, and the other words.
#[tactic(auto, unfolding(crate::specs::Reading::number_at))]
pub fn u64_at(words: &[u8]) -> (u64, &[u8])
    ensures number { result.0 ≡ (number_at 64 words.now).0 }
    ensures rest { result.1.now ≡ (number_at 64 words.now).1 }
{
    let (word, rest) = cut(words);
    (u64_of(word), rest)
}

/// The first word's number, or the greatest below 2^128, and the other words.
#[tactic(auto, unfolding(crate::specs::Reading::number_at))]
pub fn u128_at(words: &[u8]) -> (u128, &[u8])
    ensures number { result.0 ≡ (number_at 128 words.now).0 }
    ensures rest { result.1.now ≡ (number_at 128 words.now).1 }
{
    let (word, rest) = cut(words);
    (u128_of(word), rest)
}

/// What a hex digit stands for. Another byte stands for some number.
pub fn digit_of(byte: u8) -> u8
    ensures { result ≡ digit_of byte }
{
    if byte < b':' {
        byte % 16
    } else {
        byte.wrapping_add(9) % 16
    }
}

/// The byte that two hex digits spell. Two other bytes spell some byte.
#[tactic(auto, unfolding(crate::specs::Reading::byte_of))]
pub fn byte_of(word: &[u8]) -> Option<u8>
    ensures { result ≡ byte_of word.now }
{
    match word {
        [high, low] => Some(digit_of(*high) * 16 + digit_of(*low)),
        _ => None,
    }
}

/// The bytes that hex digits spell.
pub fn bytes_of(alloc: Global, digits: &[u8]) -> Result<Octets, OutOfMemory>
    ensures { IfOk result (λ bytes. bytes ≡ bytes_of digits.now) }
{
    let mut bytes = Vec::with_capacity(alloc, digits.len() / 2)?;
    let mut rest = digits;
    while let [high, low, behind @ ..] = rest {
        bytes.push(digit_of(*high) * 16 + digit_of(*low))?;
        rest = behind;
    }
    Octets::from_vec(bytes)
}

/// The mode that three octal digits spell. Another word spells some mode.
#[tactic(auto, unfolding(crate::specs::Reading::mode_in))]
pub fn mode_of(word: &[u8]) -> u16
    ensures { result ≡ mode_in word.now }
{
    match word {
        [high, middle, low] => {
            u16::from(*high % 8) * 64 + u16::from(*middle % 8) * 8 + u16::from(*low % 8)
        }
        _ => 0,
    }
}

/// The bytes as text, where they are UTF-8.
fn text_of(bytes: &[u8]) -> Option<&str>
    ensures { MatchOption result (is_utf8 bytes.now ≡ false) (λ text. (text.now ≡ bytes.now)
        × (is_utf8 bytes.now ≡ true)) }
{
    match str::from_utf8(bytes) {
        Ok(text) => Some(text),
        Err(_) => None,
    }
}

/// The name that a word is, or the empty one where it isn't UTF-8.
#[tactic(auto, unfolding(crate::specs::Reading::text_in))]
pub fn name_of(alloc: Global, word: &[u8]) -> Result<Name, OutOfMemory>
    ensures { IfOk result (λ name. name ≡ text_in word.now) }
{
    match text_of(word) {
        Some(text) => Name::of(alloc, text),
        None => Name::of(alloc, ""),
    }
}
