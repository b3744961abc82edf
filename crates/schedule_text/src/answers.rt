//! What the members of a file's list gave, as words.
ghost use Rattle.std.specs.Prelude.{◌≡◌, ◌==◌, IfOk};
ghost use Rattle.std.specs.List.{position};
ghost use Rattle.schedule_text.specs.EntryReading.{front, back, retry_of, retry_in, answered_in, answers_in};

use server_text::{cut, u8_of, u32_of, u64_of};
use std::alloc::Global;
use xt_base::{NodeId, OutOfMemory};
use xt_messages::{Answered, Answers, Retry};

/// Where the mark is first.
fn first_mark(word: &[u8], mark: u8) -> Option<usize>
    ensures { result ≡ position (λ byte. byte == mark) word.now }
{
    word.iter().position(|byte| *byte == mark)
}

/// The bytes before the first mark, and those after it.
fn cut_at(word: &[u8], mark: u8) -> (&[u8], &[u8])
    ensures front { result.0.now ≡ front mark word.now }
    ensures back { result.1.now ≡ back mark word.now }
{
    match first_mark(word, mark) {
        Some(place) => (&word[..place], &word[place + 1..]),
        None => (word, &[]),
    }
}

/// What a member gave, by its name and values.
#[tactic(auto, unfolding(crate::specs::EntryReading::retry_of))]
fn retry_of(name: &[u8], values: &[u8]) -> Retry
    ensures { result ≡ retry_of name.now values.now }
{
    if name == b"nolease".as_slice() {
        Retry::NoLease {
            end: u64_of(values),
        }
    } else if name == b"nomajority".as_slice() {
        let (have, need) = cut_at(values, b'/');
        Retry::NoMajority {
            have: u8_of(have),
            need: u8_of(need),
        }
    } else if name == b"elsewhere".as_slice() {
        let (node, end) = cut_at(values, b':');
        Retry::Elsewhere {
            node: NodeId(u32_of(node)),
            end: u64_of(end),
        }
    } else {
        Retry::Silent
    }
}

/// `nolease:END`, `nomajority:HAVE/NEED`, `elsewhere:NODE:END` or `silent`
#[tactic(auto, unfolding(crate::specs::EntryReading::retry_in))]
fn retry_in(word: &[u8]) -> Retry
    ensures { result ≡ retry_in word.now }
{
    let (name, values) = cut_at(word, b':');
    retry_of(name, values)
}

/// `N=` and what the member gave
#[tactic(auto, unfolding(crate::specs::EntryReading::answered_in))]
fn answered_in(word: &[u8]) -> Answered
    ensures { result ≡ answered_in word.now }
{
    let (node, given) = cut_at(word, b'=');
    Answered {
        node: NodeId(u32_of(node)),
        outcome: retry_in(given),
    }
}

/// What the members gave, a word each.
#[tactic(auto, unfolding(crate::specs::EntryReading::answers_in))]
pub(crate) fn answers_in(alloc: Global, words: &[u8]) -> Result<Answers, OutOfMemory>
    ensures { IfOk result (λ answers. answers ≡ answers_in words.now) }
{
    let mut answers = Answers::new(alloc);
    let mut rest = words;
    for _count in 0..words.len() {
        if rest.is_empty() {
            return Ok(answers);
        }
        let (word, behind) = cut(rest);
        answers.push(answered_in(word))?;
        rest = behind;
    }
    Ok(answers)
}
