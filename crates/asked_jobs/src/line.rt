//! What a line of a cluster asks for.
ghost use Rattle.std.specs.Prelude.{◌≡◌, MatchOption, true, false, IfOk, IfSome};
ghost use Rattle.std.specs.List.{list_all};
ghost use Rattle.std.specs.Str.{is_utf8};
ghost use Rattle.command_words.specs.Worked.{words_in};
ghost use Rattle.asked_jobs.specs.Lines as spec;
ghost use Rattle.asked_jobs.specs.Lines.{is_word, line_job, IsLineWithin};

use command_words::{ClientJob, Defaults, Job, read_words};
use std::alloc::Global;
use xt_base::{Name, OutOfMemory, Words};

/// The bytes as text, if they are UTF-8.
fn text_of(bytes: &[u8]) -> Option<&str>
    ensures { MatchOption result (is_utf8 bytes.now ≡ false) (λ text. (text.now ≡ bytes.now)
        × (is_utf8 bytes.now ≡ true)) }
{
    match str::from_utf8(bytes) {
        Ok(text) => Some(text),
        Err(_) => None,
    }
}

/// The words of a text: what is between its spaces.
fn words_of(alloc: Global, text: &str) -> Result<Words, OutOfMemory>
    ensures { IfOk result (λ words. words ≡ words_in text.now) }
{
    let mut words = Words::new(alloc);
    let mut rest = text;
    while let Some((word, later)) = rest.split_once(' ') {
        words.push(alloc, word)?;
        rest = later;
    }
    words.push(alloc, rest)?;
    Ok(words)
}

/// Whether no word is empty.
fn are_words(words: &[Name]) -> bool
    ensures { result ≡ list_all is_word words.now }
{
    let Some((first, rest)) = words.split_first() else {
        return true;
    };
    if first.as_str().is_empty() {
        false
    } else {
        are_words(rest)
    }
}

/// The client command among the jobs.
fn client_in(job: Option<Job>) -> Option<ClientJob>
    ensures { result ≡ spec.client_in job }
{
    match job {
        Some(Job::Client(client)) => Some(client),
        _ => None,
    }
}

/// The client command that a line asks for, without its line feed, or `None` exactly when it asks for none: its words aren't separated by
/// single spaces, or match no client command, or a value is out of its range. What it leaves out has the cluster's value. An error means
/// that memory ran out.
pub fn asked_line(
    alloc: Global,
    cluster: &Defaults,
    line: &[u8],
) -> Result<Option<ClientJob>, OutOfMemory>
    ensures asked { IfOk result (λ asked. asked ≡ line_job cluster.now line.now) }
    ensures within { IfOk result (λ asked. IfSome asked IsLineWithin) }
{
    let Some(text) = text_of(line) else {
        return Ok(None);
    };
    let words = words_of(alloc, text)?;
    if !are_words(words.as_slice()) {
        return Ok(None);
    }
    let asked = read_words(alloc, cluster, true, &words)?;
    Ok(client_in(asked))
}
