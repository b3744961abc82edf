ghost use Rattle.std.specs.Prelude.{◌≡◌, ◌++◌, ◌∷◌, [], OnOk, IfOk, codes};
ghost use Rattle.std.specs.Fmt.{decimal};
ghost use Rattle.server_text.specs.Words.{behind, hex_of};
ghost use Rattle.server_text.specs.WordText.{phrase_words};
ghost use Rattle.schedule_text.specs.StatusText.{last_line, status_text, limited_word, refusal_words, rule_words, status_words};

use crate::outcome::{ask_refusal, push_retries};
use server_text::{
    Phrase, Word, meta_refusal, push_counted, push_lone, push_pair, push_phrase, push_word,
    push_words,
};
use std::alloc::Global;
use xt_base::{Octets, OutOfMemory};
use xt_messages::{Limited, Refusal, Rule, Status};

/// A rule's name and its values.
#[tactic(auto, unfolding(crate::specs::StatusText::rule_words))]
fn rule_phrase(rule: &Rule) -> Phrase
    ensures { phrase_words result ≡ rule_words rule.now }
{
    match rule {
        Rule::Drift { a, b } => Phrase::Pair(b"drift", *a, *b),
        Rule::NoSuchMessage { number } => Phrase::Wide(b"nosuchmessage", *number),
        Rule::NotRunning { node } => Phrase::At(b"notrunning", *node),
        Rule::Running { node } => Phrase::At(b"running", *node),
        Rule::NoSuchNode { node } => Phrase::At(b"nosuchnode", *node),
        Rule::ClientBusy { client } => Phrase::At(b"clientbusy", *client),
        Rule::ClockBack { last } => Phrase::Counted(b"clockback", *last),
        Rule::Declared { number } => Phrase::Counted(b"declared", *number),
        Rule::NoSuchFile { number } => Phrase::Counted(b"nosuchfile", *number),
        Rule::NoCall { client } => Phrase::At(b"nocall", *client),
        Rule::ClockEnd { node } => Phrase::At(b"clockend", *node),
    }
}

/// The word of a count that has a limit.
fn limited_word(what: Limited) -> &'static [u8]
    ensures { result.now ≡ limited_word what }
{
    match what {
        Limited::Lines => b"lines",
        Limited::Line => b"line",
        Limited::Nodes => b"nodes",
        Limited::Messages => b"messages",
        Limited::Bytes => b"bytes",
        Limited::Boots => b"boots",
        Limited::Numbers => b"numbers",
    }
}

/// A refusal.
#[tactic(auto, unfolding(crate::specs::StatusText::refusal_words))]
fn refusal_phrase(refusal: &Refusal) -> Phrase
    ensures { phrase_words result ≡ refusal_words refusal.now }
{
    match refusal {
        Refusal::Ask { refusal } => ask_refusal(refusal),
        Refusal::Meta { refusal } => meta_refusal(refusal),
        Refusal::Changed { version } => Phrase::Counted(b"changed", *version),
        Refusal::Absent => Phrase::Lone(b"absent"),
    }
}

/// Appends ` illegal LINE` and the rule.
fn push_illegal(out: &mut Vec<u8>, line: u64, rule: &Rule) -> Result<(), OutOfMemory>
    ensures { OnOk result (out.new.items ≡
        out.old.items ++ behind (codes "illegal" ∷ decimal line ∷ rule_words rule.now)) }
{
    push_words(out, &[Word::Text(b"illegal"), Word::Number(line)])?;
    push_phrase(out, &rule_phrase(rule))
}

/// Appends ` limit WHAT LIMIT`.
fn push_limit(out: &mut Vec<u8>, what: Limited, limit: u64) -> Result<(), OutOfMemory>
    ensures { OnOk result (out.new.items ≡
        out.old.items ++ behind (codes "limit" ∷ limited_word what ∷ decimal limit ∷ [])) }
{
    push_words(
        out,
        &[
            Word::Text(b"limit"),
            Word::Text(limited_word(what)),
            Word::Number(limit),
        ],
    )
}

/// Appends ` notours HEX`.
fn push_not_ours(out: &mut Vec<u8>, first: &[u8]) -> Result<(), OutOfMemory>
    ensures { OnOk result (out.new.items ≡
        out.old.items ++ behind (codes "notours" ∷ hex_of first.now ∷ [])) }
{
    push_words(out, &[Word::Text(b"notours"), Word::Hex(first)])
}

/// Appends ` refused` and the refusal.
fn push_refused(out: &mut Vec<u8>, refusal: &Refusal) -> Result<(), OutOfMemory>
    ensures { OnOk result (out.new.items ≡
        out.old.items ++ behind (codes "refused" ∷ refusal_words refusal.now)) }
{
    push_word(out, &Word::Text(b"refused"))?;
    push_phrase(out, &refusal_phrase(refusal))
}

/// Appends the words of a status, a space before each.
#[tactic(auto, unfolding(crate::specs::StatusText::status_words))]
fn push_status(out: &mut Vec<u8>, status: &Status) -> Result<(), OutOfMemory>
    ensures { OnOk result (out.new.items ≡ out.old.items ++ behind (status_words status.now)) }
{
    match status {
        Status::Done => Ok(()),
        Status::Usage => push_lone(out, b"usage"),
        Status::Malformed { line } => push_counted(out, b"malformed", *line),
        Status::Illegal { line, rule } => push_illegal(out, *line, rule),
        Status::DiskFault { count } => push_counted(out, b"disk", *count),
        Status::LinkFault { count } => push_counted(out, b"link", *count),
        Status::SourceFault { count } => push_counted(out, b"source", *count),
        Status::SinkFault { count } => push_counted(out, b"sink", *count),
        Status::ClockFault { count } => push_counted(out, b"clock", *count),
        Status::ChildFault { count } => push_counted(out, b"child", *count),
        Status::TurnsSpent { turns } => push_counted(out, b"turns", *turns),
        Status::OutOfMemory => push_lone(out, b"memory"),
        Status::NotOurs { first } => push_not_ours(out, first),
        Status::Layout { version } => push_counted(out, b"layout", u64::from(*version)),
        Status::Limit { what, limit } => push_limit(out, *what, *limit),
        Status::JournalFull { need, limit } => push_pair(out, b"full", *need, *limit),
        Status::Broken { clause, entry } => push_pair(out, b"broken", u64::from(*clause), *entry),
        Status::Damaged { place } => push_counted(out, b"damaged", *place),
        Status::Retry { answers } => push_retries(out, answers.as_slice()),
        Status::Refused { rule } => push_refused(out, rule),
        Status::Unmended { count } => push_counted(out, b"unmended", *count),
        Status::Moved { count } => push_counted(out, b"moved", *count),
        Status::NotReplicated => push_lone(out, b"notreplicated"),
        Status::PinStore { pins } => push_counted(out, b"pins", *pins),
    }
}

/// Appends `!`, the words of a status and a line feed.
fn push_status_line(out: &mut Vec<u8>, status: &Status) -> Result<(), OutOfMemory>
    ensures { OnOk result (out.new.items ≡ out.old.items ++ (status_text status.now ++ 10 ∷ [])) }
{
    out.push(b'!')?;
    push_status(out, status)?;
    out.push(b'\n')?;
    Ok(())
}

/// Appends what a job that ended so writes last.
#[tactic(auto, unfolding(crate::specs::StatusText::last_line))]
fn push_last_line(out: &mut Vec<u8>, status: &Status) -> Result<(), OutOfMemory>
    ensures { OnOk result (out.new.items ≡ out.old.items ++ last_line status.now) }
{
    match status {
        Status::Done => Ok(()),
        _ => push_status_line(out, status),
    }
}

/// What a job that ended so writes last: nothing where it is complete, else its last line and a line feed.
pub fn print_status(alloc: Global, status: &Status) -> Result<Octets, OutOfMemory>
    ensures { IfOk result (λ text. text ≡ last_line status.now) }
{
    let mut out = Vec::new(alloc);
    push_last_line(&mut out, status)?;
    Octets::from_vec(out)
}
