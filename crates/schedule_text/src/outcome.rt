ghost use Rattle.std.specs.Prelude.{◌≡◌, ◌++◌, ◌∷◌, [], OnOk, codes};
ghost use Rattle.std.specs.Fmt.{decimal};
ghost use Rattle.server_text.specs.Words.{behind, hex_or_dash};
ghost use Rattle.server_text.specs.WordText.{phrase_words};
ghost use Rattle.server_text.specs.AnswerText.{meta_outcome_words, registry_outcome_words};
ghost use Rattle.schedule_text.specs.OutcomeText.{ask_refusal_words, retry_text, answer_word, answer_words, outcome_words};

use server_text::{
    Phrase, Word, denial_number, hex_or_dash, push_digits, push_meta_outcome, push_phrase,
    push_registry_outcome, push_word, push_words,
};
use xt_base::{NodeId, Octets, OutOfMemory};
use xt_messages::{Answered, AskRefusal, MetaOutcome, Outcome, RegistryOutcome, Retry};

/// An OSD's refusal.
#[tactic(auto, unfolding(crate::specs::OutcomeText::ask_refusal_words))]
pub(crate) fn ask_refusal(refusal: &AskRefusal) -> Phrase
    ensures { phrase_words result ≡ ask_refusal_words refusal.now }
{
    match refusal {
        AskRefusal::Denied { rule } => Phrase::Counted(b"denied", denial_number(*rule)),
        AskRefusal::OldList { version } => Phrase::Counted(b"oldlist", u64::from(*version)),
        AskRefusal::OldEpoch { epoch } => Phrase::Counted(b"oldepoch", *epoch),
        AskRefusal::TooFar { object } => Phrase::Counted(b"toofar", *object),
        AskRefusal::ClientsFull => Phrase::Lone(b"clientsfull"),
    }
}

/// Appends a label and a number.
fn push_labelled(out: &mut Vec<u8>, label: &[u8], number: u64) -> Result<(), OutOfMemory>
    ensures { OnOk result (out.new.items ≡ out.old.items ++ (label.now ++ decimal number)) }
{
    out.extend_from_slice(label)?;
    push_digits(out, number)
}

/// Appends a mark and a number.
fn push_marked(out: &mut Vec<u8>, mark: u8, number: u64) -> Result<(), OutOfMemory>
    ensures { OnOk result (out.new.items ≡ out.old.items ++ mark ∷ decimal number) }
{
    out.push(mark)?;
    push_digits(out, number)
}

/// Appends `=nomajority:HAVE/NEED`.
fn push_no_majority(out: &mut Vec<u8>, have: u8, need: u8) -> Result<(), OutOfMemory>
    ensures { OnOk result (out.new.items ≡
        out.old.items ++ (codes "=nomajority:" ++ decimal have ++ 47 ∷ decimal need)) }
{
    push_labelled(out, b"=nomajority:", u64::from(have))?;
    push_marked(out, b'/', u64::from(need))
}

/// Appends `=elsewhere:NODE:END`.
fn push_elsewhere(out: &mut Vec<u8>, node: NodeId, end: u64) -> Result<(), OutOfMemory>
    ensures { OnOk result (out.new.items ≡
        out.old.items ++ (codes "=elsewhere:" ++ decimal node.0 ++ 58 ∷ decimal end)) }
{
    push_labelled(out, b"=elsewhere:", u64::from(node.0))?;
    push_marked(out, b':', end)
}

/// Appends what a member gave.
#[tactic(auto, unfolding(crate::specs::OutcomeText::retry_text))]
fn push_retry(out: &mut Vec<u8>, retry: &Retry) -> Result<(), OutOfMemory>
    ensures { OnOk result (out.new.items ≡ out.old.items ++ retry_text retry.now) }
{
    match retry {
        Retry::NoLease { end } => push_labelled(out, b"=nolease:", *end),
        Retry::NoMajority { have, need } => push_no_majority(out, *have, *need),
        Retry::Elsewhere { node, end } => push_elsewhere(out, *node, *end),
        Retry::Silent => {
            out.extend_from_slice(b"=silent")?;
            Ok(())
        }
    }
}

/// Appends a member and what it gave.
fn push_answer(out: &mut Vec<u8>, answered: &Answered) -> Result<(), OutOfMemory>
    ensures { OnOk result (out.new.items ≡ out.old.items ++ 32 ∷ answer_word answered.now) }
{
    push_word(out, &Word::Node(answered.node))?;
    push_retry(out, &answered.outcome)
}

/// Appends what each member gave.
pub(crate) fn push_answers(out: &mut Vec<u8>, answers: &[Answered]) -> Result<(), OutOfMemory>
    ensures { OnOk result (out.new.items ≡ out.old.items ++ behind (answer_words answers.now)) }
{
    for answered in answers {
        push_answer(out, answered)?;
    }
    Ok(())
}

/// Appends ` ok COUNT HEX`.
fn push_ok(out: &mut Vec<u8>, count: u64, bytes: &Octets) -> Result<(), OutOfMemory>
    ensures { OnOk result (out.new.items ≡
        out.old.items ++ behind (codes "ok" ∷ decimal count ∷ hex_or_dash bytes.now ∷ [])) }
{
    push_words(
        out,
        &[
            Word::Text(b"ok"),
            Word::Number(count),
            hex_or_dash(bytes.as_slice()),
        ],
    )
}

/// Appends ` retry ANSWERS`.
pub(crate) fn push_retries(out: &mut Vec<u8>, answers: &[Answered]) -> Result<(), OutOfMemory>
    ensures { OnOk result (out.new.items ≡
        out.old.items ++ behind (codes "retry" ∷ answer_words answers.now)) }
{
    push_word(out, &Word::Text(b"retry"))?;
    push_answers(out, answers)
}

/// Appends ` meta ANSWER`.
fn push_meta(out: &mut Vec<u8>, answer: &MetaOutcome) -> Result<(), OutOfMemory>
    ensures { OnOk result (out.new.items ≡
        out.old.items ++ behind (codes "meta" ∷ meta_outcome_words answer.now)) }
{
    push_word(out, &Word::Text(b"meta"))?;
    push_meta_outcome(out, answer)
}

/// Appends ` registry ANSWER`.
fn push_registry(out: &mut Vec<u8>, answer: &RegistryOutcome) -> Result<(), OutOfMemory>
    ensures { OnOk result (out.new.items ≡
        out.old.items ++ behind (codes "registry" ∷ registry_outcome_words answer.now)) }
{
    push_word(out, &Word::Text(b"registry"))?;
    push_registry_outcome(out, answer)
}

/// Appends how a call ended.
#[tactic(auto, unfolding(crate::specs::OutcomeText::outcome_words))]
pub(crate) fn push_outcome(out: &mut Vec<u8>, outcome: &Outcome) -> Result<(), OutOfMemory>
    ensures { OnOk result (out.new.items ≡ out.old.items ++ behind (outcome_words outcome.now)) }
{
    match outcome {
        Outcome::Ok { count, bytes } => push_ok(out, *count, bytes),
        Outcome::Retry { answers } => push_retries(out, answers.as_slice()),
        Outcome::Refused { refusal } => push_phrase(out, &ask_refusal(refusal)),
        Outcome::Meta { answer } => push_meta(out, answer),
        Outcome::Registry { answer } => push_registry(out, answer),
    }
}
