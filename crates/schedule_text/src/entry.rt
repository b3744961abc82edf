ghost use Rattle.std.specs.Prelude.{◌≡◌, ◌++◌, ◌∷◌, [], List, OnOk, IfOk, IsTrue, ◌↔◌, MatchResult, codes};
ghost use Rattle.std.specs.List.{AllByRecursion};
ghost use Rattle.std.specs.Fmt.{decimal};
ghost use Rattle.server_text.specs.Words.{spaced, hex_or_dash, node_words};
ghost use Rattle.schedule_text.specs.CallText.{call_name, call_words};
ghost use Rattle.schedule_text.specs.OutcomeText.{outcome_words};
ghost use Rattle.time_line.specs.declared.entry.Entry.{Entry};
ghost use Rattle.schedule_text.specs.EntryText.{entry_text, trace_text, update_words, halt_word, IsEntry, IsEntryAt};

use crate::bounds::is_entry;
use crate::call::{call_name, push_call};
use crate::common::{push_clock, push_file_line, push_named, push_times};
use crate::entry_forms::loose_entry;
use crate::line::LineErr;
use crate::outcome::push_outcome;
use server_text::{Word, hex_or_dash, push_named_words, push_nodes};
use std::alloc::Global;
use time_line::{Entry, Halt};
use xt_base::{Boot, NodeId, Octets, OpId, OutOfMemory};
use xt_messages::{Call, Outcome};

/// Appends `list F VERSION NODE .. NODE`.
fn push_list(
    out: &mut Vec<u8>,
    number: u64,
    version: u32,
    members: &[NodeId],
) -> Result<(), OutOfMemory>
    ensures { OnOk result (out.new.items ≡
        out.old.items ++
        spaced (codes "list" ∷ decimal number ∷ decimal version ∷ node_words members.now)) }
{
    push_named_words(out, b"list", &[Word::Number(number), Word::Small(version)])?;
    push_nodes(out, members)
}

/// Appends `up N BOOT CLOCK`.
fn push_up(out: &mut Vec<u8>, node: NodeId, boot: Boot, clock: u64) -> Result<(), OutOfMemory>
    ensures { OnOk result (out.new.items ≡
        out.old.items ++
        spaced (codes "up" ∷ decimal node.0 ∷ decimal boot.0 ∷ decimal clock ∷ [])) }
{
    push_named_words(
        out,
        b"up",
        &[Word::Node(node), Word::Number(boot.0), Word::Number(clock)],
    )
}

/// The word of how a node stopped.
fn halt_word(how: Halt) -> &'static [u8]
    ensures { result.now ≡ halt_word how }
{
    match how {
        Halt::Idle => b"idle",
        Halt::Kept => b"kept",
        Halt::Lost => b"lost",
        Halt::Cut => b"cut",
    }
}

/// Appends `down N CLOCK` and how the node stopped.
fn push_down(out: &mut Vec<u8>, node: NodeId, clock: u64, how: Halt) -> Result<(), OutOfMemory>
    ensures { OnOk result (out.new.items ≡
        out.old.items ++
        spaced (codes "down" ∷ decimal node.0 ∷ decimal clock ∷ halt_word how ∷ [])) }
{
    push_named_words(
        out,
        b"down",
        &[
            Word::Node(node),
            Word::Number(clock),
            Word::Text(halt_word(how)),
        ],
    )
}

/// Appends `begin C NUMBER` and the call.
fn push_begin(
    out: &mut Vec<u8>,
    client: NodeId,
    number: u64,
    call: &Call,
) -> Result<(), OutOfMemory>
    ensures { OnOk result (out.new.items ≡
        out.old.items ++
        spaced (codes "begin" ∷ decimal client.0 ∷ decimal number ∷ call_name call.now
        ∷ call_words call.now)) }
{
    push_named_words(
        out,
        b"begin",
        &[
            Word::Node(client),
            Word::Number(number),
            Word::Text(call_name(call)),
        ],
    )?;
    push_call(out, call)
}

/// Appends `held N F END`.
fn push_held(out: &mut Vec<u8>, node: NodeId, file: u64, end: u64) -> Result<(), OutOfMemory>
    ensures { OnOk result (out.new.items ≡
        out.old.items ++
        spaced (codes "held" ∷ decimal node.0 ∷ decimal file ∷ decimal end ∷ [])) }
{
    push_named_words(
        out,
        b"held",
        &[Word::Node(node), Word::Number(file), Word::Number(end)],
    )
}

/// Appends a name and `N F COUNT CLIENT NUMBER`.
fn push_update(
    out: &mut Vec<u8>,
    name: &[u8],
    node: NodeId,
    file: u64,
    count: u64,
    id: OpId,
) -> Result<(), OutOfMemory>
    ensures { OnOk result (out.new.items ≡
        out.old.items ++ spaced (name.now ∷ update_words node file count id)) }
{
    push_named_words(
        out,
        name,
        &[
            Word::Node(node),
            Word::Number(file),
            Word::Number(count),
            Word::Node(id.client),
            Word::Number(id.number),
        ],
    )
}

/// Appends `answer N F CLIENT NUMBER COUNT HEX`.
fn push_answer(
    out: &mut Vec<u8>,
    node: NodeId,
    file: u64,
    id: OpId,
    count: u64,
    bytes: &Octets,
) -> Result<(), OutOfMemory>
    ensures { OnOk result (out.new.items ≡
        out.old.items ++
        spaced (codes "answer" ∷ decimal node.0 ∷ decimal file ∷ decimal id.client.0
        ∷ decimal id.number ∷ decimal count ∷ hex_or_dash bytes.now ∷ [])) }
{
    push_named_words(
        out,
        b"answer",
        &[
            Word::Node(node),
            Word::Number(file),
            Word::Node(id.client),
            Word::Number(id.number),
            Word::Number(count),
            hex_or_dash(bytes.as_slice()),
        ],
    )
}

/// Appends `done C NUMBER` and how the call ended.
fn push_done(
    out: &mut Vec<u8>,
    client: NodeId,
    number: u64,
    outcome: &Outcome,
) -> Result<(), OutOfMemory>
    ensures { OnOk result (out.new.items ≡
        out.old.items ++
        spaced (codes "done" ∷ decimal client.0 ∷ decimal number ∷ outcome_words outcome.now)) }
{
    push_clock(out, b"done", client, number)?;
    push_outcome(out, outcome)
}

/// Appends an entry, without a line feed.
#[tactic(auto, unfolding(crate::specs::EntryText::entry_text, crate::specs::EntryText::entry_words))]
fn push_entry(out: &mut Vec<u8>, entry: &Entry) -> Result<(), OutOfMemory>
    ensures { OnOk result (out.new.items ≡ out.old.items ++ entry_text entry.now) }
{
    match entry {
        Entry::Times { lease, drift } => push_times(out, *lease, *drift),
        Entry::File { number, location } => push_file_line(out, *number, location),
        Entry::List {
            number,
            version,
            members,
        } => push_list(out, *number, *version, members.as_slice()),
        Entry::Clock { node, clock } => push_clock(out, b"clock", *node, *clock),
        Entry::Tick { count } => push_named(out, b"tick", u128::from(*count)),
        Entry::Up { node, boot, clock } => push_up(out, *node, *boot, *clock),
        Entry::Down { node, clock, how } => push_down(out, *node, *clock, *how),
        Entry::Begin {
            client,
            number,
            call,
        } => push_begin(out, *client, *number, call),
        Entry::Held { node, file, end } => push_held(out, *node, *file, *end),
        Entry::Active {
            node,
            file,
            count,
            id,
        } => push_update(out, b"active", *node, *file, *count, *id),
        Entry::Issue {
            node,
            file,
            count,
            id,
        } => push_update(out, b"issue", *node, *file, *count, *id),
        Entry::Commit {
            node,
            file,
            count,
            id,
        } => push_update(out, b"commit", *node, *file, *count, *id),
        Entry::Answer {
            node,
            file,
            id,
            count,
            bytes,
        } => push_answer(out, *node, *file, *id, *count, bytes),
        Entry::Done {
            client,
            number,
            outcome,
        } => push_done(out, *client, *number, outcome),
    }
}

/// Appends an entry and a line feed.
fn push_entry_line(out: &mut Vec<u8>, entry: &Entry) -> Result<(), OutOfMemory>
    ensures { OnOk result (out.new.items ≡ out.old.items ++ (entry_text entry.now ++ 10 ∷ [])) }
{
    push_entry(out, entry)?;
    out.push(b'\n')?;
    Ok(())
}

/// The bytes that most entries need, at most.
const ENTRY_BYTES: usize = 64;

/// The entries, a line feed after each.
#[tactic(auto, using(crate::proofs::Trace::no_entries))]
pub fn print_entries(alloc: Global, entries: &[Entry]) -> Result<Octets, OutOfMemory>
    ensures { IfOk result (λ text. text ≡ trace_text entries.now) }
{
    let mut out = Vec::with_capacity(alloc, entries.len().saturating_mul(ENTRY_BYTES))?;
    for entry in entries {
        push_entry_line(&mut out, entry)?;
    }
    Octets::from_vec(out)
}

/// Whether the entry is in the language and these bytes spell it.
fn is_spelled(alloc: Global, entry: &Entry, bytes: &[u8], first: bool) -> Result<bool, OutOfMemory>
    ensures { IfOk result (λ yes.
        IsTrue yes ↔ (IsEntryAt first entry.now × (bytes.now ≡ entry_text entry.now))) }
{
    if !is_entry(first, entry) {
        return Ok(false);
    }
    let mut text = Vec::with_capacity(alloc, bytes.len())?;
    push_entry(&mut text, entry)?;
    Ok(text.as_slice() == bytes)
}

/// The entry that these bytes, without a line feed, spell; `first` says whether they are a trace's first line, the only one that
/// may give the times. `Malformed` exactly where no entry of the language is spelled so.
#[tactic(auto, using(crate::proofs::EntryAgain::entry_again))]
pub fn read_entry(alloc: Global, bytes: &[u8], first: bool) -> Result<Entry, LineErr>
    // What is read is in the language, and is spelled so.
    ensures found { IfOk result (λ e. IsEntryAt first e × (bytes.now ≡ entry_text e)) }

    // What is spelled so is read, unless memory runs out.
    ensures only { (e : Entry) → IsEntryAt first e → bytes.now ≡ entry_text e →
        MatchResult result (λ read. read ≡ e) (λ why. why ≡ LineErr.OutOfMemory) }
{
    let Some(entry) = loose_entry(alloc, bytes)? else {
        return Err(LineErr::Malformed);
    };
    // one way out for all that is refused, since each drops the entry
    let why = match is_spelled(alloc, &entry, bytes, first) {
        Ok(true) => return Ok(entry),
        Ok(false) => LineErr::Malformed,
        Err(error) => LineErr::from(error),
    };
    Err(why)
}

/// Two entries of a schedule's trace, within the limits of their values, that are spelled alike are one entry.
pub fn one_entry_a_spelling()
    ensures { (a b : Entry) → IsEntry a → IsEntry b → entry_text a ≡ entry_text b → a ≡ b }
{}

/// Two traces of such entries that are spelled alike are one trace: so what is said of the entries of a trace is said of
/// its bytes.
pub fn one_trace_a_spelling()
    ensures { (first second : List Entry) → AllByRecursion IsEntry first →
        AllByRecursion IsEntry second → trace_text first ≡ trace_text second → first ≡ second }
{}
