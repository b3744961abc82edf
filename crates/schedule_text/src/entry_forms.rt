//! How an entry of each form is read, loosely: its spelling is compared with it afterwards.
ghost use Rattle.std.specs.Prelude.{◌≡◌, ℕ, Some, IfOk};
ghost use Rattle.xt_base.specs.declared.ids.NodeId.{NodeId};
ghost use Rattle.xt_base.specs.declared.ids.OpId.{OpId};
ghost use Rattle.time_line.specs.declared.entry.Entry.{Entry};
ghost use Rattle.schedule_text.specs.EntryReading.{times_in, file_in, list_in, clock_in, tick_in, up_in, halt_of, down_in, call_of, call_on, file_call_in, call_in, begin_in, held_in, id_of, update_in, answer_in, refusal_of, refusal_in, outcome_in, done_in, node_entry, update_entry, entry_of, entry_at};

use crate::answers::answers_in;
use crate::nodes::location_at;
use server_text::{
    bytes_of, cut, denial_of, members_at, read_meta_call, read_meta_outcome, read_registry_call,
    read_registry_outcome, u32_at, u32_of, u64_at, u64_of,
};
use std::alloc::Global;
use time_line::{Entry, Halt};
use xt_base::{Boot, NodeId, OpId, OutOfMemory};
use xt_messages::{AskRefusal, Call, Outcome};

/// `times L E`
#[tactic(auto, unfolding(crate::specs::EntryReading::times_in))]
fn times(words: &[u8]) -> Entry
    ensures { Some result ≡ times_in words.now }
{
    let (lease, words) = u64_at(words);
    let (drift, _) = u64_at(words);
    Entry::Times { lease, drift }
}

/// `file F rep|str STRIPE NODE ..`
#[tactic(auto, unfolding(crate::specs::EntryReading::file_in))]
fn file(words: &[u8]) -> Option<Entry>
    ensures { result ≡ file_in words.now }
{
    let (number, words) = u64_at(words);
    let location = location_at(words)?;
    Some(Entry::File { number, location })
}

/// `list F VERSION NODE ..`
#[tactic(auto, unfolding(crate::specs::EntryReading::list_in))]
fn list(words: &[u8]) -> Option<Entry>
    ensures { result ≡ list_in words.now }
{
    let (number, words) = u64_at(words);
    let (version, words) = u32_at(words);
    let members = members_at(words)?;
    Some(Entry::List {
        number,
        version,
        members,
    })
}

/// `clock N VALUE`
#[tactic(auto, unfolding(crate::specs::EntryReading::clock_in))]
fn clock(words: &[u8]) -> Entry
    ensures { Some result ≡ clock_in words.now }
{
    let (node, words) = u32_at(words);
    let (clock, _) = u64_at(words);
    Entry::Clock {
        node: NodeId(node),
        clock,
    }
}

/// `tick COUNT`
#[tactic(auto, unfolding(crate::specs::EntryReading::tick_in))]
fn tick(words: &[u8]) -> Entry
    ensures { Some result ≡ tick_in words.now }
{
    let (count, _) = u64_at(words);
    Entry::Tick { count }
}

/// `up N BOOT CLOCK`
#[tactic(auto, unfolding(crate::specs::EntryReading::up_in))]
fn up(words: &[u8]) -> Entry
    ensures { Some result ≡ up_in words.now }
{
    let (node, words) = u32_at(words);
    let (boot, words) = u64_at(words);
    let (clock, _) = u64_at(words);
    Entry::Up {
        node: NodeId(node),
        boot: Boot(boot),
        clock,
    }
}

/// How a node stopped, by its word.
#[tactic(auto, unfolding(crate::specs::EntryReading::halt_of))]
fn halt_of(word: &[u8]) -> Halt
    ensures { Some result ≡ halt_of word.now }
{
    if word == b"idle".as_slice() {
        Halt::Idle
    } else if word == b"kept".as_slice() {
        Halt::Kept
    } else if word == b"lost".as_slice() {
        Halt::Lost
    } else {
        Halt::Cut
    }
}

/// `down N CLOCK` and how the node stopped
#[tactic(auto, unfolding(crate::specs::EntryReading::down_in))]
fn down(words: &[u8]) -> Entry
    ensures { Some result ≡ down_in words.now }
{
    let (node, words) = u32_at(words);
    let (clock, words) = u64_at(words);
    let (word, _) = cut(words);
    let how = halt_of(word);
    Entry::Down {
        node: NodeId(node),
        clock,
        how,
    }
}

/// `LEN` of a read, or `HEX` of a write
#[tactic(auto, unfolding(crate::specs::EntryReading::call_of))]
fn call_of(
    alloc: Global,
    name: &[u8],
    file: u64,
    object: u64,
    at: u32,
    words: &[u8],
) -> Result<Call, OutOfMemory>
    ensures { IfOk result (λ made. Some made ≡ call_of name.now file object at words.now) }
{
    if name == b"read".as_slice() {
        let (len, _) = u32_at(words);
        Ok(Call::Read {
            file,
            object,
            at,
            len,
        })
    } else {
        let (digits, _) = cut(words);
        let bytes = bytes_of(alloc, digits)?;
        Ok(Call::Write {
            file,
            object,
            at,
            bytes,
        })
    }
}

/// `SIZE EPOCH` of a truncation, or `OBJ AT` and what follows
#[tactic(auto, unfolding(crate::specs::EntryReading::call_on))]
fn call_on(alloc: Global, name: &[u8], file: u64, words: &[u8]) -> Result<Call, OutOfMemory>
    ensures { IfOk result (λ made. Some made ≡ call_on name.now file words.now) }
{
    if name == b"truncate".as_slice() {
        let (size, words) = u64_at(words);
        let (epoch, _) = u64_at(words);
        Ok(Call::Truncate { file, size, epoch })
    } else {
        let (object, words) = u64_at(words);
        let (at, words) = u32_at(words);
        call_of(alloc, name, file, object, at, words)
    }
}

/// A call of this name, of those on a file.
#[tactic(auto, unfolding(crate::specs::EntryReading::file_call_in))]
fn file_call_in(alloc: Global, name: &[u8], words: &[u8]) -> Result<Call, OutOfMemory>
    ensures { IfOk result (λ made. Some made ≡ file_call_in name.now words.now) }
{
    let (file, words) = u64_at(words);
    call_on(alloc, name, file, words)
}

/// A call of this name.
#[tactic(auto, unfolding(crate::specs::EntryReading::call_in))]
fn call_in(alloc: Global, name: &[u8], words: &[u8]) -> Result<Call, OutOfMemory>
    ensures { IfOk result (λ made. Some made ≡ call_in name.now words.now) }
{
    if name == b"meta".as_slice() {
        read_meta_call(alloc, words)
    } else if name == b"registry".as_slice() {
        read_registry_call(alloc, words)
    } else {
        file_call_in(alloc, name, words)
    }
}

/// `begin C NUMBER` and the call
#[tactic(auto, unfolding(crate::specs::EntryReading::begin_in))]
fn begin(alloc: Global, words: &[u8]) -> Result<Entry, OutOfMemory>
    ensures { IfOk result (λ made. Some made ≡ begin_in words.now) }
{
    let (client, words) = u32_at(words);
    let (number, words) = u64_at(words);
    let (name, words) = cut(words);
    let call = call_in(alloc, name, words)?;
    Ok(Entry::Begin {
        client: NodeId(client),
        number,
        call,
    })
}

/// `held N F END`
#[tactic(auto, unfolding(crate::specs::EntryReading::held_in))]
fn held(words: &[u8]) -> Entry
    ensures { Some result ≡ held_in words.now }
{
    let (node, words) = u32_at(words);
    let (file, words) = u64_at(words);
    let (end, _) = u64_at(words);
    Entry::Held {
        node: NodeId(node),
        file,
        end,
    }
}

/// A write's place in a file's order, as a node reports it.
#[derive(Clone, Copy)]
struct Position {
    node: NodeId,
    file: u64,
    count: u64,
    id: OpId,
}

/// `N F COUNT CLIENT NUMBER`
#[tactic(auto, unfolding(crate::specs::EntryReading::update_in, crate::specs::EntryReading::id_of))]
fn position_at(words: &[u8]) -> Position
    ensures { (made : NodeId → ℕ → ℕ → OpId → Entry) →
        Some (made result.node result.file result.count result.id) ≡ update_in made words.now }
{
    let (node, words) = u32_at(words);
    let (file, words) = u64_at(words);
    let (count, words) = u64_at(words);
    let (client, words) = u32_at(words);
    let (number, _) = u64_at(words);
    Position {
        node: NodeId(node),
        file,
        count,
        id: OpId {
            client: NodeId(client),
            number,
        },
    }
}

/// `active N F COUNT CLIENT NUMBER`
fn active(words: &[u8]) -> Entry
    ensures { Some result ≡ update_in Entry.Active words.now }
{
    let Position {
        node,
        file,
        count,
        id,
    } = position_at(words);
    Entry::Active {
        node,
        file,
        count,
        id,
    }
}

/// `issue N F COUNT CLIENT NUMBER`
fn issue(words: &[u8]) -> Entry
    ensures { Some result ≡ update_in Entry.Issue words.now }
{
    let Position {
        node,
        file,
        count,
        id,
    } = position_at(words);
    Entry::Issue {
        node,
        file,
        count,
        id,
    }
}

/// `commit N F COUNT CLIENT NUMBER`
fn commit(words: &[u8]) -> Entry
    ensures { Some result ≡ update_in Entry.Commit words.now }
{
    let Position {
        node,
        file,
        count,
        id,
    } = position_at(words);
    Entry::Commit {
        node,
        file,
        count,
        id,
    }
}

/// `answer N F CLIENT NUMBER COUNT HEX`
#[tactic(auto, unfolding(crate::specs::EntryReading::answer_in, crate::specs::EntryReading::id_of))]
fn answer(alloc: Global, words: &[u8]) -> Result<Entry, OutOfMemory>
    ensures { IfOk result (λ made. Some made ≡ answer_in words.now) }
{
    let (node, words) = u32_at(words);
    let (file, words) = u64_at(words);
    let (client, words) = u32_at(words);
    let (number, words) = u64_at(words);
    let (count, words) = u64_at(words);
    let (digits, _) = cut(words);
    let bytes = bytes_of(alloc, digits)?;
    Ok(Entry::Answer {
        node: NodeId(node),
        file,
        id: OpId {
            client: NodeId(client),
            number,
        },
        count,
        bytes,
    })
}

/// A refusal of this name with a value.
#[tactic(auto, unfolding(crate::specs::EntryReading::refusal_of))]
fn refusal_of(name: &[u8], word: &[u8]) -> AskRefusal
    ensures { Some result ≡ refusal_of name.now word.now }
{
    if name == b"denied".as_slice() {
        AskRefusal::Denied {
            rule: denial_of(u64_of(word)),
        }
    } else if name == b"oldlist".as_slice() {
        AskRefusal::OldList {
            version: u32_of(word),
        }
    } else if name == b"oldepoch".as_slice() {
        AskRefusal::OldEpoch {
            epoch: u64_of(word),
        }
    } else {
        AskRefusal::TooFar {
            object: u64_of(word),
        }
    }
}

/// A refusal of this name.
#[tactic(auto, unfolding(crate::specs::EntryReading::refusal_in))]
fn refusal_in(name: &[u8], words: &[u8]) -> AskRefusal
    ensures { Some result ≡ refusal_in name.now words.now }
{
    if name == b"clientsfull".as_slice() {
        AskRefusal::ClientsFull
    } else {
        let (word, _) = cut(words);
        refusal_of(name, word)
    }
}

/// `ok COUNT HEX`, `retry ANSWERS`, `meta ANSWER`, `registry ANSWER`, or a refusal
#[tactic(auto, unfolding(crate::specs::EntryReading::outcome_in))]
fn outcome_in(alloc: Global, name: &[u8], words: &[u8]) -> Result<Outcome, OutOfMemory>
    ensures { IfOk result (λ ended. Some ended ≡ outcome_in name.now words.now) }
{
    if name == b"ok".as_slice() {
        let (count, words) = u64_at(words);
        let (digits, _) = cut(words);
        let bytes = bytes_of(alloc, digits)?;
        Ok(Outcome::Ok { count, bytes })
    } else if name == b"retry".as_slice() {
        let answers = answers_in(alloc, words)?;
        Ok(Outcome::Retry { answers })
    } else if name == b"meta".as_slice() {
        let answer = read_meta_outcome(alloc, words)?;
        Ok(Outcome::Meta { answer })
    } else if name == b"registry".as_slice() {
        let answer = read_registry_outcome(alloc, words)?;
        Ok(Outcome::Registry { answer })
    } else {
        let refusal = refusal_in(name, words);
        Ok(Outcome::Refused { refusal })
    }
}

/// `done C NUMBER` and how the call ended
#[tactic(auto, unfolding(crate::specs::EntryReading::done_in))]
fn done(alloc: Global, words: &[u8]) -> Result<Entry, OutOfMemory>
    ensures { IfOk result (λ made. Some made ≡ done_in words.now) }
{
    let (client, words) = u32_at(words);
    let (number, words) = u64_at(words);
    let (name, words) = cut(words);
    let outcome = outcome_in(alloc, name, words)?;
    Ok(Entry::Done {
        client: NodeId(client),
        number,
        outcome,
    })
}

/// An entry of this name, of those on clocks and nodes.
#[tactic(auto, unfolding(crate::specs::EntryReading::node_entry))]
fn node_entry(name: &[u8], words: &[u8]) -> Option<Entry>
    ensures { result ≡ node_entry name.now words.now }
{
    if name == b"times".as_slice() {
        Some(times(words))
    } else if name == b"file".as_slice() {
        file(words)
    } else if name == b"list".as_slice() {
        list(words)
    } else if name == b"clock".as_slice() {
        Some(clock(words))
    } else if name == b"tick".as_slice() {
        Some(tick(words))
    } else if name == b"up".as_slice() {
        Some(up(words))
    } else if name == b"down".as_slice() {
        Some(down(words))
    } else {
        None
    }
}

/// An entry of this name, of those that a primary makes, and those before.
#[tactic(auto, unfolding(crate::specs::EntryReading::update_entry))]
fn update_entry(name: &[u8], words: &[u8]) -> Option<Entry>
    ensures { result ≡ update_entry name.now words.now }
{
    if name == b"held".as_slice() {
        Some(held(words))
    } else if name == b"active".as_slice() {
        Some(active(words))
    } else if name == b"issue".as_slice() {
        Some(issue(words))
    } else if name == b"commit".as_slice() {
        Some(commit(words))
    } else {
        node_entry(name, words)
    }
}

/// An entry of this name.
#[tactic(auto, unfolding(crate::specs::EntryReading::entry_of))]
fn entry_of(alloc: Global, name: &[u8], words: &[u8]) -> Result<Option<Entry>, OutOfMemory>
    ensures { IfOk result (λ found. found ≡ entry_of name.now words.now) }
{
    if name == b"begin".as_slice() {
        Ok(Some(begin(alloc, words)?))
    } else if name == b"answer".as_slice() {
        Ok(Some(answer(alloc, words)?))
    } else if name == b"done".as_slice() {
        Ok(Some(done(alloc, words)?))
    } else {
        Ok(update_entry(name, words))
    }
}

/// The entry that the bytes spell, if they spell one. Others may give an entry too.
#[tactic(auto, unfolding(crate::specs::EntryReading::entry_at))]
pub(crate) fn loose_entry(alloc: Global, bytes: &[u8]) -> Result<Option<Entry>, OutOfMemory>
    ensures { IfOk result (λ found. found ≡ entry_at bytes.now) }
{
    let (name, words) = cut(bytes);
    entry_of(alloc, name, words)
}
