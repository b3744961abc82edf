use crate::calls::{Fate, call_ended, fate_of, file_of};
use crate::words::{Word, node_name, push_id, push_words};
use std::alloc::Global;
use time_line::{Entry, Halt};
use xt_base::{Boot, NodeId, Octets, OpId, OutOfMemory};
use xt_messages::{AskRefusal, Call, Location, Outcome};

fn push_times(out: &mut Vec<u8>, lease: u64, drift: u64) -> Result<(), OutOfMemory> {
    push_words(
        out,
        &[
            Word::Text(b"a lease is "),
            Word::Count(lease),
            Word::Text(b" ms long, clocks differ by at most "),
            Word::Count(drift),
            Word::Text(b" ms"),
        ],
    )
}

/// Appends nodes, a comma between two.
fn push_nodes(out: &mut Vec<u8>, nodes: &[NodeId]) -> Result<(), OutOfMemory> {
    let mut between: &[u8] = b" ";
    for node in nodes {
        push_words(out, &[Word::Text(between), node_name(*node)])?;
        between = b", ";
    }
    Ok(())
}

fn push_file(out: &mut Vec<u8>, number: u64, location: &Location) -> Result<(), OutOfMemory> {
    let nodes = location.members.as_slice();
    let on: &[u8] = if nodes.len() == 1 {
        b" on OSD"
    } else {
        b" on OSDs"
    };
    push_words(
        out,
        &[Word::Text(b"file "), Word::Name(number), Word::Text(on)],
    )?;
    push_nodes(out, nodes)?;
    push_words(
        out,
        &[
            Word::Text(b", in objects of "),
            Word::Count(u64::from(location.stripe)),
            Word::Text(b" bytes"),
        ],
    )
}

fn push_list(out: &mut Vec<u8>, number: u64, version: u32) -> Result<(), OutOfMemory> {
    push_words(
        out,
        &[
            Word::Text(b"the list of file "),
            Word::Name(number),
            Word::Text(b" is now version "),
            Word::Name(u64::from(version)),
        ],
    )
}

fn push_up(out: &mut Vec<u8>, boot: Boot) -> Result<(), OutOfMemory> {
    push_words(out, &[Word::Text(b"starts, boot "), Word::Name(boot.0)])
}

fn halt_text(how: Halt) -> &'static [u8] {
    match how {
        Halt::Idle => b"stops",
        Halt::Kept => b"crashes, its record stands",
        Halt::Lost => b"crashes, its record is lost",
        Halt::Cut => b"stops in its sending",
    }
}

/// Appends where in the file something is.
fn push_place(out: &mut Vec<u8>, object: u64, at: u32) -> Result<(), OutOfMemory> {
    if object > 0 {
        push_words(out, &[Word::Text(b" in object "), Word::Count(object)])?;
    }
    push_words(out, &[Word::Text(b" at "), Word::Count(u64::from(at))])
}

/// Appends how many bytes a read wants.
fn push_wanted(out: &mut Vec<u8>, len: u32) -> Result<(), OutOfMemory> {
    let bytes: &[u8] = if len == 1 { b" byte" } else { b" bytes" };
    push_words(
        out,
        &[
            Word::Text(b"read "),
            Word::Count(u64::from(len)),
            Word::Text(bytes),
        ],
    )
}

fn push_call(out: &mut Vec<u8>, call: &Call) -> Result<(), OutOfMemory> {
    match call {
        Call::Read {
            file: _,
            object,
            at,
            len,
        } => {
            push_wanted(out, *len)?;
            push_place(out, *object, *at)
        }
        Call::Write {
            file: _,
            object,
            at,
            bytes,
        } => {
            push_words(out, &[Word::Text(b"write "), Word::Bytes(bytes.as_slice())])?;
            push_place(out, *object, *at)
        }
        Call::Truncate {
            file: _,
            size,
            epoch: _,
        } => push_words(out, &[Word::Text(b"truncate to "), Word::Count(*size)]),
        Call::Meta { .. } => push_words(out, &[Word::Text(b"ask the metadata server")]),
        Call::Report { .. } => push_words(out, &[Word::Text(b"report the size")]),
        Call::Registry { .. } => push_words(out, &[Word::Text(b"ask the directory")]),
    }
}

fn push_begin(out: &mut Vec<u8>, number: u64, call: &Call) -> Result<(), OutOfMemory> {
    push_words(
        out,
        &[Word::Text(b"call "), Word::Name(number), Word::Text(b": ")],
    )?;
    push_call(out, call)
}

fn push_held(out: &mut Vec<u8>, end: u64) -> Result<(), OutOfMemory> {
    push_words(out, &[Word::Text(b"holds the lease to "), Word::Count(end)])
}

/// Whether a write of this id was issued at this place of the file before, and no entry says that a majority keeps it.
fn is_found(entries: &[Entry], to: usize, file: u64, count: u64, id: OpId) -> bool {
    for at in 0..to.min(entries.len()) {
        if let Entry::Issue {
            file: f,
            count: c,
            id: issued,
            ..
        } = &entries[at]
        {
            if *f == file && *c == count && issued.number == id.number {
                return matches!(
                    fate_of(entries, at, file, count, id),
                    Fate::Found(found) if found == to
                );
            }
        }
    }
    false
}

fn push_active(
    out: &mut Vec<u8>,
    entries: &[Entry],
    at: usize,
    file: u64,
    count: u64,
    id: OpId,
) -> Result<(), OutOfMemory> {
    if count == 0 {
        return push_words(out, &[Word::Text(b"active, no write yet")]);
    }
    if is_found(entries, at, file, count, id) {
        return push_id(out, b"active, finds ", id);
    }
    push_id(out, b"active after ", id)
}

fn push_answer(out: &mut Vec<u8>, id: OpId, bytes: &Octets) -> Result<(), OutOfMemory> {
    push_id(out, b"answers ", id)?;
    if bytes.as_slice().is_empty() {
        return Ok(());
    }
    push_words(out, &[Word::Text(b": "), Word::Bytes(bytes.as_slice())])
}

/// Appends what a read gave.
fn push_read(out: &mut Vec<u8>, count: u64, bytes: &Octets) -> Result<(), OutOfMemory> {
    let writes: &[u8] = if count == 1 { b" write" } else { b" writes" };
    push_words(
        out,
        &[
            Word::Text(b"ok: "),
            Word::Bytes(bytes.as_slice()),
            Word::Text(b" after "),
            Word::Count(count),
            Word::Text(writes),
        ],
    )
}

fn push_ok(
    out: &mut Vec<u8>,
    call: Option<&Call>,
    count: u64,
    bytes: &Octets,
) -> Result<(), OutOfMemory> {
    match call {
        Some(Call::Read { .. }) => push_read(out, count, bytes),
        _ => push_words(out, &[Word::Text(b"ok: write "), Word::Count(count)]),
    }
}

fn push_refusal(out: &mut Vec<u8>, refusal: &AskRefusal) -> Result<(), OutOfMemory> {
    match refusal {
        AskRefusal::Denied { rule } => push_words(
            out,
            &[
                Word::Text(b"denied by rule "),
                Word::Name(u64::from(*rule as u8)),
            ],
        ),
        AskRefusal::OldList { version } => push_words(
            out,
            &[
                Word::Text(b"refused: the list is of version "),
                Word::Name(u64::from(*version)),
            ],
        ),
        AskRefusal::OldEpoch { epoch } => push_words(
            out,
            &[
                Word::Text(b"refused: the truncate epoch is "),
                Word::Name(*epoch),
            ],
        ),
        AskRefusal::TooFar { object } => push_words(
            out,
            &[
                Word::Text(b"refused: too far, object "),
                Word::Count(*object),
            ],
        ),
        AskRefusal::ClientsFull => push_words(out, &[Word::Text(b"refused: too many clients")]),
    }
}

fn push_done(out: &mut Vec<u8>, call: Option<&Call>, outcome: &Outcome) -> Result<(), OutOfMemory> {
    match outcome {
        Outcome::Ok { count, bytes } => push_ok(out, call, *count, bytes),
        Outcome::Retry { .. } => push_words(out, &[Word::Text(b"not served, may be retried")]),
        Outcome::Refused { refusal } => push_refusal(out, refusal),
        _ => push_words(out, &[Word::Text(b"done")]),
    }
}

/// Appends what the entry at this place says.
fn push_entry(
    out: &mut Vec<u8>,
    entries: &[Entry],
    at: usize,
    entry: &Entry,
) -> Result<(), OutOfMemory> {
    match entry {
        Entry::Times { lease, drift } => push_times(out, *lease, *drift),
        Entry::File { number, location } => push_file(out, *number, location),
        Entry::List {
            number,
            version,
            members: _,
        } => push_list(out, *number, *version),
        Entry::Clock { node: _, clock } => {
            push_words(out, &[Word::Text(b"clock set to "), Word::Count(*clock)])
        }
        Entry::Tick { count } => push_words(
            out,
            &[Word::Text(b"+"), Word::Count(*count), Word::Text(b" ms")],
        ),
        Entry::Up {
            node: _,
            boot,
            clock: _,
        } => push_up(out, *boot),
        Entry::Down {
            node: _,
            clock: _,
            how,
        } => push_words(out, &[Word::Text(halt_text(*how))]),
        Entry::Begin {
            client: _,
            number,
            call,
        } => push_begin(out, *number, call),
        Entry::Held {
            node: _,
            file: _,
            end,
        } => push_held(out, *end),
        Entry::Active {
            node: _,
            file,
            count,
            id,
        } => push_active(out, entries, at, *file, *count, *id),
        Entry::Issue {
            node: _,
            file: _,
            count: _,
            id,
        } => push_id(out, b"issues ", *id),
        Entry::Commit {
            node: _,
            file: _,
            count: _,
            id,
        } => push_id(out, b"commits ", *id),
        Entry::Answer {
            node: _,
            file: _,
            id,
            count: _,
            bytes,
        } => push_answer(out, *id, bytes),
        Entry::Done {
            client,
            number,
            outcome,
        } => {
            let id = OpId {
                client: *client,
                number: *number,
            };
            push_done(out, call_ended(entries, at, id), outcome)
        }
    }
}

/// Appends the file that an entry names, where a picture has several.
fn push_of_file(out: &mut Vec<u8>, entry: &Entry) -> Result<(), OutOfMemory> {
    match entry {
        Entry::File { .. } | Entry::List { .. } => Ok(()),
        _ => match file_of(entry) {
            None => Ok(()),
            Some(file) => push_words(out, &[Word::Text(b", file "), Word::Name(file)]),
        },
    }
}

/// What the entry at this place says. With `several`, which file it names.
pub(crate) fn label_of(
    alloc: Global,
    entries: &[Entry],
    at: usize,
    entry: &Entry,
    several: bool,
) -> Result<Octets, OutOfMemory> {
    let mut out = Vec::new(alloc);
    push_entry(&mut out, entries, at, entry)?;
    if several {
        push_of_file(&mut out, entry)?;
    }
    Octets::from_vec(out)
}

/// What each entry says.
pub(crate) fn labels_of(
    alloc: Global,
    entries: &[Entry],
    several: bool,
) -> Result<Vec<Octets>, OutOfMemory> {
    let mut labels = Vec::with_capacity(alloc, entries.len())?;
    for (at, entry) in entries.iter().enumerate() {
        labels.push(label_of(alloc, entries, at, entry, several)?)?;
    }
    Ok(labels)
}
