use time_line::Entry;
use xt_base::{NodeId, OpId};
use xt_messages::{Call, Outcome};

/// What becomes of a write that was issued.
#[derive(Clone, Copy)]
pub(crate) enum Fate {
    /// No entry says.
    Open,
    /// The entry says that a majority keeps it.
    Kept,
    /// By this entry a later primary became active with it.
    Found(usize),
    /// A later primary became active without it, or another write has its place.
    Gone,
}

fn is_id(one: OpId, other: OpId) -> bool {
    one.client.0 == other.client.0 && one.number == other.number
}

/// The file of a call.
pub(crate) fn file_of_call(call: &Call) -> Option<u64> {
    match call {
        Call::Read { file, .. } => Some(*file),
        Call::Write { file, .. } => Some(*file),
        Call::Truncate { file, .. } => Some(*file),
        Call::Report { file, .. } => Some(*file),
        _ => None,
    }
}

/// The file that an entry names.
pub(crate) fn file_of(entry: &Entry) -> Option<u64> {
    match entry {
        Entry::File { number, .. } => Some(*number),
        Entry::List { number, .. } => Some(*number),
        Entry::Begin { call, .. } => file_of_call(call),
        Entry::Held { file, .. } => Some(*file),
        Entry::Active { file, .. } => Some(*file),
        Entry::Issue { file, .. } => Some(*file),
        Entry::Commit { file, .. } => Some(*file),
        Entry::Answer { file, .. } => Some(*file),
        _ => None,
    }
}

/// The node in whose lane an entry stands.
pub(crate) fn node_of(entry: &Entry) -> Option<NodeId> {
    match entry {
        Entry::Clock { node, .. } => Some(*node),
        Entry::Up { node, .. } => Some(*node),
        Entry::Down { node, .. } => Some(*node),
        Entry::Begin { client, .. } => Some(*client),
        Entry::Held { node, .. } => Some(*node),
        Entry::Active { node, .. } => Some(*node),
        Entry::Issue { node, .. } => Some(*node),
        Entry::Commit { node, .. } => Some(*node),
        Entry::Answer { node, .. } => Some(*node),
        Entry::Done { client, .. } => Some(*client),
        _ => None,
    }
}

/// The id and the call that begin by an entry.
pub(crate) fn begun(entry: &Entry) -> Option<(OpId, &Call)> {
    match entry {
        Entry::Begin {
            client,
            number,
            call,
        } => Some((
            OpId {
                client: *client,
                number: *number,
            },
            call,
        )),
        _ => None,
    }
}

/// Whether the call of this id ends by the entry.
fn is_end(id: OpId, entry: &Entry) -> bool {
    match entry {
        Entry::Done { client, number, .. } => id.client.0 == client.0 && id.number == *number,
        _ => false,
    }
}

/// Whether the call of this id is answered by the entry.
fn is_answer(called: OpId, entry: &Entry) -> bool {
    match entry {
        Entry::Answer { id, .. } => is_id(called, *id),
        _ => false,
    }
}

/// Whether the call of this id is served by the entry.
fn is_served(called: OpId, entry: &Entry) -> bool {
    match entry {
        Entry::Issue { id, .. } => is_id(called, *id),
        _ => is_answer(called, entry),
    }
}

/// Where the call of this id ends first, from an entry on.
pub(crate) fn end_after(entries: &[Entry], from: usize, id: OpId) -> Option<usize> {
    (from..entries.len()).find(|at| is_end(id, &entries[*at]))
}

/// Where the call of this id is served first, from an entry on, up to another.
pub(crate) fn served_within(entries: &[Entry], from: usize, to: usize, id: OpId) -> Option<usize> {
    (from..to.min(entries.len())).find(|at| is_served(id, &entries[*at]))
}

/// Where the call of this id is answered last, from an entry on, up to another.
pub(crate) fn answered_within(
    entries: &[Entry],
    from: usize,
    to: usize,
    id: OpId,
) -> Option<usize> {
    (from..to.min(entries.len()))
        .rev()
        .find(|at| is_answer(id, &entries[*at]))
}

/// The call that ends by the entry at this place: the last one of its id that began before.
pub(crate) fn call_ended<'a>(entries: &'a [Entry], to: usize, ended: OpId) -> Option<&'a Call> {
    for at in (0..to.min(entries.len())).rev() {
        if let Some((id, call)) = begun(&entries[at]) {
            if is_id(id, ended) {
                return Some(call);
            }
        }
    }
    None
}

/// Whether a call ended well.
pub(crate) fn is_ok(entry: &Entry) -> bool {
    matches!(
        entry,
        Entry::Done {
            outcome: Outcome::Ok { .. },
            ..
        }
    )
}

/// What an entry says of the write of this id that was issued at this place of a file.
fn fate_by(file: u64, count: u64, issued: OpId, at: usize, entry: &Entry) -> Fate {
    match entry {
        Entry::Commit {
            file: f,
            count: c,
            id,
            ..
        } if *f == file && *c == count => {
            if is_id(*id, issued) {
                Fate::Kept
            } else {
                Fate::Gone
            }
        }
        Entry::Active {
            file: f,
            count: c,
            id,
            ..
        } if *f == file && *c <= count => {
            if *c == count && is_id(*id, issued) {
                Fate::Found(at)
            } else {
                Fate::Gone
            }
        }
        _ => Fate::Open,
    }
}

/// What becomes of the write of this id that was issued at this place of a file, by the entries from one on.
pub(crate) fn fate_of(entries: &[Entry], from: usize, file: u64, count: u64, id: OpId) -> Fate {
    for at in from..entries.len() {
        let fate = fate_by(file, count, id, at, &entries[at]);
        if !matches!(fate, Fate::Open) {
            return fate;
        }
    }
    Fate::Open
}
