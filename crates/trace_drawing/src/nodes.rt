use crate::NODES;
use crate::calls::{file_of, file_of_call, node_of};
use std::alloc::Global;
use time_line::Entry;
use xt_base::{NodeId, OutOfMemory};

/// What a node is in a picture.
#[derive(Clone, Copy)]
pub(crate) enum Role {
    Client,
    /// It does no more than start and stop.
    Other,
    Osd,
}

/// Whether a picture of this file, or of all, shows the file.
pub(crate) fn is_about(only: Option<u64>, file: u64) -> bool {
    match only {
        None => true,
        Some(wanted) => wanted == file,
    }
}

/// Whether a picture shows an entry that names this file, or none.
fn is_about_any(only: Option<u64>, file: Option<u64>) -> bool {
    match file {
        None => only.is_none(),
        Some(file) => is_about(only, file),
    }
}

/// Whether the entry makes the node a client in the picture.
fn is_client(only: Option<u64>, node: NodeId, entry: &Entry) -> bool {
    match entry {
        Entry::Begin { client, call, .. } => {
            client.0 == node.0 && is_about_any(only, file_of_call(call))
        }
        Entry::Done { client, .. } => client.0 == node.0 && only.is_none(),
        _ => false,
    }
}

/// Whether the entry makes the node an OSD in the picture.
fn is_osd(only: Option<u64>, node: NodeId, entry: &Entry) -> bool {
    match entry {
        Entry::File { number, location } => {
            is_about(only, *number) && location.members.contains(node)
        }
        Entry::Held { node: n, file, .. } => n.0 == node.0 && is_about(only, *file),
        Entry::Active { node: n, file, .. } => n.0 == node.0 && is_about(only, *file),
        Entry::Issue { node: n, file, .. } => n.0 == node.0 && is_about(only, *file),
        Entry::Commit { node: n, file, .. } => n.0 == node.0 && is_about(only, *file),
        Entry::Answer { node: n, file, .. } => n.0 == node.0 && is_about(only, *file),
        _ => false,
    }
}

/// What the node is in a picture of this file, or of all; nothing where it isn't shown.
pub(crate) fn role_of(entries: &[Entry], only: Option<u64>, node: NodeId) -> Option<Role> {
    if entries.iter().any(|entry| is_client(only, node, entry)) {
        return Some(Role::Client);
    }
    if entries.iter().any(|entry| is_osd(only, node, entry)) {
        return Some(Role::Osd);
    }
    match only {
        None => Some(Role::Other),
        Some(_) => None,
    }
}

/// Appends a node, if it isn't among the others.
fn note_node(nodes: &mut Vec<NodeId>, node: NodeId) -> Result<(), OutOfMemory> {
    if !nodes.iter().any(|known| known.0 == node.0) {
        nodes.push(node)?;
    }
    Ok(())
}

/// Appends the nodes of an entry that aren't among the others.
fn note_nodes(nodes: &mut Vec<NodeId>, entry: &Entry) -> Result<(), OutOfMemory> {
    if let Entry::File { location, .. } = entry {
        for member in location.members.as_slice() {
            note_node(nodes, *member)?;
        }
    }
    if let Some(node) = node_of(entry) {
        note_node(nodes, node)?;
    }
    Ok(())
}

/// The nodes of a trace, rising; nothing where they are more than a picture may have.
pub(crate) fn nodes_of(
    alloc: Global,
    entries: &[Entry],
) -> Result<Option<Vec<NodeId>>, OutOfMemory> {
    let mut nodes = Vec::new(alloc);
    for entry in entries {
        note_nodes(&mut nodes, entry)?;
        if nodes.len() > NODES {
            return Ok(None);
        }
    }
    nodes.sort()?;
    Ok(Some(nodes))
}

/// Appends a file, if it isn't among the others.
fn note_file(files: &mut Vec<u64>, file: u64) -> Result<(), OutOfMemory> {
    if !files.contains(&file) {
        files.push(file)?;
    }
    Ok(())
}

/// The files of a picture of this file, or of all, in the order in which they are named first.
pub(crate) fn files_of(
    alloc: Global,
    entries: &[Entry],
    only: Option<u64>,
) -> Result<Vec<u64>, OutOfMemory> {
    let mut files = Vec::new(alloc);
    for entry in entries {
        if let Some(file) = file_of(entry) {
            if is_about(only, file) {
                note_file(&mut files, file)?;
            }
        }
    }
    Ok(files)
}
