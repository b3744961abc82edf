//! The lines of a trace that the marks of a step give, and the files among the marks.
ghost use Rattle.std.specs.Prelude.{◌≡◌, ◌++◌, ◌∷◌, [], map, IfOk, OnOk, OnErr};
ghost use Rattle.world_spec.specs.NodeSteps.{entry_of, file_marked, files_marked};

use std::alloc::Global;
use time_line::{Entry, Halt};
use world_spec::PlacedFile;
use xt_base::{NodeId, OutOfMemory};
use xt_messages::{Mark, Marks};

/// The line of the trace for a mark of a node.
fn entry_of(node: NodeId, mark: Mark) -> Entry
    ensures { result ≡ entry_of node mark }
{
    match mark {
        Mark::File { file, location } => Entry::File {
            number: file.number,
            location,
        },
        Mark::List {
            file,
            version,
            members,
        } => Entry::List {
            number: file.number,
            version,
            members,
        },
        Mark::Begin { number, call } => Entry::Begin {
            client: node,
            number,
            call,
        },
        Mark::Held { file, end } => Entry::Held { node, file, end },
        Mark::Active { file, count, id } => Entry::Active {
            node,
            file,
            count,
            id,
        },
        Mark::Issue { file, count, id } => Entry::Issue {
            node,
            file,
            count,
            id,
        },
        Mark::Commit { file, count, id } => Entry::Commit {
            node,
            file,
            count,
            id,
        },
        Mark::Answer {
            file,
            id,
            count,
            bytes,
        } => Entry::Answer {
            node,
            file,
            id,
            count,
            bytes,
        },
        Mark::Done { number, outcome } => Entry::Done {
            client: node,
            number,
            outcome,
        },
    }
}

/// The file that a mark reports, if it reports one.
fn file_marked(mark: &Mark) -> Option<PlacedFile>
    ensures { result ≡ file_marked mark.now }
{
    match mark {
        Mark::File { file, location } => Some(PlacedFile {
            file: *file,
            location: *location,
        }),
        _ => None,
    }
}

/// The files that marks report, in order.
pub fn files_of(alloc: Global, marks: &[Mark]) -> Result<Vec<PlacedFile>, OutOfMemory>
    ensures { IfOk result (λ files. files.items ≡ files_marked marks.now) }
{
    let mut files = Vec::new(alloc);
    for mark in marks {
        if let Some(file) = file_marked(mark) {
            files.push(file)?;
        }
    }
    Ok(files)
}

/// A line is added to the trace. It is a call, so that the line is no part of the way out.
pub fn tell(entries: &mut Vec<Entry>, entry: Entry) -> Result<(), OutOfMemory>
    ensures items { OnOk result (entries.new.items ≡ entries.old.items ++ entry ∷ []) }
    ensures err { OnErr result (entries.new.items ≡ entries.old.items) }
{
    entries.push(entry)?;
    Ok(())
}

/// The lines of the trace for the marks of a node.
pub fn entries_of(alloc: Global, node: NodeId, marks: Marks) -> Result<Vec<Entry>, OutOfMemory>
    ensures { IfOk result (λ entries. entries.items ≡ map (entry_of node) marks) }
{
    let marks = marks.items.into_iter();
    marks.map(|mark| entry_of(node, mark)).collect(alloc)
}

/// The lines of the trace for the marks of a node whose sending is cut at this reading of its clock.
pub fn entries_to_cut(
    alloc: Global,
    node: NodeId,
    clock: u64,
    marks: Marks,
) -> Result<Vec<Entry>, OutOfMemory>
    ensures { IfOk result (λ entries. entries.items ≡
        map (entry_of node) marks ++ Entry.Down node clock Halt.Cut ∷ []) }
{
    let how = Halt::Cut;
    let mut entries = entries_of(alloc, node, marks)?;
    tell(&mut entries, Entry::Down { node, clock, how })?;
    Ok(entries)
}

/// Lines of the trace are added after the others, and files are made. What they were taken from is empty then.
/// Where memory runs out no line is added and no file is made.
pub fn tell_all(
    entries: &mut Vec<Entry>,
    made: &mut Vec<PlacedFile>,
    told: &mut Vec<Entry>,
    files: &mut Vec<PlacedFile>,
) -> Result<(), OutOfMemory>
    ensures entries { OnOk result (entries.new.items ≡ entries.old.items ++ told.old.items) }
    ensures made { OnOk result (made.new.items ≡ made.old.items ++ files.old.items) }
    ensures err { OnErr result (entries.new.items ≡ entries.old.items) }
    ensures unmade { OnErr result (made.new.items ≡ made.old.items) }
{
    entries.reserve(told.len())?;
    made.append(files)?;
    entries.append(told)?;
    Ok(())
}
