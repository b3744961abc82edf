use crate::done::Done;
use crate::frames::{decode_times, encode_times};
use crate::journals::{Filing, append_times, done_in_file};
use crate::parts::{cut_times, join_times};
use crate::services::{get_times, tag_times};
use crate::starts::start_from;
use crate::volumes::{Errand, run_errands};
use anyhow::Result;
use std::alloc::Global;
use std::fs::File;
use std::rt::Files;
use xt_base::Name;

/// What is done so many times.
#[derive(Clone, Copy)]
pub enum Task {
    /// Makes the frame of an object's message.
    Encode,
    /// Reads that frame.
    Decode,
    /// Cuts a message into parts.
    Cut,
    /// Joins those parts.
    Join,
    /// Appends a payload to a journal in memory.
    Append,
    /// Makes the tag of a message.
    Tag,
    /// Asks the directory service for one of so many nodes.
    Registry,
}

/// The tasks by their names.
static TASKS: [(&str, Task); 7] = [
    ("encode", Task::Encode),
    ("decode", Task::Decode),
    ("cut", Task::Cut),
    ("join", Task::Join),
    ("append", Task::Append),
    ("tag", Task::Tag),
    ("registry", Task::Registry),
];

impl Task {
    /// The task of this name.
    fn of(word: &str) -> Option<Task> {
        for (name, task) in &TASKS {
            if *name == word {
                return Some(*task);
            }
        }
        None
    }

    /// Does it on so many bytes (or, for the registry, nodes), so many times, and gives how many bytes it made or read.
    fn run(self, alloc: Global, size: usize, times: u32) -> Result<u64> {
        match self {
            Task::Encode => encode_times(alloc, size, times),
            Task::Decode => decode_times(alloc, size, times),
            Task::Cut => cut_times(alloc, size, times),
            Task::Join => join_times(alloc, size, times),
            Task::Append => append_times(alloc, size, times),
            Task::Tag => tag_times(alloc, size, times),
            Task::Registry => get_times(alloc, size, times),
        }
    }
}

/// What is to be done, on so many bytes and so many times, or with the file at a path.
#[derive(Clone, Copy)]
pub enum Work<'a> {
    Inside {
        task: Task,
        size: usize,
        times: u32,
    },
    InFile {
        filing: Filing,
        path: &'a str,
    },
    Start {
        updates: u32,
    },
    Volume {
        errand: Errand,
        files: u32,
        times: u32,
    },
}

/// The two numbers that these words are.
fn numbers(size: &Name, times: &Name) -> Option<(usize, u32)> {
    let size = size.as_str().parse::<usize>().ok()?;
    let times = times.as_str().parse::<u32>().ok()?;
    Some((size, times))
}

/// The work on volumes that these words name, if they name one.
fn volume_of<'a>(words: &'a [Name]) -> Option<Work<'a>> {
    let [errand, files, times] = words else {
        return None;
    };
    Some(Work::Volume {
        errand: Errand::of(errand.as_str())?,
        files: files.as_str().parse::<u32>().ok()?,
        times: times.as_str().parse::<u32>().ok()?,
    })
}

/// The appends to a file that these words name, if they name them.
fn append_of<'a>(words: &'a [Name]) -> Option<Work<'a>> {
    let [size, times, path] = words else {
        return None;
    };
    let (size, times) = numbers(size, times)?;
    Some(Work::InFile {
        filing: Filing::Append { size, times },
        path: path.as_str(),
    })
}

/// The task that these words name, if they name one.
fn task_of<'a>(task: &str, words: &'a [Name]) -> Option<Work<'a>> {
    let [size, times] = words else { return None };
    let task = Task::of(task)?;
    let (size, times) = numbers(size, times)?;
    Some(Work::Inside { task, size, times })
}

/// What is done with a whole file that has this name, if it is such a name.
fn filing_of(name: &str) -> Option<Filing> {
    if name == "load" {
        Some(Filing::Load)
    } else if name == "records" {
        Some(Filing::Records)
    } else if name == "compact" {
        Some(Filing::Compact)
    } else {
        None
    }
}

/// The work on one word that these words name, if they name one.
fn single_of<'a>(name: &str, word: &'a Name) -> Option<Work<'a>> {
    let word = word.as_str();
    if name == "start" {
        let updates = word.parse::<u32>().ok()?;
        return Some(Work::Start { updates });
    }
    Some(Work::InFile {
        filing: filing_of(name)?,
        path: word,
    })
}

impl<'a> Work<'a> {
    /// The work that these words name, if they name one.
    pub fn of(words: &'a [Name]) -> Option<Work<'a>> {
        let (name, rest) = words.split_first()?;
        let name = name.as_str();
        match rest {
            [word] => single_of(name, word),
            _ if name == "volume" => volume_of(rest),
            _ if name == "append-file" => append_of(rest),
            _ => task_of(name, rest),
        }
    }

    /// Does it, and gives what it made or read.
    pub fn run<R: Files<File = File>>(self, rt: &R, alloc: Global) -> Result<Done> {
        match self {
            Work::Inside { task, size, times } => Ok(Done {
                pieces: u64::from(times),
                bytes: task.run(alloc, size, times)?,
            }),
            Work::InFile { filing, path } => done_in_file(rt, alloc, filing, path),
            Work::Start { updates } => start_from(alloc, updates),
            Work::Volume {
                errand,
                files,
                times,
            } => run_errands(alloc, errand, files, times),
        }
    }
}
