//! `xtfs`: replays a schedule, judges a trace, serves a node, checks a store, carries out a client command, or does all that a cluster is,
//! as the words of the command line ask.
//!
//! `main` makes the adapters over the standard streams, a socket, a file, the clock of this machine and its processes, and ends with the
//! status of `xtfs_run::run`, which does all that the program does. A node isn't started on a store that is another node's by the file
//! beside it, a store that isn't there isn't made in order to be checked, and words with an address that isn't one are refused.
//!
//! Standard error is for people: which word is wrong and why, and how its command is called; which call of the system failed; when a node is
//! ready and when it ends; and what the status means and what helps. No status and no byte of the standard output depends on it.
#![tactic(auto)]

mod addresses;
mod failed_calls;
mod hearing;
mod hints;
mod moment;
mod progress;
mod stores;
mod telling;

use asked_jobs::asked_job;
use command_help::{options_missing, told};
use command_words::Job;
use disk_model::FileDisk;
use failed_calls::Told;
use hearing::Hearing;
use node_links::{ChildSpawner, StdinSource, StdoutSink, SystemClock, UdpLink};
use progress::{Counted, Progress};
use std::alloc::Global;
use std::env;
use std::io::{self, ErrorKind};
use std::process::ExitCode;
use stores::ended_early;
use telling::{is_unreachable, ready_text, shows_progress, tell_end, tell_unbound};
use xt_base::{OutOfMemory, Words};
use xt_messages::Status;
use xtfs_run::run;

/// The length of the piece that is freed at the start, in bytes.
const FREED: usize = 16 << 20;

/// Has the C library keep what is freed, up to twice that length, for the messages and records of later steps. It gives each piece back to
/// the system that is larger than the largest one freed so far (128 KiB at first), and gets it again page by page. No page of the piece
/// that is freed here is ever used.
fn keep_freed(alloc: Global) {
    let _ = Vec::<u8>::with_capacity(alloc, FREED);
}

/// Writes to standard error what is to be read about words that were refused, or that ask for help.
fn tell_words(rt: &HostRuntime, words: &Words) -> io::Result<()> {
    eprint!(rt; "{}", told(rt.alloc(), words)?)
}

/// The words that ask for the help of these words' command.
fn help_words(alloc: Global, words: &Words) -> Result<Words, OutOfMemory> {
    let mut help = Words::new(alloc);
    if let Some(command) = words.as_slice().first() {
        help.push(alloc, command.as_str())?;
        help.push(alloc, "--help")?;
    }
    Ok(help)
}

/// Writes to standard error how the command of these words is called.
fn tell_call(rt: &HostRuntime, words: &Words) -> io::Result<()> {
    let help = help_words(rt.alloc(), words)?;
    tell_words(rt, &help)
}

/// The words with the options that the environment has and they don't.
fn with_environment(rt: &HostRuntime, mut words: Words) -> io::Result<Words> {
    let alloc = rt.alloc();
    for missing in options_missing(alloc, &words)?.iter() {
        if let Ok(value) = env::var(rt, missing.variable) {
            words.push(alloc, missing.option)?;
            words.push(alloc, value.as_str())?;
        }
    }
    Ok(words)
}

/// How the program was called: what it is called by, and the words after that.
#[derive(Drop)]
struct CommandLine {
    program: String,
    words: Words,
}

/// Reads the command line. If one of its words isn't UTF-8 there are none, which ask for nothing either. An error means that memory ran
/// out.
fn read_command_line(rt: &HostRuntime) -> io::Result<CommandLine> {
    let alloc = rt.alloc();
    let mut program = String::new(alloc);
    let mut words = Words::new(alloc);
    let mut args = match env::args(rt) {
        Ok(args) => args,
        Err(error) if error.kind() == ErrorKind::InvalidData => {
            return Ok(CommandLine { program, words });
        }
        Err(error) => return Err(error),
    };
    if let Some(name) = args.next() {
        program = name;
    }
    for word in args {
        words.push(alloc, word.as_str())?;
    }
    let words = with_environment(rt, words)?;
    Ok(CommandLine { program, words })
}

/// What is told of the node that these words start, once it is ready; none for another job, or without memory.
fn ready_of(alloc: Global, job: &Option<Job>) -> Option<String> {
    match job {
        Some(job) => match ready_text(alloc, job) {
            Ok(text) => text,
            Err(_) => None,
        },
        None => None,
    }
}

/// Whether a person sees how far the job is.
fn is_shown(rt: &HostRuntime, job: &Option<Job>) -> bool {
    match job {
        Some(job) => shows_progress(rt, job),
        None => false,
    }
}

/// Whether the words have an address to send to that is none. What is wrong with addresses is told.
fn is_refused(rt: &HostRuntime, job: &Option<Job>) -> bool {
    match job {
        Some(job) => {
            let refused = is_unreachable(rt, job);
            if !refused {
                let _written = tell_unbound(rt, job);
            }
            refused
        }
        None => false,
    }
}

/// Writes to standard error what is to be read at the end: about the words, if they were refused, or about the job.
fn tell(
    rt: &HostRuntime,
    words: &Words,
    is_refused: bool,
    job: &Option<Job>,
    status: &Status,
) -> io::Result<()> {
    if is_refused {
        return tell_call(rt, words);
    }
    if matches!(status, Status::Usage) {
        return tell_words(rt, words);
    }
    match job {
        Some(job) => tell_end(rt, job, status),
        None => Ok(()),
    }
}

fn main(rt: HostRuntime) -> ExitCode {
    let alloc = rt.alloc();
    keep_freed(alloc);
    let Ok(CommandLine { program, words }) = read_command_line(&rt) else {
        // Memory ran out before anything was done.
        return ExitCode::from(Status::OutOfMemory.code());
    };
    let Ok(job) = asked_job(alloc, &words) else {
        return ExitCode::from(Status::OutOfMemory.code());
    };
    let progress = Progress::new(&rt, is_shown(&rt, &job));
    let Ok(mut source) = StdinSource::new(alloc, Counted::new(&progress, rt.reader())) else {
        return ExitCode::from(Status::OutOfMemory.code());
    };
    let refused = is_refused(&rt, &job);
    // Words that ask for nothing make no file beside a store.
    if job.is_some()
        && !refused
        && let Ok(Some(status)) = ended_early(&rt, &words)
    {
        return ExitCode::from(status);
    }
    // Refused words ask for nothing.
    let none = Words::new(alloc);
    let asked = if refused { &none } else { &words };
    let ready = ready_of(alloc, &job);
    let output = Counted::new(&progress, io::writer(&rt));
    let mut sink = StdoutSink::new(Hearing::new(&rt, alloc, ready.as_deref(), output));
    let calls = Told::new(&rt);
    let mut link = UdpLink::new(alloc, calls);
    let mut clock = SystemClock::new(&rt);
    let disk = FileDisk::new(&rt);
    let mut spawner = ChildSpawner::new(alloc, calls, program);
    let (status, disk) = run(
        &rt,
        alloc,
        asked,
        &mut source,
        &mut sink,
        &mut link,
        disk,
        &mut clock,
        &mut spawner,
    );
    // With the disk its lock ends.
    drop(disk);
    progress.end();
    // The status is as it is, whether or not this can be written.
    let _written = tell(&rt, &words, refused, &job, &status);
    ExitCode::from(status.code())
}
