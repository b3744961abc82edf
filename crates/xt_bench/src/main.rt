//! `xt_bench`: does a named piece of work so many times, and prints one line of what it did, for scripts to time.
//!
//! The works are `encode` and `decode` of frames, `cut` and `join` of parts, `append` to a journal in memory,
//! `append-file` to one in a file, `load` of one from a file, `records` of a store in a file and `compact` of it, `start` from the records
//! of a file's updates, `tag` of messages, `registry` for requests by number, and `volume` for calls on a directory of so many files. It is no part
//! of the system, and promises no more than that it does each round in full, or says which call failed.
#![tactic(auto)]

mod compactions;
mod done;
mod frames;
mod journals;
mod parts;
mod services;
mod starts;
mod volumes;
mod work;

use anyhow::{Context, Result};
use done::Done;
use std::alloc::Global;
use std::env;
use work::Work;
use xt_base::{Name, Words};

/// Prints the words and what was made or read.
fn tell(rt: &impl Print, words: &[Name], done: Done) -> Result<()> {
    for word in words {
        let word = word.as_str();
        print!(rt; "{word} ")?;
    }
    let Done { pieces, bytes } = done;
    println!(rt; "made or read {pieces} pieces of {bytes} bytes in all")?;
    Ok(())
}

/// The words of the command line after the program's name.
fn words_of(rt: &HostRuntime, alloc: Global) -> Result<Words> {
    let mut args = env::args(rt)?;
    let _name = args.next();
    let mut words = Words::new(alloc);
    for word in args {
        words.push(alloc, word.as_str())?;
    }
    Ok(words)
}

fn main(rt: HostRuntime) -> Result<()> {
    let alloc = rt.alloc();
    let words = words_of(&rt, alloc)?;
    let words = words.as_slice();
    let work = Work::of(words).context(
        "usage: xt_bench encode|decode|cut|join|append|tag SIZE N | registry NODES N | append-file SIZE N PATH | load PATH | records PATH | compact PATH | start N | volume CALL FILES N",
    )?;
    tell(&rt, words, work.run(&rt, alloc)?)
}
