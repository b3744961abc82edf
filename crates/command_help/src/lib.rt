//! What helps a person with the words of a command line: how commands are called, what is wrong with words that were refused, which
//! options may come from the environment, whose a store is, and which one is checked. Nothing here is part of what the program promises for
//! its words: the texts go to standard error, options from the environment are added before `run` sees the words, a node on another's store
//! isn't started, and neither is the check of a store that can't be opened.
#![tactic(auto)]

mod faults;
mod repeated;
mod stores;
mod values;

use clap::Command;
use clap::error::ErrorKind;
use command_words::program;
use faults::fault_in;
pub use repeated::{Repeated, options_missing};
use std::alloc::{AllocError, Global};
pub use stores::{StoreOwner, StoreUse, store_use};
use xt_base::{Name, OutOfMemory, Words};

/// The first line of `xtfs --version`.
const VERSION: &str =
    "xtfs, not released yet: frames of version 2, journals of layout 1 (docs/formats.md)\n";

/// The help of one command.
fn command_help(alloc: Global, command: &Command<'_>) -> Result<String, OutOfMemory> {
    let mut alone = Command::new(alloc, command.get_name()).disable_help_flag(true);
    if let Some(about) = command.get_about() {
        alone = alone.about(about);
    }
    for arg in command.get_arguments() {
        alone = alone.arg(arg.clone()?)?;
    }
    alone.render_long_help()
}

/// The help of the command with this name, or of all commands if there is none.
fn help_on(alloc: Global, name: &str) -> Result<String, OutOfMemory> {
    let mut all = program(alloc, false)?;
    match all.find_subcommand(name) {
        Some(command) => command_help(alloc, command),
        None => all.render_long_help(),
    }
}

/// Whether the word asks for help, at any place.
fn asks_for_help(word: &str) -> bool {
    word == "--help" || word == "-h"
}

/// What is wrong with words that `clap` has matched to a command.
fn refused(alloc: Global, words: &[&str]) -> Result<String, OutOfMemory> {
    let all = program(alloc, false)?;
    let fault = match all.try_get_matches_from(words) {
        Ok(found) => match found.subcommand() {
            Some((name, inner)) => fault_in(alloc, name, inner)?,
            None => String::new(alloc),
        },
        Err(error) => {
            if error.kind() == ErrorKind::OutOfMemory {
                return Err(AllocError);
            }
            format!(in alloc; "{error}")?
        }
    };
    Ok(fault)
}

/// The words as texts.
fn texts_of(alloc: Global, words: &[Name]) -> Result<Vec<&str>, OutOfMemory> {
    let mut texts = Vec::new(alloc);
    for word in words {
        texts.push(word.as_str())?;
    }
    Ok(texts)
}

/// What a person reads after words that ask for nothing the program does: the help that they ask for, or what is wrong
/// with which of them, and then how the command is called.
pub fn told(alloc: Global, words: &Words) -> Result<String, OutOfMemory> {
    let texts = texts_of(alloc, words.as_slice())?;
    let Some(first) = texts.first() else {
        return help_on(alloc, "");
    };
    if *first == "--version" || *first == "-V" {
        return String::from_str(alloc, VERSION);
    }
    if *first == "help" {
        return match texts.get(1) {
            Some(name) => help_on(alloc, name),
            None => help_on(alloc, ""),
        };
    }
    if texts.iter().any(|word| asks_for_help(word)) {
        return help_on(alloc, first);
    }
    let mut text = refused(alloc, texts.as_slice())?;
    text.push_str("\n")?;
    text.push_str(help_on(alloc, first)?.as_str())?;
    Ok(text)
}
