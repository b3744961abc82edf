//! The owner of a store, which a small file beside it names; and the store that is checked.

use crate::texts_of;
use clap::ArgMatches;
use clap::error::ErrorKind;
use command_words::program;
use std::alloc::{AllocError, Global};
use xt_base::{OutOfMemory, Words};

/// The file beside the store of a node, and what it says: the node's role and number, as a line.
#[derive(Drop)]
pub struct StoreOwner {
    pub path: String,
    pub line: String,
}

/// The role and number of the node that this command starts, as a line; none for a command that starts no node.
fn line_of(
    alloc: Global,
    name: &str,
    found: &ArgMatches<'_>,
) -> Result<Option<String>, OutOfMemory> {
    if name == "dir" {
        Ok(Some(String::from_str(alloc, "dir 900\n")?))
    } else if name == "mrc" {
        Ok(Some(String::from_str(alloc, "mrc 901\n")?))
    } else if name == "osd" {
        match found.get_str("id") {
            Some(id) => Ok(Some(format!(in alloc; "osd {id}\n")?)),
            None => Ok(None),
        }
    } else {
        Ok(None)
    }
}

/// The owner of the store that the command uses.
fn owner_in(
    alloc: Global,
    name: &str,
    found: &ArgMatches<'_>,
) -> Result<Option<StoreOwner>, OutOfMemory> {
    let Some(store) = found.get_str("store") else {
        return Ok(None);
    };
    match line_of(alloc, name, found)? {
        Some(line) => {
            let path = format!(in alloc; "{store}.node")?;
            Ok(Some(StoreOwner { path, line }))
        }
        None => Ok(None),
    }
}

/// The path of the store that the command checks; none for a command that checks none.
fn checked_in(
    alloc: Global,
    name: &str,
    found: &ArgMatches<'_>,
) -> Result<Option<String>, OutOfMemory> {
    match found.get_str("store") {
        Some(store) if name == "check" => Ok(Some(String::from_str(alloc, store)?)),
        _ => Ok(None),
    }
}

/// What these words do to a store.
#[derive(Drop)]
pub enum StoreUse {
    /// They start a node, whose store has this file beside it.
    Owned(StoreOwner),
    /// They check the store at this path.
    Checked(String),
    /// Neither.
    Unused,
}

/// What a command does to a store.
fn use_in(alloc: Global, name: &str, found: &ArgMatches<'_>) -> Result<StoreUse, OutOfMemory> {
    if let Some(path) = checked_in(alloc, name, found)? {
        return Ok(StoreUse::Checked(path));
    }
    match owner_in(alloc, name, found)? {
        Some(owner) => Ok(StoreUse::Owned(owner)),
        None => Ok(StoreUse::Unused),
    }
}

/// What these words do to a store.
pub fn store_use(alloc: Global, words: &Words) -> Result<StoreUse, OutOfMemory> {
    let texts = texts_of(alloc, words.as_slice())?;
    let all = program(alloc, false)?;
    match all.try_get_matches_from(texts.as_slice()) {
        Ok(found) => match found.subcommand() {
            Some((name, inner)) => use_in(alloc, name, inner),
            None => Ok(StoreUse::Unused),
        },
        Err(error) => {
            if error.kind() == ErrorKind::OutOfMemory {
                Err(AllocError)
            } else {
                Ok(StoreUse::Unused)
            }
        }
    }
}
