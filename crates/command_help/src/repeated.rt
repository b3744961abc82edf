//! Options that every command of a site repeats: those that the words lack may be set in the environment.

use command_words::program;
use std::alloc::Global;
use xt_base::{OutOfMemory, Words};

/// An option, and the variable of the environment that may set it.
#[derive(Clone, Copy)]
pub struct Repeated {
    pub option: &'static str,
    pub variable: &'static str,
}

/// Whether the words have this option.
fn has_option(words: &Words, option: &str) -> bool {
    words.as_slice().iter().any(|word| {
        let word = word.as_str();
        word.strip_prefix(option)
            .is_some_and(|rest| rest.is_empty() || rest.starts_with('='))
    })
}

/// The options that the command of these words takes, that the words lack, and that the environment may set.
pub fn options_missing(alloc: Global, words: &Words) -> Result<Vec<Repeated>, OutOfMemory> {
    let rows = [
        ("dir", "--dir", "XTFS_DIR"),
        ("key", "--key", "XTFS_KEY"),
        ("lease", "--lease", "XTFS_LEASE"),
        ("drift", "--drift", "XTFS_DRIFT"),
        ("id", "--id", "XTFS_ID"),
    ];
    let mut missing = Vec::new(alloc);
    let Some(first) = words.as_slice().first() else {
        return Ok(missing);
    };
    let all = program(alloc, false)?;
    let Some(command) = all.find_subcommand(first.as_str()) else {
        return Ok(missing);
    };
    for (id, option, variable) in rows.iter() {
        let takes = command
            .get_arguments()
            .iter()
            .any(|arg| arg.get_id() == *id);
        if takes && !has_option(words, option) {
            missing.push(Repeated { option, variable })?;
        }
    }
    Ok(missing)
}
