//! The store that words name: whose it is, whether it is there, and why it can't be used.

use command_help::{StoreOwner, StoreUse, store_use};
use std::fs;
use std::fs::{File, OpenOptions, TryLockError};
use std::io::{self, ErrorKind};
use xt_base::Words;

/// The status of a node that is started on another node's store: that of one on a file that is no store.
const ANOTHERS: u8 = 13;

/// The status of the check of a store that can't be opened: that of a disk that has failed.
const UNOPENED: u8 = 5;

/// Whether the file beside a store says that it is another node's. A store without one gets one.
fn is_anothers(rt: &HostRuntime, owner: &StoreOwner) -> io::Result<bool> {
    match fs::read_to_string(rt, owner.path.as_str()) {
        Ok(line) => {
            let other = line.as_str() != owner.line.as_str();
            if other {
                eprint!(rt;
                    "xtfs: this store is another node's: {} says {}, and these words are those of {}",
                    owner.path,
                    line.trim_end(),
                    owner.line,
                )?;
            }
            Ok(other)
        }
        Err(error) => {
            if error.kind() == ErrorKind::NotFound {
                // If it can't be written, the store can't be opened either, and `run` says so.
                let _written = fs::write(rt, owner.path.as_str(), owner.line.as_str());
            }
            Ok(false)
        }
    }
}

/// Whether there is no file at this path that can be read. A disk would make one.
fn is_unopened(rt: &HostRuntime, path: &str) -> io::Result<bool> {
    match File::open(rt, path) {
        Ok(_) => Ok(false),
        Err(error) => {
            eprintln!(rt; "xtfs: {path}: {error}")?;
            Ok(true)
        }
    }
}

/// The status with which these words end before anything is done: those of a node on another node's store, or of the check of a store that
/// can't be opened.
pub fn ended_early(rt: &HostRuntime, words: &Words) -> io::Result<Option<u8>> {
    let (ends, status) = match store_use(rt.alloc(), words)? {
        StoreUse::Owned(owner) => (is_anothers(rt, &owner)?, ANOTHERS),
        StoreUse::Checked(path) => (is_unopened(rt, path.as_str())?, UNOPENED),
        StoreUse::Unused => (false, 0),
    };
    Ok(if ends { Some(status) } else { None })
}

/// Tells why the disk of a store may have failed, as far as a look at its file shows it. The disk no longer has the file.
pub fn tell_store(rt: &HostRuntime, path: &str) -> io::Result<()> {
    match OpenOptions::new().read(true).write(true).open(rt, path) {
        Err(error) => eprintln!(rt; "xtfs: cannot open the store {path}: {error}"),
        Ok(file) => match file.try_lock() {
            Err(TryLockError::WouldBlock) => {
                eprintln!(rt; "xtfs: another process has the store {path}")
            }
            Err(TryLockError::Error(error)) => {
                eprintln!(rt; "xtfs: cannot lock the store {path}: {error}")
            }
            Ok(()) => eprintln!(rt;
                "xtfs: the disk of the store {path} failed: look at the system's log"
            ),
        },
    }
}
