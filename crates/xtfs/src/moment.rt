//! The time in a line of standard error.

use jiff::Timestamp;
use std::fmt::Display;
use std::io;
use std::time::{SystemTime, UNIX_EPOCH};

/// The time by this machine's clock, to the second; none if it can't be read, or is before 1970 or after 9999.
fn moment(rt: &HostRuntime) -> Option<Timestamp> {
    let Ok(now) = SystemTime::now(rt) else {
        return None;
    };
    let Ok(since) = now.duration_since(UNIX_EPOCH) else {
        return None;
    };
    let Ok(seconds) = i64::try_from(since.as_secs()) else {
        return None;
    };
    Timestamp::from_second(seconds).ok()
}

/// Writes a line to standard error, after the time, as `2026-01-31T12:00:00Z xtfs: TEXT`.
pub fn log<D: Display + Drop>(rt: &HostRuntime, text: D) -> io::Result<()> {
    match moment(rt) {
        Some(now) => eprintln!(rt; "{now} xtfs: {text}"),
        None => eprintln!(rt; "xtfs: {text}"),
    }
}
