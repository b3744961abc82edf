//! The values that an argument may have, as a person reads them.

use command_words::{is_key, mode_of, number_in};
use std::alloc::Global;
use xt_base::OutOfMemory;

/// The values that an argument may have.
#[derive(Clone, Copy)]
pub(crate) enum Values {
    Number { least: u64, most: u64 },
    Key,
    Mode,
    Address,
    Text,
}

/// A number in this range.
fn number(least: u64, most: u64) -> Values {
    Values::Number { least, most }
}

/// The values that an argument may have, by the name of its command and its own.
pub(crate) fn values_of(command: &str, id: &str) -> Values {
    if command == "make" && id == "size" {
        return number(0, 4096);
    }
    let rows = [
        ("lease", number(1, (1 << 40) - 1)),
        ("drift", number(1, (1 << 40) - 1)),
        ("turns", number(1, (1 << 62) - 1)),
        ("limit", number(1, 1 << 30)),
        ("tries", number(1, (1 << 32) - 1)),
        ("id", number(0, (1 << 32) - 1)),
        ("node", number(1, (1 << 32) - 1)),
        ("user", number(0, (1 << 32) - 1)),
        ("group", number(0, (1 << 32) - 1)),
        ("kind", number(1, 2)),
        ("replicas", number(1, 9)),
        ("striped", number(1, 9)),
        ("stripe", number(1024, 131_072)),
        ("pattern", number(0, 1 << 48)),
        ("at", number(0, 1 << 48)),
        ("len", number(0, 1 << 48)),
        ("size", number(0, 1 << 48)),
        ("osds", number(1, 50)),
        ("port", number(1, 65_000)),
        ("number", number(0, u64::MAX)),
        ("key", Values::Key),
        ("mode", Values::Mode),
        ("addr", Values::Address),
        ("dir", Values::Address),
        ("listen", Values::Address),
    ];
    for (name, values) in rows.iter() {
        if *name == id {
            return *values;
        }
    }
    Values::Text
}

/// Whether the text is such a value.
pub(crate) fn fits(values: Values, text: &str) -> bool {
    match values {
        Values::Number { least, most } => number_in(text, least, most).is_some(),
        Values::Key => is_key(text.as_bytes()) && text.len() % 2 == 0,
        Values::Mode => mode_of(text).is_some(),
        Values::Address => text.len() <= 64,
        Values::Text => text.len() <= 65_535,
    }
}

/// The description of such a value.
pub(crate) fn said_of(alloc: Global, values: Values) -> Result<String, OutOfMemory> {
    match values {
        Values::Number { least, most } => { format!(in alloc; "a number from {least} to {most}") }
        Values::Key => String::from_str(alloc, "1 to 64 bytes in lower-case hex"),
        Values::Mode => String::from_str(alloc, "three octal digits"),
        Values::Address => String::from_str(alloc, "HOST:PORT, of at most 64 bytes"),
        Values::Text => String::from_str(alloc, "a text of at most 65,535 bytes"),
    }
}
