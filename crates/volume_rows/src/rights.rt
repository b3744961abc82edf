ghost use Rattle.std.specs.Prelude.{◌≡◌, ◌<◌, ◌≤◌, Some};
ghost use Rattle.volume_rows.specs.Rights.{scale_of, allows, is_directory, passes};

use crate::{Asker, Content, Entry};
use xt_messages::MetaRefusal;

/// What a bit of a mode allows.
pub const READ: u16 = 4;

pub const WRITE: u16 = 2;

pub const SEARCH: u16 = 1;

/// The rules of Forbidden.
pub const NO_SEARCH: MetaRefusal = MetaRefusal::Forbidden { rule: 1 };

pub const NO_WRITE: MetaRefusal = MetaRefusal::Forbidden { rule: 2 };

pub const NO_READ: MetaRefusal = MetaRefusal::Forbidden { rule: 3 };

pub const NOT_OWNER: MetaRefusal = MetaRefusal::Forbidden { rule: 4 };

/// Whether an entry is a directory.
pub fn is_directory(entry: &Entry) -> bool
    ensures { result ≡ is_directory entry.now.content }
{
    match entry.content {
        Content::Directory => true,
        Content::File { .. } => false,
    }
}

/// Which three bits of an entry's mode count for an asker: those of the owner, of the owner's group or of all others.
fn scale(who: Asker, entry: &Entry) -> u16
    ensures scale { result ≡ scale_of who entry.now }
    ensures least { 0 < result }
    ensures most { result ≤ 64 }
{
    if who.user == entry.owner {
        64
    } else if who.group == entry.group {
        8
    } else {
        1
    }
}

/// Whether an entry's mode allows an asker something.
pub fn allows(who: Asker, right: u16, entry: &Entry) -> bool
    requires some { 0 < right }
    requires one { right ≤ 4 }
    ensures { result ≡ allows who right entry.now }
{
    entry.mode / (scale(who, entry) * right) % 2 == 1
}

/// Why an ancestor turns an asker away, if it does: it is a file, or may not be searched.
pub fn passes(who: Asker, entry: Entry) -> Option<MetaRefusal>
    ensures { result ≡ passes who (Some entry) }
{
    if !is_directory(&entry) {
        Some(MetaRefusal::NotDir)
    } else if !allows(who, SEARCH, &entry) {
        Some(NO_SEARCH)
    } else {
        None
    }
}
