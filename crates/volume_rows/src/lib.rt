//! Volumes: directories and files under their paths, whose they are, and who may do what with them.
//!
//! The definitions have all volumes as one flat list of rows, each with its whole path, and say what comes of each request to
//! the metadata server, with each refusal in its order (`applied`, `granted`). Here are the types that they speak of, and calls
//! on the text of a path, a mode and a volume's name, which equal them.
#![tactic(auto)]

mod grants;
mod paths;
mod rights;

pub use grants::{volume_id, volume_of};
pub use paths::path_in;
pub use rights::{
    NO_READ, NO_SEARCH, NO_WRITE, NOT_OWNER, READ, SEARCH, WRITE, allows, is_directory, passes,
};
use xt_base::{FileId, SizeMark};
use xt_messages::Location;

/// What is kept of a file: its number, where its content is, the truncate epoch that was issued last, and its size as it was
/// reported.
#[derive(Clone, Copy)]
pub struct Stored {
    pub number: u64,
    pub location: Location,
    pub epoch: u64,
    pub mark: SizeMark,
}

/// What an entry is.
#[derive(Clone, Copy)]
pub enum Content {
    Directory,
    File { stored: Stored },
}

/// Who asks: a user, and the user's group.
#[derive(Clone, Copy)]
pub struct Asker {
    pub user: u32,
    pub group: u32,
}

/// What stands at a path: whose it is, who may do what with it, and what it is.
#[derive(Clone, Copy)]
pub struct Entry {
    pub owner: u32,
    pub group: u32,
    /// Nine bits: three for the owner, three for the group, three for all others; of each three the first is for reading,
    /// then writing, then searching.
    pub mode: u16,
    pub content: Content,
}

/// Where a new file's content goes.
#[derive(Clone, Copy)]
pub enum Picked {
    On { location: Location },
    /// So many OSDs are there, fewer than the file asks for.
    TooFew { have: u8 },
}

/// What is granted of a file: where its content is, the truncate epoch of the capability, and its size.
#[derive(Clone, Copy)]
pub struct Granting {
    pub file: FileId,
    pub location: Location,
    pub epoch: u64,
    pub mark: SizeMark,
}

ghost use Rattle.std.specs.Prelude.{◌≡◌, replicate};
ghost use Rattle.volume_rows.specs.declared.Picked.TheVariants.{TooFew as too_few};
ghost use Rattle.volume_rows.specs.Examples.{answers, two_osds, first_steps, first_answers, bad_paths, refused, long_paths, long_answers, renames, renames_answers};

/// What a few requests come to, one after the other.
pub fn examples()
    ensures first_ones { answers (too_few 0) first_steps ≡ first_answers }
    ensures bad_names { answers two_osds bad_paths ≡ replicate 8 refused }
    ensures long_names { answers two_osds long_paths ≡ long_answers }
    ensures moves { answers two_osds renames ≡ renames_answers }
{}
