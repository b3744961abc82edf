//! Messages travel in parts: `cut` makes the parts of a message, a `PartBuffer` makes them one at a time, and a `Joiner` joins parts to
//! messages again.
//!
//! A part is a header of 27 bytes and up to 32,768 bytes of its message. Parts can arrive in any order, again and
//! again, mixed with those of other messages, or not at all. A joiner gives a message exactly when every index of
//! it has been taken, never mixes two messages, and keeps at most 64 that are half joined: of more it drops the
//! oldest. `specs/Part.antt` has the bytes of a part, and `specs/Joining.antt` what taking one does.
#![tactic(auto)]

mod cutting;
mod joining;
mod laws;
mod part;

pub use cutting::{CutErr, PartBuffer, cut};
pub use joining::{JoinErr, Joiner, Whole};
pub use laws::{
    forgets_messages, joins_in_any_order, joins_in_order, never_mixes_messages, reads_the_layout,
};
pub use part::{Header, part_count};

/// The layout of a part that is read and written here.
pub const VERSION: u8 = 1;

/// The bytes of a part before its payload.
pub const HEADER: usize = 27;

/// The bytes of a message that each of its parts but the last carries.
pub const PAYLOAD: usize = 32_768;

/// How many messages may be half joined.
pub const HALF_JOINED: usize = 64;
