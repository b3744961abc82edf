use std::alloc::AllocFailed;
use xt_base::OutOfMemory;
use xt_messages::{Limited, Rule};

/// Why a line wasn't done.
#[derive(Clone, Copy)]
pub enum WorldErr {
    /// The line breaks this rule, and the world is unchanged.
    Illegal { rule: Rule },
    /// A count would pass its limit.
    Limit { what: Limited, limit: u64 },
    /// A record of `need` bytes doesn't fit where `limit` bytes may be kept.
    Full { need: u64, limit: u64 },
    OutOfMemory,
}

impl From<OutOfMemory> for WorldErr {
    ghost use Rattle.std.specs.Prelude.{◌≡◌};
    ghost use Rattle.world_hull.specs.declared.errors.WorldErr.TheVariants as error;

    ghost from_gives = { λ _ made. made ≡ error.OutOfMemory };

    fn from(_: OutOfMemory) -> WorldErr {
        WorldErr::OutOfMemory
    }
}

impl<T: Drop> From<AllocFailed<T>> for WorldErr {
    ghost use Rattle.std.specs.Prelude.{◌≡◌};
    ghost use Rattle.world_hull.specs.declared.errors.WorldErr.TheVariants as error;

    ghost from_gives = { λ _ made. made ≡ error.OutOfMemory };

    fn from(_: AllocFailed<T>) -> WorldErr {
        WorldErr::OutOfMemory
    }
}
