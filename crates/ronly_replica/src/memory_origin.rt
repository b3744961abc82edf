ghost use Rattle.std.specs.Prelude.{◌<◌, ◌≤◌, length};

use std::alloc::Global;
use xt_base::{CallList, Octets, Seq};

/// The whole content of a file at each count of its writes, from 0.
pub type Contents = Seq<Octets>;

/// A file in memory at each of its counts, which is fetched from at one of them. The fetches that are named, from 1, fail as a link does.
#[derive(Drop)]
pub struct MemoryOrigin {
    pub(crate) alloc: Global,
    pub(crate) contents: Contents,
    pub(crate) stripe: u32,
    pub(crate) at: u64,
    pub(crate) failing: CallList,
    pub(crate) calls: u64,
    pub(crate) faults: u64,
    ghost inside: { at < length contents },
    ghost some: { 1 ≤ stripe },
    ghost most: { stripe ≤ 131072 },
}

impl MemoryOrigin {
    ghost use Rattle.std.specs.Prelude.{◌≡◌, ◌<◌, length};
    ghost use Rattle.xt_messages.specs.Limits.{FitsStripe};

    /// A file with these contents, with objects of `stripe` bytes, at this count, which is one of theirs.
    pub fn new(
        alloc: Global,
        contents: Contents,
        stripe: u32,
        at: u64,
        failing: CallList,
    ) -> MemoryOrigin
        requires stripe { FitsStripe stripe }
        requires inside { at < length contents }
        ensures contents { result.contents ≡ contents }
        ensures place { (result.stripe ≡ stripe) × (result.at ≡ at) }
        ensures plan { (result.failing ≡ failing) × (result.calls ≡ 0) }
        ensures sound { result.faults ≡ 0 }
    {
        MemoryOrigin {
            alloc,
            contents,
            stripe,
            at,
            failing,
            calls: 0,
            faults: 0,
        }
    }

    /// From now on it is fetched from at this count, which is one of its contents'.
    pub fn set(&mut self, at: u64)
        requires { at < length self.old.contents }
        ensures place { self.new.at ≡ at }
        ensures same { (self.new.contents ≡ self.old.contents)
            × (self.new.stripe ≡ self.old.stripe) }
        ensures sound { (self.new.calls ≡ self.old.calls) × (self.new.faults ≡ self.old.faults) }
    {
        self.at = at;
    }
}
