ghost use Rattle.std.specs.Prelude.{◌≡◌, ◌<◌, ◌^◌};
ghost use Rattle.journal_moves.specs.Gathering.{size_in};

use crate::extent::Extent;
use xt_base::Octets;

/// A payload of a new area: these bytes, and after them bytes that the disk already has in the area that counts.
#[derive(Drop)]
pub struct Gathered {
    pub front: Octets,
    pub rest: Extent,
}

impl Gathered {
    /// How many bytes it has.
    pub(crate) fn len(&self) -> usize
        requires { size_in self.now < 2 ^ 32 }
        ensures { result ≡ size_in self.now }
    {
        self.front.as_slice().len() + self.rest.len
    }
}
