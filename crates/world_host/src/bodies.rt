ghost use Rattle.std.specs.Prelude.{◌≡◌, refl};

use object_versions::{Bodies, BodyErr};
use std::alloc::Global;
use world_hull::Hull;
use xt_base::{FileId, NodeId, Octets, Stamp};

/// A node's bodies in a hull, which never fails to read them.
#[derive(Drop)]
pub struct HullBodies<'a, H: Hull> {
    pub hull: &'a H,
    pub node: NodeId,
}

impl<H: Hull> Bodies for HullBodies<'_, H> {
    ghost agrees = { λ bodies records. records ≡ H.kept bodies.hull.now bodies.node.0 };

    ghost some = { λ bodies. (H.kept bodies.hull.now bodies.node.0, refl) };

    ghost fault_count = { λ _. 0 };

    fn body(
        &mut self,
        alloc: Global,
        file: &FileId,
        object: u64,
        version: &Stamp,
    ) -> Result<Octets, BodyErr> {
        self.hull.body(alloc, self.node, file, object, version)
    }
}
