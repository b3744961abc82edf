//! Which OSDs get a new file: so many of those that there are, in order of their ids, going round from a place that
//! the file's number gives.
//!
//! Files with one number after the other so begin at one OSD after the other. `pick` is one function of the set of
//! OSDs, whatever order they are given in.
#![tactic(auto)]

ghost use Rattle.std.specs.Prelude.{◌≡◌, ◌<◌, ◌≤◌, ◌↔◌, length, IsTrue, IfOk, IfErr, OnOk, Err};
ghost use Rattle.xt_base.specs.MemberList.{are_distinct};
ghost use Rattle.replica_lists.specs.Picking.{picked};
ghost use Rattle.replica_lists.specs.Faults.{Explains};
ghost use Rattle.replica_lists.specs.declared.PickErr.TheVariants.{TooFew, OutOfMemory};

use std::alloc::{AllocError, Global};
use thiserror::Error;
use xt_base::{Members, NodeId};

/// Why no OSDs were picked.
#[derive(Clone, Copy, Debug, Error)]
pub enum PickErr {
    #[error("no memory was left")]
    OutOfMemory,
    /// So many OSDs are there, fewer than are wanted.
    #[error("only {have} OSDs are there")]
    TooFew { have: u8 },
}

impl From<AllocError> for PickErr {
    ghost from_gives = { λ _ e. e ≡ OutOfMemory };

    fn from(_e: AllocError) -> PickErr {
        PickErr::OutOfMemory
    }
}

/// The `n` OSDs, from 1 to 9, of the file with this number. The OSDs' ids are different.
pub fn pick(alloc: Global, osds: &[NodeId], file: u64, n: u8) -> Result<Members, PickErr>
    requires some { 1 ≤ n }
    requires few { n ≤ 9 }
    requires different { IsTrue (are_distinct osds.now) }
    ensures too_few { (result ≡ Err (TooFew (length osds.now))) ↔ (length osds.now < n) }
    ensures why { IfErr result (λ why. Explains osds.now n why) }
    ensures value { IfOk result (λ members. members ≡ picked osds.now file n) }
    ensures enough { OnOk result (n ≤ length osds.now) }
{
    let wanted = n as usize;
    if osds.len() < wanted {
        return Err(PickErr::TooFew {
            have: osds.len() as u8,
        });
    }
    let mut sorted = Vec::from_slice(alloc, osds)?;
    sorted.sort_unstable();
    let place = (file % sorted.len() as u64) as usize;
    sorted.rotate_left(place);
    match Members::new(&sorted[..wanted]) {
        Ok(members) => Ok(members),
        Err(_) => unreachable!(),
    }
}
