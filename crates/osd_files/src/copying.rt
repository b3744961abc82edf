ghost use Rattle.std.specs.Prelude.{◌≡◌, IfOk, OnOk, OnErr};
ghost use Rattle.osd_files.specs.Views.{shown};

use crate::joining::{both, put};
use crate::lead::Lead;
use crate::parts::Parts;
use osd_requests::OpenAsks;
use peer_searches::Searches;
use replica_state::Replica;
use xt_base::{Copies, OutOfMemory};
use xt_messages::HeldSet;

/// The bodies that were staged, once more.
fn copy_staged(staged: &HeldSet) -> Result<HeldSet, OutOfMemory>
    ensures { IfOk result (λ made. made ≡ staged.now) }
{
    Ok(HeldSet {
        versions: staged.versions.clone()?,
    })
}

/// What is kept of the file, and the bodies that were staged, once more.
fn copy_kept(file: &Parts) -> Result<(Replica, HeldSet), OutOfMemory>
    ensures { IfOk result (λ pair. (pair.0 ≡ file.now.replica) × (pair.1 ≡ file.now.staged)) }
{
    let replica = file.replica.copy(file.alloc)?;
    both(replica, copy_staged(&file.staged))
}

/// The primary and the open asks of the file, once more.
fn copy_led(file: &Parts) -> Result<(OpenAsks, Lead), OutOfMemory>
    ensures { IfOk result (λ pair. (pair.0 ≡ file.now.asks) × (pair.1 ≡ file.now.lead)) }
{
    let asks = file.asks.copy(file.alloc)?;
    both(asks, file.lead.copy(file.alloc))
}

/// The parts of a file once more. Its searches for what peers lack begin anew.
pub fn copy_of(file: &Parts) -> Result<Parts, OutOfMemory>
    ensures { IfOk result (λ made. shown made ≡ shown file.now) }
{
    let kept = copy_kept(file)?;
    let ((replica, staged), (asks, lead)) = both(kept, copy_led(file))?;
    Ok(Parts {
        alloc: file.alloc,
        awake: file.awake,
        replica,
        staged,
        acceptor: file.acceptor,
        lease: file.lease.same(),
        lead,
        searches: Searches::new(file.alloc),
        last_end: file.last_end,
        used: file.used,
        asks,
    })
}

/// What a step of the file gave. Where it failed, the file is what it was before.
pub fn kept_or_back<T, E>(file: &mut Parts, before: Parts, given: Result<T, E>) -> Result<T, E>
    ensures given { result ≡ given }
    ensures kept { OnOk given (file.new ≡ file.old) }
    ensures back { OnErr given (file.new ≡ before) }
{
    match given {
        Ok(turned) => {
            drop(before);
            Ok(turned)
        }
        Err(error) => {
            put(file, before);
            Err(error)
        }
    }
}
