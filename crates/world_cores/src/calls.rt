//! A client's calls in a world, and the files that a schedule declares for it.
ghost use Rattle.std.specs.Prelude.{◌≡◌, ◌<◌, ◌^◌, true, false, Some, IfOk, OnOk};
ghost use Rattle.client_rows.specs.Requests.{is_ready};
ghost use Rattle.client_rows.specs.Rows.{is_busy, may_repeat};
ghost use Rattle.world_spec.specs.Lines.{about_to_use, declared_capability, epoch_of};
ghost use Rattle.world_host.specs.Turns.{IsCoreStep, again_step, call_step};
ghost use Rattle.world_cores.specs.Cores.{core_of, IsOf};

use crate::roles::{Core, WORLD_KEY};
use capabilities::seal;
use client_core::{CallErr, Client};
use std::alloc::{AllocError, Global};
use world_spec::PlacedFile;
use xt_base::{COUNTS, FileId, OutOfMemory, SizeMark};
use xt_messages::{Call, Capability};
use xt_protocol::Turned;

/// The capability of a declared file under a truncate epoch: to read and write, for as long as there is. The world seals it.
fn declared_capability(
    alloc: Global,
    declared: &PlacedFile,
    epoch: u64,
) -> Result<Capability, OutOfMemory>
    ensures { IfOk result (λ capability. capability ≡ declared_capability declared.now epoch) }
{
    let mut capability = Capability {
        file: declared.file,
        mode: 2,
        expiry: COUNTS,
        epoch,
        location: declared.location,
        tag: [0; 32],
    };
    seal(alloc, &WORLD_KEY, &mut capability)?;
    Ok(capability)
}

/// The truncate epoch under which a call on a declared file is made: a truncation's own, else the client's for the file.
fn epoch_of(client: &Client, file: &FileId, call: &Call) -> u64
    ensures { result ≡ epoch_of client.now.state file.now call.now }
{
    match call {
        Call::Truncate { epoch, .. } => *epoch,
        _ => client.epoch(file),
    }
}

/// A client that is about to use a declared file is given the capability of it.
fn give(
    alloc: Global,
    client: &mut Client,
    call: &Call,
    declared: &PlacedFile,
) -> Result<(), OutOfMemory>
    ensures { OnOk result (client.new ≡
        record client.old
        { state = about_to_use client.old.state call.now (Some declared.now) }) }
{
    let epoch = epoch_of(client, &declared.file, call);
    client.raise(&declared.file, epoch)?;
    let capability = declared_capability(alloc, declared, epoch)?;
    client.hold(&capability, SizeMark { epoch: 0, size: 0 })
}

/// A client that is about to make a call is given the capability of the file that it uses, where a schedule declares it.
fn make_ready(
    alloc: Global,
    client: &mut Client,
    call: &Call,
    declared: Option<PlacedFile>,
) -> Result<(), OutOfMemory>
    ensures ready { OnOk result (client.new ≡
        record client.old { state = about_to_use client.old.state call.now declared }) }
    ensures made { OnOk result (client.new.state.made ≡ client.old.state.made) }
{
    match &declared {
        Some(declared) => give(alloc, client, call, declared),
        None => Ok(()),
    }
}

/// A client makes a call. What it uses is declared or held, and no call runs.
pub fn call(
    alloc: Global,
    client: &mut Client,
    clock: u64,
    call: &Call,
    declared: Option<PlacedFile>,
) -> Result<Turned, OutOfMemory>
    requires clock { clock < 2 ^ 62 }
    requires free { is_busy client.old.state.made ≡ false }
    requires held { is_ready (about_to_use client.old.state call.now declared).held call.now ≡
        true }
    ensures { IfOk result (λ turned.
        IsCoreStep core_of IsOf (λ host.
        call_step host clock client.old.state call.now declared)
        (Core.Client alloc client.old) (Core.Client alloc client.new) turned) }
{
    make_ready(alloc, client, call, declared)?;
    match client.call(clock, call) {
        Ok(turned) => Ok(turned),
        Err(CallErr::OutOfMemory) => Err(AllocError),
        Err(CallErr::Busy | CallErr::NoCall) => unreachable!(),
    }
}

/// A client makes its last call again, which ended as one that may be made again.
pub fn again(alloc: Global, client: &mut Client, clock: u64) -> Result<Turned, OutOfMemory>
    requires clock { clock < 2 ^ 62 }
    requires free { is_busy client.old.state.made ≡ false }
    requires may { may_repeat client.old.state.made ≡ true }
    ensures { IfOk result (λ turned.
        IsCoreStep core_of IsOf (λ host. again_step host clock client.old.state)
        (Core.Client alloc client.old) (Core.Client alloc client.new) turned) }
{
    match client.again(clock) {
        Ok(turned) => Ok(turned),
        Err(CallErr::OutOfMemory) => Err(AllocError),
        Err(CallErr::Busy | CallErr::NoCall) => unreachable!(),
    }
}
