ghost use Rattle.std.specs.Prelude.{◌≡◌, ◌≤◌, ◌<◌, ◌^◌, length, IfOk, None, true};
ghost use Rattle.capabilities.specs.Denials.{denial_of};
ghost use Rattle.server_rows.specs.Requests as rows;
ghost use Rattle.mrc_core.specs.Settling.{answer_of, settlement_of};

use capabilities::{CapErr, check, seal};
use server_rows::{LIFE, NewSizes};
use std::alloc::{AllocError, Global};
use truncate_epochs::merge;
use volume_rows::Granting;
use xt_base::{OutOfMemory, SizeMark};
use xt_messages::{Capability, MetaAnswer, MetaRefusal};

/// The `want` of a grant that is only to read.
pub const TO_READ: u8 = 1;

/// The `want` of a grant that is to truncate.
pub const TO_TRUNCATE: u8 = 3;

/// What a recorded request is answered: no list, so that it is copied without memory.
#[derive(Clone, Copy)]
pub enum Settled {
    Done,
    Refused {
        why: MetaRefusal,
    },
    Granted {
        capability: Capability,
        mark: SizeMark,
    },
}

/// What a grant or a report comes to: the sizes that it sets, if it does, and what is answered.
#[derive(Clone, Copy)]
pub struct Settling {
    pub sets: Option<NewSizes>,
    pub settled: Settled,
}

impl Settled {
    /// The answer as it is sent.
    pub fn answer(&self) -> MetaAnswer
        ensures { result ≡ answer_of self.now }
    {
        match self {
            Settled::Done => MetaAnswer::Done,
            Settled::Refused { why } => MetaAnswer::Refused { refusal: *why },
            Settled::Granted { capability, mark } => MetaAnswer::Granted {
                capability: *capability,
                mark: *mark,
            },
        }
    }

    /// Whether the request is done.
    pub fn is_done(&self) -> bool
        ensures { result ≡ rows.is_done (answer_of self.now) }
    {
        matches!(self, Settled::Done)
    }
}

/// A refusal, which sets nothing.
fn turned_away(why: MetaRefusal) -> Settling
    ensures { settlement_of result ≡ rows.turned_away why }
{
    Settling {
        sets: None,
        settled: Settled::Refused { why },
    }
}

/// The sealed capability of a grant.
fn capability_of(
    alloc: Global,
    key: &[u8],
    now: u64,
    want: u8,
    grant: &Granting,
) -> Result<Capability, OutOfMemory>
    requires some { 1 ≤ length key.now }
    requires short { length key.now ≤ 64 }
    requires clock { now < 2 ^ 62 }
    ensures { IfOk result (λ capability. capability ≡
        rows.capability_of key.now now want grant.now) }
{
    let mut capability = Capability {
        file: grant.file,
        mode: if want == TO_READ { 1 } else { 2 },
        expiry: now + LIFE,
        epoch: grant.epoch,
        location: grant.location,
        tag: [0; 32],
    };
    seal(alloc, key, &mut capability)?;
    Ok(capability)
}

/// The sizes that a grant sets: a truncation's epoch is the issued one from then on.
fn sizes_granted(want: u8, grant: &Granting) -> Option<NewSizes>
    ensures { result ≡ rows.sizes_granted want grant.now }
{
    if want != TO_TRUNCATE {
        return None;
    }
    Some(NewSizes {
        file: grant.file,
        epoch: grant.epoch,
        mark: grant.mark,
    })
}

/// What a grant comes to, at a clock. The key has 1 to 64 bytes.
pub fn grant_settled(
    alloc: Global,
    key: &[u8],
    now: u64,
    want: u8,
    granted: Result<Granting, MetaRefusal>,
) -> Result<Settling, OutOfMemory>
    requires some { 1 ≤ length key.now }
    requires short { length key.now ≤ 64 }
    requires clock { now < 2 ^ 62 }
    ensures { IfOk result (λ settling. settlement_of settling ≡
        rows.grant_settled key.now now want granted) }
{
    match granted {
        Err(why) => Ok(turned_away(why)),
        Ok(grant) => {
            let capability = capability_of(alloc, key, now, want, &grant)?;
            Ok(Settling {
                sets: sizes_granted(want, &grant),
                settled: Settled::Granted {
                    capability,
                    mark: grant.mark,
                },
            })
        }
    }
}

/// What a report comes to that isn't denied, by the file's issued epoch and mark.
fn merged(capability: &Capability, sizes: Option<(u64, SizeMark)>, mark: SizeMark) -> Settling
    ensures { settlement_of result ≡ rows.report_settled capability.now.file None sizes mark }
{
    let Some((epoch, known)) = sizes else {
        return turned_away(MetaRefusal::NotFound);
    };
    let sets = if known < mark {
        Some(NewSizes {
            file: capability.file,
            epoch,
            mark: merge(known, mark),
        })
    } else {
        None
    };
    Settling {
        sets,
        settled: Settled::Done,
    }
}

/// What a report comes to, at a clock: it is a write under its capability. The key has 1 to 64 bytes.
pub fn report_settled(
    alloc: Global,
    key: &[u8],
    now: u64,
    capability: &Capability,
    sizes: Option<(u64, SizeMark)>,
    mark: SizeMark,
) -> Result<Settling, OutOfMemory>
    requires some { 1 ≤ length key.now }
    requires short { length key.now ≤ 64 }
    ensures { IfOk result (λ settling. settlement_of settling ≡
        rows.report_settled capability.now.file
        (denial_of key.now capability.now capability.now.file now true) sizes mark) }
{
    match check(alloc, key, capability, &capability.file, now, true) {
        Ok(()) => Ok(merged(capability, sizes, mark)),
        Err(CapErr::Denied { rule }) => Ok(turned_away(MetaRefusal::Denied { rule })),
        Err(CapErr::OutOfMemory) => Err(AllocError),
    }
}
