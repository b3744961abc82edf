ghost use Rattle.std.specs.Prelude.{◌≡◌, ◌≤◌, length, slice_get, IfOk};
ghost use Rattle.striping.specs.Cover.{object_of};

use crate::memory_origin::MemoryOrigin;
use crate::origin::{Fetched, Origin, OriginErr};
use std::alloc::Global;
use xt_base::{Octets, OutOfMemory, SizeMark};

/// The bytes of an object of a content: those of the range that it is, as far as there are any.
fn object_bytes(content: &[u8], stripe: u32, object: u64) -> &[u8]
    ensures bytes { result.now ≡ object_of stripe content.now object }
    ensures few { length result.now ≤ stripe }
{
    let start = object.saturating_mul(u64::from(stripe));
    if start >= content.len() as u64 {
        return &[];
    }
    let left = &content[start as usize..];
    let len = left.len().min(stripe as usize);
    &left[..len]
}

/// All bytes of an object of a content at this count, and its size.
fn fetched_of(
    alloc: Global,
    content: &[u8],
    stripe: u32,
    count: u64,
    object: u64,
) -> Result<Fetched, OutOfMemory>
    ensures { IfOk result (λ fetched. fetched ≡
        record {
          count = count;
          mark = record { epoch = 0; size = length content.now };
          bytes = object_of stripe content.now object;
        }) }
{
    let bytes = Octets::of(alloc, object_bytes(content, stripe, object))?;
    Ok(Fetched {
        count,
        mark: SizeMark {
            epoch: 0,
            size: content.len() as u64,
        },
        bytes,
    })
}

impl Origin for MemoryOrigin {
    ghost use Rattle.std.specs.Prelude.{[]};
    ghost use Rattle.ronly_replica.specs.MemoryOrigins.{MemoryFetches};
    ghost use Rattle.ronly_replica.specs.MemoryLaws.{memory_tells, memory_stays};

    ghost content = { λ o count. slice_get o.contents count };

    ghost stripe = { λ o. o.stripe };

    ghost fetches = { MemoryFetches };

    ghost tells = { memory_tells };

    ghost stays = { memory_stays };

    ghost is_ready = { λ o. Unit {0} };

    ghost references = { λ o. [] };

    ghost link_faults = { λ o. o.faults };

    ghost clock_faults = { λ o. 0 };

    fn fetch(&mut self, object: u64) -> Result<Fetched, OriginErr> {
        self.calls = self.calls.saturating_add(1);
        if self.failing.as_slice().contains(&self.calls) {
            self.faults = self.faults.saturating_add(1);
            return Err(OriginErr::LinkFailed { count: self.faults });
        }
        let content = self.contents.as_slice()[self.at as usize].as_slice();
        match fetched_of(self.alloc, content, self.stripe, self.at, object) {
            Ok(fetched) => Ok(fetched),
            Err(_) => Err(OriginErr::OutOfMemory),
        }
    }
}
