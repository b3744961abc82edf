ghost use Rattle.std.specs.Prelude.{◌≡◌, ◌<◌, ◌^◌, ◌∷◌, [], ℕ, IfOk, IfErr, OnOk};
ghost use Rattle.xt_base.specs.TimeSettings.{AreTimes};
ghost use Rattle.node_links.specs.Streams.{Puts};
ghost use Rattle.node_runs.specs.Links.{Reads};
ghost use Rattle.node_runs.specs.Serving.{HasServeCause};
ghost use Rattle.store_loading.specs.Sinks.{HasSinkCause};
ghost use Rattle.node_jobs.specs.Jobs.{EndsUnready, knows_dir, period_of};

use node_links::{Clock, Sink};
use node_mail::Ears;
use schedule_lines::put_all;
use std::alloc::Global;
use xt_base::{Address, DIR_NODE, OutOfMemory, Times};
use xt_messages::Status;

/// The milliseconds between two Wakes: an eighth of a lease, and at least 1.
pub fn period_of(times: Times) -> u64
    ensures value { result ≡ period_of times }
    ensures small { result < 2 ^ 62 }
    ensures times { AreTimes times.lease times.drift }
{
    (times.lease() / 8).max(1)
}

/// The ears of a node that has received nothing yet and knows one address, that of the directory service.
pub fn ears_with(alloc: Global, dir: &Address) -> Result<Ears, OutOfMemory>
    ensures { IfOk result (λ ears. ears ≡ knows_dir dir.now) }
{
    let mut ears = Ears::new(alloc);
    ears.put(DIR_NODE, *dir)?;
    Ok(ears)
}

/// Reads the clock, then writes this text to the sink, and returns the reading.
pub fn ready<C: Clock, K: Sink>(clock: &mut C, out: &mut K, text: &[u8]) -> Result<u64, Status>
    ensures small { IfOk result (λ reading. reading < 2 ^ 62) }
    ensures read { IfOk result (λ reading.
        Reads (C.readings clock.old) (C.readings clock.new) (reading ∷ [])) }
    ensures told { OnOk result (Puts (K.held out.old) (K.held out.new) text.now) }
    ensures faults { OnOk result ((C.fault_count clock.new ≡ C.fault_count clock.old)
        × (K.fault_count out.new ≡ K.fault_count out.old)) }
    ensures ends { IfErr result (EndsUnready text.now (C.readings clock.old) (C.readings clock.new)
        (K.held out.old) (K.held out.new)) }
    ensures cause { (link : ℕ) → IfErr result
        (HasServeCause link link (C.fault_count clock.old) (C.fault_count clock.new)) }
    ensures sink { IfErr result (HasSinkCause (K.fault_count out.old) (K.fault_count out.new)) }
{
    let Ok(reading) = clock.now() else {
        return Err(Status::ClockFault {
            count: clock.faults(),
        });
    };
    match put_all(out, text) {
        Ok(()) => Ok(reading),
        Err(_) => Err(Status::SinkFault {
            count: out.faults(),
        }),
    }
}
