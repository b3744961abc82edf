ghost use Rattle.std.specs.Prelude.{◌≡◌, ◌<◌, ◌^◌, ◌∷◌, [], IfOk, IfErr};
ghost use Rattle.xt_base.specs.Faults.{Rose};
ghost use Rattle.node_runs.specs.Links.{Reads};

use node_links::Clock;

/// Why a client gives up.
#[derive(Clone, Copy)]
pub enum DriveErr {
    /// A receive failed; the link has had so many faults.
    Link { count: u64 },
    /// The clock couldn't be read; it has had so many faults.
    Clock { count: u64 },
    /// So many receives were made, and another one is due.
    TurnsSpent { turns: u64 },
    /// The client has no number left for a call.
    NumbersSpent,
    OutOfMemory,
}

/// Reads the clock.
pub(crate) fn read<C: Clock>(clock: &mut C) -> Result<u64, DriveErr>
    ensures limit { IfOk result (λ reading. reading < 2 ^ 62) }
    ensures reads { IfOk result (λ reading. Reads (C.readings clock.old) (C.readings clock.new)
        (reading ∷ [])) }
    ensures faults { IfOk result (λ reading. C.fault_count clock.new ≡ C.fault_count clock.old) }
    ensures failed { IfErr result (λ error. (error ≡ DriveErr.Clock (C.fault_count clock.new))
        × (C.readings clock.new ≡ C.readings clock.old)
        × Rose (C.fault_count clock.old) (C.fault_count clock.new)) }
{
    match clock.now() {
        Ok(reading) => Ok(reading),
        Err(_) => Err(DriveErr::Clock {
            count: clock.faults(),
        }),
    }
}
