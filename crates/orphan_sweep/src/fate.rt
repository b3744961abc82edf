//! What becomes of a file.
ghost use Rattle.std.specs.Prelude.{◌≡◌, ℕ, Option};
ghost use Rattle.orphan_sweep.specs.Fates.{fate_by, grace, is_orphan};

use server_rows::LIFE;
use xt_base::Times;

/// What becomes of a file of an OSD.
#[derive(Clone, Copy)]
pub enum Fate {
    /// It was unlinked, and all that was granted on it is over: it goes.
    Orphan,
    /// It is there, or was unlinked a short while ago: it stays.
    Kept,
    /// The metadata server never made it: it stays.
    Unknown,
}

/// How long after its unlinking all that was granted on a file is over, in milliseconds. Its last capability is at most as old as the
/// unlinking, and serves for its life. The last renewal of its lease starts less than a lease after the last request under a capability,
/// and lasts as long. The clocks differ by the drift at most.
fn grace(times: &Times) -> u64
    ensures { result ≡ grace times.now }
{
    LIFE + 2 * times.lease() + times.drift()
}

/// What becomes of a file at this clock, in milliseconds, by what is known of it: whether it was made, and the clock at which it was
/// unlinked, if it was.
pub fn fate_by(known: Option<Option<u64>>, times: &Times, now: u64) -> Fate
    ensures { result ≡ fate_by times.now now known }
{
    match known {
        None => Fate::Unknown,
        Some(None) => Fate::Kept,
        Some(Some(unlinked)) => {
            if now.saturating_sub(unlinked) >= grace(times) {
                Fate::Orphan
            } else {
                Fate::Kept
            }
        }
    }
}

/// Whether the file goes.
pub fn is_orphan(fate: Fate) -> bool
    ensures { result ≡ is_orphan fate }
{
    match fate {
        Fate::Orphan => true,
        Fate::Kept | Fate::Unknown => false,
    }
}
