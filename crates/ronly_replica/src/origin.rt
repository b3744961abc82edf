ghost use Rattle.std.specs.Prelude.{◌≡◌, ℕ, Option, Some, List, Result, Ok, IfOk, length};
ghost use Rattle.std.specs.Borrow.{GName};
ghost use Rattle.xt_base.specs.FieldLimits.{FitsBytes};
ghost use Rattle.striping.specs.Cover.{object_of};
ghost use Rattle.ronly_replica.specs.Origins.{HasOriginCause, StaysReady};

use xt_base::{Octets, SizeMark};
use xt_messages::{Answers, AskRefusal};

/// An object as it was fetched, how many writes its file had then, and the file's size.
#[derive(Drop)]
pub struct Fetched {
    pub count: u64,
    pub mark: SizeMark,
    pub bytes: Octets,
}

/// Why an object isn't fetched.
#[derive(Drop)]
pub enum OriginErr {
    OutOfMemory,
    /// The link has failed so often.
    LinkFailed { count: u64 },
    /// The clock has failed so often.
    ClockFailed { count: u64 },
    /// Nobody answered it now; it may be fetched again.
    NotNow { answers: Answers },
    /// An OSD refused it for good.
    Refused { reply: AskRefusal },
    /// All receives were made that may be made.
    TurnsSpent { turns: u64 },
    /// The client has no number left.
    NumbersSpent,
}

impl OriginErr {
    ghost use Rattle.std.specs.Prelude.{◌≡◌};
    ghost use Rattle.ronly_replica.specs.Faults.{is_memory};

    /// Whether memory ran out.
    pub fn is_memory(&self) -> bool
        ensures { result ≡ is_memory self.now }
    {
        matches!(self, OriginErr::OutOfMemory)
    }
}

/// What objects are fetched from.
pub trait Origin {
    ghost use Rattle.ronly_replica.specs.declared.origin.Fetched.{Fetched};
    ghost use Rattle.ronly_replica.specs.declared.origin.OriginErr.{OriginErr};

    /// The whole content of the file at a count of writes, where it is known.
    ghost content: { Self → ℕ → Option (List ℕ) };

    /// How long an object is at most.
    ghost stripe: { Self → ℕ };

    /// What a fetch of an object does: this comes of it, and leaves this.
    ghost fetches: { Self → ℕ → Result Fetched OriginErr → Self → Type 0 };

    /// Where the content at an answer's count is known, the answer has all bytes of the object in it, and its size.
    ghost tells: { (old new : Self) (object : ℕ) (fetched : Fetched) (whole : List ℕ) →
        fetches old object (Ok fetched) new → content old fetched.count ≡ Some whole →
        (fetched.bytes ≡ object_of (stripe old) whole object)
        × (fetched.mark.size ≡ length whole) };

    /// What is known of the contents stays.
    ghost stays: { (old new : Self) (object : ℕ) (result : Result Fetched OriginErr)
        (count : ℕ) → fetches old object result new →
        (content new count ≡ content old count) × (stripe new ≡ stripe old) };

    /// Whether the next object may be fetched.
    ghost is_ready: { Self → Type 0 };

    /// The references that it works through, which stay the same ones.
    ghost references: { Self → List GName };

    /// How often its link has failed.
    ghost link_faults: { Self → ℕ };

    /// How often its clock has failed.
    ghost clock_faults: { Self → ℕ };

    /// Fetches an object. After a failure of the link or the clock, and where memory or the turns have run out, nothing more may be
    /// fetched.
    fn fetch(&mut self, object: u64) -> Result<Fetched, OriginErr>
        requires ready { is_ready self.old }
        ensures does { fetches self.old object result self.new }
        ensures references { references self.new ≡ references self.old }
        ensures fits { IfOk result (λ fetched. FitsBytes fetched.bytes) }
        ensures ready { StaysReady result → is_ready self.new }
        ensures cause { HasOriginCause (link_faults self.old) (link_faults self.new)
            (clock_faults self.old) (clock_faults self.new) result };
}
