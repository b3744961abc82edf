ghost use Rattle.std.specs.Prelude.{◌≡◌, Ok, Err, IfOk, MatchResult};
ghost use Rattle.object_versions.specs.KeptBodies.{fault_of};
ghost use Rattle.xt_protocol.specs.declared.turned.Turned.{Turned};
ghost use Rattle.xt_protocol.specs.Turns as rows;

use object_versions::StepErr;
use std::mem;
use xt_base::OutOfMemory;
use xt_protocol::{Turned, join};

/// What was made, and what the next part gives; where that fails, its error. So what was made is dropped here, by one call, and
/// not case by case on the way out of each function that holds it.
pub fn both<A: Drop, B, E>(made: A, next: Result<B, E>) -> Result<(A, B), E>
    ensures { MatchResult result (λ pair. (pair.0 ≡ made)
        × (next ≡ Ok pair.1)) (λ error. next ≡ Err error) }
{
    match next {
        Ok(next) => Ok((made, next)),
        Err(error) => Err(error),
    }
}

/// Puts a value in the place of another one, which is dropped by one call.
pub fn put<T: Drop>(place: &mut T, value: T)
    ensures { place.new ≡ value }
{
    drop(mem::replace(place, value));
}

/// What one part of a step gives, and then what the next one gives.
pub fn join_next(first: Turned, next: Result<Turned, OutOfMemory>) -> Result<Turned, OutOfMemory>
    ensures { IfOk result (λ turned. (rest : Turned) × (next ≡ Ok rest)
        × (turned ≡ rows.joined first rest)) }
{
    let (first, next) = both(first, next)?;
    join(first, next)
}

/// The same, where the next part may fail otherwise too; then its error.
pub fn join_rest(first: Turned, rest: Result<Turned, StepErr>) -> Result<Turned, StepErr>
    ensures joined { IfOk result (λ turned. (next : Turned) × (rest ≡ Ok next)
        × (turned ≡ rows.joined first next)) }
    ensures failed { fault_of result ≡ fault_of rest }
{
    let (first, rest) = both(first, rest)?;
    Ok(join(first, rest)?)
}
