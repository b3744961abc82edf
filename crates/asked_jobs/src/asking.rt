//! The job that the words of the command line ask for.
ghost use Rattle.std.specs.Prelude.{◌≡◌, ◌∷◌, [], false, Some, IfOk, IfSome, codes};
ghost use Rattle.command_words.specs.declared.job.Job.TheVariants as job;
ghost use Rattle.command_words.specs.Jobs.{job_of};
ghost use Rattle.command_words.specs.Worked.{usual};
ghost use Rattle.asked_jobs.specs.Asking.{IsWithin};

use command_words::{Defaults, Job, Settings, Who, read_words};
use std::alloc::Global;
use xt_base::{NodeId, OutOfMemory, Times, Words};

/// The values of what the words leave out.
pub fn usual() -> Defaults
    ensures { result ≡ usual }
{
    Defaults {
        settings: Settings {
            times: Times::new(Times::DEFAULT_LEASE, Times::DEFAULT_DRIFT).unwrap(),
            turns: 1_000_000_000,
            limit: 1_073_741_824,
        },
        who: Who {
            id: NodeId(500),
            user: 1,
            group: 1,
            tries: 20,
        },
    }
}

/// What the words ask for, or `None` exactly when they match no command or a value is out of its range. An error means that
/// memory ran out.
pub fn asked_job(alloc: Global, words: &Words) -> Result<Option<Job>, OutOfMemory>
    ensures asked { IfOk result (λ asked. asked ≡ job_of usual false words.now) }
    ensures within { IfOk result (λ asked. IfSome asked IsWithin) }
{
    let asked = read_words(alloc, &usual(), false, words)?;
    Ok(asked)
}

/// The one word `replay` asks for a replay.
pub fn words_ask_for_a_replay()
    ensures { job_of usual false (codes "replay" ∷ []) ≡ Some job.Replay }
{}
