//! A command of a session, from its start to its end; and the lists with which commands begin, by themselves.
ghost use Rattle.std.specs.Prelude.{◌≡◌, ◌≤◌, ℕ};
ghost use Rattle.client_plans.specs.Plans.{end_of};
ghost use Rattle.client_jobs.specs.Running.{put_in, client_of, CanAsk, around_of, counts_of};
ghost use Rattle.client_jobs.specs.Lines as spec;
ghost use Rattle.client_jobs.specs.Lines.{IsLine, IsListed};

use crate::running::{close, first_number, work, work_quietly};
use crate::session::{CommandSession, terms_after, terms_for};
use client_core::Client;
use client_plans::Stage;
use command_words::{ClientJob, Defaults, Order};
use node_links::{Clock, Link, Sink};
use std::alloc::Global;
use xt_base::{Address, NodeId};
use xt_messages::Status;

/// A client whose first call has this number.
fn client_of(alloc: Global, job: &ClientJob, first: u64) -> Client
    ensures value { result ≡ client_of job.now first }
    ensures asks { CanAsk result }
{
    Client::new(alloc, job.who.id, job.settings.times, first)
}

/// Runs a client command of a session, which takes nothing of a source: over the session's end of the link, by the clock, which is read
/// anew, with what it writes and the last line of its status put to the sink. Its first call has the number of that reading, or the one
/// after all that were used in the session, if that is greater. A command of another client than the session's sends as that one, in a
/// boot of its own. The times that it names, and the number of receives if that is less than what is left, are for it alone. What it
/// receives stays in the session.
pub fn run_line<K: Sink, L: Link, C: Clock>(
    alloc: Global,
    job: &ClientJob,
    session: &mut CommandSession,
    out: &mut K,
    link: &mut L,
    clock: &mut C,
) -> Status
    requires range { end_of job.now.order ≤ 281474976710656 }
    requires content { put_in job.now.order ≡ Some None → ⊥ }
    ensures { (source : ℕ) → IsLine job.now session.old session.new
        (around_of L.given L.sent L.loss_count C.readings link.old clock.old)
        (around_of L.given L.sent L.loss_count C.readings link.new clock.new)
        (K.held out.old) (K.held out.new) (K.fault_count out.old) (K.fault_count out.new)
        (counts_of (L.fault_count link.old) (C.fault_count clock.old) source)
        (counts_of (L.fault_count link.new) (C.fault_count clock.new) source)
        result }
{
    let Ok(reading) = clock.now() else {
        let count = clock.faults();
        return close(alloc, out, Status::ClockFault { count });
    };
    let first = first_number(reading).max(session.client.next());
    let kept = session.driver.terms();
    session.driver.set_terms(&terms_for(job, first, &kept));
    session.client = client_of(alloc, job, first);
    let status = work(alloc, job, session, out, link, clock);
    let left = session.driver.terms();
    session.driver.set_terms(&terms_after(job, &kept, &left));
    status
}

/// The command that makes only the lists: a registration has no operation after them.
fn lists_alone(base: &Defaults) -> ClientJob
    ensures { result ≡ spec.lists_alone base.now }
{
    ClientJob {
        settings: base.settings,
        who: base.who,
        dir: None,
        key: None,
        order: Order::Register {
            node: NodeId(0),
            kind: 0,
            address: Address::of("").unwrap(),
        },
    }
}

/// Makes the lists with which commands begin, page by page, and nothing else, with the numbers that follow those of the session's last
/// command. The addresses of the nodes in their rows are known in the session from then on. It is done, or the status says why the lists
/// ended.
pub fn run_lists<L: Link, C: Clock>(
    alloc: Global,
    base: &Defaults,
    session: &mut CommandSession,
    link: &mut L,
    clock: &mut C,
) -> Status
    ensures { (source : ℕ) → IsListed base.now session.old session.new
        (around_of L.given L.sent L.loss_count C.readings link.old clock.old)
        (around_of L.given L.sent L.loss_count C.readings link.new clock.new)
        (counts_of (L.fault_count link.old) (C.fault_count clock.old) source)
        (counts_of (L.fault_count link.new) (C.fault_count clock.new) source)
        result }
{
    let job = lists_alone(base);
    session.client = client_of(alloc, &job, session.client.next());
    let first = Stage::Lists {
        kind: 2,
        above: NodeId(0),
    };
    work_quietly(alloc, &job, session, first, link, clock)
}
