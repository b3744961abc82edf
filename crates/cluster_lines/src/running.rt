//! The lines of a cluster, one after the other.
ghost use Rattle.std.specs.Prelude.{◌≡◌, ◌<◌, ℕ, List, Option, IfOk, OnErr, IfSome};
ghost use Rattle.asked_jobs.specs.Lines.{IsLineWithin};
ghost use Rattle.schedule_lines.specs.RawLine.{IsRawLine};
ghost use Rattle.schedule_lines.specs.Putting.{IsPut};
ghost use Rattle.schedule_lines.specs.Causes.{CausesPut};
ghost use Rattle.cluster_lines.specs.Lines as spec;
ghost use Rattle.client_loop.specs.Carrying.{Around};
ghost use Rattle.command_words.specs.declared.job.Defaults.{Defaults};
ghost use Rattle.client_jobs.specs.declared.session.CommandSession.{CommandSession};
ghost use Rattle.cluster_lines.specs.Lines.{asked_by, IsText, IsAnswered, code_line, IsRunTo, IsStep, EndsLines, AreLines};

use asked_jobs::asked_line;
use client_jobs::{CommandSession, close, run_line};
use command_words::{ClientJob, Defaults};
use node_links::{Clock, Link, Sink, Source};
use schedule_lines::{RawLine, put_all, read_raw, take_byte};
use std::alloc::Global;
use time_line::{LINE_BYTES, LINES};
use xt_base::{Failed, OutOfMemory};
use xt_messages::{Limited, Status};

/// Whether the status of a line ends the cluster.
fn ends_cluster(status: &Status) -> bool
    ensures { result ≡ spec.ends_cluster status.now }
{
    match status {
        Status::LinkFault { .. }
        | Status::SinkFault { .. }
        | Status::ClockFault { .. }
        | Status::TurnsSpent { .. }
        | Status::OutOfMemory => true,
        _ => false,
    }
}

/// Puts the code of a line's status. It returns a status if the sink failed or memory ran out.
fn tell<K: Sink>(alloc: Global, out: &mut K, said: &Status) -> Option<Status>
    ensures put { IsPut (K.held out.old) (K.held out.new) (code_line said.now) result }
    ensures cause { CausesPut (K.fault_count out.old) (K.fault_count out.new) result }
{
    let code = said.code();
    match format!(in alloc; "= {code}\n") {
        Ok(text) => match put_all(out, text.as_bytes()) {
            Ok(()) => None,
            Err(Failed) => Some(Status::SinkFault {
                count: out.faults(),
            }),
        },
        Err(_) => Some(Status::OutOfMemory),
    }
}

/// The command that the bytes taken as a line ask for.
fn asked_by(
    alloc: Global,
    cluster: &Defaults,
    kind: RawLine,
    text: &[u8],
) -> Result<Option<ClientJob>, OutOfMemory>
    ensures asked { IfOk result (λ asked. asked ≡ asked_by cluster.now kind text.now) }
    ensures within { IfOk result (λ asked. IfSome asked IsLineWithin) }
    ensures whole { OnErr result (kind ≡ RawLine.Whole) }
{
    match kind {
        RawLine::Whole => asked_line(alloc, cluster, text),
        _ => Ok(None),
    }
}

/// Runs the command that is asked for, or reports how to use the program if there is none.
fn answer<K: Sink, L: Link, C: Clock>(
    alloc: Global,
    asked: Option<ClientJob>,
    session: &mut CommandSession,
    out: &mut K,
    link: &mut L,
    clock: &mut C,
) -> Status
    requires { IfSome asked IsLineWithin }
    ensures { (left later : Option (List ℕ)) (source : ℕ) → IsAnswered asked
        (record {
          session = session.old;
          around = record {
            to_come = L.given link.old;
            sent = L.sent link.old;
            losses = L.loss_count link.old;
            to_read = C.readings clock.old;
          };
          left = left;
          held = K.held out.old;
          counts = record {
            link = L.fault_count link.old;
            clock = C.fault_count clock.old;
            source = source;
          };
          sink = K.fault_count out.old;
        })
        (record {
          session = session.new;
          around = record {
            to_come = L.given link.new;
            sent = L.sent link.new;
            losses = L.loss_count link.new;
            to_read = C.readings clock.new;
          };
          left = later;
          held = K.held out.new;
          counts = record {
            link = L.fault_count link.new;
            clock = C.fault_count clock.new;
            source = source;
          };
          sink = K.fault_count out.new;
        })
        result }
{
    match asked {
        Some(job) => run_line(alloc, &job, session, out, link, clock),
        None => close(alloc, out, Status::Usage),
    }
}

/// Runs what was taken as a line, and puts its code. It returns a status if the lines end there.
fn run_text<K: Sink, L: Link, C: Clock>(
    alloc: Global,
    cluster: &Defaults,
    kind: RawLine,
    text: &[u8],
    session: &mut CommandSession,
    out: &mut K,
    link: &mut L,
    clock: &mut C,
) -> Option<Status>
    requires { IsText kind }
    ensures { (left later : Option (List ℕ)) (source : ℕ) → IsRawLine left later text.now kind →
        IsRunTo cluster.now
        (record {
          session = session.old;
          around = record {
            to_come = L.given link.old;
            sent = L.sent link.old;
            losses = L.loss_count link.old;
            to_read = C.readings clock.old;
          };
          left = left;
          held = K.held out.old;
          counts = record {
            link = L.fault_count link.old;
            clock = C.fault_count clock.old;
            source = source;
          };
          sink = K.fault_count out.old;
        })
        (record {
          session = session.new;
          around = record {
            to_come = L.given link.new;
            sent = L.sent link.new;
            losses = L.loss_count link.new;
            to_read = C.readings clock.new;
          };
          left = later;
          held = K.held out.new;
          counts = record {
            link = L.fault_count link.new;
            clock = C.fault_count clock.new;
            source = source;
          };
          sink = K.fault_count out.new;
        })
        result }
{
    let asked = match asked_by(alloc, cluster, kind, text) {
        Ok(asked) => asked,
        Err(_) => return Some(close(alloc, out, Status::OutOfMemory)),
    };
    let said = answer(alloc, asked, session, out, link, clock);
    if ends_cluster(&said) {
        return Some(said);
    }
    tell(alloc, out, &said)
}

/// Takes the next line and runs it. It returns a status if the lines end there. `raw` is room for the bytes of the line.
fn next_line<S: Source, K: Sink, L: Link, C: Clock>(
    alloc: Global,
    cluster: &Defaults,
    session: &mut CommandSession,
    src: &mut S,
    raw: &mut Vec<u8>,
    out: &mut K,
    link: &mut L,
    clock: &mut C,
) -> Option<Status>
    ensures { (count : ℕ) → count < LINES → IsStep cluster.now count
        (record {
          session = session.old;
          around = record {
            to_come = L.given link.old;
            sent = L.sent link.old;
            losses = L.loss_count link.old;
            to_read = C.readings clock.old;
          };
          left = S.left src.old;
          held = K.held out.old;
          counts = record {
            link = L.fault_count link.old;
            clock = C.fault_count clock.old;
            source = S.fault_count src.old;
          };
          sink = K.fault_count out.old;
        })
        (record {
          session = session.new;
          around = record {
            to_come = L.given link.new;
            sent = L.sent link.new;
            losses = L.loss_count link.new;
            to_read = C.readings clock.new;
          };
          left = S.left src.new;
          held = K.held out.new;
          counts = record {
            link = L.fault_count link.new;
            clock = C.fault_count clock.new;
            source = S.fault_count src.new;
          };
          sink = K.fault_count out.new;
        })
        result }
{
    let kind = read_raw(src, raw);
    match kind {
        RawLine::End => Some(Status::Done),
        RawLine::Whole => run_text(
            alloc,
            cluster,
            kind,
            raw.as_slice(),
            session,
            out,
            link,
            clock,
        ),
        RawLine::Unended => {
            match run_text(
                alloc,
                cluster,
                kind,
                raw.as_slice(),
                session,
                out,
                link,
                clock,
            ) {
                None => Some(Status::Done),
                Some(status) => Some(status),
            }
        }
        RawLine::TooLong => {
            let (what, limit) = (Limited::Line, LINE_BYTES);
            Some(close(alloc, out, Status::Limit { what, limit }))
        }
        RawLine::Failed => {
            let count = src.faults();
            Some(close(alloc, out, Status::SourceFault { count }))
        }
        RawLine::OutOfMemory => Some(close(alloc, out, Status::OutOfMemory)),
    }
}

/// Ends the lines after the last one that there may be.
fn past_last<S: Source, K: Sink>(alloc: Global, src: &mut S, out: &mut K) -> Status
    ensures { (cluster : Defaults) (session : CommandSession) (around : Around) (link clock : ℕ) →
        EndsLines cluster LINES
        (record {
          session = session;
          around = around;
          left = S.left src.old;
          held = K.held out.old;
          counts = record { link = link; clock = clock; source = S.fault_count src.old };
          sink = K.fault_count out.old;
        })
        (record {
          session = session;
          around = around;
          left = S.left src.new;
          held = K.held out.new;
          counts = record { link = link; clock = clock; source = S.fault_count src.new };
          sink = K.fault_count out.new;
        })
        result }
{
    match take_byte(src) {
        Ok(None) => Status::Done,
        Ok(Some(_)) => {
            let (what, limit) = (Limited::Lines, LINES);
            close(alloc, out, Status::Limit { what, limit })
        }
        Err(Failed) => {
            let count = src.faults();
            close(alloc, out, Status::SourceFault { count })
        }
    }
}

/// Runs the lines of a source in the cluster's session, one after the other. What a line leaves out has the cluster's value; after what its
/// command writes, its code is put. It is done at the end of the source. Any other status says why the lines ended; its last line is put.
pub fn run_lines<S: Source, K: Sink, L: Link, C: Clock>(
    alloc: Global,
    cluster: &Defaults,
    session: &mut CommandSession,
    src: &mut S,
    out: &mut K,
    link: &mut L,
    clock: &mut C,
) -> Status
    ensures { AreLines cluster.now
        (record {
          session = session.old;
          around = record {
            to_come = L.given link.old;
            sent = L.sent link.old;
            losses = L.loss_count link.old;
            to_read = C.readings clock.old;
          };
          left = S.left src.old;
          held = K.held out.old;
          counts = record {
            link = L.fault_count link.old;
            clock = C.fault_count clock.old;
            source = S.fault_count src.old;
          };
          sink = K.fault_count out.old;
        })
        (record {
          session = session.new;
          around = record {
            to_come = L.given link.new;
            sent = L.sent link.new;
            losses = L.loss_count link.new;
            to_read = C.readings clock.new;
          };
          left = S.left src.new;
          held = K.held out.new;
          counts = record {
            link = L.fault_count link.new;
            clock = C.fault_count clock.new;
            source = S.fault_count src.new;
          };
          sink = K.fault_count out.new;
        })
        result }
{
    let mut raw = Vec::new(alloc);
    for _line in 0..LINES {
        match next_line(alloc, cluster, session, src, &mut raw, out, link, clock) {
            None => {}
            Some(status) => return status,
        }
    }
    past_last(alloc, src, out)
}
