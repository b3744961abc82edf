//! How the ends of calls are shown.
ghost use Rattle.std.specs.Prelude.{◌≡◌, IfOk, map};
ghost use Rattle.client_rows.specs.Requests as spec;

use client_rows::CallResult;
use std::alloc::Global;
use xt_base::{Copies, NodeId, OutOfMemory, Seq};
use xt_messages::{MetaAnswer, MetaOutcome, Outcome, RegistryAnswer, RegistryOutcome, RegistryRow};

/// What the metadata server answered, as a trace shows it.
fn meta_shown(alloc: Global, answer: &MetaAnswer) -> Result<MetaOutcome, OutOfMemory>
    ensures { IfOk result (λ shown. shown ≡ spec.meta_shown answer.now) }
{
    match answer {
        MetaAnswer::Done => Ok(MetaOutcome::Done),
        MetaAnswer::Refused { refusal } => Ok(MetaOutcome::Refused { refusal: *refusal }),
        MetaAnswer::Names { names } => Ok(MetaOutcome::Names {
            names: names.copy(alloc)?,
        }),
        MetaAnswer::Row {
            kind,
            owner,
            group,
            mode,
            mark,
        } => Ok(MetaOutcome::Row {
            kind: *kind,
            owner: *owner,
            group: *group,
            mode: *mode,
            mark: *mark,
        }),
        MetaAnswer::Granted { capability, mark } => Ok(MetaOutcome::Granted {
            file: capability.file.number,
            mark: *mark,
        }),
        MetaAnswer::Located { location, changing } => Ok(MetaOutcome::Located {
            version: location.version,
            changing: *changing,
            members: location.members,
        }),
    }
}

/// The nodes of these rows.
fn nodes_of(alloc: Global, rows: &[RegistryRow]) -> Result<Seq<NodeId>, OutOfMemory>
    ensures { IfOk result (λ nodes. nodes ≡ map (λ row. row.node) rows.now) }
{
    let mut nodes = Seq::new(alloc);
    for row in rows {
        nodes.push(row.node)?;
    }
    Ok(nodes)
}

/// What the directory service answered, as a trace shows it.
fn registry_shown(alloc: Global, answer: &RegistryAnswer) -> Result<RegistryOutcome, OutOfMemory>
    ensures { IfOk result (λ shown. shown ≡ spec.registry_shown answer.now) }
{
    match answer {
        RegistryAnswer::Done { version } => Ok(RegistryOutcome::Done { version: *version }),
        RegistryAnswer::Changed { version } => Ok(RegistryOutcome::Changed { version: *version }),
        RegistryAnswer::Absent => Ok(RegistryOutcome::Absent),
        RegistryAnswer::Row { row } => Ok(RegistryOutcome::Row {
            row: row.copy(alloc)?,
        }),
        RegistryAnswer::Rows { rows } => Ok(RegistryOutcome::Rows {
            nodes: nodes_of(alloc, rows.as_slice())?,
        }),
    }
}

/// How a call ended, as a trace shows it.
pub fn outcome_of(alloc: Global, how: &CallResult) -> Result<Outcome, OutOfMemory>
    ensures { IfOk result (λ outcome. outcome ≡ spec.outcome_of how.now) }
{
    match how {
        CallResult::Ok { count, bytes, .. } => Ok(Outcome::Ok {
            count: *count,
            bytes: bytes.copy(alloc)?,
        }),
        CallResult::Retry { answers } => Ok(Outcome::Retry {
            answers: answers.copy(alloc)?,
        }),
        CallResult::Refused { reply } => Ok(Outcome::Refused { refusal: *reply }),
        CallResult::Meta { answer } => Ok(Outcome::Meta {
            answer: meta_shown(alloc, answer)?,
        }),
        CallResult::Registry { answer } => Ok(Outcome::Registry {
            answer: registry_shown(alloc, answer)?,
        }),
    }
}
