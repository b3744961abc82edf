//! What callers see: calls on the file that begin, are answered and end well.
ghost use Rattle.std.specs.Prelude.{◌≡◌, ◌||◌, ◌&&◌, OnOk, Some, option_map};
ghost use Rattle.xt_base.specs.declared.ids.OpId.{OpId};
ghost use Rattle.time_line.specs.TimeLine.{operation_on};
ghost use Rattle.judging.specs.Pass.{is_answer, is_end, is_told};
ghost use Rattle.trace_judge.specs.Rows.{Told, call_in, has_answer, has_id, id_told};
ghost use Rattle.trace_judge.specs.Views.{answer_of, begins_well, call_of, ends_well};

use crate::calls::Calls;
use crate::sets::{Answers, Ids};
use crate::told::Answer;
use std::alloc::AllocError;
use time_line::Entry;
use xt_base::OpId;
use xt_messages::Call;

/// Whether the call is one on the file's content.
fn is_on(file: u64, call: Option<&Call>) -> bool
    ensures { result ≡ is_told (operation_on file (call_of call.entry)) }
{
    match call {
        Some(Call::Read { file: f, .. }) => *f == file,
        Some(Call::Write { file: f, .. }) => *f == file,
        Some(Call::Truncate { file: f, .. }) => *f == file,
        _ => false,
    }
}

/// Notes an answer to a call that has begun on the file. An error means that memory ran out.
#[tactic(auto, using(crate::proofs::Put::answers_more, crate::proofs::Put::answers_same))]
fn note<'a>(
    answers: &mut Answers<'a>,
    file: u64,
    calls: &Calls,
    answer: Answer<'a>,
) -> Result<(), AllocError>
    ensures { OnOk result ((told : Told) → has_answer answers.new.set told ≡
        (has_answer answers.old.set told ||
        (is_answer (id_told told) told.1.0 told.1.1.now (Some (answer_of answer.entry)) &&
        is_told (operation_on file (call_in calls.now.rows (id_told told)))))) }
{
    if !is_on(file, calls.get(answer.id)) {
        return Ok(());
    }
    answers.put(answer)?;
    Ok(())
}

/// Notes an answer, if there is one, to a call that has begun on the file. An error means that memory ran out.
pub fn note_answer<'a>(
    answers: &mut Answers<'a>,
    file: u64,
    calls: &Calls,
    answer: Option<Answer<'a>>,
) -> Result<(), AllocError>
    ensures { OnOk result ((told : Told) → has_answer answers.new.set told ≡
        (has_answer answers.old.set told ||
        (is_answer (id_told told) told.1.0 told.1.1.now (option_map answer_of answer.entry) &&
        is_told (operation_on file (call_in calls.now.rows (id_told told)))))) }
{
    match answer {
        Some(answer) => note(answers, file, calls, answer),
        None => Ok(()),
    }
}

/// Notes the end of a call, if there is one. An error means that memory ran out.
pub fn note_end(ended: &mut Ids, end: Option<Answer>) -> Result<(), AllocError>
    ensures { OnOk result ((id : OpId) → has_id ended.new.set id ≡
        (has_id ended.old.set id || is_end id (option_map answer_of end.entry))) }
{
    match end {
        Some(end) => ended.put(end.id),
        None => Ok(()),
    }
}

/// Whether the end of a call on the file, if it is one, was answered so.
fn ends_well<'a>(answers: &Answers<'a>, file: u64, calls: &Calls, end: Option<Answer<'a>>) -> bool
    ensures { result ≡
        ends_well file (λ id. call_in calls.now.rows id) answers.now.set end.entry }
{
    let Some(end) = end else {
        return true;
    };
    !is_on(file, calls.get(end.id)) || answers.has(end)
}

/// Whether the call that begins on the file, if one does, hasn't ended yet.
fn begins_well(ended: &Ids, file: u64, calls: &Calls, e: &Entry) -> bool
    ensures { result ≡ begins_well file (λ id. call_in calls.now.rows id)
        (λ id. has_id ended.now.set id) e.now }
{
    let Entry::Begin {
        client,
        number,
        call,
    } = e
    else {
        return true;
    };
    let id = OpId {
        client: *client,
        number: *number,
    };
    calls.get(id).is_some() || !is_on(file, Some(call)) || !ended.has(id)
}

/// Whether what callers see by the entry is fresh, where `end` is the call that ends well by it.
pub fn is_fresh<'a>(
    answers: &Answers<'a>,
    ended: &Ids,
    file: u64,
    calls: &Calls,
    end: Option<Answer<'a>>,
    e: &Entry,
) -> bool
    ensures { result ≡
        (ends_well file (λ id. call_in calls.now.rows id) answers.now.set end.entry &&
        begins_well file (λ id. call_in calls.now.rows id) (λ id. has_id ended.now.set id) e.now) }
{
    ends_well(&*answers, file, calls, end) && begins_well(ended, file, calls, e)
}
