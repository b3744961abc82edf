ghost use Rattle.std.specs.Prelude.{◌≡◌, ◌||◌, false, OnOk, option_map, Some};
ghost use Rattle.xt_base.specs.declared.ids.OpId.{OpId};
ghost use Rattle.time_line.specs.TimeLine.{is_id};
ghost use Rattle.judging.specs.Pass.{is_answer};
ghost use Rattle.trace_judge.specs.Rows.{Told, has_id, id_told, has_answer};
ghost use Rattle.trace_judge.specs.Views.{answer_of};

use crate::told::Answer;
use std::alloc::{AllocError, Global};
use std::collections::BTreeSet;
use xt_base::OpId;

/// A set of ids.
#[derive(Drop)]
pub struct Ids {
    pub set: BTreeSet<(u32, u64)>,
}

impl Ids {
    /// No id.
    pub fn new(alloc: Global) -> Ids
        ensures { (id : OpId) → has_id result.set id ≡ false }
    {
        Ids {
            set: BTreeSet::new(alloc),
        }
    }

    /// One id more. An error means that memory ran out.
    #[tactic(auto, using(crate::proofs::Put::id_put))]
    pub fn put(&mut self, id: OpId) -> Result<(), AllocError>
        ensures { OnOk result ((other : OpId) →
            has_id self.new.set other ≡ (has_id self.old.set other || is_id id other)) }
    {
        self.set.insert((id.client.0, id.number))?;
        Ok(())
    }

    /// Whether the id is among them.
    pub fn has(&self, id: OpId) -> bool
        ensures { result ≡ has_id self.now.set id }
    {
        self.set.contains(&(id.client.0, id.number))
    }
}

/// The answers on a file to calls that had begun on it, by their ids, counts and bytes.
#[derive(Drop)]
pub struct Answers<'a> {
    pub set: BTreeSet<((u32, u64), (u64, &'a [u8]))>,
}

impl<'a> Answers<'a> {
    /// No answer.
    pub fn new(alloc: Global) -> Answers<'a>
        ensures { (told : Told) → has_answer result.set told ≡ false }
    {
        Answers {
            set: BTreeSet::new(alloc),
        }
    }

    /// One answer more. An error means that memory ran out.
    #[tactic(auto, using(crate::proofs::Put::answer_put))]
    pub fn put(&mut self, answer: Answer<'a>) -> Result<(), AllocError>
        ensures { OnOk result ((told : Told) → has_answer self.new.set told ≡
            (has_answer self.old.set told ||
            is_answer (id_told told) told.1.0 told.1.1.now (Some (answer_of answer.entry)))) }
    {
        let id = (answer.id.client.0, answer.id.number);
        self.set.insert((id, (answer.count, answer.bytes)))?;
        Ok(())
    }

    /// Whether the call was answered so.
    pub fn has(&self, answer: Answer<'a>) -> bool
        ensures { result ≡ has_answer self.now.set (
          (answer.entry.id.client.0, answer.entry.id.number),
          (answer.entry.count, answer.entry.bytes),
        ) }
    {
        let id = (answer.id.client.0, answer.id.number);
        self.set.contains(&(id, (answer.count, answer.bytes)))
    }
}
