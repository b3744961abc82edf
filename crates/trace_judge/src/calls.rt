ghost use Rattle.std.specs.Prelude.{◌≡◌, None, IfOk, OnOk, option_map};
ghost use Rattle.std.specs.Option.{option_or};
ghost use Rattle.xt_base.specs.declared.ids.OpId.{OpId};
ghost use Rattle.time_line.specs.TimeLine.{begun, call_begun};
ghost use Rattle.trace_judge.specs.Rows.{call_in};

use std::alloc::{AllocError, Global};
use std::collections::BTreeMap;
use time_line::Entry;
use xt_base::OpId;
use xt_messages::Call;

/// The calls that have begun, by client and number; of two with one id the first.
#[derive(Drop)]
pub struct Calls<'a> {
    pub rows: BTreeMap<(u32, u64), &'a Call>,
}

impl<'a> Calls<'a> {
    /// No call has begun.
    pub fn new(alloc: Global) -> Calls<'a>
        ensures { (id : OpId) → call_in result.rows id ≡ None }
    {
        Calls {
            rows: BTreeMap::new(alloc),
        }
    }

    /// One entry more. An error means that memory ran out.
    #[tactic(auto, using(crate::proofs::Put::call_put))]
    pub fn take(&mut self, e: &'a Entry) -> Result<(), AllocError>
        ensures { OnOk result ((id : OpId) →
            call_in self.new.rows id ≡ option_or (call_in self.old.rows id) (call_begun id e.now)) }
    {
        if let Entry::Begin {
            client,
            number,
            call,
        } = e
        {
            let key = (client.0, *number);
            if !self.rows.contains_key(&key) {
                self.rows.insert(key, call)?;
            }
        }
        Ok(())
    }

    /// The calls that begin in a trace. An error means that memory ran out.
    pub fn of(alloc: Global, entries: &'a [Entry]) -> Result<Calls<'a>, AllocError>
        ensures { IfOk result (λ calls. (id : OpId) →
            call_in calls.rows id ≡ begun id entries.now) }
    {
        let mut calls = Calls::new(alloc);
        let mut rest = entries;
        while let [e, behind @ ..] = rest {
            calls.take(e)?;
            rest = behind;
        }
        Ok(calls)
    }

    /// The call of this id, if it has begun.
    pub fn get(&self, id: OpId) -> Option<&'a Call>
        ensures { option_map (λ call. call.now) result ≡ call_in self.now.rows id }
    {
        self.rows.get(&(id.client.0, id.number)).copied()
    }
}
