ghost use Rattle.std.specs.Prelude.{◌≡◌, ℕ, ◌+◌, ◌==◌, [], Some, OnOk, IfOk, length};
ghost use Rattle.xt_base.specs.declared.ids.OpId.{OpId};
ghost use Rattle.time_line.specs.TimeLine.{order_by};
ghost use Rattle.judging.specs.Pass.{fits_order, is_at, is_borne, is_in};
ghost use Rattle.trace_judge.specs.Rows.{IsSetOf};
ghost use Rattle.trace_judge.specs.Views.{claim_of};

use crate::sets::Ids;
use crate::told::Claim;
use std::alloc::{AllocError, Global};
use xt_base::OpId;

/// The writes of a file in order, as the claims so far report.
#[derive(Drop)]
pub struct Order {
    pub ids: Vec<OpId>,
    pub set: Ids,
}

impl Order {
    /// No write.
    #[tactic(auto, using(crate::proofs::Put::set_none))]
    pub fn new(alloc: Global) -> Order
        ensures ids { result.ids.items ≡ [] }
        ensures set { IsSetOf result.set.set [] }
    {
        Order {
            ids: Vec::new(alloc),
            set: Ids::new(alloc),
        }
    }

    /// Whether a write at this position would be the next one.
    pub fn is_next(&self, count: u64) -> bool
        ensures { result ≡ (count == length self.now.ids.items + 1) }
    {
        count.checked_sub(1) == Some(self.ids.len() as u64)
    }

    /// Whether the write is in the order.
    pub fn has(&self, id: OpId) -> bool
        ensures { IsSetOf self.now.set.set self.now.ids.items →
            result ≡ is_in id self.now.ids.items }
    {
        self.set.has(id)
    }

    /// Whether the write stands at this position, counted from 1.
    pub fn is_at(&self, id: OpId, count: u64) -> bool
        ensures { result ≡ is_at self.now.ids.items id count }
    {
        let Some(place) = count.checked_sub(1) else {
            return false;
        };
        match self.ids.as_slice().get(place as usize) {
            Some(other) => other.client.0 == id.client.0 && other.number == id.number,
            None => false,
        }
    }

    /// Whether there are as many writes as the claim says, and its write is the last of them.
    #[tactic(auto, using(crate::proofs::Put::borne_at))]
    fn bears(&self, claim: Claim) -> bool
        ensures { result ≡ is_borne self.now.ids.items (claim_of claim) }
    {
        let count = claim.count;
        self.ids.len() as u64 == count && (count == 0 || self.is_at(claim.id, count))
    }

    /// Appends the claim's write, where it is the next. An error means that memory ran out.
    #[tactic(auto, using(crate::proofs::Put::set_push))]
    fn append(&mut self, claim: Claim) -> Result<(), AllocError>
        ensures ids { OnOk result (self.new.ids.items ≡
            order_by self.old.ids.items (Some (claim_of claim))) }
        ensures set { OnOk result (IsSetOf self.old.set.set self.old.ids.items →
            IsSetOf self.new.set.set self.new.ids.items) }
    {
        if !self.is_next(claim.count) {
            return Ok(());
        }
        self.set.put(claim.id)?;
        self.ids.push(claim.id)?;
        Ok(())
    }

    /// One claim more, which appends its write where it is the next; whether the order agrees with the claim. An error means that
    /// memory ran out.
    pub fn take(&mut self, claim: Claim) -> Result<bool, AllocError>
        ensures ids { OnOk result (self.new.ids.items ≡
            order_by self.old.ids.items (Some (claim_of claim))) }
        ensures set { OnOk result (IsSetOf self.old.set.set self.old.ids.items →
            IsSetOf self.new.set.set self.new.ids.items) }
        ensures fits { IfOk result (λ fits. fits ≡
            fits_order self.old.ids.items (Some (claim_of claim))) }
    {
        self.append(claim)?;
        Ok(self.bears(claim))
    }
}
