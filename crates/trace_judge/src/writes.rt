ghost use Rattle.std.specs.Prelude.{◌≡◌, ◌<◌, ◌^◌, ◌&&◌, ◌==◌, ℕ, List, [], Some, true, not, OnOk, IfOk, option_map, length};
ghost use Rattle.xt_base.specs.declared.ids.OpId.{OpId};
ghost use Rattle.xt_base.specs.Overlay.{overlay};
ghost use Rattle.time_line.specs.Clauses.{is_change};
ghost use Rattle.time_line.specs.Content.{place_of, range_of};
ghost use Rattle.time_line.specs.TimeLine.{operation_on, order_by};
ghost use Rattle.judging.specs.Pass.{content_with, fits_once, fits_order, is_at, is_same, shows};
ghost use Rattle.sparse_bytes.specs.Sparse.{Tells};
ghost use Rattle.trace_judge.specs.Rows.{IsSetOf, call_in};
ghost use Rattle.trace_judge.specs.Views.{answer_of, claim_of, call_of, content_then, shown_by};

use crate::calls::Calls;
use crate::order::Order;
use crate::told::{Answer, Claim};
use sparse_bytes::SparseBytes;
use std::alloc::{AllocError, Global};
use xt_base::Octets;
use xt_messages::Call;

/// Where a place of an object lies in the file.
fn place_of(stripe: u32, object: u64, at: u32) -> u128
    ensures place { result ≡ place_of stripe object at }
    ensures small { result < 2 ^ 97 }
{
    u128::from(object) * u128::from(stripe) + u128::from(at)
}

/// Whether the call is a write or a truncation on the file.
fn is_change_on(file: u64, call: Option<&Call>) -> bool
    ensures { result ≡ is_change (operation_on file (call_of call.entry)) }
{
    match call {
        Some(Call::Write { file: f, .. }) => *f == file,
        Some(Call::Truncate { file: f, .. }) => *f == file,
        _ => false,
    }
}

/// Puts bytes at a place of an object. An error means that memory ran out.
fn write(
    content: &mut SparseBytes,
    stripe: u32,
    object: u64,
    at: u32,
    bytes: &Octets,
) -> Result<(), AllocError>
    ensures { OnOk result ((old : List ℕ) →
        Tells content.old.size content.old.written old →
        Tells content.new.size content.new.written
        (overlay old (place_of stripe object at) bytes.now)) }
{
    content.write(place_of(stripe, object, at), bytes.as_slice())?;
    Ok(())
}

/// Whether there are no bytes.
#[tactic(auto, using(crate::proofs::Put::none_same))]
fn is_none(bytes: &[u8]) -> bool
    ensures { result ≡ is_same bytes.now [] }
{
    bytes.is_empty()
}

/// Changes the content as the call does, where it is one on the file. An error means that memory ran out.
fn change(content: &mut SparseBytes, file: u64, stripe: u32, call: &Call) -> Result<(), AllocError>
    ensures { OnOk result ((bytes : List ℕ) →
        Tells content.old.size content.old.written bytes →
        Tells content.new.size content.new.written
        (content_with stripe bytes (operation_on file (Some call.now)))) }
{
    match call {
        Call::Write {
            file: f,
            object,
            at,
            bytes,
        } if *f == file => write(content, stripe, *object, *at, bytes),
        Call::Truncate {
            file: f,
            size,
            epoch: _,
        } if *f == file => content.resize(u128::from(*size)),
        _ => Ok(()),
    }
}

/// The same for a call that may not have begun.
fn change_by(
    content: &mut SparseBytes,
    file: u64,
    stripe: u32,
    call: Option<&Call>,
) -> Result<(), AllocError>
    ensures { OnOk result ((bytes : List ℕ) →
        Tells content.old.size content.old.written bytes →
        Tells content.new.size content.new.written
        (content_with stripe bytes (operation_on file (call_of call.entry)))) }
{
    match call {
        Some(call) => change(content, file, stripe, call),
        None => Ok(()),
    }
}

/// The writes of a replicated file: their order, and its content after them.
#[derive(Drop)]
pub struct Writes {
    /// The size of the file's objects, in bytes.
    pub stripe: u32,
    pub order: Order,
    pub content: SparseBytes,
}

impl Writes {
    /// No write.
    pub fn new(alloc: Global, stripe: u32) -> Writes
        ensures stripe { result.stripe ≡ stripe }
        ensures ids { result.order.ids.items ≡ [] }
        ensures set { IsSetOf result.order.set.set [] }
        ensures content { Tells result.content.size result.content.written [] }
    {
        Writes {
            stripe,
            order: Order::new(alloc),
            content: SparseBytes::new(alloc),
        }
    }

    /// Whether the claim appends no write, or one that isn't in the order and whose call has begun as a write or truncation on the
    /// file.
    fn is_once(&self, file: u64, calls: &Calls, claim: Claim) -> bool
        ensures { IsSetOf self.now.order.set.set self.now.order.ids.items →
            result ≡ fits_once file self.now.order.ids.items
            (λ id. call_in calls.now.rows id) (Some (claim_of claim)) }
    {
        if !self.order.is_next(claim.count) {
            return true;
        }
        is_change_on(file, calls.get(claim.id)) && !self.order.has(claim.id)
    }

    /// Whether these bytes are those of a range of an object, as far as there are any.
    fn has_range(&self, object: u64, at: u32, len: u32, bytes: &[u8]) -> bool
        ensures { (content : List ℕ) →
            Tells self.now.content.size self.now.content.written content →
            result ≡
            is_same bytes.now (range_of content (place_of self.now.stripe object at) len) }
    {
        let place = place_of(self.stripe, object, at);
        self.content.shows(place, len, bytes)
    }

    /// Whether the answer counts all writes and gives this range of an object.
    fn shows_range(&self, answer: Answer, object: u64, at: u32, len: u32) -> bool
        ensures { (content : List ℕ) →
            Tells self.now.content.size self.now.content.written content →
            result ≡ ((answer.entry.count == length self.now.order.ids.items) &&
            is_same answer.entry.bytes.now
            (range_of content (place_of self.now.stripe object at) len)) }
    {
        answer.count == self.order.ids.len() as u64 && self.has_range(object, at, len, answer.bytes)
    }

    /// Whether the answer has the write's position and no bytes.
    fn shows_position(&self, answer: Answer) -> bool
        ensures { result ≡
            (is_at self.now.order.ids.items answer.entry.id answer.entry.count &&
            is_same answer.entry.bytes.now []) }
    {
        self.order.is_at(answer.id, answer.count) && is_none(answer.bytes)
    }

    /// Whether the answer shows the file as it stands.
    pub fn shows(&self, file: u64, calls: &Calls, answer: Answer) -> bool
        ensures { (content : List ℕ) →
            Tells self.now.content.size self.now.content.written content →
            result ≡ shows self.now.stripe self.now.order.ids.items content answer.entry.id
            answer.entry.count answer.entry.bytes.now
            (operation_on file (call_in calls.now.rows answer.entry.id)) }
    {
        match calls.get(answer.id) {
            Some(
                Call::Read {
                    file: f,
                    object,
                    at,
                    len,
                },
            ) if *f == file => self.shows_range(answer, *object, *at, *len),
            Some(Call::Write { file: f, .. }) if *f == file => self.shows_position(answer),
            Some(Call::Truncate { file: f, .. }) if *f == file => self.shows_position(answer),
            _ => false,
        }
    }

    /// Whether the answer, if it is one, shows the file as it stands.
    pub fn shows_any(&self, file: u64, calls: &Calls, answer: Option<Answer>) -> bool
        ensures { (content : List ℕ) →
            Tells self.now.content.size self.now.content.written content →
            result ≡ shown_by self.now.stripe file self.now.order.ids.items content
            (λ id. call_in calls.now.rows id) (option_map answer_of answer.entry) }
    {
        match answer {
            Some(answer) => self.shows(file, calls, answer),
            None => true,
        }
    }

    /// One claim more: whether the order agrees with it, and whether it appends a write only once and after its call began. The
    /// content changes with the write, where it is `exact` so far and the write is such a one. An error means that memory ran out.
    pub fn take(
        &mut self,
        file: u64,
        calls: &Calls,
        claim: Option<Claim>,
        exact: bool,
    ) -> Result<(bool, bool), AllocError>
        ensures stripe { self.new.stripe ≡ self.old.stripe }
        ensures ids { OnOk result (self.new.order.ids.items ≡
            order_by self.old.order.ids.items (option_map claim_of claim)) }
        ensures set { OnOk result (IsSetOf self.old.order.set.set self.old.order.ids.items →
            IsSetOf self.new.order.set.set self.new.order.ids.items) }
        ensures order { IfOk result (λ fits. fits.0 ≡
            fits_order self.old.order.ids.items (option_map claim_of claim)) }
        ensures once { IfOk result (λ fits.
            IsSetOf self.old.order.set.set self.old.order.ids.items →
            fits.1 ≡ fits_once file self.old.order.ids.items
            (λ id. call_in calls.now.rows id) (option_map claim_of claim)) }
        ensures content { IfOk result (λ fits. exact ≡ true → fits.1 ≡ true →
            (bytes : List ℕ) → Tells self.old.content.size self.old.content.written bytes →
            Tells self.new.content.size self.new.content.written
            (content_then self.old.stripe file self.old.order.ids.items
            (λ id. call_in calls.now.rows id) bytes (option_map claim_of claim))) }
    {
        let Some(claim) = claim else {
            return Ok((true, true));
        };
        let once = self.is_once(file, calls, claim);
        if exact && once && self.order.is_next(claim.count) {
            change_by(&mut self.content, file, self.stripe, calls.get(claim.id))?;
        }
        let fits = self.order.take(claim)?;
        Ok((fits, once))
    }
}
