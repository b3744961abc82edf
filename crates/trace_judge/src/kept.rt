ghost use Rattle.std.specs.Prelude.{◌≡◌, ◌≤◌, ◌<◌, ◌+◌, ◌-◌, ◌^◌, ◌&&◌, OnOk, option_map};
ghost use Rattle.time_line.specs.Verdicts.{Clause, number_of};
ghost use Rattle.judging.specs.Dealt.{advanced};
ghost use Rattle.judging.specs.Pass.{Kept, nothing, after, least_broken};
ghost use Rattle.trace_judge.specs.Following.{says_of, Follows};
ghost use Rattle.trace_judge.specs.Short.{ticks_after};

use crate::calls::Calls;
use crate::ends::{is_fresh, note_answer, note_end};
use crate::leases::Leases;
use crate::sets::{Answers, Ids};
use crate::told::{answer_on, claim_on, ok_told};
use crate::writes::Writes;
use std::alloc::{AllocError, Global};
use time_line::Entry;

/// The clauses that hold so far, by the numbers with which a verdict names them: 5, 6, 8, 9, 11 and 12.
#[derive(Clone, Copy)]
pub struct Says {
    pub apart: bool,
    pub acting: bool,
    pub one_order: bool,
    pub once: bool,
    pub shown: bool,
    pub fresh: bool,
}

impl Says {
    /// The clauses that hold by both.
    fn and(&self, other: &Says) -> Says
        ensures apart { result.apart ≡ (self.now.apart && other.now.apart) }
        ensures acting { result.acting ≡ (self.now.acting && other.now.acting) }
        ensures one_order { result.one_order ≡ (self.now.one_order && other.now.one_order) }
        ensures once { result.once ≡ (self.now.once && other.now.once) }
        ensures shown { result.shown ≡ (self.now.shown && other.now.shown) }
        ensures fresh { result.fresh ≡ (self.now.fresh && other.now.fresh) }
    {
        Says {
            apart: self.apart && other.apart,
            acting: self.acting && other.acting,
            one_order: self.one_order && other.one_order,
            once: self.once && other.once,
            shown: self.shown && other.shown,
            fresh: self.fresh && other.fresh,
        }
    }

    /// The number of the least clause that doesn't hold.
    pub fn least_broken(&self) -> Option<u8>
        ensures { result ≡ option_map number_of (least_broken (says_of self.now)) }
    {
        if !self.apart {
            Some(5)
        } else if !self.acting {
            Some(6)
        } else if !self.one_order {
            Some(8)
        } else if !self.once {
            Some(9)
        } else if !self.shown {
            Some(11)
        } else if !self.fresh {
            Some(12)
        } else {
            None
        }
    }
}

/// What is kept of the entries so far, as the judge of a replicated file needs it.
#[derive(Drop)]
pub struct Judging<'a> {
    pub leases: Leases,
    pub writes: Writes,
    pub calls: Calls<'a>,
    pub answers: Answers<'a>,
    pub ended: Ids,
    pub says: Says,
}

impl<'a> Judging<'a> {
    /// Nothing has been seen.
    pub fn new(alloc: Global, file: u64, drift: u64, stripe: u32) -> Judging<'a>
        ensures follows { Follows nothing result }
        ensures drift { result.leases.drift ≡ drift }
        ensures file { result.leases.readings.file ≡ file }
        ensures stripe { result.writes.stripe ≡ stripe }
        ensures ticks { result.leases.readings.ticks ≡ 0 }
    {
        Judging {
            leases: Leases::new(alloc, file, drift),
            writes: Writes::new(alloc, stripe),
            calls: Calls::new(alloc),
            answers: Answers::new(alloc),
            ended: Ids::new(alloc),
            says: Says {
                apart: true,
                acting: true,
                one_order: true,
                once: true,
                shown: true,
                fresh: true,
            },
        }
    }

    /// The running clocks have advanced so far since the start, in milliseconds.
    pub fn advance(&mut self, ticks: u128)
        requires { self.old.leases.readings.ticks ≤ ticks }
        ensures follows { (k : Kept) → Follows k self.old →
            Follows (advanced (ticks - self.old.leases.readings.ticks) k) self.new }
        ensures drift { self.new.leases.drift ≡ self.old.leases.drift }
        ensures file { self.new.leases.readings.file ≡ self.old.leases.readings.file }
        ensures stripe { self.new.writes.stripe ≡ self.old.writes.stripe }
        ensures ticks { self.new.leases.readings.ticks ≡ ticks }
    {
        self.leases.readings.ticks = ticks;
    }

    /// One entry more. An error means that memory ran out.
    pub fn take(&mut self, e: &'a Entry) -> Result<(), AllocError>
        requires room { self.old.leases.readings.ticks + 2 ^ 67 < 2 ^ 128 }
        ensures follows { OnOk result ((k : Kept) → Follows k self.old →
            Follows (after self.old.leases.drift self.old.writes.stripe
            self.old.leases.readings.file k e.now)
            self.new) }
        ensures drift { self.new.leases.drift ≡ self.old.leases.drift }
        ensures file { self.new.leases.readings.file ≡ self.old.leases.readings.file }
        ensures stripe { self.new.writes.stripe ≡ self.old.writes.stripe }
        ensures ticks { OnOk result (self.new.leases.readings.ticks ≡
            ticks_after self.old.leases.readings.ticks e.now) }
    {
        let file = self.leases.readings.file;
        let end = ok_told(e);
        let answer = answer_on(file, e);
        let acting = self.leases.lets(e);
        let fresh = is_fresh(&self.answers, &self.ended, file, &self.calls, end, e);
        let shown = self.writes.shows_any(file, &self.calls, answer);
        let exact = self.says.once;
        let (one_order, once) = self
            .writes
            .take(file, &self.calls, claim_on(file, e), exact)?;
        note_answer(&mut self.answers, file, &self.calls, answer)?;
        note_end(&mut self.ended, end)?;
        self.calls.take(e)?;
        let apart = self.leases.take(e)?;
        self.says = self.says.and(&Says {
            apart,
            acting,
            one_order,
            once,
            shown,
            fresh,
        });
        Ok(())
    }
}
