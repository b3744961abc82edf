//! The size of a file as reports give it: each size stands under the truncate epoch in which it was learnt.
//!
//! `merge` keeps the greater of two marks. Marks that are merged one by one come to the same mark in every order and
//! however often each is repeated, so that what the metadata server knows is the join of what was reported to it.
#![tactic(auto)]

ghost use Rattle.std.specs.Prelude.{◌≡◌, List};
ghost use Rattle.xt_base.specs.declared.ids.SizeMark.{SizeMark};
ghost use Rattle.truncate_epochs.specs.SizeMarks.{merged, joined, SameReports};

use xt_base::SizeMark;

/// The greater of two marks, by epoch and then size.
pub fn merge(a: SizeMark, b: SizeMark) -> SizeMark
    ensures { result ≡ merged a b }
{
    if a < b { b } else { a }
}

/// Merging is commutative, associative and idempotent.
pub fn merging_is_a_join()
    ensures either_first { (a b : SizeMark) → merged a b ≡ merged b a }
    ensures in_any_groups { (a b c : SizeMark) → merged (merged a b) c ≡ merged a (merged b c) }
    ensures once_or_twice { (a : SizeMark) → merged a a ≡ a }
{}

/// The same reports give the same mark, in every order and however often each comes.
pub fn order_of_reports_is_free()
    ensures { (mark : SizeMark) (one other : List SizeMark) → SameReports one other →
        joined mark one ≡ joined mark other }
{}
