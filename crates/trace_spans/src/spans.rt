ghost use Rattle.std.specs.Prelude.{◌≡◌, ◌≤◌, ◌||◌, ◌&&◌, nat_le, nat_lt, ℕ, OnOk, IfOk, map, is_some};
ghost use Rattle.trace_spans.specs.Covering.{is_covered, Cover};

use std::alloc::Global;
use xt_base::OutOfMemory;

/// The entries from one place on, up to another, which isn't among them.
#[derive(Clone, Copy)]
pub struct Span {
    pub from: usize,
    pub to: usize,
}

/// Appends a span, where it has an entry.
fn note_span(spans: &mut Vec<Span>, from: usize, to: usize) -> Result<(), OutOfMemory>
    ensures { OnOk result ((k : ℕ) → is_covered k spans.new.items ≡
        (is_covered k spans.old.items || (nat_le from k && nat_lt k to))) }
{
    if from < to {
        spans.push(Span { from, to })?;
    }
    Ok(())
}

/// The spans of the places at which the flag is up, as long as they are.
pub fn spans_of(alloc: Global, flags: &[bool]) -> Result<Vec<Span>, OutOfMemory>
    ensures { IfOk result (λ spans. Cover flags.now spans.items) }
{
    let mut spans = Vec::new(alloc);
    let mut from = 0;
    for at in 0..flags.len() {
        if !flags[at] {
            note_span(&mut spans, from, at)?;
            from = at + 1;
        }
    }
    note_span(&mut spans, from, flags.len())?;
    Ok(spans)
}

/// Where there is a value.
pub fn are_told(alloc: Global, values: &[Option<u64>]) -> Result<Vec<bool>, OutOfMemory>
    ensures { IfOk result (λ flags. flags.items ≡ map is_some values.now) }
{
    let mut flags = Vec::with_capacity(alloc, values.len())?;
    for value in values {
        flags.push(value.is_some())?;
    }
    Ok(flags)
}
