//! The results of a function on the items of a list, in order, by as many threads as there are halves of halves.
#![tactic(auto)]

ghost use Rattle.std.specs.Prelude.{◌≡◌, ℕ, ◌+◌, ◌/◌, ◌≤◌, ◌<◌, ◌^◌, length, IfOk, map};
ghost use Rattle.std.specs.List.{AllZip};
ghost use Rattle.std.specs.Fn.{FnReturnsAt};
ghost use Rattle.std.specs.Thread.{IsSync, IsSend};

use std::alloc::{AllocError, Global};
use std::thread::{Threads, join};

/// How often the items are halved at most: into 64 parts.
const DEPTH: u32 = 6;

/// What is called as each item begins.
pub trait Gate: Sync {
    /// The item of this index, counted from 0, begins.
    fn begun(&self, index: u64);
}

/// A gate that does nothing.
pub struct NoGate;

impl Gate for NoGate {
    fn begun(&self, _index: u64) {}
}

/// A result of `f` for each item, in order, for every gate: the list that one thread gives. Each half has a thread of its own, where one
/// can be made, down to one item or to 64 parts. An error means that memory ran out.
pub fn map_halves<R: Threads + Sync, T: Sync, U: Send + Drop, F: Fn(&T) -> U + Sync, G: Gate>(
    rt: &R,
    alloc: Global,
    items: &[T],
    f: &F,
    gate: &G,
) -> Result<Vec<U>, AllocError>
    requires { F.IsAlwaysCallable f.now }
    ensures { IfOk result (λ given. AllZip (FnReturnsAt F.Fn f.now) items.now given.items) }
{
    halves(rt, alloc, items, 0, DEPTH, f, gate)
}

#[cycle(calls)]
fn halves<R: Threads + Sync, T: Sync, U: Send + Drop, F: Fn(&T) -> U + Sync, G: Gate>(
    rt: &R,
    alloc: Global,
    items: &[T],
    first: u64,
    depth: u32,
    f: &F,
    gate: &G,
) -> Result<Vec<U>, AllocError>
    requires callable { F.IsAlwaysCallable f.now }
    requires room { first + length items.now < 2 ^ 64 }
    ensures { IfOk result (λ given. AllZip (FnReturnsAt F.Fn f.now) items.now given.items) }
{
    if depth == 0 || items.len() < 2 {
        return in_turn(alloc, items, first, f, gate);
    }
    let half = items.len() / 2;
    let (front, back) = items.split_at(half);
    let then = first + half as u64;
    let one = move || -> Result<Vec<U>, AllocError>
        requires { IsSync R.row × IsSync T.row × IsSync F.row × IsSync G.row × IsSend U.row ×
            (0 < depth) × F.IsAlwaysCallable f.now × (first + length front.now < 2 ^ 64) }
        ensures { IfOk result (λ given.
            AllZip (FnReturnsAt F.Fn f.entry.now) front.entry.now given.items) }
    { halves(rt, alloc, front, first, depth - 1, f, gate) };
    let other = move || -> Result<Vec<U>, AllocError>
        requires { IsSync R.row × IsSync T.row × IsSync F.row × IsSync G.row × IsSend U.row ×
            (0 < depth) × F.IsAlwaysCallable f.now × (then + length back.now < 2 ^ 64) }
        ensures { IfOk result (λ given.
            AllZip (FnReturnsAt F.Fn f.entry.now) back.entry.now given.items) }
    { halves(rt, alloc, back, then, depth - 1, f, gate) };
    let (a, b) = join(rt, one, other);
    let mut all = a?;
    let mut rest = b?;
    all.append(&mut rest)?;
    Ok(all)
}

/// The same by one thread.
fn in_turn<T, U: Drop, F: Fn(&T) -> U, G: Gate>(
    alloc: Global,
    items: &[T],
    first: u64,
    f: &F,
    gate: &G,
) -> Result<Vec<U>, AllocError>
    requires callable { F.IsAlwaysCallable f.now }
    requires room { first + length items.now < 2 ^ 64 }
    ensures { IfOk result (λ given. AllZip (FnReturnsAt F.Fn f.now) items.now given.items) }
{
    let mut given = Vec::new(alloc);
    for i in 0..items.len() {
        gate.begun(first + i as u64);
        given.push(f(&items[i]))?;
    }
    Ok(given)
}

/// Half of each number: what a caller reads from the clause of `map_halves`, where its function has one result.
pub fn halved<R: Threads + Sync, G: Gate>(
    rt: &R,
    alloc: Global,
    items: &[u8],
    gate: &G,
) -> Result<Vec<u8>, AllocError>
    ensures { IfOk result (λ given. given.items ≡ map (λ x. x / 2) items.now) }
{
    map_halves(
        rt,
        alloc,
        items,
        &|x: &u8| -> u8
            ensures { result ≡ x.now / 2 }
        { *x / 2 },
        gate,
    )
}
