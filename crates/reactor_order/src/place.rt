//! Places modules one after another, each time the earliest whose upstreams are all placed.

ghost use Rattle.std.specs.Prelude.{◌≡◌, ℕ, ◌==◌, ◌&&◌, nat_lt, [], length, map, get_or, IfOk, OnOk};
ghost use Rattle.reactor_order.specs.Graph.{flipped, upstreams, AreBelow, AreEdgesBelow, IsGraph};
ghost use Rattle.reactor_order.specs.Ready.{is_in};
ghost use Rattle.reactor_order.specs.Order.{all_placed, next_module, with_next};
ghost use Rattle.reactor_order.specs.Waiting.{IsPlacing};

use crate::graph::Graph;
use crate::ready::{put, take_least};
use crate::waiting::release;
use mvn_shared::{List, Mem};
use std::alloc::Global;
use std::collections::BTreeSet;

/// Modules that are placed one after another.
#[derive(Drop)]
pub struct Placing<'a> {
    pub(crate) n: u32,
    pub(crate) edges: &'a [(u32, u32)],
    // for each module what stands on it
    downstreams: Graph,
    pub(crate) placed: Vec<u32>,
    waits: Vec<usize>,
    ready: BTreeSet<u32>,
}

impl<'a> Placing<'a> {
    // Places the earliest that can follow, if there is one, and answers it.
    fn turn(&mut self) -> Mem<Option<u32>>
        requires placing { IsPlacing self.old.n self.old.edges.now self.old.placed.items
            self.old.waits.items self.old.ready }
        requires downstreams { IsGraph self.old.n
            (flipped self.old.edges.now) self.old.downstreams.lists.items }
        ensures number { self.new.n ≡ self.old.n }
        ensures edges { self.new.edges.now ≡ self.old.edges.now }
        ensures next { IfOk result (λ next.
            next ≡ next_module self.old.n self.old.edges.now self.old.placed.items) }
        ensures placed { IfOk result (λ next.
            self.new.placed.items ≡ with_next self.old.placed.items next) }
        ensures placing { OnOk result
            (IsPlacing self.old.n self.old.edges.now self.new.placed.items self.new.waits.items
            self.new.ready) }
        ensures downstreams { IsGraph self.old.n
            (flipped self.old.edges.now) self.new.downstreams.lists.items }
    {
        let Some(m) = take_least(&mut self.ready) else {
            return Ok(None);
        };
        self.placed.push(m)?;
        release(
            &mut self.waits,
            &mut self.ready,
            self.downstreams.lists[m as usize].as_slice(),
        )?;
        Ok(Some(m))
    }

    // Before the first is placed.
    fn new(alloc: Global, n: u32, edges: &'a [(u32, u32)]) -> Mem<Placing<'a>>
        requires { AreEdgesBelow n edges.now }
        ensures number { IfOk result (λ p. p.n ≡ n) }
        ensures edges { IfOk result (λ p. p.edges.now ≡ edges.now) }
        ensures none { IfOk result (λ p. p.placed.items ≡ []) }
        ensures placing { IfOk result (λ p. IsPlacing n edges.now [] p.waits.items p.ready) }
        ensures downstreams { IfOk result (λ p.
            IsGraph n (flipped edges.now) p.downstreams.lists.items) }
    {
        let downstreams = Graph::of(alloc, n, &flipped(alloc, n, edges)?)?;
        let waits = waits(alloc, n, edges)?;
        let ready = ready_modules(alloc, n, &waits)?;
        Ok(Placing {
            n,
            edges,
            downstreams,
            placed: Vec::new(alloc),
            waits,
            ready,
        })
    }

    /// All modules that can be placed, the earliest that can follow each time. Costs the modules and the edges, and the
    /// logarithm of the number of modules for each module.
    pub(crate) fn all(alloc: Global, n: u32, edges: &'a [(u32, u32)]) -> Mem<Placing<'a>>
        requires { AreEdgesBelow n edges.now }
        ensures placed { IfOk result (λ p. p.placed.items ≡ all_placed n edges.now) }
        ensures below { IfOk result (λ p. AreBelow n p.placed.items) }
    {
        let mut placing = Placing::new(alloc, n, edges)?;
        let mut left = n;
        while left > 0 {
            let Some(_) = placing.turn()? else {
                return Ok(placing);
            };
            left -= 1;
        }
        Ok(placing)
    }
}

/// Each edge the other way round. Costs the edges.
pub(crate) fn flipped(alloc: Global, n: u32, edges: &[(u32, u32)]) -> Mem<Vec<(u32, u32)>>
    requires { AreEdgesBelow n edges.now }
    ensures value { IfOk result (λ turned. turned.items ≡ flipped edges.now) }
    ensures below { IfOk result (λ turned. AreEdgesBelow n turned.items) }
{
    let mut turned = Vec::with_capacity(alloc, edges.len())?;
    for (m, upstream) in edges {
        turned.push((*upstream, *m))?;
    }
    Ok(turned)
}

// How long each list is.
fn lengths(alloc: Global, lists: &[List<u32>]) -> Mem<Vec<usize>>
    ensures { IfOk result (λ lengths. lengths.items ≡ map length lists.now) }
{
    let mut lengths = Vec::with_capacity(alloc, lists.len())?;
    for list in lists {
        lengths.push(list.len())?;
    }
    Ok(lengths)
}

// How many upstreams each module has.
fn waits(alloc: Global, n: u32, edges: &[(u32, u32)]) -> Mem<Vec<usize>>
    requires { AreEdgesBelow n edges.now }
    ensures long { IfOk result (λ waits. length waits.items ≡ n) }
    ensures each { IfOk result (λ waits. (m : ℕ) →
        get_or waits.items m 0 ≡ length (upstreams edges.now m)) }
{
    let graph = Graph::of(alloc, n, edges)?;
    let waits = lengths(alloc, &graph.lists)?;
    Ok(waits)
}

// The modules that wait for none.
fn ready_modules(alloc: Global, n: u32, waits: &[usize]) -> Mem<BTreeSet<u32>>
    requires { length waits.now ≡ n }
    ensures { IfOk result (λ ready. (m : ℕ) →
        is_in ready m ≡ (nat_lt m n && (get_or waits.now m 0 == 0))) }
{
    let mut ready = BTreeSet::new(alloc);
    for m in 0..n {
        if waits[m as usize] == 0 {
            put(&mut ready, m)?;
        }
    }
    Ok(ready)
}
