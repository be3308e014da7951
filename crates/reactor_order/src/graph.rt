//! The upstreams of each module as lists, and which modules one reaches over them.

ghost use Rattle.std.specs.Prelude.{◌≡◌, ℕ, ◌<◌, [], ◌∷◌, ◌++◌, length, get_or, IfOk, OnOk};
ghost use Rattle.reactor_order.specs.Graph.{AreBelow, AreEdgesBelow, Edges, IsGraph, upstreams};
ghost use Rattle.reactor_order.specs.Marks.{AreFree, AreReached, IsMarked};

use crate::marks::Marks;
use mvn_shared::{List, Mem};
use std::alloc::Global;

/// The upstreams of each module, in the order of the edges.
#[derive(Drop)]
pub struct Graph {
    pub(crate) lists: Vec<List<u32>>,
}

impl Graph {
    // No edges between so many modules.
    fn new(alloc: Global, n: u32) -> Mem<Graph>
        ensures { IfOk result (λ graph. IsGraph n [] graph.lists.items) }
    {
        let mut lists = Vec::with_capacity(alloc, n as usize)?;
        for _ in 0..n {
            lists.push(List::new(alloc))?;
        }
        Ok(Graph { lists })
    }

    /// One edge more. Constant time on the average.
    pub(crate) fn add(&mut self, m: u32, upstream: u32) -> Mem<()>
        requires m { m < length self.old.lists.items }
        requires upstream { upstream < length self.old.lists.items }
        ensures { (n : ℕ) (edges : Edges) → IsGraph n edges self.old.lists.items →
            OnOk result (IsGraph n (edges ++ (m, upstream) ∷ []) self.new.lists.items) }
    {
        self.lists[m as usize].push(upstream)?;
        Ok(())
    }

    /// The graph of these edges, which are a module and an upstream, each below `n`. Costs the modules and the edges.
    pub(crate) fn of(alloc: Global, n: u32, edges: &[(u32, u32)]) -> Mem<Graph>
        requires { AreEdgesBelow n edges.now }
        ensures { IfOk result (λ graph. IsGraph n edges.now graph.lists.items) }
    {
        let mut graph = Graph::new(alloc, n)?;
        for (m, upstream) in edges {
            graph.add(*m, *upstream)?;
        }
        Ok(graph)
    }

    /// Marks the modules that one comes to from these over upstreams, where none is marked. Costs what is marked and the
    /// edges there.
    pub(crate) fn reach(&self, marks: &mut Marks, starts: &[u32]) -> Mem<()>
        requires graph { (m : ℕ) →
            AreBelow (length self.now.lists.items) (get_or self.now.lists.items m []) }
        requires free { AreFree
            (length self.now.lists.items) marks.old.marks.items marks.old.found.items }
        requires starts { AreBelow (length self.now.lists.items) starts.now }
        ensures marked { OnOk result (IsMarked marks.new.marks.items marks.new.found.items) }
        ensures reached { (n : ℕ) (edges : Edges) → IsGraph n edges self.now.lists.items →
            OnOk result (AreReached (upstreams edges) starts.now n marks.new.marks.items) }
    {
        reach(&self.lists, marks, starts)?;
        Ok(())
    }

    /// Which modules one comes to from these over upstreams. Costs the modules and the edges.
    pub(crate) fn reached(&self, alloc: Global, starts: &[u32]) -> Mem<Vec<bool>>
        requires graph { (m : ℕ) →
            AreBelow (length self.now.lists.items) (get_or self.now.lists.items m []) }
        requires starts { AreBelow (length self.now.lists.items) starts.now }
        ensures { (n : ℕ) (edges : Edges) → IsGraph n edges self.now.lists.items →
            IfOk result (λ marks. AreReached (upstreams edges) starts.now n marks.items) }
    {
        let mut marks = Marks::new(alloc, self.lists.len())?;
        self.reach(&mut marks, starts)?;
        Ok(marks.marks)
    }
}

// Marks the modules that one comes to from these over what stands next.
fn reach(next: &[List<u32>], marks: &mut Marks, starts: &[u32]) -> Mem<()>
    requires next { (m : ℕ) → AreBelow (length next.now) (get_or next.now m []) }
    requires free { AreFree (length next.now) marks.old.marks.items marks.old.found.items }
    requires starts { AreBelow (length next.now) starts.now }
    ensures marked { OnOk result (IsMarked marks.new.marks.items marks.new.found.items) }
    ensures reached { OnOk result
        (AreReached (λ m. get_or next.now m []) starts.now
        (length next.now) marks.new.marks.items) }
{
    marks.mark_all(starts)?;
    let mut at = 0;
    while at < marks.found.len() {
        let m = marks.found[at] as usize;
        marks.mark_all(next[m].as_slice())?;
        at += 1;
    }
    Ok(())
}
