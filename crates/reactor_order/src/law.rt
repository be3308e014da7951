//! The law that modules have one order at most, each after its upstreams, and else a cycle.

ghost use Rattle.std.specs.Prelude.{◌≡◌, ◌↔◌, ℕ, List, Ok, Err};
ghost use Rattle.reactor_order.specs.Cycle.{order};
ghost use Rattle.reactor_order.specs.Graph.{AreEdgesBelow, Edges};
ghost use Rattle.reactor_order.specs.Laws.{HasEachOnce, HasUpstreamsBefore, IsCycle, IsOrder};

/// A law of `order`: it gives a list exactly where each place of the list has the earliest module that isn't before
/// it and whose upstreams are, and all have a place. So there is one such list at most; each module stands in it
/// once, and after its upstreams. Where there is none, the list is a cycle: each module has the next as an upstream,
/// and the last the first. It does nothing when it runs.
pub fn one_order()
    ensures exactly { (n : ℕ) (edges : Edges) (list : List ℕ) →
        (order n edges ≡ Ok list) ↔ IsOrder n edges list }
    ensures once { (n : ℕ) (edges : Edges) (list : List ℕ) → IsOrder n edges list →
        HasEachOnce n list }
    ensures before { (n : ℕ) (edges : Edges) (list : List ℕ) → IsOrder n edges list →
        HasUpstreamsBefore edges list }
    ensures cycle { (n : ℕ) (edges : Edges) (list : List ℕ) → AreEdgesBelow n edges →
        order n edges ≡ Err list → IsCycle edges list }
{}
