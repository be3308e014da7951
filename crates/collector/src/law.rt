//! Laws of nearest wins: of each key the shortest path wins, and of those the first declared.

ghost use Rattle.std.specs.Prelude.{◌≡◌, ℕ, suc, find, All, AllPairs, Some, ◌∷◌, []};
ghost use Rattle.std.specs.Prelude.{List as Items};
ghost use Rattle.collector.specs.Edges.{direct_edges, transitive_edges};
ghost use Rattle.collector.specs.declared.edge.Edge.{Edge};
ghost use Rattle.model_types.specs.declared.dependency.Dependency.{Dependency};
ghost use Rattle.model_types.specs.declared.dependency.Exclusion.{Exclusion};
ghost use Rattle.mvn_base.specs.declared.key.Key.{Key};
ghost use Rattle.model_merge.specs.Keyed.{same_key};
ghost use Rattle.collector.specs.Example.{base_one, example, near, web};
ghost use Rattle.collector.specs.Winners.{Ascends, Before, Graph, IsAtMost, IsOrdered, Path, SharesNone, counting, winner_of, winners};

/// What holds of winners. The winner of a key is the first of its counting paths; these stand by length, and then by
/// the positions on them, so the winner is the least: none is shorter, and none of its length is declared before it. No
/// two winners have one key. A project's own declaration wins, the first of its key. Introduction to the Dependency
/// Mechanism, "Dependency mediation".
pub fn nearest_and_first()
    ensures first { (graph : Graph) (n : ℕ) (key : Key)
        → winner_of (winners graph n) key ≡ winner_of (counting graph n) key }
    ensures ascending { (graph : Graph) (n : ℕ)
        → IsOrdered graph → AllPairs Before (counting graph n) }
    ensures least { (graph : Graph) (n : ℕ) (key : Key) (w : Path) → IsOrdered graph
        → winner_of (winners graph n) key ≡ Some w → All (IsAtMost key w) (counting graph n) }
    ensures one { (graph : Graph) (n : ℕ) → SharesNone (winners graph n) }
    ensures direct { (graph : Graph) (n : ℕ) (key : Key) (e : Edge)
        → find (λ f. same_key key f.key) graph.direct ≡ Some e
        → winner_of (winners graph (suc n)) key ≡ Some (e ∷ []) }
{}

/// What a POM's dependencies lead to stands in the order of its declarations, as the laws of winners want it.
pub fn declarations_ascend()
    ensures direct { (dependencies : Items Dependency) → Ascends (direct_edges dependencies) }
    ensures transitive { (dependencies : Items Dependency) (managed : Items (Key × Dependency))
        (cut : Items Exclusion) → Ascends (transitive_edges dependencies managed cut) }
{}

/// An example: a project needs `web` and `near`; both need `base`, `web` with 1 and `near` with 2, and only `base` 2
/// needs `far`. Of the two that are equally near the first declaration wins, and `far` isn't there.
pub fn first_declaration_wins()
    ensures { winners example 3 ≡ (web ∷ []) ∷ (near ∷ []) ∷ (base_one ∷ web ∷ []) ∷ [] }
{}
