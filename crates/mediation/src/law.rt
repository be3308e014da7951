//! A law of the winners as they are found: nearest wins over the libraries there are.

ghost use Rattle.std.specs.Prelude.{◌≡◌, find, Some, ◌∷◌, []};
ghost use Rattle.std.specs.Prelude.{List as Items};
ghost use Rattle.collector.specs.Edges.{direct_edges};
ghost use Rattle.collector.specs.declared.edge.Edge.{Edge};
ghost use Rattle.model_types.specs.declared.dependency.Dependency.{Dependency};
ghost use Rattle.mvn_base.specs.declared.key.Key.{Key};
ghost use Rattle.model_merge.specs.Keyed.{same_key};
ghost use Rattle.collector.specs.Winners.{winner_of};
ghost use Rattle.mediation.specs.declared.winner.Winner.{Winner};
ghost use Rattle.mediation.specs.Counting.{IsMediated};
ghost use Rattle.mediation.specs.Libraries.{Libraries, graph_of};
ghost use Rattle.mediation.specs.Rows.{IsWhole, paths_of};

/// What holds of all winners of a project, as they are found. Each path that counts ends at a key that has a winner.
/// The winner's path counts too, and is the least: no path that counts for the key is shorter, and none of its length
/// is declared before it. No two winners have one key. A project's own declaration wins, the first of its key. It does
/// nothing when it runs. Introduction to the Dependency Mechanism, "Dependency mediation".
pub fn nearest_wins()
    ensures mediated { (libraries : Libraries) (managed : Items (Key × Dependency))
        (direct : Items Dependency) (rows : Items Winner)
        → IsWhole libraries (graph_of libraries managed direct) rows
        → IsMediated (graph_of libraries managed direct) (paths_of rows) }
    ensures direct { (libraries : Libraries) (managed : Items (Key × Dependency))
        (direct : Items Dependency) (rows : Items Winner)
        → IsWhole libraries (graph_of libraries managed direct) rows → (key : Key) (e : Edge)
        → find (λ f. same_key key f.key) (direct_edges direct) ≡ Some e
        → winner_of (paths_of rows) key ≡ Some (e ∷ []) }
{}
