//! Checks that all numbers of edges or of a list are below the number of modules.

ghost use Rattle.std.specs.Prelude.{◌≡◌, ◌↔◌, true};
ghost use Rattle.reactor_order.specs.Graph.{AreBelow, AreEdgesBelow};

/// Whether all edges are between modules below `n`. Costs the edges.
pub fn edges_below(n: u32, edges: &[(u32, u32)]) -> bool
    ensures { (result ≡ true) ↔ AreEdgesBelow n edges.now }
{
    for (m, upstream) in edges {
        if *m >= n || *upstream >= n {
            return false;
        }
    }
    true
}

/// Whether all modules are below `n`. Costs their number.
pub fn modules_below(n: u32, modules: &[u32]) -> bool
    ensures { (result ≡ true) ↔ AreBelow n modules.now }
{
    for m in modules {
        if *m >= n {
            return false;
        }
    }
    true
}
