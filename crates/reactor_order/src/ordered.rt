//! Orders modules, or answers the cycle that keeps them from having an order.

ghost use Rattle.std.specs.Prelude.{◌≡◌, Ok, IfOk};
ghost use Rattle.std.specs.Result.{IfErr};
ghost use Rattle.reactor_order.specs.Answers.{Refuses};
ghost use Rattle.reactor_order.specs.Cycle.{order};
ghost use Rattle.reactor_order.specs.Graph.{AreEdgesBelow};

use crate::cycle::cycle;
use crate::error::{Cycle, OrderError};
use crate::place::Placing;
use mvn_shared::List;
use std::alloc::Global;

/// The modules below `n` in the order in which they are built: each time the earliest whose upstreams stand before it; or
/// the cycle that keeps one from being placed. Edges are a module and an upstream, each below `n`. Costs the modules and
/// the edges, and the logarithm of the number of modules for each module. Guide to Working with Multiple Modules, "Reactor
/// Sorting".
#[tactic(auto, unfolding(crate::specs::Cycle::order))]
pub fn order(alloc: Global, n: u32, edges: &[(u32, u32)]) -> Result<List<u32>, OrderError>
    requires { AreEdgesBelow n edges.now }
    ensures value { IfOk result (λ list. order n edges.now ≡ Ok list) }
    ensures cycle { IfErr result (λ error. Refuses error (order n edges.now)) }
{
    let placed = Placing::all(alloc, n, edges)?.placed;
    if placed.len() == n as usize {
        return Ok(List::of(placed));
    }
    let list = List::of(cycle(alloc, n, edges, &placed)?);
    Err(OrderError::Cycle(Cycle { list }))
}
