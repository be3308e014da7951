//! Keeps the firm edges, and the soft edges that close no cycle.

ghost use Rattle.std.specs.Prelude.{◌≡◌, ◌<◌, IfOk, OnOk};
ghost use Rattle.reactor_order.specs.Graph.{AreEdgesBelow};
ghost use Rattle.reactor_order.specs.Keep.{Keeps, Tries};
ghost use Rattle.reactor_order.specs.Rows.{IsReachability};

use crate::reachability::Reachability;
use mvn_shared::{List, Mem};
use std::alloc::Global;

// One soft edge: it is kept, unless one comes from its upstream to its module.
fn try_edge(
    alloc: Global,
    reach: &mut Reachability,
    kept: &mut Vec<(u32, u32)>,
    m: u32,
    upstream: u32,
) -> Mem<()>
    requires m { m < reach.old.n }
    requires upstream { upstream < reach.old.n }
    requires reach { IsReachability reach.old.n kept.old.items
        reach.old.ups.items reach.old.downs.items }
    ensures number { reach.new.n ≡ reach.old.n }
    ensures reach { OnOk result (IsReachability reach.old.n kept.new.items
        reach.new.ups.items reach.new.downs.items) }
    ensures step { OnOk result (Tries kept.old.items (m, upstream) kept.new.items) }
{
    if reach.leads(upstream, m) {
        return Ok(());
    }
    reach.add(alloc, m, upstream)?;
    kept.push((m, upstream))?;
    Ok(())
}

/// The firm edges, and then each soft one, in order, that closes no cycle with the edges before it. Edges are a module and
/// an upstream, each below `n`. Costs constant time for each edge; a sixty-fourth of the modules for each edge over which one comes to a
/// module for the first time, and for each two modules of which one comes to lead to the other; and twice the square of the modules in
/// bits, which is 256 KiB for the 1,024 modules that a project has at most. Project rule.
pub fn keep(
    alloc: Global,
    n: u32,
    firm: &[(u32, u32)],
    soft: &[(u32, u32)],
) -> Mem<List<(u32, u32)>>
    requires firm { AreEdgesBelow n firm.now }
    requires soft { AreEdgesBelow n soft.now }
    ensures { IfOk result (λ kept. Keeps firm.now soft.now kept) }
{
    let mut reach = Reachability::of(alloc, n, firm)?;
    let mut kept = Vec::from_slice(alloc, firm)?;
    for (m, upstream) in soft {
        try_edge(alloc, &mut reach, &mut kept, *m, *upstream)?;
    }
    Ok(List::of(kept))
}
