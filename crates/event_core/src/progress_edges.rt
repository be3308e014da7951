// For each module the modules that have it as an upstream.
ghost use Rattle.std.specs.Prelude.{◌≡◌, ℕ, ◌<◌, ◌∷◌, ◌++◌, [], ◌&&◌, ◌||◌, nat_eq, nat_lt, length, map, replicate, get_or, slice_get, slice_set, slice_index_or, IfOk, OnOk};
ghost use Rattle.scripts.specs.declared.outline.ModuleOutline.{ModuleOutline};
ghost use Rattle.event_core.specs.HowFar.{is_this};
ghost use Rattle.event_core.specs.Fronts.{AreEdges, has_edge};

use mvn_shared::{List, Mem};
use scripts::outline::ModuleOutline;
use std::alloc::Global;

/// A module that has another as an upstream, at this place of its list.
#[derive(Clone, Copy)]
pub struct Edge {
    pub module: usize,
    pub place: usize,
}

fn upstream_of(module: &ModuleOutline) -> Mem<List<u32>>
    ensures { IfOk result (λ list. list ≡ «module».now.upstream) }
{
    let list = module.upstream.clone()?;
    Ok(list)
}

/// The upstreams of each module.
pub(crate) fn upstreams(alloc: Global, modules: &[ModuleOutline]) -> Mem<Vec<List<u32>>>
    ensures { IfOk result (λ lists. lists.items
        ≡ map (λ (m : ModuleOutline). m.upstream) modules.now) }
{
    let mut lists = Vec::with_capacity(alloc, modules.len())?;
    for at in 0..modules.len() {
        lists.push(upstream_of(&modules[at])?)?;
    }
    Ok(lists)
}

fn no_edges(alloc: Global, count: usize) -> Mem<Vec<List<Edge>>>
    ensures { IfOk result (λ edges. edges.items ≡ replicate count []) }
{
    let mut edges = Vec::with_capacity(alloc, count)?;
    for _module in 0..count {
        edges.push(List::new(alloc))?;
    }
    Ok(edges)
}

// An edge more of this module, if there is one of this number.
fn add_edge(edges: &mut Vec<List<Edge>>, to: u32, edge: Edge) -> Mem<()>
    ensures { OnOk result (edges.new.items
        ≡ slice_set edges.old.items to (slice_index_or edges.old.items to [] ++ edge ∷ [])) }
{
    if (to as usize) < edges.len() {
        edges[to as usize].push(edge)?;
    }
    Ok(())
}

// The edges of one module's upstreams more.
fn add_edges(edges: &mut Vec<List<Edge>>, module: usize, upstream: &[u32]) -> Mem<()>
    ensures length { OnOk result (length edges.new.items ≡ length edges.old.items) }
    ensures more { OnOk result ((m k place : ℕ) → m < length edges.old.items
        → has_edge k place (get_or edges.new.items m [])
        ≡ (has_edge k place (get_or edges.old.items m []) ||
        (nat_eq «module» k && is_this (slice_get upstream.now place) m))) }
{
    for place in 0..upstream.len() {
        add_edge(edges, upstream[place], Edge { module, place })?;
    }
    Ok(())
}

/// For each module where it is an upstream. Costs the lists.
pub(crate) fn edges_of(alloc: Global, upstream: &[List<u32>]) -> Mem<Vec<List<Edge>>>
    ensures length { IfOk result (λ edges. length edges.items ≡ length upstream.now) }
    ensures edges { IfOk result (λ edges. AreEdges upstream.now edges.items) }
{
    let mut edges = no_edges(alloc, upstream.len())?;
    for at in 0..upstream.len() {
        add_edges(&mut edges, at, upstream[at].as_slice())?;
    }
    Ok(edges)
}
