//! For each selected module, the selected modules on which it stands.

ghost use Rattle.std.specs.Prelude.{◌≡◌, ℕ, ◌<◌, false, [], ◌∷◌, ◌++◌, get_or, length, map, IfOk, OnOk};
ghost use Rattle.reactor_order.specs.Graph.{AreBelow, AreEdgesBelow, Edges, IsGraph, has, upstreams};
ghost use Rattle.reactor.specs.Upstreams.{all_upstreams, places_from, upstream_places};

use mvn_shared::{List, Mem};
use std::alloc::Global;

// A list of so many empty lists.
fn empty_lists(alloc: Global, n: u32) -> Mem<Vec<List<u32>>>
    ensures { IfOk result (λ lists. IsGraph n [] lists.items) }
{
    let mut lists = Vec::with_capacity(alloc, n as usize)?;
    for _ in 0..n {
        lists.push(List::new(alloc))?;
    }
    Ok(lists)
}

// One edge more.
fn add_edge(lists: &mut Vec<List<u32>>, m: u32, upstream: u32) -> Mem<()>
    requires m { m < length lists.old.items }
    requires upstream { upstream < length lists.old.items }
    ensures { (n : ℕ) (edges : Edges) → IsGraph n edges lists.old.items →
        OnOk result (IsGraph n (edges ++ (m, upstream) ∷ []) lists.new.items) }
{
    lists[m as usize].push(upstream)?;
    Ok(())
}

// The upstreams of each module.
fn lists_of(alloc: Global, n: u32, edges: &[(u32, u32)]) -> Mem<Vec<List<u32>>>
    requires { AreEdgesBelow n edges.now }
    ensures { IfOk result (λ lists. IsGraph n edges.now lists.items) }
{
    let mut lists = empty_lists(alloc, n)?;
    for (m, upstream) in edges {
        add_edge(&mut lists, *m, *upstream)?;
    }
    Ok(lists)
}

// Marks of some numbers.
#[tactic(auto, using(crate::proofs::Marks::one_marked, reactor_order::proofs::Marking::below_at))]
fn marks_of(alloc: Global, n: u32, numbers: &[u32]) -> Mem<Vec<bool>>
    requires { AreBelow n numbers.now }
    ensures { IfOk result (λ marks. (m : ℕ) → get_or marks.items m false ≡ has numbers.now m) }
{
    let mut marks = vec![in alloc; false; n as usize]?;
    for m in numbers {
        marks[*m as usize] = true;
    }
    Ok(marks)
}

// Whether a number is marked.
fn is_marked(marks: &[bool], m: u32) -> bool
    ensures { result ≡ get_or marks.now m false }
{
    match marks.get(m as usize) {
        Some(mark) => *mark,
        None => false,
    }
}

// The places of marked numbers.
fn marked_places(alloc: Global, marks: &[bool], numbers: &[u32]) -> Mem<List<u32>>
    requires { length numbers.now < 4294967296 }
    ensures { IfOk result (λ places. places
        ≡ places_from (λ m. get_or marks.now m false) 0 numbers.now) }
{
    let mut places = List::new(alloc);
    for place in 0..numbers.len() {
        if is_marked(marks, numbers[place]) {
            places.push(place as u32)?;
        }
    }
    Ok(places)
}

// The places of those of the selected modules that a module has as upstreams.
fn places_of(alloc: Global, n: u32, upstreams: &[u32], selected: &[u32]) -> Mem<List<u32>>
    requires upstreams { AreBelow n upstreams.now }
    requires few { length selected.now < 4294967296 }
    ensures { IfOk result (λ places. places ≡ places_from (has upstreams.now) 0 selected.now) }
{
    let marks = marks_of(alloc, n, upstreams)?;
    marked_places(alloc, &marks, selected)
}

// The places of the selected modules that a module of these lists has as upstreams.
#[tactic(auto, unfolding(crate::specs::Upstreams::upstream_places))]
fn places_at(alloc: Global, n: u32, lists: &[List<u32>], selected: &[u32], m: u32) -> Mem<List<u32>>
    requires few { length selected.now < 4294967296 }
    requires below { m < n }
    requires long { length lists.now ≡ n }
    requires lists { (k : ℕ) → AreBelow n (get_or lists.now k []) }
    ensures { (edges : Edges) → IsGraph n edges lists.now →
        IfOk result (λ places. places ≡ upstream_places edges selected.now m) }
{
    places_of(alloc, n, lists[m as usize].as_slice(), selected)
}

// The places, for each selected module, of the selected modules that it has as upstreams.
fn places_of_all(
    alloc: Global,
    n: u32,
    lists: &[List<u32>],
    selected: &[u32],
) -> Mem<List<List<u32>>>
    requires few { length selected.now < 4294967296 }
    requires below { AreBelow n selected.now }
    requires long { length lists.now ≡ n }
    requires lists { (k : ℕ) → AreBelow n (get_or lists.now k []) }
    ensures { (edges : Edges) → IsGraph n edges lists.now →
        IfOk result (λ all. all ≡ all_upstreams edges selected.now) }
{
    let mut all = List::new(alloc);
    for m in selected {
        all.push(places_at(alloc, n, lists, selected, *m)?)?;
    }
    Ok(all)
}

/// For each selected module the places of the selected modules on which it stands by an edge, ascending. Edges are a module and an
/// upstream. Costs the edges, and the square of the selected modules in marks. Guide to Working with Multiple Modules, "Reactor Sorting".
pub(crate) fn all_upstreams(
    alloc: Global,
    n: u32,
    edges: &[(u32, u32)],
    selected: &[u32],
) -> Mem<List<List<u32>>>
    requires few { length selected.now < 4294967296 }
    requires below { AreBelow n selected.now }
    requires edges { AreEdgesBelow n edges.now }
    ensures { IfOk result (λ all. all ≡ all_upstreams edges.now selected.now) }
{
    let lists = lists_of(alloc, n, edges)?;
    places_of_all(alloc, n, &lists, selected)
}
