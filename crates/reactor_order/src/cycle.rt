//! Finds the cycle of modules that keeps the rest from being placed.

ghost use Rattle.std.specs.Prelude.{◌≡◌, ℕ, ◌<◌, [], false, not, List, length, get_or, find, IfOk, IfSome};
ghost use Rattle.reactor_order.specs.Graph.{has, AreBelow, AreEdgesBelow, Edges};
ghost use Rattle.reactor_order.specs.Cycle.{cycle_of, from_first, walk};
ghost use Rattle.reactor_order.specs.Order.{numbers};
ghost use Rattle.reactor_order.specs.Walking.{earlier, Goes};

use crate::marks::Marks;
use mvn_shared::Mem;
use std::alloc::Global;

// Each module's own number.
fn themselves(alloc: Global, n: u32) -> Mem<Vec<u32>>
    ensures long { IfOk result (λ list. length list.items ≡ n) }
    ensures each { IfOk result (λ list. (k : ℕ) → k < n → get_or list.items k 0 ≡ k) }
{
    let mut list = Vec::with_capacity(alloc, n as usize)?;
    for m in 0..n {
        list.push(m)?;
    }
    Ok(list)
}

// Where one goes from each module: to its earliest upstream, other than itself, that is not placed, or to itself.
fn nexts(alloc: Global, n: u32, edges: &[(u32, u32)], placed: &[bool]) -> Mem<Vec<u32>>
    requires edges { AreEdgesBelow n edges.now }
    requires long { length placed.now ≡ n }
    ensures { (list : List ℕ) → ((m : ℕ) → has list m ≡ get_or placed.now m false) →
        IfOk result (λ nexts. Goes n edges.now list nexts.items) }
{
    let mut nexts = themselves(alloc, n)?;
    for (m, upstream) in edges {
        let at = *m as usize;
        nexts[at] = next_of(*m, nexts[at], *upstream, placed[*upstream as usize]);
    }
    Ok(nexts)
}

// Where one goes from a module with one upstream more: `m` itself stands for none.
fn next_of(m: u32, next: u32, upstream: u32, placed: bool) -> u32
    ensures { result ≡ earlier m next upstream placed }
{
    if upstream == m || placed {
        next
    } else if next == m {
        upstream
    } else {
        next.min(upstream)
    }
}

// The earliest module that isn't marked.
fn earliest_left(n: u32, placed: &[bool]) -> Option<u32>
    requires { length placed.now ≡ n }
    ensures value { (list : List ℕ) → ((m : ℕ) → has list m ≡ get_or placed.now m false) →
        result ≡ find (λ m. not (has list m)) (numbers 0 n) }
    ensures below { IfSome result (λ m. m < n) }
{
    for m in 0..n {
        if !placed[m as usize] {
            return Some(m);
        }
    }
    None
}

// The modules from a place's first occurrence on.
fn from_first(alloc: Global, m: u32, seen: &[u32]) -> Mem<Vec<u32>>
    ensures { IfOk result (λ rest. rest.items ≡ from_first m seen.now) }
{
    for at in 0..seen.len() {
        if seen[at] == m {
            return Ok(Vec::from_slice(alloc, &seen[at..])?);
        }
    }
    Ok(Vec::new(alloc))
}

// Goes on from a module until one repeats.
fn walk(alloc: Global, n: u32, nexts: &[u32], first: u32) -> Mem<Vec<u32>>
    requires first { first < n }
    requires goes { (edges : Edges) × (placed : List ℕ) × Goes n edges placed nexts.now }
    ensures { (edges : Edges) (placed : List ℕ) → Goes n edges placed nexts.now →
        IfOk result (λ cycle. cycle.items ≡ walk n edges placed [] first) }
{
    let mut seen = Marks::new(alloc, n as usize)?;
    let mut m = first;
    while !seen.marks[m as usize] {
        seen.mark(m)?;
        m = nexts[m as usize];
    }
    let cycle = from_first(alloc, m, &seen.found)?;
    Ok(cycle)
}

/// The cycle that keeps modules from being placed: from the earliest that isn't placed one goes to its earliest upstream
/// that isn't, other than itself, or to itself where it has no other, until a module repeats. Costs the modules and the
/// edges.
pub(crate) fn cycle(alloc: Global, n: u32, edges: &[(u32, u32)], placed: &[u32]) -> Mem<Vec<u32>>
    requires edges { AreEdgesBelow n edges.now }
    requires placed { AreBelow n placed.now }
    ensures { IfOk result (λ cycle. cycle.items ≡ cycle_of n edges.now placed.now) }
{
    let mut marks = Marks::new(alloc, n as usize)?;
    marks.mark_all(placed)?;
    let Some(first) = earliest_left(n, &marks.marks) else {
        return Ok(Vec::new(alloc));
    };
    let nexts = nexts(alloc, n, edges, &marks.marks)?;
    let cycle = walk(alloc, n, &nexts, first)?;
    Ok(cycle)
}
