//! Selects the modules that are built, by what is chosen and what an order has.

ghost use Rattle.std.specs.Prelude.{◌≡◌, ◌↔◌, ℕ, ◌<◌, ◌≤◌, ◌||◌, drop, Some, true, false, length, get_or, filter, IfOk, IfSome};
ghost use Rattle.std.specs.Option.{option_copied};
ghost use Rattle.reactor_order.specs.Graph.{has, AreBelow, AreEdgesBelow};
ghost use Rattle.reactor_order.specs.Select.{from_on, IsAsked, IsWanted, Selects};

use crate::graph::Graph;
use crate::marks::Marks;
use crate::place::flipped;
use mvn_shared::{List, Mem};
use std::alloc::Global;

// The modules that are chosen.
fn chosen_marks(alloc: Global, n: u32, chosen: &[u32]) -> Mem<Vec<bool>>
    requires { AreBelow n chosen.now }
    ensures value { IfOk result (λ marks. (m : ℕ) → get_or marks.items m false ≡ has chosen.now m) }
    ensures long { IfOk result (λ marks. length marks.items ≡ n) }
{
    let mut marks = Marks::new(alloc, n as usize)?;
    marks.mark_all(chosen)?;
    Ok(marks.marks)
}

// What one comes to from the chosen ones over upstreams, where that is asked for.
fn asked_marks(
    alloc: Global,
    n: u32,
    edges: &[(u32, u32)],
    chosen: &[u32],
    asked: bool,
) -> Mem<Vec<bool>>
    requires edges { AreEdgesBelow n edges.now }
    requires chosen { AreBelow n chosen.now }
    ensures value { IfOk result (λ marks. (m : ℕ) →
        (get_or marks.items m false ≡ true) ↔ IsAsked asked edges.now chosen.now m) }
    ensures long { IfOk result (λ marks. length marks.items ≡ n) }
{
    if !asked {
        return Ok(vec![in alloc; false; n as usize]?);
    }
    let graph = Graph::of(alloc, n, edges)?;
    let marks = graph.reached(alloc, chosen)?;
    Ok(marks)
}

// Where a list goes on from a module.
fn from_place(order: &[u32], from: Option<u32>) -> usize
    ensures value { drop result order.now ≡ from_on from order.now }
    ensures within { result ≤ length order.now }
{
    let Some(from) = from else {
        return 0;
    };
    for at in 0..order.len() {
        if order[at] == from {
            return at;
        }
    }
    order.len()
}

// The marked modules of a list.
fn marked(alloc: Global, order: &[u32], marks: &[bool]) -> Mem<Vec<u32>>
    requires { AreBelow (length marks.now) order.now }
    ensures { IfOk result (λ list. list.items ≡ filter (λ m. get_or marks.now m false) order.now) }
{
    let mut list = Vec::new(alloc);
    for m in order {
        if marks[*m as usize] {
            list.push(*m)?;
        }
    }
    Ok(list)
}

// What is marked in one of three.
fn joined(alloc: Global, a: &[bool], b: &[bool], c: &[bool]) -> Mem<Vec<bool>>
    requires b { length b.now ≡ length a.now }
    requires c { length c.now ≡ length a.now }
    ensures value { IfOk result (λ marks. (m : ℕ) →
        get_or marks.items m false
        ≡ (get_or a.now m false || (get_or b.now m false || get_or c.now m false))) }
    ensures long { IfOk result (λ marks. length marks.items ≡ length a.now) }
{
    let mut marks = Vec::with_capacity(alloc, a.len())?;
    for m in 0..a.len() {
        marks.push(a[m] || b[m] || c[m])?;
    }
    Ok(marks)
}

// The modules that are wanted where some are chosen.
fn wanted(
    alloc: Global,
    n: u32,
    edges: &[(u32, u32)],
    chosen: &[u32],
    make: bool,
    dependents: bool,
) -> Mem<Vec<bool>>
    requires edges { AreEdgesBelow n edges.now }
    requires chosen { AreBelow n chosen.now }
    ensures value { IfOk result (λ marks. (m : ℕ) →
        (get_or marks.items m false ≡ true) ↔ IsWanted edges.now
        (Some chosen.now) make dependents m) }
    ensures long { IfOk result (λ marks. length marks.items ≡ n) }
{
    let own = chosen_marks(alloc, n, chosen)?;
    let above = asked_marks(alloc, n, edges, chosen, make)?;
    let turned = flipped(alloc, n, edges)?;
    let below = asked_marks(alloc, n, &turned, chosen, dependents)?;
    let marks = joined(alloc, &own, &above, &below)?;
    Ok(marks)
}

/// The modules that are built: the chosen ones or all, with all their upstreams where `also_make`, with all that stand on
/// them where `also_make_dependents`, without what comes before `from`, in the order of `order`. Costs the modules and the
/// edges. Guide to Working with Multiple Modules.
pub fn select(
    alloc: Global,
    order: &[u32],
    edges: &[(u32, u32)],
    chosen: Option<&[u32]>,
    also_make: bool,
    also_make_dependents: bool,
    from: Option<u32>,
) -> Mem<List<u32>>
    requires long { length order.now < 4294967296 }
    requires order { AreBelow (length order.now) order.now }
    requires edges { AreEdgesBelow (length order.now) edges.now }
    requires chosen { IfSome chosen (λ c. AreBelow (length order.now) c.now) }
    ensures { IfOk result (λ list.
        Selects order.now edges.now
        (option_copied chosen.entry) also_make also_make_dependents from list) }
{
    let rest = &order[from_place(order, from)..];
    let Some(chosen) = chosen else {
        let all = Vec::from_slice(alloc, rest)?;
        return Ok(List::of(all));
    };
    let marks = wanted(
        alloc,
        order.len() as u32,
        edges,
        chosen,
        also_make,
        also_make_dependents,
    )?;
    let list = marked(alloc, rest, &marks)?;
    Ok(List::of(list))
}
