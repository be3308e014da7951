// In which order modules are built.
ghost use Rattle.std.specs.Prelude.{◌<◌};

use mvn_shared::List;
use reactor_order::{OrderError, edges_below, keep, order};
use std::alloc::{AllocError, Global};

// The two numbers of an edge.
fn edge(line: &str) -> Option<(u32, u32)> {
    let (module, upstream) = line.split_once(' ')?;
    match (module.parse::<u32>(), upstream.parse::<u32>()) {
        (Ok(module), Ok(upstream)) => Some((module, upstream)),
        _ => None,
    }
}

fn print_list(rt: &HostRuntime, label: &str, list: &List<u32>) -> anyhow::Result<()> {
    print!(rt; "{label}")?;
    for m in list.as_slice() {
        print!(rt; " {m}")?;
    }
    println!(rt; "")?;
    Ok(())
}

// So many soft edges of one module, to the modules after it.
fn push_soft(edges: &mut Vec<(u32, u32)>, n: u32, module: u32, count: u32) -> Result<(), AllocError>
    requires { 0 < n }
{
    for k in 0..count {
        edges.push((module, module.wrapping_add(k).wrapping_add(1) % n))?;
    }
    Ok(())
}

// So many soft edges of each module.
fn soft_edges(alloc: Global, n: u32, count: u32) -> Result<Vec<(u32, u32)>, AllocError> {
    let mut edges = Vec::new(alloc);
    for module in 0..n {
        push_soft(&mut edges, n, module, count)?;
    }
    Ok(edges)
}

// The edges that are kept with these soft ones.
fn kept(
    alloc: Global,
    n: u32,
    firm: &[(u32, u32)],
    count: u32,
) -> anyhow::Result<List<(u32, u32)>> {
    let soft = soft_edges(alloc, n, count)?;
    if !edges_below(n, firm) || !edges_below(n, &soft) {
        return Ok(List::of(Vec::from_slice(alloc, firm)?));
    }
    Ok(keep(alloc, n, firm, &soft)?)
}

fn print_order(rt: &HostRuntime, n: u32, edges: &[(u32, u32)]) -> anyhow::Result<()> {
    if !edges_below(n, edges) {
        println!(rt; "an edge to no module")?;
        return Ok(());
    }
    match order(rt.alloc(), n, edges) {
        Ok(list) => print_list(rt, "order", &list),
        Err(OrderError::Cycle(cycle)) => print_list(rt, "cycle", &cycle.list),
        Err(OrderError::Memory) => {
            println!(rt; "out of memory")?;
            Ok(())
        }
    }
}

// The order with so many soft edges of each module.
fn print_kept(rt: &HostRuntime, n: u32, edges: &[(u32, u32)], soft: u32) -> anyhow::Result<()> {
    if soft == 0 {
        return print_order(rt, n, edges);
    }
    let kept = kept(rt.alloc(), n, edges, soft)?;
    print_order(rt, n, kept.as_slice())
}

fn push_edges(edges: &mut Vec<(u32, u32)>, lines: &str) -> Result<(), AllocError> {
    for line in lines.lines() {
        if let Some(edge) = edge(line) {
            edges.push(edge)?;
        }
    }
    Ok(())
}

// How many soft edges each module has: what the last line `soft K` says.
fn soft_of(lines: &str) -> u32 {
    let mut soft = 0u32;
    for line in lines.lines() {
        if let Some(count) = line.strip_prefix("soft ") {
            soft = count.parse::<u32>().unwrap_or(0);
        }
    }
    soft
}

/// Prints the order, or the cycle, on one line. The number of modules is the first line; each further one is an edge, or `soft K`.
pub(crate) fn print(rt: &HostRuntime, lines: &str) -> anyhow::Result<()> {
    let (first, rest) = lines.split_once('\n').unwrap_or((lines, ""));
    let mut edges = Vec::new(rt.alloc());
    push_edges(&mut edges, rest)?;
    print_kept(rt, first.parse::<u32>().unwrap_or(0), &edges, soft_of(rest))
}
