// The order of modules, the edges that are kept, and the modules that are selected.
use crate::numbers::{edges, has_word, number, numbers, split_section};
use mvn_shared::Mem;
use reactor_order::{Cycle, OrderError, edges_below, keep, modules_below, order, select};
use row_fields::word;
use std::alloc::Global;

// Numbers with a space between two of them.
fn listed(alloc: Global, label: &str, list: &[u32]) -> Mem<String> {
    let mut shown = String::from_str(alloc, label)?;
    for m in list {
        if !shown.is_empty() {
            shown.push_str(" ")?;
        }
        shown.push_str(format!(in alloc; "{m}")?.as_str())?;
    }
    Ok(shown)
}

// A cycle, with its modules or without.
fn cycle(alloc: Global, cycle: &Cycle, whole: bool) -> Mem<String> {
    let list = cycle.list.as_slice();
    if list.is_empty() {
        return word(alloc, "an empty cycle");
    }
    if whole {
        return listed(alloc, "cycle", list);
    }
    word(alloc, "cycle")
}

// The order of modules, or the cycle.
fn ordered(alloc: Global, n: u32, edges: &[(u32, u32)], whole: bool) -> Mem<String> {
    if !edges_below(n, edges) {
        return word(alloc, "an edge to no module");
    }
    match order(alloc, n, edges) {
        Ok(list) => listed(alloc, "", list.as_slice()),
        Err(OrderError::Cycle(found)) => cycle(alloc, &found, whole),
        Err(OrderError::Memory) => word(alloc, "out of memory"),
    }
}

/// The order of modules, or the cycle: all of it, or only that there is one.
pub(crate) fn order_row(alloc: Global, sections: &str, whole: bool) -> Mem<String> {
    let (n, edge_words) = split_section(sections);
    let edges = edges(alloc, edge_words)?;
    ordered(alloc, number(n), edges.as_slice(), whole)
}

fn shown_edges(alloc: Global, edges: &[(u32, u32)]) -> Mem<String> {
    let mut shown = String::new(alloc);
    for (m, upstream) in edges {
        if !shown.is_empty() {
            shown.push_str(" ")?;
        }
        shown.push_str(format!(in alloc; "{m}-{upstream}")?.as_str())?;
    }
    Ok(shown)
}

fn kept(alloc: Global, n: u32, firm: &[(u32, u32)], soft: &[(u32, u32)]) -> Mem<String> {
    if !edges_below(n, firm) || !edges_below(n, soft) {
        return word(alloc, "an edge to no module");
    }
    let list = keep(alloc, n, firm, soft)?;
    shown_edges(alloc, list.as_slice())
}

/// The edges that are kept, of firm ones and soft ones.
pub(crate) fn keep_row(alloc: Global, sections: &str) -> Mem<String> {
    let (n, edge_lists) = split_section(sections);
    let (firm, soft) = split_section(edge_lists);
    let firm = edges(alloc, firm)?;
    let soft = edges(alloc, soft)?;
    kept(alloc, number(n), firm.as_slice(), soft.as_slice())
}

// The modules that are built, of modules in the order of their numbers: `make` and `dependents`, and where to begin, are two sections.
fn selected(
    alloc: Global,
    order: &[u32],
    edges: &[(u32, u32)],
    chosen: Option<&[u32]>,
    sections: &str,
) -> Mem<String> {
    if order.len() > 1000 {
        return word(alloc, "too many modules");
    }
    let n = order.len() as u32;
    let all = match chosen {
        None => true,
        Some(chosen) => modules_below(n, chosen),
    };
    if !all || !modules_below(n, order) || !edges_below(n, edges) {
        return word(alloc, "no module");
    }
    let (words, from) = split_section(sections);
    let make = has_word(words, "make");
    let dependents = has_word(words, "dependents");
    let from = from.trim().parse::<u32>().ok();
    let list = select(alloc, order, edges, chosen, make, dependents, from)?;
    listed(alloc, "", list.as_slice())
}

// The modules that are selected, of the chosen ones or of `all`, by the two sections after these.
fn chosen(alloc: Global, order: &[u32], edges: &[(u32, u32)], sections: &str) -> Mem<String> {
    let (words, others) = split_section(sections);
    if words == "all" {
        return selected(alloc, order, edges, None, others);
    }
    let chosen = numbers(alloc, words)?;
    selected(alloc, order, edges, Some(chosen.as_slice()), others)
}

/// The modules that are built: the numbers in order, the edges, the chosen ones or `all`, `make` and `dependents`, and where to begin.
pub(crate) fn select_row(alloc: Global, sections: &str) -> Mem<String> {
    let (order, others) = split_section(sections);
    let (edge_words, others) = split_section(others);
    let order = numbers(alloc, order)?;
    let edges = edges(alloc, edge_words)?;
    chosen(alloc, order.as_slice(), edges.as_slice(), others)
}
