//! The firm edges of all modules: what their dependencies, parents and winners name.

ghost use Rattle.std.specs.Prelude.{◌≡◌, ◌<◌, ◌++◌, [], flat_map, get_or, length, map, IfOk, OnOk};
ghost use Rattle.classpaths.specs.declared.resolution.Resolved as resolved;
ghost use Rattle.reactor.specs.Edges.{by_winner, edges_to, firm_upstreams, firm_from};
ghost use Rattle.reactor.specs.Index.{IsIndex};
ghost use Rattle.reactor.specs.Upstreams.{firm_edges, winner_gavs};

use crate::{ModuleIndex, push_firm, push_winner};
use classpaths::{Resolution, Resolved};
use model_types::Model;
use mvn_shared::{Mem, Shared};
use std::alloc::Global;

// Edges to what winners name.
fn push_winners(
    alloc: Global,
    modules: &[Shared<Model>],
    index: &ModuleIndex,
    from: u32,
    winners: &[Shared<Resolved>],
    edges: &mut Vec<(u32, u32)>,
) -> Mem<()>
    requires { IsIndex modules.now index.now }
    ensures { OnOk result (edges.new.items ≡ edges.old.items ++ edges_to from
        (flat_map (by_winner modules.now) (map (λ (w : resolved.Resolved). w.gav) winners.now))) }
{
    for w in winners {
        let gav = &w.gav;
        push_winner(
            alloc,
            modules,
            index,
            from,
            &gav.group,
            &gav.artifact,
            &gav.version,
            edges,
        )?;
    }
    Ok(())
}

// Edges to what the winners of a module name.
#[tactic(auto, using(crate::proofs::Winners::at_number))]
fn push_winners_at(
    alloc: Global,
    modules: &[Shared<Model>],
    index: &ModuleIndex,
    number: usize,
    resolutions: &[Resolution],
    edges: &mut Vec<(u32, u32)>,
) -> Mem<()>
    requires index { IsIndex modules.now index.now }
    requires few { number < 4294967296 }
    ensures { OnOk result (edges.new.items ≡ edges.old.items ++ edges_to number
        (flat_map (by_winner modules.now) (get_or (map winner_gavs resolutions.now) number []))) }
{
    match resolutions.get(number) {
        Some(resolution) => {
            let winners = resolution.winners.as_slice();
            push_winners(alloc, modules, index, number as u32, winners, edges)
        }
        None => Ok(()),
    }
}

// The firm edges from a module.
fn push_module(
    alloc: Global,
    modules: &[Shared<Model>],
    index: &ModuleIndex,
    number: usize,
    model: &Model,
    resolutions: &[Resolution],
    edges: &mut Vec<(u32, u32)>,
) -> Mem<()>
    requires index { IsIndex modules.now index.now }
    requires few { number < 4294967296 }
    ensures { OnOk result (edges.new.items ≡ edges.old.items ++ edges_to number
        (firm_upstreams modules.now model.now
        ++ flat_map (by_winner modules.now) (get_or (map winner_gavs resolutions.now) number []))) }
{
    push_firm(alloc, modules, index, number as u32, model, edges)?;
    push_winners_at(alloc, modules, index, number, resolutions, edges)
}

/// The firm edges of all modules, which are kept in any case: module by module to what its dependencies name, to its parent, and to what
/// the winners of its dependencies name. Costs what all models name, the winners, and for each the modules of its artifact. Guide to
/// Working with Multiple Modules, "Reactor Sorting".
#[tactic(auto, unfolding(crate::specs::Upstreams::firm_edges, crate::specs::Edges::firm_edges))]
pub(crate) fn firm_edges(
    alloc: Global,
    modules: &[Shared<Model>],
    index: &ModuleIndex,
    resolutions: &[Resolution],
) -> Mem<Vec<(u32, u32)>>
    requires few { length modules.now < 4294967296 }
    requires index { IsIndex modules.now index.now }
    ensures { IfOk result (λ edges. edges.items ≡ firm_edges modules.now resolutions.now) }
{
    let mut edges = Vec::new(alloc);
    for number in 0..modules.len() {
        push_module(
            alloc,
            modules,
            index,
            number,
            &modules[number],
            resolutions,
            &mut edges,
        )?;
    }
    Ok(edges)
}
