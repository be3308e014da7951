//! The edges that are kept, and the order of all modules of a project.

ghost use Rattle.std.specs.Prelude.{◌≡◌, ◌<◌, length};
ghost use Rattle.reactor_order.specs.Graph.{AreEdgesBelow};
ghost use Rattle.reactor.specs.Ordering.{Answers};

use crate::circle::circle_refused;
use model_types::Model;
use mvn_base::ModelError;
use mvn_shared::{List, Shared};
use reactor_order::{OrderError, keep, order};
use std::alloc::Global;

/// The edges of a project's modules that are kept, each a module and an upstream, and the numbers of all modules in the order in which they
/// are built.
#[derive(Drop)]
pub struct BuildOrder {
    pub edges: List<(u32, u32)>,
    pub order: List<u32>,
}

/// The order in which the modules of a project are built: each after all that it stands on by a firm edge, or by a
/// soft one that closes no circle with the edges before it; each time the earliest that can follow. Or the refusal of
/// a circle of firm edges, which names the POM of its first module, and the coordinates of all. Costs what `keep` and
/// `order` of `reactor_order` cost. Guide to Working with Multiple Modules, "Reactor Sorting"; that soft edges give
/// way is a project rule.
pub fn build_order(
    alloc: Global,
    modules: &[Shared<Model>],
    firm: &[(u32, u32)],
    soft: &[(u32, u32)],
) -> Result<BuildOrder, ModelError>
    requires few { length modules.now < 4294967296 }
    requires firm { AreEdgesBelow (length modules.now) firm.now }
    requires soft { AreEdgesBelow (length modules.now) soft.now }
    ensures { Answers modules.now firm.now soft.now result }
{
    let edges = keep(alloc, modules.len() as u32, firm, soft)?;
    match order(alloc, modules.len() as u32, edges.as_slice()) {
        Ok(order) => Ok(BuildOrder { edges, order }),
        Err(OrderError::Cycle(cycle)) => {
            let refusal = circle_refused(alloc, modules, cycle.list.as_slice())?;
            Err(ModelError::Refused(refusal))
        }
        Err(OrderError::Memory) => Err(ModelError::Memory),
    }
}
