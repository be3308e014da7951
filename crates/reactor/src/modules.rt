//! The modules that are built, from models and a command line.

ghost use Rattle.std.specs.Prelude.{◌≡◌, ◌<◌, Ok, length, IfOk};
ghost use Rattle.reactor.specs.Reactor.{Answers, AreBuilt, AreInOrder, Orders, Selects};

use crate::edges::firm_edges;
use crate::upstreams::all_upstreams;
use crate::{BuildOrder, ModuleIndex, SelectionFault, build_order, selected, soft_edges};
use classpaths::Resolution;
use cli_words::CommandLine;
use model_types::Model;
use mvn_base::{ModelError, Refusal};
use mvn_shared::{List, Mem, OutOfMemory, Shared};
use std::alloc::Global;
use thiserror::Error;

/// The modules that are built, in their order.
#[derive(Drop)]
pub struct ReactorModules {
    /// The numbers of the modules that are built, among the project's modules.
    pub numbers: List<u32>,
    /// For each the places, among those that are built, of the modules on which it stands by an edge, ascending.
    pub upstreams: List<List<u32>>,
}

/// Why no modules are built: they stand on one another in a circle, the word at a place means none, or want of memory.
#[derive(Debug, Drop, Error)]
pub enum ReactorFault {
    #[error("{0}")]
    Refused(Refusal),
    #[error("selector {0} names no module that is built")]
    Unknown(usize),
    #[error("out of memory")]
    Memory,
}

impl From<OutOfMemory> for ReactorFault {
    ghost use Rattle.reactor.specs.declared.modules.ReactorFault.TheVariants.{Memory};

    ghost from_gives = { λ _ e. e ≡ Memory };

    fn from(_: OutOfMemory) -> Self {
        ReactorFault::Memory
    }
}

// The order of all modules.
#[tactic(auto, using(crate::proofs::Bounds::firm_are_below, crate::proofs::Bounds::soft_are_below))]
fn ordered(
    alloc: Global,
    modules: &[Shared<Model>],
    resolutions: &[Resolution],
) -> Result<BuildOrder, ModelError>
    requires few { length modules.now < 4294967296 }
    ensures { Orders modules.now resolutions.now result }
{
    let index = ModuleIndex::of(alloc, modules)?;
    let firm = firm_edges(alloc, modules, &index, resolutions)?;
    let soft = soft_edges(alloc, modules, &index)?;
    build_order(alloc, modules, &firm, &soft)
}

// The modules that words select.
fn chosen(
    alloc: Global,
    modules: &[Shared<Model>],
    resolutions: &[Resolution],
    line: &CommandLine,
    found: &BuildOrder,
) -> Result<List<u32>, SelectionFault>
    requires few { length modules.now < 4294967296 }
    requires ordered { Orders modules.now resolutions.now (Ok found.now) }
    ensures { Selects modules.now line.now found.now result }
{
    selected(
        alloc,
        modules,
        found.order.as_slice(),
        found.edges.as_slice(),
        line,
    )
}

// The selected modules, with the modules on which each stands.
fn with_upstreams(
    alloc: Global,
    modules: &[Shared<Model>],
    resolutions: &[Resolution],
    line: &CommandLine,
    found: &BuildOrder,
    numbers: List<u32>,
) -> Mem<ReactorModules>
    requires few { length modules.now < 4294967296 }
    requires ordered { Orders modules.now resolutions.now (Ok found.now) }
    requires selected { Selects modules.now line.now found.now (Ok numbers) }
    ensures built { IfOk result (AreBuilt modules.now resolutions.now line.now) }
    ensures order { IfOk result (AreInOrder (length modules.now)) }
{
    let n = modules.len() as u32;
    let upstreams = all_upstreams(alloc, n, found.edges.as_slice(), numbers.as_slice())?;
    Ok(ReactorModules { numbers, upstreams })
}

// The modules that words select of an order.
fn built_of(
    alloc: Global,
    modules: &[Shared<Model>],
    resolutions: &[Resolution],
    line: &CommandLine,
    found: &BuildOrder,
) -> Result<ReactorModules, ReactorFault>
    requires few { length modules.now < 4294967296 }
    requires ordered { Orders modules.now resolutions.now (Ok found.now) }
    ensures says { Answers modules.now resolutions.now line.now result }
    ensures order { IfOk result (AreInOrder (length modules.now)) }
{
    match chosen(alloc, modules, resolutions, line, found) {
        Ok(numbers) => Ok(with_upstreams(alloc, modules, resolutions, line, found, numbers)?),
        Err(SelectionFault::Unknown(place)) => Err(ReactorFault::Unknown(place)),
        Err(SelectionFault::Memory) => Err(ReactorFault::Memory),
    }
}

/// The modules that are built, in their order: those that the words of the command line select, each after all that
/// it stands on by what its model and the winners of its dependencies name. Or the refusal of a circle, and else the
/// place of the first word that means no module that is built. `resolutions` has what each module's dependencies lead
/// to. Costs what the models name, the winners, and what `build_order` and `selected` cost, and the square of the
/// selected modules in marks. Guide to Working with Multiple Modules, "Reactor Sorting" and "Command Line Options".
pub fn reactor_modules(
    alloc: Global,
    modules: &[Shared<Model>],
    resolutions: &[Resolution],
    line: &CommandLine,
) -> Result<ReactorModules, ReactorFault>
    requires few { length modules.now < 4294967296 }
    ensures says { Answers modules.now resolutions.now line.now result }
    ensures order { IfOk result (AreInOrder (length modules.now)) }
{
    match ordered(alloc, modules, resolutions) {
        Ok(found) => built_of(alloc, modules, resolutions, line, &found),
        Err(ModelError::Refused(refusal)) => Err(ReactorFault::Refused(refusal)),
        Err(ModelError::Memory) => Err(ReactorFault::Memory),
    }
}
