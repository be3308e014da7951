// The modules of projects in order, and those that are selected.
use cli_words::{CommandLine, WordError};
use discovery::ModulePom;
use effective::effective;
use model_types::Model;
use mvn_base::{ModelError, PomId};
use mvn_shared::{List, Mem, OutOfMemory, Shared};
use pom_source::{BuildFault, Given};
use reactor::{
    BuildOrder, ModuleIndex, SelectionFault, build_order, push_firm, selected, soft_edges,
};
use reactor_order::{edges_below, modules_below};
use row_projects::{Project, line};
use std::alloc::Global;

// One more in a list.
fn push(alloc: Global, models: &mut Vec<Shared<Model>>, model: Model) -> Mem<()> {
    models.push(Shared::new(alloc, model)?)?;
    Ok(())
}

// One more effective model.
fn push_effective(
    alloc: Global,
    project: &mut Project,
    given: &Given,
    id: &PomId,
    models: &mut Vec<Shared<Model>>,
) -> Result<(), BuildFault> {
    let model = effective(alloc, project, given, id)?;
    push(alloc, models, model)?;
    Ok(())
}

// The effective model of one more module.
fn push_model(
    alloc: Global,
    project: &mut Project,
    given: &Given,
    pom: &ModulePom,
    models: &mut Vec<Shared<Model>>,
) -> Result<(), BuildFault> {
    let id = PomId::Path(pom.path.clone()?);
    push_effective(alloc, project, given, &id, models)
}

/// The effective models of a project's modules.
pub(crate) fn push_models(
    alloc: Global,
    project: &mut Project,
    given: &Given,
    poms: &[ModulePom],
    models: &mut Vec<Shared<Model>>,
) -> Result<(), BuildFault> {
    for pom in poms {
        push_model(alloc, project, given, pom, models)?;
    }
    Ok(())
}

// The edges of modules, those of dependencies that aren't declared left out: the firm ones are added, the soft ones are the answer.
fn edges_of(
    alloc: Global,
    models: &[Shared<Model>],
    firm: &mut Vec<(u32, u32)>,
) -> Mem<Vec<(u32, u32)>> {
    if models.len() >= 4_294_967_296 {
        return Err(OutOfMemory);
    }
    let index = ModuleIndex::of(alloc, models)?;
    for n in 0..models.len() {
        push_firm(alloc, models, &index, n as u32, &models[n], firm)?;
    }
    soft_edges(alloc, models, &index)
}

// The order of modules with these edges.
fn order_by(
    alloc: Global,
    models: &[Shared<Model>],
    firm: &[(u32, u32)],
    soft: &[(u32, u32)],
) -> Result<BuildOrder, ModelError> {
    if models.len() >= 4_294_967_296 {
        return Err(ModelError::Memory);
    }
    let n = models.len() as u32;
    if !edges_below(n, firm) || !edges_below(n, soft) {
        return Err(ModelError::Memory);
    }
    build_order(alloc, models, firm, soft)
}

/// The order of modules.
pub(crate) fn ordered(alloc: Global, models: &[Shared<Model>]) -> Result<BuildOrder, ModelError> {
    let mut firm = Vec::new(alloc);
    let soft = edges_of(alloc, models, &mut firm)?;
    order_by(alloc, models, firm.as_slice(), soft.as_slice())
}

// The modules that a command line selects.
fn chosen_by(
    alloc: Global,
    models: &[Shared<Model>],
    found: &BuildOrder,
    line: &CommandLine,
) -> Result<List<u32>, SelectionFault> {
    let order = found.order.as_slice();
    let edges = found.edges.as_slice();
    if order.len() != models.len() || order.len() >= 4_294_967_296 {
        return Err(SelectionFault::Memory);
    }
    let n = order.len() as u32;
    if !edges_below(n, edges) || !modules_below(n, order) {
        return Err(SelectionFault::Memory);
    }
    selected(alloc, models, order, edges, line)
}

// The modules that a command line selects, if there is one.
fn chosen_if_line(
    alloc: Global,
    models: &[Shared<Model>],
    found: &BuildOrder,
    line: &Result<CommandLine, WordError>,
) -> Result<List<u32>, SelectionFault> {
    match line {
        Ok(line) => chosen_by(alloc, models, found, line),
        Err(_) => Err(SelectionFault::Memory),
    }
}

/// The modules that words select.
pub(crate) fn chosen(
    alloc: Global,
    models: &[Shared<Model>],
    found: &BuildOrder,
    words: &str,
) -> Result<List<u32>, SelectionFault> {
    let line = line(alloc, words);
    chosen_if_line(alloc, models, found, &line)
}
