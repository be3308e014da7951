// Expressions in a POM.
use interpolation::fill;
use model_types::RawModel;
use mvn_base::{Machine, ModelError, Pair};
use mvn_shared::{List, Mem, Shared, Text};
use row_models::{field, machine, pairs, project, push_texts};
use std::alloc::Global;

fn shared(alloc: Global, model: RawModel) -> Result<Shared<RawModel>, ModelError> {
    Ok(Shared::new(alloc, model)?)
}

// The POM of a folder with what its expressions come to on a machine.
fn filled_in(
    alloc: Global,
    raw: &RawModel,
    basedir: &Text,
    machine: &Machine,
    defines: &[Pair],
) -> Result<Shared<RawModel>, ModelError> {
    let model = fill(alloc, raw, Some(basedir), machine, defines)?;
    shared(alloc, model)
}

// The POM of the folder `/w/app` with what its expressions come to on a machine.
fn filled_on(
    alloc: Global,
    raw: &RawModel,
    machine: &Machine,
    defines: &[Pair],
) -> Result<Shared<RawModel>, ModelError> {
    let basedir = Text::from_str(alloc, "/w/app")?;
    filled_in(alloc, raw, &basedir, machine, defines)
}

// The POM of the folder `/w/app` with what its expressions come to.
fn filled(alloc: Global, raw: &RawModel, defines: &[Pair]) -> Result<Shared<RawModel>, ModelError> {
    let machine = machine(alloc)?;
    filled_on(alloc, raw, &machine, defines)
}

// The packaging and the modules.
fn shown(alloc: Global, model: &RawModel) -> Mem<String> {
    let mut shown = String::from_str(alloc, model.coordinates.packaging.as_str())?;
    push_texts(&mut shown, " module=", &model.base.modules)?;
    Ok(shown)
}

// The packaging and the modules of a POM filled with these properties of the command line too.
fn told_filled(alloc: Global, raw: &RawModel, defines: &[Pair]) -> Result<String, ModelError> {
    let model = filled(alloc, raw, defines)?;
    Ok(shown(alloc, &model)?)
}

// The packaging and the modules of a POM filled with the properties of a field.
fn told_with(alloc: Global, raw: &RawModel, field: &str) -> Result<String, ModelError> {
    let defines = pairs(alloc, field)?;
    told_filled(alloc, raw, defines.as_slice())
}

/// The packaging of a POM and its modules, filled with these properties of the command line too.
pub(crate) fn told(alloc: Global, fields: &[&str]) -> Result<String, ModelError> {
    let raw = project(alloc, field(fields, 0))?;
    told_with(alloc, &raw, field(fields, 1))
}

// The property of a number, which names the one before it twice.
fn twice(alloc: Global, number: u32, before: u32) -> Mem<Pair> {
    let name = Text::of(format!(in alloc; "p{number}")?);
    let value = Text::of(format!(in alloc; "${{p{before}}}${{p{before}}}")?);
    Ok(Pair { name, value })
}

// The property p0.
fn base(alloc: Global, value: &str) -> Mem<Pair> {
    let name = Text::from_str(alloc, "p0")?;
    let value = Text::from_str(alloc, value)?;
    Ok(Pair { name, value })
}

fn push_twice(alloc: Global, list: &mut List<Pair>, number: u32, before: u32) -> Mem<()> {
    list.push(twice(alloc, number, before)?)
}

fn push_doubled(alloc: Global, list: &mut List<Pair>, count: u32, first: &str) -> Mem<()> {
    list.push(base(alloc, first)?)?;
    for before in 0..count.saturating_sub(1) {
        push_twice(alloc, list, before + 1, before)?;
    }
    Ok(())
}

// So many properties from p0 on, which is this text; each further one names the one before it twice.
fn doubled(alloc: Global, count: u32, first: &str) -> Mem<List<Pair>> {
    let mut list = List::new(alloc);
    push_doubled(alloc, &mut list, count, first)?;
    Ok(list)
}

// The length of a filled POM's packaging.
fn length(alloc: Global, model: &RawModel) -> Mem<String> {
    let bytes = model.coordinates.packaging.len();
    Ok(format!(in alloc; "{bytes} bytes")?)
}

// The length of a POM's packaging, filled with these properties of the command line.
fn told_length(alloc: Global, raw: &RawModel, defines: &[Pair]) -> Result<String, ModelError> {
    let model = filled(alloc, raw, defines)?;
    Ok(length(alloc, &model)?)
}

// The length of a POM's packaging, filled with so many properties, each of which names the one before it twice.
fn told_with_doubled(
    alloc: Global,
    raw: &RawModel,
    count: u32,
    first: &str,
) -> Result<String, ModelError> {
    let defines = doubled(alloc, count, first)?;
    told_length(alloc, raw, defines.as_slice())
}

/// The length of a POM's packaging, filled with so many properties of the command line, each of which names the one before it twice.
pub(crate) fn told_doubled(alloc: Global, fields: &[&str]) -> Result<String, ModelError> {
    let raw = project(alloc, field(fields, 0))?;
    let count = field(fields, 1).parse::<u32>().unwrap_or(0);
    told_with_doubled(alloc, &raw, count, field(fields, 2))
}
