// What is managed, and what declarations take from it.
use managed_deps::{ManagedSet, apply, apply_plugins, managed};
use model_merge::copies;
use model_types::{Dependency, RawModel};
use mvn_base::ModelError;
use mvn_shared::{List, Mem, Shared};
use row_models::{behind, field, needs_text, plugins_text};
use std::alloc::Global;

// What a POM manages.
fn managed_in(alloc: Global, inside: &str) -> Result<List<Shared<Dependency>>, ModelError> {
    let model = behind(alloc, inside)?;
    Ok(copies(&model.base.managed)?)
}

fn push_import(
    imports: &mut Vec<List<Shared<Dependency>>>,
    list: List<Shared<Dependency>>,
) -> Mem<()> {
    imports.push(list)?;
    Ok(())
}

fn push_imports(
    alloc: Global,
    imports: &mut Vec<List<Shared<Dependency>>>,
    fields: &[&str],
) -> Result<(), ModelError> {
    for inside in fields {
        let list = managed_in(alloc, *inside)?;
        push_import(imports, list)?;
    }
    Ok(())
}

// What each of these POMs manages.
fn imports(alloc: Global, fields: &[&str]) -> Result<Vec<List<Shared<Dependency>>>, ModelError> {
    let mut imports = Vec::new(alloc);
    push_imports(alloc, &mut imports, fields)?;
    Ok(imports)
}

fn needs_by(alloc: Global, model: &RawModel, set: &ManagedSet) -> Mem<String> {
    let applied = apply(alloc, model.base.dependencies.as_slice(), set)?;
    needs_text(alloc, &applied)
}

// The dependencies of a POM with what it manages, and what these imports do.
fn needs(alloc: Global, model: &RawModel, imports: &[List<Shared<Dependency>>]) -> Mem<String> {
    let set = managed(alloc, model.base.managed.as_slice(), imports)?;
    needs_by(alloc, model, &set)
}

// The plugins of a POM with what it manages.
fn plugins(alloc: Global, model: &RawModel) -> Mem<String> {
    let base = &model.build.base;
    let managed = base.managed_plugins.as_slice();
    let applied = apply_plugins(alloc, base.plugins.as_slice(), managed)?;
    plugins_text(alloc, &applied)
}

fn told_with(alloc: Global, model: &RawModel, others: &[&str]) -> Result<String, ModelError> {
    let imports = imports(alloc, others)?;
    Ok(needs(alloc, model, imports.as_slice())?)
}

/// The dependencies of a POM with what it manages, and what the POMs in the further fields do.
pub(crate) fn told(alloc: Global, fields: &[&str]) -> Result<String, ModelError> {
    let model = behind(alloc, field(fields, 0))?;
    told_with(alloc, &model, fields.get(1..).unwrap_or(&[]))
}

/// The plugins of a POM with what it manages.
pub(crate) fn told_plugins(alloc: Global, inside: &str) -> Result<String, ModelError> {
    let model = behind(alloc, inside)?;
    Ok(plugins(alloc, &model)?)
}
