// The plugins that a packaging binds, and the goals of a POM that run up to a phase.
use crate::goal_lists::goals_text;
use lifecycle::{bind, bindings, goals, phase_of};
use model_merge::copies;
use model_types::{Build, BuildBase, Coordinates, Model, ModelBase, Plugin, RawModel};
use mvn_base::{Gav, ModelError, Phase, PomId};
use mvn_shared::{List, Mem, Shared, Text};
use row_models::{behind, field, plugins_text, word};
use std::alloc::Global;

fn shown_bindings(alloc: Global, bound: &Option<List<Shared<Plugin>>>) -> Mem<String> {
    match bound {
        Some(plugins) => plugins_text(alloc, plugins),
        None => word(alloc, "none"),
    }
}

fn bound_to(alloc: Global, packaging: &Text) -> Mem<String> {
    let bound = bindings(alloc, packaging)?;
    shown_bindings(alloc, &bound)
}

fn bound_by(alloc: Global, packaging: &str) -> Mem<String> {
    let packaging = Text::from_str(alloc, packaging)?;
    bound_to(alloc, &packaging)
}

/// The plugins that a packaging binds.
pub(crate) fn told_bindings(alloc: Global, packaging: &str) -> Result<String, ModelError> {
    Ok(bound_by(alloc, packaging)?)
}

// The plugins of a POM with those that its packaging binds.
fn bound(alloc: Global, raw: &RawModel) -> Mem<List<Shared<Plugin>>> {
    let own = &raw.build.base;
    match bindings(alloc, &raw.coordinates.packaging)? {
        Some(bound) => bind(
            alloc,
            own.plugins.as_slice(),
            own.managed_plugins.as_slice(),
            bound,
        ),
        None => copies(&own.plugins),
    }
}

fn build_base(alloc: Global, plugins: List<Shared<Plugin>>) -> Mem<Shared<BuildBase>> {
    let managed_plugins = List::new(alloc);
    let base = BuildBase {
        plugins,
        managed_plugins,
    };
    Shared::new(alloc, base)
}

// A build with another base in the place of its own.
fn build(alloc: Global, own: &Build, base: &Shared<BuildBase>) -> Mem<Shared<Build>> {
    let outputs = own.outputs.share()?;
    let sources = own.sources.share()?;
    let base = base.share()?;
    let build = Build {
        outputs,
        sources,
        base,
        extensions: List::new(alloc),
    };
    Shared::new(alloc, build)
}

// A text, empty where there is none.
fn text_or_empty(alloc: Global, text: &Option<Text>) -> Mem<Text> {
    match text {
        Some(text) => Ok(text.clone()?),
        None => Text::from_str(alloc, ""),
    }
}

fn gav(alloc: Global, own: &Coordinates) -> Mem<Shared<Gav>> {
    let group = text_or_empty(alloc, &own.group)?;
    let artifact = own.artifact.clone()?;
    let version = text_or_empty(alloc, &own.version)?;
    let gav = Gav {
        group,
        artifact,
        version,
    };
    Shared::new(alloc, gav)
}

// A packaging and coordinates.
fn packed(alloc: Global, own: &Coordinates) -> Mem<(Text, Shared<Gav>)> {
    let packaging = own.packaging.clone()?;
    let gav = gav(alloc, own)?;
    Ok((packaging, gav))
}

// What a model shares with a POM, and a build.
fn shared(
    raw: &RawModel,
    build: &Shared<Build>,
) -> Mem<(Shared<PomId>, Shared<ModelBase>, Shared<Build>)> {
    let pom = raw.pom.share()?;
    let base = raw.base.share()?;
    let build = build.share()?;
    Ok((pom, base, build))
}

// What holds for a module of this build and no parent.
fn model(alloc: Global, raw: &RawModel, build: &Shared<Build>) -> Mem<Model> {
    let (packaging, gav) = packed(alloc, &raw.coordinates)?;
    let (pom, base, build) = shared(raw, build)?;
    Ok(Model {
        pom,
        gav,
        packaging,
        parent: None,
        base,
        build,
    })
}

// The build of a POM with the plugins that its packaging binds.
fn bound_build(alloc: Global, raw: &RawModel) -> Mem<Shared<Build>> {
    let plugins = bound(alloc, raw)?;
    let base = build_base(alloc, plugins)?;
    build(alloc, &raw.build, &base)
}

fn bound_model(alloc: Global, raw: &RawModel) -> Mem<Model> {
    let build = bound_build(alloc, raw)?;
    model(alloc, raw, &build)
}

fn listed_of(alloc: Global, model: &Model, phase: Phase) -> Mem<String> {
    let list = goals(alloc, model, phase)?;
    goals_text(alloc, &list)
}

fn listed(alloc: Global, raw: &RawModel, phase: Phase) -> Mem<String> {
    let model = bound_model(alloc, raw)?;
    listed_of(alloc, &model, phase)
}

fn told_of_phase(alloc: Global, raw: &RawModel, phase: Option<Phase>) -> Mem<String> {
    match phase {
        Some(phase) => listed(alloc, raw, phase),
        None => word(alloc, "no phase"),
    }
}

/// The goals of a POM that run up to a phase.
pub(crate) fn told(alloc: Global, fields: &[&str]) -> Result<String, ModelError> {
    let raw = behind(alloc, field(fields, 0))?;
    let phase = phase_of(field(fields, 1).as_bytes());
    Ok(told_of_phase(alloc, &raw, phase)?)
}
