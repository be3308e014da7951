// A model as one text, field by field.
use model_types::{
    Activation, Build, BuildBase, Coordinates, Dependency, Exclusion, Execution, ModelBase, Os,
    Outputs, Parent, Plugin, Profile, Property, RawModel, Sources,
};
use mvn_base::{Gav, Pair, PomId, Setting};
use mvn_shared::{List, Mem, Shared, Text};
use std::alloc::Global;

fn push_text(shown: &mut String, label: &str, text: &Text) -> Mem<()> {
    shown.push_str(label)?;
    shown.push_str(text.as_str())?;
    Ok(())
}

fn push_option(shown: &mut String, label: &str, text: &Option<Text>) -> Mem<()> {
    match text {
        Some(text) => push_text(shown, label, text),
        None => Ok(()),
    }
}

/// Texts, each after a label.
pub fn push_texts(shown: &mut String, label: &str, texts: &List<Text>) -> Mem<()> {
    for text in texts.as_slice() {
        push_text(shown, label, text)?;
    }
    Ok(())
}

fn push_gav(shown: &mut String, gav: &Gav) -> Mem<()> {
    push_text(shown, "", &gav.group)?;
    push_text(shown, ":", &gav.artifact)?;
    push_text(shown, ":", &gav.version)
}

/// Names and their values.
pub fn push_pairs(shown: &mut String, pairs: &List<Pair>) -> Mem<()> {
    for pair in pairs.as_slice() {
        push_text(shown, " $", &pair.name)?;
        push_text(shown, "=", &pair.value)?;
    }
    Ok(())
}

fn push_setting(shown: &mut String, mark: &str, setting: &Setting) -> Mem<()> {
    push_text(shown, mark, &setting.name)?;
    push_text(shown, "'", &setting.text)?;
    shown.push_str("'")?;
    Ok(())
}

// The third level.
fn push_third(shown: &mut String, settings: &List<Setting>) -> Mem<()> {
    for setting in settings.as_slice() {
        push_setting(shown, "/", setting)?;
    }
    Ok(())
}

// The second level.
fn push_second(shown: &mut String, settings: &List<Setting>) -> Mem<()> {
    for setting in settings.as_slice() {
        push_setting(shown, " ", setting)?;
        push_third(shown, &setting.children)?;
    }
    Ok(())
}

/// Settings and those in them, three levels deep.
pub fn push_settings(shown: &mut String, settings: &List<Setting>) -> Mem<()> {
    for setting in settings.as_slice() {
        push_setting(shown, " <", setting)?;
        push_second(shown, &setting.children)?;
        shown.push_str(">")?;
    }
    Ok(())
}

fn push_exclusions(shown: &mut String, exclusions: &List<Exclusion>) -> Mem<()> {
    for exclusion in exclusions.as_slice() {
        push_text(shown, " -", &exclusion.group)?;
        push_text(shown, ":", &exclusion.artifact)?;
    }
    Ok(())
}

// What one states besides its key.
fn push_stated(shown: &mut String, dependency: &Dependency) -> Mem<()> {
    push_option(shown, " v=", &dependency.version)?;
    push_option(shown, " scope=", &dependency.scope)?;
    push_text(shown, " optional=", &dependency.optional)?;
    push_exclusions(shown, &dependency.exclusions)
}

fn push_dependency(shown: &mut String, dependency: &Dependency) -> Mem<()> {
    push_text(shown, "", &dependency.group)?;
    push_text(shown, ":", &dependency.artifact)?;
    push_text(shown, ":", &dependency.kind)?;
    push_text(shown, ":", &dependency.classifier)?;
    push_stated(shown, dependency)
}

/// Dependencies, each after a label with a bracket.
pub fn push_dependencies(
    shown: &mut String,
    label: &str,
    list: &List<Shared<Dependency>>,
) -> Mem<()> {
    for dependency in list.as_slice() {
        shown.push_str(label)?;
        push_dependency(shown, dependency)?;
        shown.push_str("]")?;
    }
    Ok(())
}

fn push_own(shown: &mut String, inherited: bool) -> Mem<()> {
    if !inherited {
        shown.push_str(" own")?;
    }
    Ok(())
}

fn push_execution(shown: &mut String, execution: &Execution) -> Mem<()> {
    push_text(shown, " {", &execution.id)?;
    push_option(shown, " phase=", &execution.phase)?;
    push_texts(shown, " goal=", &execution.goals)?;
    push_own(shown, execution.inherited)?;
    push_settings(shown, &execution.configuration)?;
    shown.push_str("}")?;
    Ok(())
}

fn push_executions(shown: &mut String, executions: &List<Shared<Execution>>) -> Mem<()> {
    for execution in executions.as_slice() {
        push_execution(shown, execution)?;
    }
    Ok(())
}

/// A plugin.
pub(crate) fn push_plugin(shown: &mut String, plugin: &Plugin) -> Mem<()> {
    push_text(shown, "", &plugin.group)?;
    push_text(shown, ":", &plugin.artifact)?;
    push_option(shown, " v=", &plugin.version)?;
    push_own(shown, plugin.inherited)?;
    push_dependencies(shown, " [", &plugin.dependencies)?;
    push_executions(shown, &plugin.executions)?;
    push_settings(shown, &plugin.configuration)
}

/// Plugins, each after a label with a bracket.
pub(crate) fn push_plugins(
    shown: &mut String,
    label: &str,
    plugins: &List<Shared<Plugin>>,
) -> Mem<()> {
    for plugin in plugins.as_slice() {
        shown.push_str(label)?;
        push_plugin(shown, plugin)?;
        shown.push_str("]")?;
    }
    Ok(())
}

fn push_outputs(shown: &mut String, outputs: &Outputs) -> Mem<()> {
    push_option(shown, " directory=", &outputs.directory)?;
    push_option(shown, " output=", &outputs.output)?;
    push_option(shown, " test_output=", &outputs.test_output)?;
    push_option(shown, " final=", &outputs.final_name)
}

fn push_sources(shown: &mut String, sources: &Sources) -> Mem<()> {
    push_option(shown, " source=", &sources.source)?;
    push_option(shown, " test_source=", &sources.test_source)?;
    push_texts(shown, " resource=", &sources.resources)?;
    push_texts(shown, " test_resource=", &sources.test_resources)
}

/// The plugins of a build, and those that it manages.
pub fn push_build_base(shown: &mut String, managed: &str, base: &BuildBase) -> Mem<()> {
    push_plugins(shown, " plugin[", &base.plugins)?;
    push_plugins(shown, managed, &base.managed_plugins)
}

fn push_extensions(shown: &mut String, extensions: &List<Gav>) -> Mem<()> {
    for extension in extensions.as_slice() {
        shown.push_str(" extension=")?;
        push_gav(shown, extension)?;
    }
    Ok(())
}

/// A build.
pub(crate) fn push_build(shown: &mut String, build: &Build) -> Mem<()> {
    push_outputs(shown, &build.outputs)?;
    push_sources(shown, &build.sources)?;
    push_build_base(shown, " managed[", &build.base)?;
    push_extensions(shown, &build.extensions)
}

fn push_default(shown: &mut String, by_default: bool) -> Mem<()> {
    if by_default {
        shown.push_str(" default")?;
    }
    Ok(())
}

fn push_property(shown: &mut String, property: &Option<Property>) -> Mem<()> {
    match property {
        Some(property) => {
            push_text(shown, " property=", &property.name)?;
            push_option(shown, ":", &property.value)
        }
        None => Ok(()),
    }
}

fn push_system(shown: &mut String, os: &Os) -> Mem<()> {
    push_option(shown, " os=", &os.name)?;
    push_option(shown, " family=", &os.family)?;
    push_option(shown, " arch=", &os.arch)?;
    push_option(shown, " os_version=", &os.version)
}

fn push_os(shown: &mut String, os: &Option<Os>) -> Mem<()> {
    match os {
        Some(os) => push_system(shown, os),
        None => Ok(()),
    }
}

// The criteria of a profile.
fn push_criteria(shown: &mut String, activation: &Activation) -> Mem<()> {
    shown.push_str(" when")?;
    push_default(shown, activation.by_default)?;
    push_property(shown, &activation.property)?;
    push_option(shown, " exists=", &activation.exists)?;
    push_option(shown, " missing=", &activation.missing)?;
    push_option(shown, " jdk=", &activation.jdk)?;
    push_os(shown, &activation.os)
}

fn push_activation(shown: &mut String, activation: &Option<Shared<Activation>>) -> Mem<()> {
    match activation {
        Some(activation) => push_criteria(shown, activation),
        None => Ok(()),
    }
}

/// What a project and a profile may both state.
pub fn push_base(shown: &mut String, base: &ModelBase) -> Mem<()> {
    push_texts(shown, " module=", &base.modules)?;
    push_pairs(shown, &base.properties)?;
    push_dependencies(shown, " managed[", &base.managed)?;
    push_dependencies(shown, " needs[", &base.dependencies)
}

fn push_profile(shown: &mut String, profile: &Profile) -> Mem<()> {
    push_text(shown, " profile{", &profile.id)?;
    push_activation(shown, &profile.activation)?;
    push_base(shown, &profile.base)?;
    push_build_base(shown, " managed_plugin[", &profile.build)?;
    shown.push_str("}")?;
    Ok(())
}

fn push_pom(shown: &mut String, pom: &PomId) -> Mem<()> {
    match pom {
        PomId::Path(path) => push_text(shown, "", path),
        PomId::Gav(gav) => push_gav(shown, gav),
    }
}

fn push_parent(shown: &mut String, parent: &Parent) -> Mem<()> {
    shown.push_str(" parent=")?;
    push_gav(shown, &parent.gav)?;
    push_text(shown, "@", &parent.relative_path)
}

fn push_coordinates(shown: &mut String, coordinates: &Coordinates) -> Mem<()> {
    push_option(shown, " group=", &coordinates.group)?;
    push_text(shown, " artifact=", &coordinates.artifact)?;
    push_option(shown, " version=", &coordinates.version)?;
    push_text(shown, " packaging=", &coordinates.packaging)
}

fn push_profiles(shown: &mut String, profiles: &List<Profile>) -> Mem<()> {
    for profile in profiles.as_slice() {
        push_profile(shown, profile)?;
    }
    Ok(())
}

// The name of a model and its parent.
fn push_names(shown: &mut String, model: &RawModel) -> Mem<()> {
    push_pom(shown, &model.pom)?;
    match &model.parent {
        Some(parent) => push_parent(shown, parent),
        None => Ok(()),
    }
}

fn push_model(shown: &mut String, model: &RawModel) -> Mem<()> {
    push_names(shown, model)?;
    push_coordinates(shown, &model.coordinates)?;
    push_base(shown, &model.base)?;
    push_build(shown, &model.build)?;
    push_profiles(shown, &model.profiles)
}

/// A model as one text.
pub fn model_text(alloc: Global, model: &RawModel) -> Mem<String> {
    let mut shown = String::new(alloc);
    push_model(&mut shown, model)?;
    Ok(shown)
}
