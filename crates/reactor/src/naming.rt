//! Which modules a group, an artifact and a version name.

ghost use Rattle.std.specs.Prelude.{◌≡◌, ◌++◌, filter, IfOk, OnOk};
ghost use Rattle.std.specs.Option.{option_copied};
ghost use Rattle.reactor.specs.Edges.{edges_to};
ghost use Rattle.reactor.specs.Index.{IsIndex, passes_at};
ghost use Rattle.reactor.specs.Naming.{asks_for, is_asked, is_named, named};
ghost use Rattle.versions.specs.Requirements.{requirement};

use crate::index::ModuleIndex;
use model_types::Model;
use mvn_base::Gav;
use mvn_shared::{Mem, OutOfMemory, Shared, Text};
use std::alloc::Global;
use versions::{Requirement, RequirementError, Version};

// Whether a requirement asks for a version.
fn asks_for(alloc: Global, text: &Text, version: &Text) -> Mem<bool>
    ensures { IfOk result (λ asked. asked ≡ asks_for version.now (requirement text.now)) }
{
    match Requirement::parse(alloc, text) {
        Ok(Requirement::Soft(own)) => Ok(own.as_str() == version.as_str()),
        Ok(hard) => {
            let version = Version::parse(alloc, version)?;
            Ok(hard.admits(&version))
        }
        Err(RequirementError::BadRange { .. }) => Ok(false),
        Err(RequirementError::Memory) => Err(OutOfMemory),
    }
}

// Whether a version that may be stated asks for this one.
fn is_asked(alloc: Global, stated: Option<&Text>, version: &Text) -> Mem<bool>
    ensures { IfOk result (λ asked. asked ≡ is_asked (option_copied stated.entry) version.now) }
{
    match stated {
        Some(text) => asks_for(alloc, text, version),
        None => Ok(true),
    }
}

// Whether coordinates are those that are named.
fn is_named(
    alloc: Global,
    group: &Text,
    artifact: &Text,
    version: Option<&Text>,
    gav: &Gav,
) -> Mem<bool>
    ensures { IfOk result (λ named.
        named ≡ is_named group.now artifact.now (option_copied version.entry) gav.now) }
{
    if gav.artifact.as_str() != artifact.as_str() || gav.group.as_str() != group.as_str() {
        return Ok(false);
    }
    is_asked(alloc, version, &gav.version)
}

// Whether the module at a number is named.
fn is_named_at(
    alloc: Global,
    modules: &[Shared<Model>],
    number: u32,
    group: &Text,
    artifact: &Text,
    version: Option<&Text>,
) -> Mem<bool>
    ensures { IfOk result (λ named. named
        ≡ passes_at modules.now
        (is_named group.now artifact.now (option_copied version.entry)) number) }
{
    match modules.get(number as usize) {
        Some(m) => is_named(alloc, group, artifact, version, &m.gav),
        None => Ok(false),
    }
}

// Edges to those of some modules that are named.
fn push_kept(
    alloc: Global,
    modules: &[Shared<Model>],
    from: u32,
    numbers: &[u32],
    group: &Text,
    artifact: &Text,
    version: Option<&Text>,
    edges: &mut Vec<(u32, u32)>,
) -> Mem<()>
    ensures { OnOk result (edges.new.items ≡ edges.old.items ++ edges_to from
        (filter (passes_at modules.now
        (is_named group.now artifact.now (option_copied version.entry))) numbers.now)) }
{
    for number in numbers {
        if is_named_at(alloc, modules, *number, group, artifact, version)? {
            edges.push((from, *number))?;
        }
    }
    Ok(())
}

/// Edges to the modules that are named. Costs the modules of that artifact.
#[tactic(auto, unfolding(crate::specs::Naming::named), using(crate::proofs::Keeping::kept_are_named))]
pub(crate) fn push_named(
    alloc: Global,
    modules: &[Shared<Model>],
    index: &ModuleIndex,
    from: u32,
    group: &Text,
    artifact: &Text,
    version: Option<&Text>,
    edges: &mut Vec<(u32, u32)>,
) -> Mem<()>
    requires { IsIndex modules.now index.now }
    ensures { OnOk result (edges.new.items ≡ edges.old.items ++ edges_to from
        (named modules.now group.now artifact.now (option_copied version.entry))) }
{
    let numbers = index.at(artifact);
    push_kept(
        alloc, modules, from, numbers, group, artifact, version, edges,
    )
}
