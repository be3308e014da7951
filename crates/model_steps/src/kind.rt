//! What is stated where a version may stand: nothing, a version, a range or an unreadable text.

ghost use Rattle.std.specs.Prelude.{◌≡◌, Some, IfOk};
ghost use Rattle.model_steps.specs.Kinds.{kind_of};

use mvn_shared::{Mem, OutOfMemory, Text};
use std::alloc::Global;
use versions::{Requirement, RequirementError};

/// What is stated where a version may stand: nothing, one version, a range, or a text that can't be read as either. POM
/// Reference, "Dependency Version Requirement Specification". Public for definitions alone.
#[derive(Clone, Copy)]
pub enum VersionKind {
    Missing,
    Soft,
    Range,
    Unreadable,
}

// What the text of a version states.
pub fn kind_of_text(alloc: Global, version: &Text) -> Mem<VersionKind>
    ensures { IfOk result (λ kind. kind ≡ kind_of (Some version.now)) }
{
    match Requirement::parse(alloc, version) {
        Ok(Requirement::Soft(_)) => Ok(VersionKind::Soft),
        Ok(Requirement::Hard(_)) => Ok(VersionKind::Range),
        Err(RequirementError::BadRange { place: _ }) => Ok(VersionKind::Unreadable),
        Err(RequirementError::Memory) => Err(OutOfMemory),
    }
}

// What a version states, if there is one.
pub fn kind_of(alloc: Global, version: &Option<Text>) -> Mem<VersionKind>
    ensures { IfOk result (λ kind. kind ≡ kind_of version.now) }
{
    match version {
        Some(version) => kind_of_text(alloc, version),
        None => Ok(VersionKind::Missing),
    }
}
