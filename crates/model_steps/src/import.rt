//! Which managed entries are imports, and the coordinates that they import.

ghost use Rattle.std.specs.Prelude.{◌≡◌, [], false, unwrap_or, Err, IfOk};
ghost use Rattle.managed_deps.specs.Managed.{is_import, key_of};
ghost use Rattle.mvn_base.specs.Key.{key_text};
ghost use Rattle.pom_source.specs.Answers.{Says, build_failed};
ghost use Rattle.pom_source.specs.Refusals.{text_refused};
ghost use Rattle.model_steps.specs.Imports.{dependency_gav, gav_by, import_gav};

use crate::{VersionKind, is_scope, kind_of, text_or_empty};
use model_merge::Keyed;
use model_types::Dependency;
use mvn_base::{Gav, PomId, Rule, key_text};
use mvn_shared::{Mem, Text};
use pom_source::{BuildFault, text_refused};
use std::alloc::Global;

/// Whether a managed entry stands for what another POM manages: its scope is `import`. Constant time. Introduction to
/// the Dependency Mechanism, "Importing Dependencies".
pub fn is_import(dependency: &Dependency) -> bool
    ensures { result ≡ is_import dependency.now }
{
    is_scope(&dependency.scope, "import")
}

// The coordinates of a dependency.
fn dependency_gav(alloc: Global, dependency: &Dependency) -> Mem<Gav>
    ensures { IfOk result (λ gav. gav ≡ dependency_gav dependency.now) }
{
    let group = dependency.group.clone()?;
    let artifact = dependency.artifact.clone()?;
    let version = text_or_empty(alloc, &dependency.version)?;
    Ok(Gav {
        group,
        artifact,
        version,
    })
}

// A refusal that names the key of a dependency.
fn key_refused<T>(
    alloc: Global,
    pom: &PomId,
    rule: Rule,
    dependency: &Dependency,
) -> Result<T, BuildFault>
    ensures says { Says
        (Err (text_refused pom.now rule (key_text (key_of dependency.now)))) result }
    ensures cause { build_failed result ≡ false }
{
    let text = key_text(alloc, &dependency.key(alloc)?)?;
    text_refused(pom, rule, &text)
}

// A refusal that names the version of a dependency.
fn version_refused<T>(
    alloc: Global,
    pom: &PomId,
    rule: Rule,
    dependency: &Dependency,
) -> Result<T, BuildFault>
    ensures says { Says
        (Err (text_refused pom.now rule (unwrap_or dependency.now.version []))) result }
    ensures cause { build_failed result ≡ false }
{
    let text = text_or_empty(alloc, &dependency.version)?;
    text_refused(pom, rule, &text)
}

// The coordinates of a dependency whose version is of a kind.
fn gav_by(
    alloc: Global,
    pom: &PomId,
    dependency: &Dependency,
    kind: VersionKind,
) -> Result<Gav, BuildFault>
    ensures says { Says (gav_by pom.now dependency.now kind) result }
    ensures cause { build_failed result ≡ false }
{
    match kind {
        VersionKind::Missing => key_refused(alloc, pom, Rule::VersionMissing, dependency),
        VersionKind::Soft => Ok(dependency_gav(alloc, dependency)?),
        VersionKind::Range => version_refused(alloc, pom, Rule::BadRange, dependency),
        VersionKind::Unreadable => version_refused(alloc, pom, Rule::BadRange, dependency),
    }
}

/// The coordinates of the POM that a managed entry of scope `import` stands for; its classifier doesn't matter. It is
/// refused if its type isn't `pom` (rule 23), or else if it has no version (19), both at its key; or else if the
/// version is a range or can't be read, as an empty one (20), at the version. The refusal names the POM that is given.
/// Costs the entry's texts. Introduction to the Dependency Mechanism, "Importing Dependencies"; the order of refusals
/// is a project rule.
#[tactic(auto, unfolding(crate::specs::Imports::import_gav))]
pub fn import_gav(alloc: Global, pom: &PomId, dependency: &Dependency) -> Result<Gav, BuildFault>
    ensures says { Says (import_gav pom.now dependency.now) result }
    ensures cause { build_failed result ≡ false }
{
    if dependency.kind.as_str() != "pom" {
        return key_refused(alloc, pom, Rule::ImportNotPom, dependency);
    }
    let kind = kind_of(alloc, &dependency.version)?;
    gav_by(alloc, pom, dependency, kind)
}
