//! Whether an effective model is valid, and the first problem of one that isn't.

ghost use Rattle.std.specs.Prelude.{◌≡◌, [], codes, is_some, not, unwrap_or, Some, false, true, IfOk};
ghost use Rattle.mvn_base.specs.Names.{is_filled};
ghost use Rattle.mvn_base.specs.Key.{key_text};
ghost use Rattle.managed_deps.specs.Managed.{key_of};
ghost use Rattle.pom_source.specs.Answers.{Says, build_failed};
ghost use Rattle.model_steps.specs.Validation.{checked, first_problem, gav_problem, is_missing, is_named, is_own_scope, is_soft, is_unreadable, item_problem, may_be_scope, model_problem, name_problem, problem, scope_problem, scope_problem_of, version_problem};
ghost use Rattle.model_steps.specs.Valid.{is_valid};
ghost use Rattle.model_types.specs.declared.model.Model as models;

use crate::kind::{VersionKind, kind_of, kind_of_text};
use crate::problem::Problem;
use crate::texts::{is_of_project, is_scope, text_or_empty};
use model_merge::Keyed;
use model_types::{Dependency, Model};
use mvn_base::{Gav, PomId, Rule, key_text, valid_group, valid_name, valid_version};
use mvn_shared::{Mem, Shared, Text};
use pom_source::{BuildFault, text_refused};
use std::alloc::Global;

// A problem that names a text.
fn text_problem(rule: Rule, place: &Text) -> Mem<Option<Problem>>
    ensures { IfOk result (λ it. it ≡ Some (problem rule place.now)) }
{
    let place = place.clone()?;
    Ok(Some(Problem { rule, place }))
}

// A problem that names the key of a dependency.
fn key_problem(alloc: Global, rule: Rule, d: &Dependency) -> Mem<Option<Problem>>
    ensures { IfOk result (λ it. it ≡ Some (problem rule (key_text (key_of d.now)))) }
{
    let place = key_text(alloc, &d.key(alloc)?)?;
    Ok(Some(Problem { rule, place }))
}

// A problem that names the version of a dependency.
fn stated_version_problem(alloc: Global, rule: Rule, d: &Dependency) -> Mem<Option<Problem>>
    ensures { IfOk result (λ it. it ≡ Some (problem rule (unwrap_or d.now.version []))) }
{
    let place = text_or_empty(alloc, &d.version)?;
    Ok(Some(Problem { rule, place }))
}

impl VersionKind {
    fn is_soft(self) -> bool
        ensures { result ≡ is_soft self }
    {
        matches!(self, VersionKind::Soft)
    }

    fn is_missing(self) -> bool
        ensures { result ≡ is_missing self }
    {
        matches!(self, VersionKind::Missing)
    }

    fn is_unreadable(self) -> bool
        ensures { result ≡ is_unreadable self }
    {
        matches!(self, VersionKind::Unreadable)
    }

    // Whether a text of this kind is named as a version may be, if it is one version.
    fn is_named(self, version: &[u8]) -> bool
        ensures { result ≡ is_named self version.now }
    {
        match self {
            VersionKind::Soft => valid_version(version),
            VersionKind::Missing => true,
            VersionKind::Range => true,
            VersionKind::Unreadable => true,
        }
    }
}

// The first problem of the coordinates.
#[tactic(auto, unfolding(crate::specs::Validation::gav_problem))]
fn gav_problem(kind: VersionKind, gav: &Gav) -> Mem<Option<Problem>>
    ensures { IfOk result (λ it. it ≡ gav_problem kind gav.now) }
{
    if !valid_group(gav.group.as_bytes()) {
        return text_problem(Rule::BadName, &gav.group);
    }
    if !valid_name(gav.artifact.as_bytes()) {
        return text_problem(Rule::BadName, &gav.artifact);
    }
    if !kind.is_named(gav.version.as_bytes()) {
        return text_problem(Rule::BadName, &gav.version);
    }
    if !kind.is_soft() {
        return text_problem(Rule::BadRange, &gav.version);
    }
    Ok(None)
}

// Whether a dependency's version is named as one may be.
fn is_version_named(kind: VersionKind, version: &Option<Text>) -> bool
    ensures { result ≡ is_named kind (unwrap_or version.now []) }
{
    match version {
        Some(version) => kind.is_named(version.as_bytes()),
        None => kind.is_named(b""),
    }
}

// The first problem of a dependency's names.
#[tactic(auto, unfolding(crate::specs::Validation::name_problem))]
fn name_problem(alloc: Global, kind: VersionKind, d: &Dependency) -> Mem<Option<Problem>>
    ensures { IfOk result (λ it. it ≡ name_problem kind d.now) }
{
    if !valid_group(d.group.as_bytes()) {
        return text_problem(Rule::BadName, &d.group);
    }
    if !valid_name(d.artifact.as_bytes()) {
        return text_problem(Rule::BadName, &d.artifact);
    }
    if !is_version_named(kind, &d.version) {
        return stated_version_problem(alloc, Rule::BadName, d);
    }
    if !valid_name(d.kind.as_bytes()) {
        return text_problem(Rule::BadName, &d.kind);
    }
    if is_filled(&d.classifier) && !valid_name(d.classifier.as_bytes()) {
        return text_problem(Rule::BadName, &d.classifier);
    }
    Ok(None)
}

// Whether a text isn't empty.
fn is_filled(text: &Text) -> bool
    ensures { result ≡ is_filled text.now }
{
    text.len() != 0
}

// Whether a scope is one that a dependency may have.
fn is_own_scope(scope: &str) -> bool
    ensures { result ≡ is_own_scope scope.now }
{
    scope == "compile"
        || scope == "provided"
        || scope == "runtime"
        || scope == "test"
        || scope == "system"
}

// Whether a dependency, or a managed entry, may have a scope.
fn may_be_scope(managed: bool, scope: &str) -> bool
    ensures { result ≡ may_be_scope managed scope.now }
{
    is_own_scope(scope) || (managed && scope == "import")
}

// The problem of a scope's name, if it has one.
fn scope_name_problem(managed: bool, scope: &Option<Text>) -> Mem<Option<Problem>>
    ensures { IfOk result (λ it. it ≡ scope_problem_of managed scope.now) }
{
    match scope {
        Some(scope) => {
            if may_be_scope(managed, scope.as_str()) {
                return Ok(None);
            }
            text_problem(Rule::BadScope, scope)
        }
        None => Ok(None),
    }
}

// The first problem of a dependency's scope.
#[tactic(auto, unfolding(crate::specs::Validation::scope_problem))]
fn scope_problem(alloc: Global, managed: bool, pom: &PomId, d: &Dependency) -> Mem<Option<Problem>>
    ensures { IfOk result (λ it. it ≡ scope_problem managed pom.now d.now) }
{
    if let Some(problem) = scope_name_problem(managed, &d.scope)? {
        return Ok(Some(problem));
    }
    if is_of_project(pom) && is_scope(&d.scope, "system") {
        return key_problem(alloc, Rule::SystemScope, d);
    }
    Ok(None)
}

// The first problem of a dependency's version.
#[tactic(auto, unfolding(crate::specs::Validation::version_problem))]
fn version_problem(
    alloc: Global,
    managed: bool,
    kind: VersionKind,
    d: &Dependency,
) -> Mem<Option<Problem>>
    ensures { IfOk result (λ it. it ≡ version_problem managed kind d.now) }
{
    if !managed && kind.is_missing() {
        return key_problem(alloc, Rule::VersionMissing, d);
    }
    if kind.is_unreadable() {
        return stated_version_problem(alloc, Rule::BadRange, d);
    }
    Ok(None)
}

// The first problem of a dependency or a managed entry.
#[tactic(auto, unfolding(crate::specs::Validation::item_problem))]
fn item_problem(alloc: Global, managed: bool, pom: &PomId, d: &Dependency) -> Mem<Option<Problem>>
    ensures { IfOk result (λ it. it ≡ item_problem managed pom.now d.now) }
{
    let kind = kind_of(alloc, &d.version)?;
    if let Some(problem) = name_problem(alloc, kind, d)? {
        return Ok(Some(problem));
    }
    if let Some(problem) = scope_problem(alloc, managed, pom, d)? {
        return Ok(Some(problem));
    }
    version_problem(alloc, managed, kind, d)
}

// The first problem in a list.
#[tactic(auto, using(crate::proofs::Problems::here, crate::proofs::Problems::later))]
fn first_problem(
    alloc: Global,
    managed: bool,
    pom: &PomId,
    items: &[Shared<Dependency>],
) -> Mem<Option<Problem>>
    ensures { IfOk result (λ it. it ≡ first_problem (item_problem managed pom.now) items.now) }
{
    for d in items {
        if let Some(problem) = item_problem(alloc, managed, pom, d)? {
            return Ok(Some(problem));
        }
    }
    Ok(None)
}

// The first problem of a model.
#[tactic(auto, unfolding(crate::specs::Validation::model_problem))]
fn model_problem(alloc: Global, model: &Model) -> Mem<Option<Problem>>
    ensures { IfOk result (λ it. it ≡ model_problem model.now) }
{
    let kind = kind_of_text(alloc, &model.gav.version)?;
    if let Some(problem) = gav_problem(kind, &model.gav)? {
        return Ok(Some(problem));
    }
    if let Some(problem) = first_problem(alloc, true, &model.pom, model.base.managed.as_slice())? {
        return Ok(Some(problem));
    }
    first_problem(alloc, false, &model.pom, model.base.dependencies.as_slice())
}

/// The model as it is, or the refusal of its first problem, which names the model's own POM: in its coordinates, then
/// in each managed entry, then in each dependency. In one entry a problem is, in this order: a group, an artifact, a
/// version (if it is one version), a type or a classifier that isn't allowed (rule 9), at that text; a scope that there
/// isn't (21), at the scope, where a managed entry may be of scope `import`; in a POM of the project the scope `system`
/// (22), at the key; a dependency without a version (19), at the key; a version that can't be read, as an empty one
/// (20), at the version. The coordinates need one version (20). Costs their texts. POM Reference; the order is a
/// project rule.
#[tactic(auto, using(crate::proofs::Validity::valid_without_problem))]
pub fn checked(alloc: Global, model: Model) -> Result<Model, BuildFault>
    ensures says { Says (checked model) result }
    ensures same { IfOk result (λ it. it ≡ model) }
    ensures valid { IfOk result (λ it. is_valid it ≡ true) }
    ensures cause { build_failed result ≡ false }
{
    match model_problem(alloc, &model)? {
        Some(problem) => text_refused(&model.pom, problem.rule, &problem.place),
        None => Ok(model),
    }
}

/// A law of what is refused: a model has a problem exactly if it isn't valid, that is if a name, a scope or a version
/// in it isn't allowed. POM Reference.
#[tactic(auto, using(crate::proofs::Validity::problem_if_invalid))]
pub fn refused_if_invalid()
    ensures { (model : models.Model) → is_some (model_problem model) ≡ not (is_valid model) }
{}
