// What the goals of a module use of its dependencies.
ghost use Rattle.std.specs.Prelude.{◌≡◌, true, List as Items, ℕ, Option, None, Some, codes, IfOk};
ghost use Rattle.std.specs.List.{list_any};
ghost use Rattle.mvn_base.specs.FileName.{is_classifier};
ghost use Rattle.goal_types.specs.declared.goal.GoalCall as goal_calls;
ghost use Rattle.classpaths.specs.Classpaths.{artifact_file, classifier_of, HasNames};
ghost use Rattle.module_plan.specs.Uses.{attached_slot, has_names, is_main_type, is_needed, needs_path, slot_by, slot_of};

use classpaths::Resolved;
use goal_types::{GoalCall, Need, Slot};
use mvn_base::{FileName, TypeRule, file_of, handler, valid_group, valid_name, valid_version};
use mvn_shared::{Mem, Text};
use std::alloc::Global;

// Whether a goal needs a classpath.
fn is_needed(need: Need) -> bool
    ensures { result ≡ is_needed need }
{
    match need {
        Need::Nothing => false,
        Need::Compile => true,
        Need::Runtime => true,
        Need::Test => true,
    }
}

/// Whether some goal needs a classpath. Costs a look at each.
pub fn needs_path(calls: &[GoalCall]) -> bool
    ensures { result ≡ needs_path calls.now }
{
    for call in calls {
        if is_needed(call.need) {
            return true;
        }
    }
    false
}

// Whether the classifier is empty or a name.
fn valid_classifier(text: &Text) -> bool
    ensures { result ≡ is_classifier text.now }
{
    text.is_empty() || valid_name(text.as_bytes())
}

/// Whether the names of a dependency are valid, so that it has files. Costs their length.
pub fn has_names(winner: &Resolved) -> bool
    ensures { result ≡ has_names winner.now }
{
    valid_group(winner.gav.group.as_bytes())
        && valid_name(winner.gav.artifact.as_bytes())
        && valid_version(winner.gav.version.as_bytes())
        && valid_name(winner.kind.as_bytes())
        && valid_classifier(&winner.classifier)
}

// The classifier that is declared, or the one of the type.
fn classifier_of<'a>(winner: &'a Resolved, rule: &'a TypeRule) -> &'a Text
    ensures { result.now ≡ classifier_of winner.now rule.now }
{
    if winner.classifier.is_empty() {
        &rule.classifier
    } else {
        &winner.classifier
    }
}

// The name of the artifact's file.
fn file_by(alloc: Global, winner: &Resolved) -> Mem<FileName>
    requires { HasNames winner.now }
    ensures { IfOk result (λ name. name ≡ artifact_file winner.now) }
{
    let rule = handler(alloc, &winner.kind)?;
    file_of(
        alloc,
        &winner.gav,
        classifier_of(winner, &rule),
        &rule.extension,
    )
}

/// The name of a dependency's file. Costs its length. Maven's repository layout.
#[tactic(auto, using(crate::proofs::Naming::names_of))]
pub fn artifact_file(alloc: Global, winner: &Resolved) -> Mem<FileName>
    requires { has_names winner.now ≡ true }
    ensures { IfOk result (λ name. name ≡ artifact_file winner.now) }
{
    file_by(alloc, winner)
}

// Which output a classifier names.
fn attached_slot(classifier: &str) -> Option<Slot>
    ensures { result ≡ attached_slot classifier.now }
{
    if classifier == "tests" {
        Some(Slot::Tests)
    } else if classifier == "sources" {
        Some(Slot::Sources)
    } else if classifier == "javadoc" {
        Some(Slot::Javadoc)
    } else {
        None
    }
}

// Whether a module's main output has a type.
fn is_main_type(kind: &str) -> bool
    ensures { result ≡ is_main_type kind.now }
{
    kind == "jar" || kind == "ejb" || kind == "war" || kind == "ear" || kind == "rar"
}

// Which of a module's outputs has a type, a classifier and an extension.
fn slot_by(kind: &str, classifier: &str, extension: &str) -> Option<Slot>
    ensures { result ≡ slot_by kind.now classifier.now extension.now }
{
    if classifier.is_empty() {
        if is_main_type(kind) {
            return Some(Slot::Main);
        }
        return None;
    }
    if extension == "jar" {
        return attached_slot(classifier);
    }
    None
}

/// Which of a module's outputs a dependency is; of some there is none. Costs its type. Maven's default artifact handlers.
pub fn slot_of(alloc: Global, winner: &Resolved) -> Mem<Option<Slot>>
    ensures { IfOk result (λ slot. slot ≡ slot_of winner.now) }
{
    let rule = handler(alloc, &winner.kind)?;
    let classifier = classifier_of(winner, &rule);
    Ok(slot_by(
        winner.kind.as_str(),
        classifier.as_str(),
        rule.extension.as_str(),
    ))
}
