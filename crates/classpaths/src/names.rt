//! The names of the POM and the artifact of a dependency in a repository.

ghost use Rattle.std.specs.Prelude.{◌≡◌, [], true, codes, IfOk};
ghost use Rattle.mvn_base.specs.FileName.{IsValid, file_name, is_classifier};
ghost use Rattle.mvn_base.specs.Names.{is_name};
ghost use Rattle.classpaths.specs.Classpaths.{HasNames, artifact_file, classifier_of, pom_file};

use crate::resolution::Resolved;
use mvn_base::{FileName, Gav, TypeRule, file_of, handler};
use mvn_shared::{Mem, Text};
use std::alloc::Global;

// The extension of a POM.
#[tactic(auto, unfolding(mvn_base::specs::Names::is_name, mvn_base::specs::Names::is_name_byte))]
fn pom_extension(alloc: Global) -> Mem<Text>
    ensures word { IfOk result (λ text. text ≡ codes "pom") }
    ensures name { IfOk result (λ text. is_name text ≡ true) }
{
    Text::from_str(alloc, "pom")
}

// The POM's file.
pub fn pom_file(alloc: Global, gav: &Gav) -> Mem<FileName>
    requires { IsValid gav.now }
    ensures { IfOk result (λ name. name ≡ pom_file gav.now) }
{
    let classifier = Text::from_str(alloc, "")?;
    let extension = pom_extension(alloc)?;
    file_of(alloc, gav, &classifier, &extension)
}

// The classifier that is declared, or the one of the type.
fn classifier_of<'a>(winner: &'a Resolved, rule: &'a TypeRule) -> &'a Text
    ensures { result.now ≡ classifier_of winner.now rule.now }
{
    if winner.classifier.is_empty() {
        &rule.classifier
    } else {
        &winner.classifier
    }
}

// The artifact's file.
pub fn artifact_file(alloc: Global, winner: &Resolved) -> Mem<FileName>
    requires { HasNames winner.now }
    ensures { IfOk result (λ name. name ≡ artifact_file winner.now) }
{
    let rule = handler(alloc, &winner.kind)?;
    file_of(
        alloc,
        &winner.gav,
        classifier_of(winner, &rule),
        &rule.extension,
    )
}
