// The files of dependencies.
ghost use Rattle.std.specs.Prelude.{◌≡◌, ◌++◌, true, slice_get, Some, IfOk, OnOk};
ghost use Rattle.classpaths.specs.Classpaths.{artifact_file, classifier_of};
ghost use Rattle.report.specs.Full.{file_of, has_names};

use classpaths::Resolved;
use mvn_base::{FileName, TypeRule, file_of, handler, valid_group, valid_name, valid_version};
use mvn_shared::{List, Mem, Shared, Text};
use std::alloc::Global;

// Whether the names of a dependency are valid.
fn has_names(winner: &Resolved) -> bool
    ensures { result ≡ has_names winner.now }
{
    let classifier = winner.classifier.as_bytes();
    valid_group(winner.gav.group.as_bytes())
        && valid_name(winner.gav.artifact.as_bytes())
        && valid_version(winner.gav.version.as_bytes())
        && valid_name(winner.kind.as_bytes())
        && (classifier.is_empty() || valid_name(classifier))
}

// The classifier that is declared, or the one of the type.
fn classifier_of<'a>(winner: &'a Resolved, rule: &'a TypeRule) -> &'a Text
    ensures { result.now ≡ classifier_of winner.now rule.now }
{
    if winner.classifier.is_empty() {
        &rule.classifier
    } else {
        &winner.classifier
    }
}

// The file of a dependency whose names are valid.
fn file_of_winner(alloc: Global, winner: &Resolved) -> Mem<FileName>
    requires { has_names winner.now ≡ true }
    ensures { IfOk result (λ name. name ≡ artifact_file winner.now) }
{
    let rule = handler(alloc, &winner.kind)?;
    file_of(
        alloc,
        &winner.gav,
        classifier_of(winner, &rule),
        &rule.extension,
    )
}

// Puts the file of a dependency after those that are there, if its names are valid.
fn push_named(alloc: Global, files: &mut List<FileName>, winner: &Resolved) -> Mem<()>
    ensures { OnOk result (files.new ≡ files.old ++ file_of (Some winner.now)) }
{
    if has_names(winner) {
        files.push(file_of_winner(alloc, winner)?)
    } else {
        Ok(())
    }
}

/// Puts the file of a dependency after those that are there, if it has one. Costs its name. Maven's repository layout.
pub(crate) fn push_file(
    alloc: Global,
    files: &mut List<FileName>,
    winners: &[Shared<Resolved>],
    place: usize,
) -> Mem<()>
    ensures { OnOk result (files.new ≡ files.old ++ file_of (slice_get winners.now place)) }
{
    match winners.get(place) {
        Some(winner) => push_named(alloc, files, winner),
        None => Ok(()),
    }
}
