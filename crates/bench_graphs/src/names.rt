// Whether winners have names that files can have.
ghost use Rattle.std.specs.Prelude.{◌≡◌, All, true};
ghost use Rattle.classpaths.specs.Classpaths.{HasNames};

use classpaths::Resolved;
use mvn_base::{valid_group, valid_name, valid_version};
use mvn_shared::Shared;

// Whether the names of a winner are valid.
fn is_named(winner: &Resolved) -> bool
    ensures { result ≡ true → HasNames winner.now }
{
    let gav = &winner.gav;
    if !valid_group(gav.group.as_str().as_bytes())
        || !valid_name(gav.artifact.as_str().as_bytes())
    {
        return false;
    }
    if !valid_version(gav.version.as_str().as_bytes())
        || !valid_name(winner.kind.as_str().as_bytes())
    {
        return false;
    }
    let classifier = winner.classifier.as_str();
    classifier.is_empty() || valid_name(classifier.as_bytes())
}

/// Whether the names of all winners are valid.
pub(crate) fn are_named(winners: &[Shared<Resolved>]) -> bool
    ensures { result ≡ true → All HasNames winners.now }
{
    for winner in winners {
        if !is_named(winner) {
            return false;
        }
    }
    true
}
