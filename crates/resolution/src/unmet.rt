//! Whether the version of a winner doesn't meet the requirement of an edge.

ghost use Rattle.std.specs.Prelude.{◌≡◌, IfOk};
ghost use Rattle.versions.specs.Requirements.{is_divider, requirement};
ghost use Rattle.versions.specs.Spelling.{is_plain};
ghost use Rattle.resolution.specs.Conflicts.{conflicts, is_unmet, refuses};

use collector::Edge;
use mediation::Winners;
use mvn_shared::{Mem, OutOfMemory, Text};
use std::alloc::Global;
use versions::{Requirement, RequirementError, Version};

// Whether a requirement doesn't admit a version, which is parsed for a hard one alone: a soft one admits all.
fn refuses(alloc: Global, requirement: &Requirement, version: &Text) -> Mem<bool>
    ensures { IfOk result (λ it. it ≡ refuses requirement.now version.now) }
{
    match requirement {
        Requirement::Soft(_) => Ok(false),
        Requirement::Hard(_) => {
            let version = Version::parse(alloc, version)?;
            Ok(!requirement.admits(&version))
        }
    }
}

// Whether what a text requires doesn't admit a version; a text that requires nothing admits all.
fn is_unmet(alloc: Global, text: &Text, version: &Text) -> Mem<bool>
    ensures { IfOk result (λ it. it ≡ is_unmet (requirement text.now) version.now) }
{
    match Requirement::parse(alloc, text) {
        Ok(requirement) => refuses(alloc, &requirement, version),
        Err(RequirementError::BadRange { .. }) => Ok(false),
        Err(RequirementError::Memory) => Err(OutOfMemory),
    }
}

// A bracket or a comma.
fn is_divider(byte: u8) -> bool
    ensures { result ≡ is_divider byte }
{
    byte == b'[' || byte == b']' || byte == b'(' || byte == b')' || byte == b','
}

// Whether a text has neither, so that it requires no range.
fn is_plain(text: &[u8]) -> bool
    ensures { result ≡ is_plain text.now }
{
    for byte in text {
        if is_divider(*byte) {
            return false;
        }
    }
    true
}

// Whether an edge's requirement doesn't admit the version of its key's winner. One that is no range admits all, so no
// winner is looked up.
#[tactic(auto, using(crate::proofs::Plain::plain_met))]
pub fn conflicts(alloc: Global, winners: &Winners, edge: &Edge) -> Mem<bool>
    ensures { IfOk result (λ it. it ≡ conflicts winners.now edge.now) }
{
    if is_plain(edge.requirement.as_bytes()) {
        return Ok(false);
    }
    match winners.find(&edge.key) {
        Some(winner) => is_unmet(alloc, &edge.requirement, &winner.version),
        None => Ok(false),
    }
}
