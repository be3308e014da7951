//! The version of a winner: the stated one, or the highest that a range admits.

ghost use Rattle.std.specs.Prelude.{◌≡◌, ◌∷◌, ◌++◌, Ok, Err, codes, false, length, ◌<◌, ◌≤◌, IfOk, IfSome, OnOk};
ghost use Rattle.mvn_base.specs.Key.{key_text};
ghost use Rattle.mvn_base.specs.declared.rule.Rule.TheVariants.{EmptyRange, GraphTooLarge};
ghost use Rattle.mvn_shared.specs.Cause.{HasCause};
ghost use Rattle.mediation.specs.Faults.{Says, is_faulty};
ghost use Rattle.mediation.specs.Telling.{TellsOn};
ghost use Rattle.mediation.specs.Libraries.{Libraries, among, chosen, found, highest, most_winners, picked};
ghost use Rattle.mvn_base.specs.Limits.{most_versions};

use crate::fault::MediationFault;
use crate::known::{Lookup, ask_versions};
use collector::Edge;
use mvn_base::{Key, Rule, key_text};
use mvn_shared::{List, Mem, Text};
use std::alloc::Global;
use versions::{Requirement, RequirementError, Version};

/// The greatest number of winners of one project. Project rule.
pub const MOST_WINNERS: usize = 16_384;

// The versions of texts.
fn parsed(alloc: Global, texts: &[Text]) -> Mem<Vec<Version>>
    ensures { IfOk result (λ versions. versions.items ≡ texts.now) }
{
    let mut versions = Vec::new(alloc);
    for text in texts {
        versions.push(Version::parse(alloc, text)?)?;
    }
    Ok(versions)
}

// The greatest admitted version, the first among equals.
#[tactic(auto, using(crate::proofs::Greatest::highest_there, crate::proofs::Greatest::highest_missing))]
fn highest(alloc: Global, requirement: &Requirement, texts: &[Text]) -> Mem<Option<Text>>
    requires { length texts.now ≤ most_versions }
    ensures { IfOk result (λ best. best ≡ highest requirement.now texts.now) }
{
    let versions = parsed(alloc, texts)?;
    match requirement.highest(&versions) {
        Some(place) => Ok(Some(texts[place as usize].clone()?)),
        None => Ok(None),
    }
}

// No available version is admitted.
fn empty_range(alloc: Global, key: &Key) -> Result<Text, MediationFault>
    ensures says { Says (Err (EmptyRange, key_text key.now)) result }
    ensures blameless { is_faulty result ≡ false }
{
    let place = key_text(alloc, key)?;
    Err(MediationFault::Refused {
        rule: Rule::EmptyRange,
        place,
    })
}

// The name of an artifact: its group, a colon and itself.
fn artifact_text(key: &Key) -> Mem<Text>
    ensures { IfOk result (λ text. text ≡ key.now.group ++ 58 ∷ key.now.artifact) }
{
    let mut text = key.group.clone()?;
    text.push_str(":")?;
    text.push_str(key.artifact.as_str())?;
    Ok(text)
}

// Too many versions are available.
fn too_many_versions(key: &Key) -> Result<Text, MediationFault>
    ensures says { Says (Err (GraphTooLarge, key.now.group ++ 58 ∷ key.now.artifact)) result }
    ensures blameless { is_faulty result ≡ false }
{
    let place = artifact_text(key)?;
    Err(MediationFault::Refused {
        rule: Rule::GraphTooLarge,
        place,
    })
}

// There are too many winners.
fn too_many_winners(alloc: Global) -> Result<Text, MediationFault>
    ensures says { Says (Err (GraphTooLarge, codes "keys")) result }
    ensures blameless { is_faulty result ≡ false }
{
    let place = Text::from_str(alloc, "keys")?;
    Err(MediationFault::Refused {
        rule: Rule::GraphTooLarge,
        place,
    })
}

// The version that was found, or else the refusal.
fn found(alloc: Global, key: &Key, version: Option<Text>) -> Result<Text, MediationFault>
    ensures says { Says (found key.now version) result }
    ensures blameless { is_faulty result ≡ false }
{
    match version {
        Some(version) => Ok(version),
        None => empty_range(alloc, key),
    }
}

// The highest of the available versions that are admitted.
fn among(
    alloc: Global,
    key: &Key,
    requirement: &Requirement,
    list: Option<List<Text>>,
) -> Result<Text, MediationFault>
    requires { IfSome list (λ all. length all ≤ most_versions) }
    ensures says { Says (among key.now requirement.now list) result }
    ensures blameless { is_faulty result ≡ false }
{
    match list {
        Some(texts) => {
            let best = highest(alloc, requirement, texts.as_slice())?;
            found(alloc, key, best)
        }
        None => too_many_versions(key),
    }
}

// The highest of the available versions that are admitted, as the look-up tells them.
fn ranged<L: Lookup>(
    alloc: Global,
    lookup: &mut L,
    key: &Key,
    requirement: &Requirement,
) -> Result<Text, MediationFault>
    ensures says { (libraries : Libraries) → L.fits lookup.old libraries
        → Says (among key.now requirement.now
        (libraries.versions key.now.group key.now.artifact)) result }
    ensures same { (libraries : Libraries) → L.fits lookup.old libraries
        → L.fits lookup.new libraries }
    ensures alike { TellsOn L.tells_same lookup.old lookup.new }
    ensures cause { HasCause (L.faults lookup.old) (L.faults lookup.new) (is_faulty result) }
{
    match ask_versions(lookup, &key.group, &key.artifact) {
        Ok(list) => among(alloc, key, requirement, list),
        Err(fault) => Err(fault),
    }
}

// The version that an edge's requirement takes.
#[tactic(auto, unfolding(crate::specs::Libraries::picked), using(crate::proofs::Telling::untold))]
fn picked<L: Lookup>(alloc: Global, lookup: &mut L, edge: &Edge) -> Result<Text, MediationFault>
    ensures says { (libraries : Libraries) → L.fits lookup.old libraries
        → Says (picked libraries edge.now) result }
    ensures same { (libraries : Libraries) → L.fits lookup.old libraries
        → L.fits lookup.new libraries }
    ensures alike { TellsOn L.tells_same lookup.old lookup.new }
    ensures cause { HasCause (L.faults lookup.old) (L.faults lookup.new) (is_faulty result) }
{
    match Requirement::parse(alloc, &edge.requirement) {
        Ok(Requirement::Soft(version)) => Ok(version),
        Ok(Requirement::Hard(intervals)) => {
            ranged(alloc, lookup, &edge.key, &Requirement::Hard(intervals))
        }
        Err(RequirementError::BadRange { .. }) => empty_range(alloc, &edge.key),
        Err(RequirementError::Memory) => Err(MediationFault::Memory),
    }
}

// The version of the winner at a place, where there is room for it.
#[tactic(auto, unfolding(crate::specs::Libraries::chosen), using(crate::proofs::Telling::untold))]
pub fn chosen<L: Lookup>(
    alloc: Global,
    lookup: &mut L,
    place: usize,
    edge: &Edge,
) -> Result<Text, MediationFault>
    ensures says { (libraries : Libraries) → L.fits lookup.old libraries
        → Says (chosen libraries place edge.now) result }
    ensures same { (libraries : Libraries) → L.fits lookup.old libraries
        → L.fits lookup.new libraries }
    ensures alike { TellsOn L.tells_same lookup.old lookup.new }
    ensures cause { HasCause (L.faults lookup.old) (L.faults lookup.new) (is_faulty result) }
    ensures room { OnOk result (place < most_winners) }
{
    if place < MOST_WINNERS {
        picked(alloc, lookup, edge)
    } else {
        too_many_winners(alloc)
    }
}
