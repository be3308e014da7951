//! The versions of an artifact in one repository. Once a device failed, none is asked.

ghost use Rattle.std.specs.Prelude.{◌≡◌, ℕ, List as Items, [], true, false, IfOk, IfSome};
ghost use Rattle.mvn_shared.specs.Cause.{HasCause};
ghost use Rattle.mvn_base.specs.Names.{is_group, is_name};
ghost use Rattle.mvn_outside.specs.Faults.{list_failed};
ghost use Rattle.mvn_outside.specs.Shelf.{files_now};
ghost use Rattle.mvn_outside.specs.Versions.{ListsAll, versions_of};
ghost use Rattle.model_resolver.specs.Devices.{Counted, IsCounted};
ghost use Rattle.model_resolver.specs.Noting.{first_after};
ghost use Rattle.mediation.specs.Faults.{lookup_failed};
ghost use Rattle.project_libraries.specs.Available.{is_artifact, listed, within_most};

use crate::available_versions::Versions;
use mediation::LookupFault;
use model_resolver::{Failures, PomDevice};
use mvn_base::{valid_group, valid_name};
use mvn_outside::{ListFault, Remote, Shelf};
use mvn_shared::{List, Text};
use std::alloc::Global;

// What a listing gave, with its failure counted.
#[tactic(auto, using(crate::proofs::Listed::few_listed, crate::proofs::Listed::many_listed))]
fn listed_so(
    failures: &mut Failures,
    device: PomDevice,
    listing: Result<List<Text>, ListFault>,
) -> Result<Versions, LookupFault>
    ensures tells { (versions : Items (Items ℕ)) → ListsAll versions listing
        → IfOk result (λ found. found ≡ within_most versions) }
    ensures first { failures.new.first ≡ first_after device (list_failed listing)
        failures.old.first }
    ensures failed { lookup_failed result ≡ list_failed listing }
    ensures cause { HasCause failures.old.count failures.new.count (list_failed listing) }
{
    match listing {
        Ok(list) => Ok(Some(list)),
        Err(ListFault::TooMany) => Ok(None),
        Err(ListFault::Failed) => {
            failures.note(device);
            Err(LookupFault::Failed)
        }
        Err(ListFault::Memory) => Err(LookupFault::Memory),
    }
}

// The versions in the local repository.
#[tactic(auto, using(model_resolver::proofs::Counting::counted_shelf, model_resolver::proofs::Counting::counted_still, model_resolver::proofs::Counting::counts_on, model_resolver::proofs::Counting::counts_still))]
fn ask_shelf<S: Shelf>(
    shelf: &mut S,
    failures: &mut Failures,
    group: &Text,
    artifact: &Text,
) -> Result<Versions, LookupFault>
    requires group { is_group group.now ≡ true }
    requires artifact { is_name artifact.now ≡ true }
    ensures tells { IfSome (S.told shelf.old) (λ told. IfOk result (λ found.
        found ≡ within_most (versions_of (files_now told) group.now artifact.now))) }
    ensures same { S.told shelf.new ≡ S.told shelf.old }
    ensures counted { (tree remote : ℕ) → Counted failures.old.first failures.new.first
        (record { tree = tree; shelf = S.faults shelf.old; remote = remote })
        (record { tree = tree; shelf = S.faults shelf.new; remote = remote }) }
    ensures noted { IsCounted failures.old → IsCounted failures.new }
    ensures cause { HasCause failures.old.count failures.new.count (lookup_failed result) }
{
    if failures.first.is_some() {
        failures.note(PomDevice::Shelf);
        return Err(LookupFault::Failed);
    }
    let listing = shelf.versions(group, artifact);
    listed_so(failures, PomDevice::Shelf, listing)
}

// The versions in the remote repository.
#[tactic(auto, using(model_resolver::proofs::Counting::counted_remote, model_resolver::proofs::Counting::counted_still, model_resolver::proofs::Counting::counts_on, model_resolver::proofs::Counting::counts_still))]
fn ask_remote<R: Remote>(
    remote: &mut R,
    failures: &mut Failures,
    group: &Text,
    artifact: &Text,
) -> Result<Versions, LookupFault>
    requires group { is_group group.now ≡ true }
    requires artifact { is_name artifact.now ≡ true }
    ensures tells { IfSome (R.files remote.old) (λ files. IfOk result (λ found.
        found ≡ within_most (versions_of files group.now artifact.now))) }
    ensures same { R.files remote.new ≡ R.files remote.old }
    ensures counted { (tree shelf : ℕ) → Counted failures.old.first failures.new.first
        (record { tree = tree; shelf = shelf; remote = R.faults remote.old })
        (record { tree = tree; shelf = shelf; remote = R.faults remote.new }) }
    ensures noted { IsCounted failures.old → IsCounted failures.new }
    ensures cause { HasCause failures.old.count failures.new.count (lookup_failed result) }
{
    if failures.first.is_some() {
        failures.note(PomDevice::Remote);
        return Err(LookupFault::Failed);
    }
    let listing = remote.versions(group, artifact);
    listed_so(failures, PomDevice::Remote, listing)
}

// Whether the names of an artifact are valid.
fn is_artifact(group: &Text, artifact: &Text) -> bool
    ensures { result ≡ is_artifact group.now artifact.now }
{
    valid_group(group.as_bytes()) && valid_name(artifact.as_bytes())
}

// No versions.
fn no_versions(alloc: Global) -> Result<Versions, LookupFault>
    ensures none { IfOk result (λ found. found ≡ within_most []) }
    ensures quiet { lookup_failed result ≡ false }
{
    Ok(Some(List::new(alloc)))
}

/// The versions of an artifact in the local repository, unless there are more than 4,096; none of names that aren't
/// valid.
#[tactic(auto, using(crate::proofs::Listed::group_valid, crate::proofs::Listed::artifact_valid, model_resolver::proofs::Counting::counted_none))]
pub(crate) fn local_versions<S: Shelf>(
    alloc: Global,
    shelf: &mut S,
    failures: &mut Failures,
    group: &Text,
    artifact: &Text,
) -> Result<Versions, LookupFault>
    ensures tells { IfSome (S.told shelf.old) (λ told. IfOk result (λ found.
        found ≡ within_most (listed (files_now told) group.now artifact.now))) }
    ensures same { S.told shelf.new ≡ S.told shelf.old }
    ensures counted { (tree remote : ℕ) → Counted failures.old.first failures.new.first
        (record { tree = tree; shelf = S.faults shelf.old; remote = remote })
        (record { tree = tree; shelf = S.faults shelf.new; remote = remote }) }
    ensures noted { IsCounted failures.old → IsCounted failures.new }
    ensures cause { HasCause failures.old.count failures.new.count (lookup_failed result) }
{
    if is_artifact(group, artifact) {
        ask_shelf(shelf, failures, group, artifact)
    } else {
        no_versions(alloc)
    }
}

/// The versions of an artifact in the remote repository, unless there are more than 4,096; none of names that aren't
/// valid.
#[tactic(auto, using(crate::proofs::Listed::group_valid, crate::proofs::Listed::artifact_valid, model_resolver::proofs::Counting::counted_none))]
pub(crate) fn remote_versions<R: Remote>(
    alloc: Global,
    remote: &mut R,
    failures: &mut Failures,
    group: &Text,
    artifact: &Text,
) -> Result<Versions, LookupFault>
    ensures tells { IfSome (R.files remote.old) (λ files. IfOk result (λ found.
        found ≡ within_most (listed files group.now artifact.now))) }
    ensures same { R.files remote.new ≡ R.files remote.old }
    ensures counted { (tree shelf : ℕ) → Counted failures.old.first failures.new.first
        (record { tree = tree; shelf = shelf; remote = R.faults remote.old })
        (record { tree = tree; shelf = shelf; remote = R.faults remote.new }) }
    ensures noted { IsCounted failures.old → IsCounted failures.new }
    ensures cause { HasCause failures.old.count failures.new.count (lookup_failed result) }
{
    if is_artifact(group, artifact) {
        ask_remote(remote, failures, group, artifact)
    } else {
        no_versions(alloc)
    }
}
