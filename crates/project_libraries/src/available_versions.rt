//! The versions of an artifact that are available to a run.

ghost use Rattle.std.specs.Prelude.{◌≡◌, ◌≤◌, ◌++◌, ◌∷◌, [], ℕ, List as Items, filter_map, fold, length, IfOk, IfSome, OnOk};
ghost use Rattle.mvn_shared.specs.Cause.{HasCause};
ghost use Rattle.mvn_outside.specs.Shelf.{files_now};
ghost use Rattle.model_resolver.specs.Devices.{Counted, IsCounted};
ghost use Rattle.mediation.specs.Faults.{lookup_failed};
ghost use Rattle.project_libraries.specs.Available.{available, each_once, joined, listed, version_of, with_version, within_most};
ghost use Rattle.mvn_base.specs.Limits.{most_versions};

use crate::listing::{local_versions, remote_versions};
use mediation::LookupFault;
use model_resolver::Failures;
use model_types::Model;
use mvn_base::MOST_VERSIONS;
use mvn_outside::{Remote, Shelf};
use mvn_shared::{Bytes, FileMap, List, Mem, Shared, Text};
use std::alloc::Global;

/// An artifact's versions, unless there are too many.
pub type Versions = Option<List<Text>>;

// Puts a module's version to others, if it is of this artifact.
fn push_version(model: &Model, group: &Text, artifact: &Text, list: &mut List<Text>) -> Mem<()>
    ensures { OnOk result (list.new
        ≡ list.old ++ filter_map (version_of group.now artifact.now) (model.now ∷ [])) }
{
    if model.gav.group == *group && model.gav.artifact == *artifact {
        list.push(model.gav.version.clone()?)?;
    }
    Ok(())
}

// Puts the modules' versions of an artifact to others.
#[tactic(auto, using(crate::proofs::Joining::one_by_one))]
fn push_versions(
    own: &[Shared<Model>],
    group: &Text,
    artifact: &Text,
    list: &mut List<Text>,
) -> Mem<()>
    ensures { OnOk result (list.new
        ≡ list.old ++ filter_map (version_of group.now artifact.now) own.now) }
{
    for model in own {
        push_version(model.value(), group, artifact, list)?;
    }
    Ok(())
}

// The modules' versions of an artifact.
fn own_versions(
    alloc: Global,
    own: &[Shared<Model>],
    group: &Text,
    artifact: &Text,
) -> Mem<List<Text>>
    ensures { IfOk result (λ list. list
        ≡ filter_map (version_of group.now artifact.now) own.now) }
{
    let mut list = List::new(alloc);
    push_versions(own, group, artifact, &mut list)?;
    Ok(list)
}

// Puts versions among others.
fn add_versions(alloc: Global, found: &mut FileMap, versions: List<Text>) -> Mem<()>
    ensures { OnOk result (found.new ≡ fold with_version found.old versions) }
{
    for version in versions.into_vec() {
        found.insert(version, Bytes::of(Vec::new(alloc)))?;
    }
    Ok(())
}

// All versions, each once, ascending.
#[tactic(auto, using(crate::proofs::Joining::all_three))]
fn each_once(
    alloc: Global,
    own: List<Text>,
    local: List<Text>,
    remote: List<Text>,
) -> Mem<List<Text>>
    ensures { IfOk result (λ all. all ≡ each_once (own ++ local ++ remote)) }
{
    let mut found = FileMap::new(alloc);
    add_versions(alloc, &mut found, own)?;
    add_versions(alloc, &mut found, local)?;
    add_versions(alloc, &mut found, remote)?;
    let names = found.names(alloc)?;
    Ok(List::of(names))
}

// Versions, unless there are too many.
fn within_most(all: List<Text>) -> Versions
    ensures is { result ≡ within_most all }
    ensures few { IfSome result (λ list. length list ≤ most_versions) }
{
    if MOST_VERSIONS < all.len() {
        None
    } else {
        Some(all)
    }
}

// All versions, unless a repository has too many, or all together are too many.
fn joined(alloc: Global, own: List<Text>, local: Versions, remote: Versions) -> Mem<Versions>
    ensures is { IfOk result (λ all. all ≡ joined own local remote) }
    ensures few { IfOk result (λ all. IfSome all (λ list. length list ≤ most_versions)) }
{
    let Some(local) = local else {
        return Ok(None);
    };
    let Some(remote) = remote else {
        return Ok(None);
    };
    let all = each_once(alloc, own, local, remote)?;
    Ok(within_most(all))
}

// The versions of the modules and of the local repository, with those of the remote one.
fn with_remote<R: Remote>(
    alloc: Global,
    remote: &mut R,
    failures: &mut Failures,
    group: &Text,
    artifact: &Text,
    own: List<Text>,
    local: Versions,
) -> Result<Versions, LookupFault>
    ensures tells { IfSome (R.files remote.old) (λ files. IfOk result (λ all.
        all ≡ joined own local (within_most (listed files group.now artifact.now)))) }
    ensures few { IfOk result (λ all. IfSome all (λ list. length list ≤ most_versions)) }
    ensures same { R.files remote.new ≡ R.files remote.old }
    ensures counted { (tree shelf : ℕ) → Counted failures.old.first failures.new.first
        (record { tree = tree; shelf = shelf; remote = R.faults remote.old })
        (record { tree = tree; shelf = shelf; remote = R.faults remote.new }) }
    ensures noted { IsCounted failures.old → IsCounted failures.new }
    ensures cause { HasCause failures.old.count failures.new.count (lookup_failed result) }
{
    match remote_versions(alloc, remote, failures, group, artifact) {
        Ok(there) => Ok(joined(alloc, own, local, there)?),
        Err(fault) => Err(fault),
    }
}

/// The versions of an artifact among the modules, in the local repository and in the remote one, each once, ascending
/// by bytes; none where there are more than 4,096. Costs a look at each module, and two listings.
#[tactic(auto, using(model_resolver::proofs::Counting::counted_none))]
pub fn available<S: Shelf, R: Remote>(
    alloc: Global,
    shelf: &mut S,
    remote: &mut R,
    failures: &mut Failures,
    own: &[Shared<Model>],
    group: &Text,
    artifact: &Text,
) -> Result<Versions, LookupFault>
    ensures tells { IfSome (S.told shelf.old) (λ told. IfSome (R.files remote.old) (λ files.
        IfOk result (λ all.
        all ≡ available (files_now told) files own.now group.now artifact.now))) }
    ensures few { IfOk result (λ all. IfSome all (λ list. length list ≤ most_versions)) }
    ensures shelf { S.told shelf.new ≡ S.told shelf.old }
    ensures remote { R.files remote.new ≡ R.files remote.old }
    ensures counted { (tree : ℕ) → Counted failures.old.first failures.new.first
        (record { tree = tree; shelf = S.faults shelf.old; remote = R.faults remote.old })
        (record { tree = tree; shelf = S.faults shelf.new; remote = R.faults remote.new }) }
    ensures noted { IsCounted failures.old → IsCounted failures.new }
    ensures cause { HasCause failures.old.count failures.new.count (lookup_failed result) }
{
    let list = own_versions(alloc, own, group, artifact)?;
    match local_versions(alloc, shelf, failures, group, artifact) {
        Ok(local) => with_remote(alloc, remote, failures, group, artifact, list, local),
        Err(fault) => Err(fault),
    }
}
