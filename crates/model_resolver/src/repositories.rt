//! A POM looked up by its coordinates in the two repositories.

ghost use Rattle.std.specs.Prelude.{◌≡◌, ℕ, List, Option, codes, [], true, IfOk, IfSome};
ghost use Rattle.std.specs.Option.{option_map, option_or};
ghost use Rattle.mvn_shared.specs.Cause.{HasCause};
ghost use Rattle.mvn_shared.specs.Files.{file_at};
ghost use Rattle.mvn_base.specs.FileName.{file_name, IsValid};
ghost use Rattle.mvn_outside.specs.Faults.{device_failed};
ghost use Rattle.mvn_outside.specs.Shelf.{files_now};
ghost use Rattle.mvn_base.specs.Names.{is_name};
ghost use Rattle.model_resolver.specs.Devices.{Counted, IsCounted};
ghost use Rattle.model_resolver.specs.Finding.{found_in_repository, is_valid, repository_of, within_limit};

use crate::asking::{ask_remote, ask_shelf};
use crate::failures::Failures;
use crate::known::is_valid;
use mvn_base::{FileName, Gav, PomId, file_of};
use mvn_outside::{DeviceFault, Remote, Shelf};
use mvn_shared::{Bytes, Mem, Text};
use pom_source::Found;
use std::alloc::Global;

// The extension of a POM.
#[tactic(auto, unfolding(mvn_base::specs::Names::is_name, mvn_base::specs::Names::is_name_byte))]
fn pom_extension(alloc: Global) -> Mem<Text>
    ensures word { IfOk result (λ text. text ≡ codes "pom") }
    ensures name { IfOk result (λ text. is_name text ≡ true) }
{
    Text::from_str(alloc, "pom")
}

// The name of the POM of valid coordinates.
fn pom_name(alloc: Global, gav: &Gav) -> Mem<FileName>
    requires names { IsValid gav.now }
    ensures { IfOk result (λ name. name ≡ file_name gav.now [] (codes "pom")) }
{
    let classifier = Text::from_str(alloc, "")?;
    let extension = pom_extension(alloc)?;
    file_of(alloc, gav, &classifier, &extension)
}

// The POM of coordinates, of these bytes.
fn found_as(gav: &Gav, bytes: Option<Bytes>) -> Mem<Option<Found>>
    ensures { (there : Option (List ℕ)) → bytes ≡ option_map within_limit there
        → IfOk result (λ found. found ≡ option_map (found_in_repository gav.now) there) }
{
    match bytes {
        Some(bytes) => {
            let pom = PomId::Gav(gav.clone()?);
            Ok(Some(Found { pom, bytes }))
        }
        None => Ok(None),
    }
}

// The POM of valid coordinates in the local repository.
fn find_local<S: Shelf>(
    alloc: Global,
    shelf: &mut S,
    failures: &mut Failures,
    gav: &Gav,
    name: &FileName,
) -> Result<Option<Found>, DeviceFault>
    requires valid { is_valid gav.now ≡ true }
    requires name { name.now ≡ file_name gav.now [] (codes "pom") }
    ensures tells { IfSome (S.told shelf.old) (λ told.
        IfOk result (λ found. found ≡ repository_of (files_now told) gav.now)) }
    ensures same { S.told shelf.new ≡ S.told shelf.old }
    ensures counted { (tree remote : ℕ) → Counted failures.old.first failures.new.first
        (record { tree = tree; shelf = S.faults shelf.old; remote = remote })
        (record { tree = tree; shelf = S.faults shelf.new; remote = remote }) }
    ensures noted { IsCounted failures.old → IsCounted failures.new }
    ensures cause { HasCause failures.old.count failures.new.count (device_failed result) }
{
    let bytes = ask_shelf(alloc, shelf, failures, name)?;
    Ok(found_as(gav, bytes)?)
}

// The POM of valid coordinates in the remote repository.
fn find_remote<R: Remote>(
    alloc: Global,
    remote: &mut R,
    failures: &mut Failures,
    gav: &Gav,
    name: &FileName,
) -> Result<Option<Found>, DeviceFault>
    requires valid { is_valid gav.now ≡ true }
    requires name { name.now ≡ file_name gav.now [] (codes "pom") }
    ensures tells { IfSome (R.files remote.old) (λ files.
        IfOk result (λ found. found ≡ repository_of files gav.now)) }
    ensures same { R.files remote.new ≡ R.files remote.old }
    ensures counted { (tree shelf : ℕ) → Counted failures.old.first failures.new.first
        (record { tree = tree; shelf = shelf; remote = R.faults remote.old })
        (record { tree = tree; shelf = shelf; remote = R.faults remote.new }) }
    ensures noted { IsCounted failures.old → IsCounted failures.new }
    ensures cause { HasCause failures.old.count failures.new.count (device_failed result) }
{
    let bytes = ask_remote(alloc, remote, failures, name)?;
    Ok(found_as(gav, bytes)?)
}

// The POM of valid coordinates in the local repository, or else in the remote one, by the name of its file.
#[tactic(auto, using(crate::proofs::Counting::counted_twice))]
fn find_named<S: Shelf, R: Remote>(
    alloc: Global,
    shelf: &mut S,
    remote: &mut R,
    failures: &mut Failures,
    gav: &Gav,
    name: &FileName,
) -> Result<Option<Found>, DeviceFault>
    requires valid { is_valid gav.now ≡ true }
    requires name { name.now ≡ file_name gav.now [] (codes "pom") }
    ensures tells { IfSome (S.told shelf.old) (λ told. IfSome (R.files remote.old) (λ files.
        IfOk result (λ found. found ≡ option_or (repository_of (files_now told) gav.now)
        (repository_of files gav.now)))) }
    ensures shelf { S.told shelf.new ≡ S.told shelf.old }
    ensures remote { R.files remote.new ≡ R.files remote.old }
    ensures counted { (tree : ℕ) → Counted failures.old.first failures.new.first
        (record { tree = tree; shelf = S.faults shelf.old; remote = R.faults remote.old })
        (record { tree = tree; shelf = S.faults shelf.new; remote = R.faults remote.new }) }
    ensures noted { IsCounted failures.old → IsCounted failures.new }
    ensures cause { HasCause failures.old.count failures.new.count (device_failed result) }
{
    match find_local(alloc, shelf, failures, gav, name) {
        Ok(Some(found)) => Ok(Some(found)),
        Ok(None) => find_remote(alloc, remote, failures, gav, name),
        Err(fault) => Err(fault),
    }
}

// The POM of valid coordinates in the local repository, or else in the remote one.
#[tactic(auto, using(crate::proofs::Counting::counted_none))]
fn find_valid<S: Shelf, R: Remote>(
    alloc: Global,
    shelf: &mut S,
    remote: &mut R,
    failures: &mut Failures,
    gav: &Gav,
) -> Result<Option<Found>, DeviceFault>
    requires valid { is_valid gav.now ≡ true }
    requires names { IsValid gav.now }
    ensures tells { IfSome (S.told shelf.old) (λ told. IfSome (R.files remote.old) (λ files.
        IfOk result (λ found. found ≡ option_or (repository_of (files_now told) gav.now)
        (repository_of files gav.now)))) }
    ensures shelf { S.told shelf.new ≡ S.told shelf.old }
    ensures remote { R.files remote.new ≡ R.files remote.old }
    ensures counted { (tree : ℕ) → Counted failures.old.first failures.new.first
        (record { tree = tree; shelf = S.faults shelf.old; remote = R.faults remote.old })
        (record { tree = tree; shelf = S.faults shelf.new; remote = R.faults remote.new }) }
    ensures noted { IsCounted failures.old → IsCounted failures.new }
    ensures cause { HasCause failures.old.count failures.new.count (device_failed result) }
{
    let name = pom_name(alloc, gav)?;
    find_named(alloc, shelf, remote, failures, gav, &name)
}

/// The POM of coordinates in the local repository, or else in the remote one; none where the coordinates aren't valid.
#[tactic(auto, using(crate::proofs::Validity::valid_names, crate::proofs::Counting::counted_none))]
pub(crate) fn find_in_repositories<S: Shelf, R: Remote>(
    alloc: Global,
    shelf: &mut S,
    remote: &mut R,
    failures: &mut Failures,
    gav: &Gav,
) -> Result<Option<Found>, DeviceFault>
    ensures tells { IfSome (S.told shelf.old) (λ told. IfSome (R.files remote.old) (λ files.
        IfOk result (λ found. found ≡ option_or (repository_of (files_now told) gav.now)
        (repository_of files gav.now)))) }
    ensures shelf { S.told shelf.new ≡ S.told shelf.old }
    ensures remote { R.files remote.new ≡ R.files remote.old }
    ensures counted { (tree : ℕ) → Counted failures.old.first failures.new.first
        (record { tree = tree; shelf = S.faults shelf.old; remote = R.faults remote.old })
        (record { tree = tree; shelf = S.faults shelf.new; remote = R.faults remote.new }) }
    ensures noted { IsCounted failures.old → IsCounted failures.new }
    ensures cause { HasCause failures.old.count failures.new.count (device_failed result) }
{
    if is_valid(gav) {
        find_valid(alloc, shelf, remote, failures, gav)
    } else {
        Ok(None)
    }
}
