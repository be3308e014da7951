//! One device asked for a POM. Once a device failed, none is asked any more.

ghost use Rattle.std.specs.Prelude.{◌≡◌, ◌≤◌, ℕ, Bool, List as Items, Option, true, [], codes, length, is_some, IfOk, IfSome};
ghost use Rattle.std.specs.Option.{option_map, option_or};
ghost use Rattle.mvn_shared.specs.Cause.{HasCause};
ghost use Rattle.mvn_shared.specs.Files.{file_at};
ghost use Rattle.mvn_base.specs.FileName.{file_name, IsValid};
ghost use Rattle.mvn_base.specs.Limits.{pom_limit};
ghost use Rattle.mvn_outside.specs.Faults.{device_failed, read_failed};
ghost use Rattle.mvn_outside.specs.Reading.{Reads};
ghost use Rattle.mvn_outside.specs.Shelf.{files_now};
ghost use Rattle.model_resolver.specs.Finding.{found_in_repository, within_limit, repository_of};
ghost use Rattle.model_resolver.specs.Devices.{Counted, IsCounted};
ghost use Rattle.model_resolver.specs.Noting.{first_after};

use crate::failures::{Failures, PomDevice};
use crate::known::oversized;
use mvn_base::{FileName, Gav, POM_LIMIT, PomId, file_of};
use mvn_outside::{DeviceFault, ReadFault, Remote, Shelf, Tree};
use mvn_shared::{Bytes, Mem, Text};
use pom_source::Found;
use std::alloc::Global;

// What a read of a POM gave, with its failure counted.
#[tactic(auto, using(crate::proofs::Limits::stays_within, crate::proofs::Limits::stands_for))]
fn read_so(
    alloc: Global,
    failures: &mut Failures,
    device: PomDevice,
    read: Result<Option<Bytes>, ReadFault>,
) -> Result<Option<Bytes>, DeviceFault>
    requires within { IfOk read (λ found. IfSome found (λ bytes. length bytes ≤ pom_limit)) }
    ensures tells { (there : Option (Items ℕ)) → Reads there pom_limit read →
        IfOk result (λ found. found ≡ option_map within_limit there) }
    ensures first { failures.new.first ≡ first_after device (read_failed read) failures.old.first }
    ensures failed { device_failed result ≡ read_failed read }
    ensures cause { HasCause failures.old.count failures.new.count (read_failed read) }
{
    match read {
        Ok(found) => Ok(found),
        Err(ReadFault::TooLarge) => Ok(Some(oversized(alloc)?)),
        Err(ReadFault::Failed) => {
            failures.note(device);
            Err(DeviceFault::Failed)
        }
        Err(ReadFault::Memory) => Err(DeviceFault::Memory),
    }
}

/// The POM at a path of the project's folder; of one that is too long a text that is refused for it. The tree isn't
/// asked if a device failed before. Costs the file.
#[tactic(auto, using(crate::proofs::Counting::counted_tree, crate::proofs::Counting::counted_still, crate::proofs::Counting::counts_on, crate::proofs::Counting::counts_still))]
pub fn ask_tree<T: Tree>(
    alloc: Global,
    tree: &mut T,
    failures: &mut Failures,
    path: &Text,
) -> Result<Option<Bytes>, DeviceFault>
    ensures tells { IfSome (T.files tree.old) (λ files.
        IfOk result (λ found. found ≡ option_map within_limit (file_at files path.now))) }
    ensures same { T.files tree.new ≡ T.files tree.old }
    ensures counted { (shelf remote : ℕ) → Counted failures.old.first failures.new.first
        (record { tree = T.faults tree.old; shelf = shelf; remote = remote })
        (record { tree = T.faults tree.new; shelf = shelf; remote = remote }) }
    ensures noted { IsCounted failures.old → IsCounted failures.new }
    ensures cause { HasCause failures.old.count failures.new.count (device_failed result) }
{
    if failures.first.is_some() {
        failures.note(PomDevice::Tree);
        return Err(DeviceFault::Failed);
    }
    let read = tree.read(path, POM_LIMIT);
    read_so(alloc, failures, PomDevice::Tree, read)
}

/// Whether a file stands at a path of the project's folder, or below it.
#[tactic(auto, using(crate::proofs::Counting::counted_tree, crate::proofs::Counting::counted_still, crate::proofs::Counting::counts_on, crate::proofs::Counting::counts_still))]
pub(crate) fn ask_there<T: Tree>(
    tree: &mut T,
    failures: &mut Failures,
    path: &Text,
) -> Result<bool, DeviceFault>
    ensures tells { (world : Items ℕ → Bool) → T.fits tree.old world
        → IfOk result (λ found. found ≡ world path.now) }
    ensures fit { (world : Items ℕ → Bool) → T.fits tree.old world → T.fits tree.new world }
    ensures same { T.files tree.new ≡ T.files tree.old }
    ensures counted { (shelf remote : ℕ) → Counted failures.old.first failures.new.first
        (record { tree = T.faults tree.old; shelf = shelf; remote = remote })
        (record { tree = T.faults tree.new; shelf = shelf; remote = remote }) }
    ensures noted { IsCounted failures.old → IsCounted failures.new }
    ensures cause { HasCause failures.old.count failures.new.count (device_failed result) }
{
    if failures.first.is_some() {
        failures.note(PomDevice::Tree);
        return Err(DeviceFault::Failed);
    }
    match tree.has(path) {
        Ok(there) => Ok(there),
        Err(DeviceFault::Failed) => {
            failures.note(PomDevice::Tree);
            Err(DeviceFault::Failed)
        }
        Err(DeviceFault::Memory) => Err(DeviceFault::Memory),
    }
}

/// The POM of a name in the local repository.
#[tactic(auto, using(crate::proofs::Counting::counted_shelf, crate::proofs::Counting::counted_still, crate::proofs::Counting::counts_on, crate::proofs::Counting::counts_still))]
pub(crate) fn ask_shelf<S: Shelf>(
    alloc: Global,
    shelf: &mut S,
    failures: &mut Failures,
    name: &FileName,
) -> Result<Option<Bytes>, DeviceFault>
    ensures tells { IfSome (S.told shelf.old) (λ told.
        IfOk result (λ found. found ≡ option_map within_limit
        (file_at (files_now told) name.now))) }
    ensures same { S.told shelf.new ≡ S.told shelf.old }
    ensures counted { (tree remote : ℕ) → Counted failures.old.first failures.new.first
        (record { tree = tree; shelf = S.faults shelf.old; remote = remote })
        (record { tree = tree; shelf = S.faults shelf.new; remote = remote }) }
    ensures noted { IsCounted failures.old → IsCounted failures.new }
    ensures cause { HasCause failures.old.count failures.new.count (device_failed result) }
{
    if failures.first.is_some() {
        failures.note(PomDevice::Shelf);
        return Err(DeviceFault::Failed);
    }
    let read = shelf.read(name, POM_LIMIT);
    read_so(alloc, failures, PomDevice::Shelf, read)
}

/// The POM of a name in the remote repository.
#[tactic(auto, using(crate::proofs::Counting::counted_remote, crate::proofs::Counting::counted_still, crate::proofs::Counting::counts_on, crate::proofs::Counting::counts_still))]
pub(crate) fn ask_remote<R: Remote>(
    alloc: Global,
    remote: &mut R,
    failures: &mut Failures,
    name: &FileName,
) -> Result<Option<Bytes>, DeviceFault>
    ensures tells { IfSome (R.files remote.old) (λ files.
        IfOk result (λ found. found ≡ option_map within_limit (file_at files name.now))) }
    ensures same { R.files remote.new ≡ R.files remote.old }
    ensures counted { (tree shelf : ℕ) → Counted failures.old.first failures.new.first
        (record { tree = tree; shelf = shelf; remote = R.faults remote.old })
        (record { tree = tree; shelf = shelf; remote = R.faults remote.new }) }
    ensures noted { IsCounted failures.old → IsCounted failures.new }
    ensures cause { HasCause failures.old.count failures.new.count (device_failed result) }
{
    if failures.first.is_some() {
        failures.note(PomDevice::Remote);
        return Err(DeviceFault::Failed);
    }
    let read = remote.fetch(name, POM_LIMIT);
    read_so(alloc, failures, PomDevice::Remote, read)
}
