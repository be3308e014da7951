// Which files of a plan are there.
ghost use Rattle.std.specs.Prelude.{◌≡◌, ◌+◌, ◌++◌, ◌∷◌, [], length, IfOk, IfSome};
ghost use Rattle.mvn_shared.specs.Cause.{HasCause};
ghost use Rattle.mvn_outside.specs.Faults.{device_failed};
ghost use Rattle.mvn_outside.specs.Shelf.{files_now};
ghost use Rattle.module_plan.specs.Plans.{is_present, present_in};

use mvn_base::FileName;
use mvn_outside::{DeviceFault, Shelf};
use mvn_shared::List;
use std::alloc::Global;

// Puts whether a file is there to others.
fn push_present<S: Shelf>(
    shelf: &mut S,
    name: &FileName,
    list: &mut List<bool>,
) -> Result<(), DeviceFault>
    ensures tells { IfOk result (λ done. IfSome (S.told shelf.old) (λ told.
        list.new ≡ list.old ++ is_present (files_now told) name.now ∷ [])) }
    ensures one { IfOk result (λ done. length list.new ≡ length list.old + 1) }
    ensures same { S.told shelf.new ≡ S.told shelf.old }
    ensures cause { HasCause (S.faults shelf.old) (S.faults shelf.new) (device_failed result) }
{
    let there = match shelf.has(name) {
        Ok(there) => there,
        Err(DeviceFault::Failed) => return Err(DeviceFault::Failed),
        Err(DeviceFault::Memory) => return Err(DeviceFault::Memory),
    };
    match list.push(there) {
        Ok(()) => Ok(()),
        Err(_) => Err(DeviceFault::Memory),
    }
}

/// Of each file whether it is in the local repository. Each is asked for once. Costs the questions.
pub(crate) fn present_in<S: Shelf>(
    alloc: Global,
    shelf: &mut S,
    files: &[FileName],
) -> Result<List<bool>, DeviceFault>
    ensures tells { IfOk result (λ list. IfSome (S.told shelf.old) (λ told.
        list ≡ present_in (files_now told) files.now)) }
    ensures each { IfOk result (λ list. length list ≡ length files.now) }
    ensures same { S.told shelf.new ≡ S.told shelf.old }
    ensures cause { HasCause (S.faults shelf.old) (S.faults shelf.new) (device_failed result) }
{
    let mut list = List::new(alloc);
    for name in files {
        match push_present(shelf, name, &mut list) {
            Ok(()) => {}
            Err(fault) => return Err(fault),
        }
    }
    Ok(list)
}
