// The folders of the system: their paths, and how they are made.
ghost use Rattle.std.specs.Prelude.{◌≡◌};
ghost use Rattle.outside_real.specs.Paths.{is_step, leads_below, is_in_staging, is_inside};
ghost use Rattle.outside_real.specs.Ways.{Keeps};

use crate::fault::fault_of;
use crate::look::is_folder;
use crate::settling::note;
use mvn_outside::DeviceFault;
use mvn_shared::Text;
use std::alloc::Global;
use std::collections::BTreeSet;
use std::io::ErrorKind;
use std::rt;

#[tactic(auto, unfolding(crate::specs::Paths::is_step))]
fn is_step(step: &[u8]) -> bool
    ensures { result ≡ is_step step.now }
{
    !step.is_empty() && step != b".".as_slice() && step != b"..".as_slice()
}

fn leads_below(path: &[u8]) -> bool
    ensures { result ≡ leads_below path.now }
{
    path.split(|b| *b == b'/').all(|step| is_step(step))
}

#[tactic(auto, unfolding(crate::specs::Paths::is_in_staging))]
fn is_in_staging(path: &[u8]) -> bool
    ensures { result ≡ is_in_staging path.now }
{
    path == b".staging".as_slice() || path.starts_with(b".staging/")
}

/// Whether a path stays in the repository and out of its staging folder: no step is empty, `.` or `..`, and the first isn't
/// `.staging`.
pub(crate) fn is_inside(path: &[u8]) -> bool
    ensures { result ≡ is_inside path.now }
{
    leads_below(path) && !is_in_staging(path)
}

/// The folder of a path of the system.
pub(crate) fn parent_of(path: &str) -> &str {
    match path.rsplit_once('/') {
        Some((folder, _)) => if folder.is_empty() { "/" } else { folder },
        None => ".",
    }
}

// The folders that aren't there, of those from a path upwards.
fn missing_folders<'a, R: rt::Files>(
    rt: &R,
    alloc: Global,
    path: &'a str,
) -> Result<Vec<&'a str>, DeviceFault> {
    let mut missing = Vec::new(alloc);
    let mut folder = path;
    for _ in 0..path.len() {
        if is_folder(rt, folder)? {
            break;
        }
        missing.push(folder).map_err(|_| DeviceFault::Memory)?;
        folder = parent_of(folder);
    }
    Ok(missing)
}

// Makes a folder, unless it is there; the folder that it stands in is noted first.
fn make_one<R: rt::Files + AllocGlobal>(
    rt: &R,
    folder: &str,
    changed: &mut BTreeSet<Text>,
) -> Result<(), DeviceFault>
    ensures { Keeps changed.old changed.new }
{
    note(changed, Text::from_str(rt.alloc(), parent_of(folder))?)?;
    match rt.create_dir(folder) {
        Ok(()) => Ok(()),
        Err(e) => if e.kind() == ErrorKind::AlreadyExists {
            Ok(())
        } else {
            Err(fault_of(&e))
        },
    }
}

/// Makes a folder and those above it that aren't there, and notes in `changed` the folder of each that it makes; what was noted before
/// stays. Costs one look where the folder is there.
pub(crate) fn make_folders<R: rt::Files + AllocGlobal>(
    rt: &R,
    path: &str,
    changed: &mut BTreeSet<Text>,
) -> Result<(), DeviceFault>
    ensures { Keeps changed.old changed.new }
{
    let missing = missing_folders(rt, rt.alloc(), path)?;
    for folder in missing.iter().rev() {
        make_one(rt, folder, changed)?;
    }
    Ok(())
}
