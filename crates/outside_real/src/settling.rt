// How the names of folders come to the disk: the folders are noted first, and then synced.
ghost use Rattle.std.specs.Prelude.{◌≡◌, ◌<◌, [], ◌∷◌, ◌++◌, length, MatchOption, OnOk};
ghost use Rattle.std.specs.Result.{IfErr};
ghost use Rattle.mvn_outside.specs.declared.fault.DeviceFault.TheVariants.{Memory};
ghost use Rattle.outside_real.specs.Ways.{folders_above, way, Gains, Keeps};

use crate::fault::fault_of;
use crate::paths::full_path;
use mvn_outside::DeviceFault;
use mvn_shared::Text;
use std::alloc::Global;
use std::collections::BTreeSet;
use std::fs::{OpenFile, OpenOptions};
use std::{io, rt};

/// Notes a folder. Costs the logarithm of the number of noted ones.
pub(crate) fn note(changed: &mut BTreeSet<Text>, folder: Text) -> Result<(), DeviceFault>
    ensures gains { OnOk result (Gains (folder ∷ []) changed.old changed.new) }
    ensures keeps { Keeps changed.old changed.new }
    ensures memory { IfErr result (λ fault. fault ≡ Memory) }
{
    match changed.insert(folder) {
        Ok(_) => Ok(()),
        Err(_) => Err(DeviceFault::Memory),
    }
}

// The folder that a name stands in; nothing where no slash is in it.
fn folder_of(name: &str) -> Option<&str>
    ensures { MatchOption result (folders_above name.now ≡ []) (λ above.
        (length above.now < length name.now)
        × (folders_above name.now ≡ folders_above above.now ++ above.now ∷ [])) }
{
    match name.rsplit_once('/') {
        Some((above, _)) => Some(above),
        None => None,
    }
}

/// Notes each folder on the way to a name below the root, the root among them: the name stays through a stop once the names in all
/// of these are on the disk. Costs a path for each step of the name.
pub(crate) fn note_way(
    alloc: Global,
    root: &str,
    name: &str,
    changed: &mut BTreeSet<Text>,
) -> Result<(), DeviceFault>
    ensures gains { OnOk result (Gains (way root.now name.now) changed.old changed.new) }
    ensures keeps { Keeps changed.old changed.new }
    ensures memory { IfErr result (λ fault. fault ≡ Memory) }
{
    let mut rest = name;
    while let Some(above) = folder_of(rest) {
        note(changed, Text::of(full_path(alloc, root, above)?))?;
        rest = above;
    }
    note(changed, Text::from_str(alloc, root)?)
}

// Brings one folder's names to the disk.
fn sync_folder<R: rt::Files>(rt: &R, path: &str) -> Result<(), io::Error> {
    rt.open_file(OpenOptions::new().read(true), path)?
        .sync_all()
}

/// Brings the names of these folders to the disk. Costs one call for each.
pub(crate) fn sync_folders<R: rt::Files>(
    rt: &R,
    folders: &BTreeSet<Text>,
) -> Result<(), DeviceFault> {
    for folder in folders {
        if let Err(e) = sync_folder(rt, folder.as_str()) {
            return Err(fault_of(&e));
        }
    }
    Ok(())
}
