// What stands under a name in memory.
ghost use Rattle.std.specs.Prelude.{◌≡◌, ◌≤◌, true, false, IfOk, IfSome, length};
ghost use Rattle.mvn_shared.specs.Files.{file_at};
ghost use Rattle.mvn_base.specs.Names.{is_group, is_name};
ghost use Rattle.mvn_outside.specs.Faults.{read_failed, list_failed};
ghost use Rattle.mvn_outside.specs.Reading.{Reads};
ghost use Rattle.mvn_outside.specs.Versions.{ListsVersions};

use mvn_outside::{ListFault, ReadFault, list_versions};
use mvn_shared::{Bytes, FileMap, List, Text};
use std::alloc::Global;

/// A copy of the bytes under a name, where there are at most `limit`; nothing where no file is there.
pub(crate) fn read_within(
    files: &FileMap,
    name: &Text,
    limit: u64,
) -> Result<Option<Bytes>, ReadFault>
    ensures reads { Reads (file_at files.now name.now) limit result }
    ensures within { IfOk result (λ found. IfSome found (λ bytes. length bytes ≤ limit)) }
    ensures quiet { read_failed result ≡ false }
{
    match files.get(name) {
        None => Ok(None),
        Some(bytes) => {
            if bytes.len() as u64 > limit {
                return Err(ReadFault::TooLarge);
            }
            match bytes.clone() {
                Ok(copy) => Ok(Some(copy)),
                Err(_) => Err(ReadFault::Memory),
            }
        }
    }
}

/// The versions whose POMs are among the files, in the order of the POMs' names. Costs one pass over the names.
pub(crate) fn versions_in(
    alloc: Global,
    files: &FileMap,
    group: &Text,
    artifact: &Text,
) -> Result<List<Text>, ListFault>
    requires group { is_group group.now ≡ true }
    requires artifact { is_name artifact.now ≡ true }
    ensures lists { ListsVersions files.now group.now artifact.now result }
    ensures quiet { list_failed result ≡ false }
{
    let names = files.names(alloc)?;
    list_versions(alloc, &names, group, artifact)
}
