//! The remote repository, as a map from names to bytes.

ghost use Rattle.std.specs.Prelude.{◌≡◌, IfOk, [], true};
ghost use Rattle.outside_mem.specs.FilesNamed.{files_named};

use crate::calls::{Calls, Failures, NoFailures};
use crate::reading::{read_within, versions_in};
use mvn_base::FileName;
use mvn_outside::{ListFault, ReadFault, Remote};
use mvn_shared::{Bytes, FileMap, List, Mem, Text};
use std::alloc::Global;

/// A file of a repository, with its bytes.
#[derive(Clone, Drop)]
pub struct MemFile {
    pub name: FileName,
    pub bytes: Bytes,
}

/// The files of a list. Of two with one name the later counts.
pub(crate) fn file_map(alloc: Global, files: List<MemFile>) -> Mem<FileMap>
    ensures { IfOk result (λ map. map ≡ files_named files) }
{
    let mut map = FileMap::new(alloc);
    for file in files.into_vec() {
        let MemFile { name, bytes } = file;
        map.insert(name.as_text().clone()?, bytes)?;
    }
    Ok(map)
}

/// A repository in memory. It tells its files.
#[derive(Drop)]
pub struct MemRemote<F> {
    alloc: Global,
    files: FileMap,
    calls: F,
}

impl MemRemote<Calls> {
    ghost use Rattle.outside_mem.specs.Remote.{remote_files};

    /// The repository of these files, of which a later one of a name counts. The calls with the numbers fail, from 0 on.
    pub fn new(alloc: Global, files: List<MemFile>, failing: &List<u64>) -> Mem<MemRemote<Calls>>
        ensures value { IfOk result (λ remote. remote_files remote ≡ files_named files) }
        ensures never { failing.now ≡ [] →
            IfOk result (λ remote. ⟦<MemRemote<Calls> as Remote>⟧.never_fails remote ≡ true) }
    {
        let calls = Calls::new(alloc, failing)?;
        let files = file_map(alloc, files)?;
        Ok(MemRemote {
            alloc,
            files,
            calls,
        })
    }
}

impl MemRemote<NoFailures> {
    ghost use Rattle.outside_mem.specs.Remote.{remote_files};

    /// The repository of these files, of which a later one of a name counts. No call fails.
    pub fn without_failures(alloc: Global, files: List<MemFile>) -> Mem<MemRemote<NoFailures>>
        ensures value { IfOk result (λ remote. remote_files remote ≡ files_named files) }
        ensures never { IfOk result (λ remote.
            ⟦<MemRemote<NoFailures> as Remote>⟧.never_fails remote ≡ true) }
    {
        let files = file_map(alloc, files)?;
        Ok(MemRemote {
            alloc,
            files,
            calls: NoFailures,
        })
    }
}

impl<F: Failures> Remote for MemRemote<F> {
    ghost use Rattle.std.specs.Prelude.{Some};

    ghost files = { λ remote. Some remote.files };

    ghost faults = { λ remote. F.count remote.calls };

    ghost never_fails = { λ remote. F.never_fails remote.calls };

    ghost no_faults = { λ remote. F.no_faults remote.calls };

    fn fetch(&mut self, name: &FileName, limit: u64) -> Result<Option<Bytes>, ReadFault> {
        if self.calls.next_fails() {
            return Err(ReadFault::Failed);
        }
        read_within(&self.files, name.as_text(), limit)
    }

    fn versions(&mut self, group: &Text, artifact: &Text) -> Result<List<Text>, ListFault> {
        if self.calls.next_fails() {
            return Err(ListFault::Failed);
        }
        versions_in(self.alloc, &self.files, group, artifact)
    }
}
