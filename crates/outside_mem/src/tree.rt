//! The project's folder, as a map from paths to bytes.

ghost use Rattle.std.specs.Prelude.{◌≡◌, IfOk, [], true};
ghost use Rattle.outside_mem.specs.Tree.{files_of};

use crate::calls::{Calls, Failures, NoFailures};
use crate::reading::read_within;
use goal_types::SourceFile;
use mvn_base::MOST_FILES;
use mvn_outside::{DeviceFault, Files, ListFault, ReadFault, Tree};
use mvn_shared::{Bytes, FileMap, List, Mem, Text};
use std::alloc::Global;

/// A project's folder in memory. It tells its files.
#[derive(Drop)]
pub struct MemTree<F> {
    alloc: Global,
    files: FileMap,
    calls: F,
}

// The files of a list, put in one after another.
fn tree_map(alloc: Global, files: List<SourceFile>) -> Mem<FileMap>
    ensures { IfOk result (λ map. map ≡ files_of files) }
{
    let mut map = FileMap::new(alloc);
    for file in files.into_vec() {
        let SourceFile { path, bytes } = file;
        map.insert(path, bytes)?;
    }
    Ok(map)
}

impl MemTree<Calls> {
    ghost use Rattle.outside_mem.specs.Tree.{tree_files};

    /// The tree of these files, of which a later one of a path counts. The calls with the numbers fail, from 0 on.
    pub fn new(alloc: Global, files: List<SourceFile>, failing: &List<u64>) -> Mem<MemTree<Calls>>
        ensures value { IfOk result (λ tree. tree_files tree ≡ files_of files) }
        ensures never { failing.now ≡ [] →
            IfOk result (λ tree. ⟦<MemTree<Calls> as Files>⟧.never_fails tree ≡ true) }
    {
        let calls = Calls::new(alloc, failing)?;
        let files = tree_map(alloc, files)?;
        Ok(MemTree {
            alloc,
            files,
            calls,
        })
    }
}

impl MemTree<NoFailures> {
    ghost use Rattle.outside_mem.specs.Tree.{tree_files};

    /// The tree of these files, of which a later one of a path counts. No call fails.
    pub fn without_failures(alloc: Global, files: List<SourceFile>) -> Mem<MemTree<NoFailures>>
        ensures value { IfOk result (λ tree. tree_files tree ≡ files_of files) }
        ensures never { IfOk result (λ tree.
            ⟦<MemTree<NoFailures> as Files>⟧.never_fails tree ≡ true) }
    {
        let files = tree_map(alloc, files)?;
        Ok(MemTree {
            alloc,
            files,
            calls: NoFailures,
        })
    }
}

impl<F: Failures> Files for MemTree<F> {
    ghost use Rattle.std.specs.Prelude.{◌≡◌, ℕ, List};
    ghost use Rattle.mvn_shared.specs.Files.{is_there};

    ghost fits = { λ tree world. (path : List ℕ) → world path ≡ is_there tree.files path };

    ghost faults = { λ tree. F.count tree.calls };

    ghost never_fails = { λ tree. F.never_fails tree.calls };

    ghost no_faults = { λ tree. F.no_faults tree.calls };

    ghost tells_same = { λ before now. now.files ≡ before.files };

    fn has(&mut self, path: &Text) -> Result<bool, DeviceFault> {
        if self.calls.next_fails() {
            return Err(DeviceFault::Failed);
        }
        Ok(self.files.is_there(path))
    }
}

impl<F: Failures> Tree for MemTree<F> {
    ghost use Rattle.std.specs.Prelude.{Some, refl};
    ghost use Rattle.std.proofs.Common.{ap};

    ghost files = { λ tree. Some tree.files };

    ghost same_files = { λ before now same. ap Some same };

    ghost agrees = { λ tree path. refl };

    fn read(&mut self, path: &Text, limit: u64) -> Result<Option<Bytes>, ReadFault> {
        if self.calls.next_fails() {
            return Err(ReadFault::Failed);
        }
        read_within(&self.files, path, limit)
    }

    fn list(&mut self, folder: &Text) -> Result<List<Text>, ListFault> {
        if self.calls.next_fails() {
            return Err(ListFault::Failed);
        }
        let names = self.files.names_below(self.alloc, folder)?;
        if names.len() > MOST_FILES {
            return Err(ListFault::TooMany);
        }
        Ok(List::of(names))
    }
}
