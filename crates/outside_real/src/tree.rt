//! The project's folder, which is only read.

ghost use Rattle.std.specs.Prelude.{◌≤◌, IfOk, IfSome, length};

use crate::count::{counted, counted_list, counted_read};
use crate::paths::full_path;
use crate::reading::read_file;
use crate::walk::files_below;
use mvn_base::MOST_FILES;
use mvn_outside::{DeviceFault, Files, ListFault, ReadFault, Tree};
use mvn_shared::{Bytes, List, Text};
use std::rt;

/// A project's folder on a disk. It tells nothing of what stands there.
#[derive(Drop)]
pub struct RealTree<'a, R: rt::Files + AllocGlobal + Clone + Drop> {
    rt: &'a R,
    root: Text,
    faults: u64,
}

impl<'a, R: rt::Files + AllocGlobal + Clone + Drop> RealTree<'a, R> {
    ghost use Rattle.std.specs.Prelude.{◌≡◌};
    ghost use Rattle.outside_real.specs.Tree.{tree_faults};

    /// The folder at a path of the system, such as `.`.
    pub fn new(rt: &'a R, root: Text) -> RealTree<'a, R>
        ensures { tree_faults result ≡ 0 }
    {
        RealTree {
            rt,
            root,
            faults: 0,
        }
    }

    fn bytes_at(&self, path: &Text, limit: u64) -> Result<Option<Bytes>, ReadFault>
        ensures { IfOk result (λ found. IfSome found (λ bytes. length bytes ≤ limit)) }
    {
        let alloc = self.rt.alloc();
        let full = full_path(alloc, self.root.as_str(), path.as_str())?;
        read_file(self.rt, alloc, full.as_str(), limit)
    }

    // Whether a file stands at a path or below it: one is enough.
    fn is_there(&self, path: &Text) -> Result<bool, DeviceFault> {
        match self.bytes_at(path, 0) {
            Ok(Some(_)) | Err(ReadFault::TooLarge) => return Ok(true),
            Ok(None) => {}
            Err(ReadFault::Failed) => return Err(DeviceFault::Failed),
            Err(ReadFault::Memory) => return Err(DeviceFault::Memory),
        }
        match files_below(self.rt, self.root.as_str(), path.as_str(), 0) {
            Ok(_) => Ok(false),
            Err(ListFault::TooMany) => Ok(true),
            Err(ListFault::Failed) => Err(DeviceFault::Failed),
            Err(ListFault::Memory) => Err(DeviceFault::Memory),
        }
    }
}

impl<'a, R: rt::Files + AllocGlobal + Clone + Drop> Files for RealTree<'a, R> {
    ghost use Rattle.std.specs.Prelude.{false};

    ghost fits = { λ _ _. ⊥ };

    ghost faults = { λ tree. tree.faults };

    ghost never_fails = { λ _. false };

    ghost no_faults = { λ _ e. cc };

    ghost tells_same = { λ _ _. Unit {0} };

    fn has(&mut self, path: &Text) -> Result<bool, DeviceFault> {
        let answer = self.is_there(path);
        counted(&mut self.faults, answer)
    }
}

impl<'a, R: rt::Files + AllocGlobal + Clone + Drop> Tree for RealTree<'a, R> {
    ghost use Rattle.std.specs.Prelude.{None, refl};

    ghost files = { λ _. None };

    ghost same_files = { λ _ _ _. refl };

    ghost agrees = { λ _. tt };

    fn read(&mut self, path: &Text, limit: u64) -> Result<Option<Bytes>, ReadFault> {
        let answer = self.bytes_at(path, limit);
        counted_read(&mut self.faults, answer)
    }

    fn list(&mut self, folder: &Text) -> Result<List<Text>, ListFault> {
        let answer = files_below(self.rt, self.root.as_str(), folder.as_str(), MOST_FILES);
        Ok(List::of(counted_list(&mut self.faults, answer)?))
    }
}
