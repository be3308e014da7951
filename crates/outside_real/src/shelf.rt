//! The local repository, into which pieces are renamed.

ghost use Rattle.std.specs.Prelude.{◌≡◌, ◌≤◌, true, is_some, IfOk, IfSome, OnOk, OnErr, length};
ghost use Rattle.std.specs.BTreeSet.{IsEmpty};
ghost use Rattle.mvn_base.specs.Names.{is_group, is_name};
ghost use Rattle.mvn_shared.specs.Cause.{HasCause};
ghost use Rattle.mvn_outside.specs.Faults.{device_failed, read_failed, list_failed};

use crate::area::RealArea;
use crate::count::{counted, counted_list, counted_read};
use crate::fault::fault_of;
use crate::folders::{is_inside, make_folders, parent_of};
use crate::look;
use crate::paths::full_path;
use crate::reading::read_file;
use crate::settling::{note_way, sync_folders};
use crate::versions::versions_below;
use mvn_base::FileName;
use mvn_outside::{DeviceFault, ListFault, ReadFault, Shelf};
use mvn_shared::{Bytes, List, Mem, Text};
use std::collections::BTreeSet;
use std::fs::File;
use std::rt;

/// The local repository as a folder on a disk. It tells nothing of what stands there. A publish renames a piece over its
/// name; `settle` brings to the disk each folder from the root to the names that were published or found here, whoever made it: a run
/// that was stopped may have left it unsettled.
#[derive(Drop)]
pub struct RealShelf<'a, R: rt::Files<File = File> + AllocGlobal + Clone + Drop> {
    rt: &'a R,
    root: Text,
    changed: BTreeSet<Text>,
    faults: u64,
}

impl<'a, R: rt::Files<File = File> + AllocGlobal + Clone + Drop> RealShelf<'a, R> {
    ghost use Rattle.outside_real.specs.Shelf.{shelf_faults, root_of, noted};
    ghost use Rattle.outside_real.specs.Ways.{HasWay, Keeps};

    /// The folder at a path of the system, which need not be there.
    pub fn new(rt: &'a R, root: Text) -> RealShelf<'a, R>
        ensures faults { shelf_faults result ≡ 0 }
        ensures root { root_of result ≡ root }
        ensures noted { IsEmpty (noted result) }
    {
        let changed = BTreeSet::new(rt.alloc());
        RealShelf {
            rt,
            root,
            changed,
            faults: 0,
        }
    }

    // The path of the system that a name has.
    fn path_of(&self, name: &FileName) -> Mem<String> {
        full_path(self.rt.alloc(), self.root.as_str(), name.as_text().as_str())
    }

    // The bytes of a file; where one has the name, the folders on the way to it are noted.
    fn bytes_at(&mut self, name: &FileName, limit: u64) -> Result<Option<Bytes>, ReadFault>
        ensures within { IfOk result (λ found. IfSome found (λ bytes. length bytes ≤ limit)) }
        ensures way { IfOk result (λ found. is_some found ≡ true →
            HasWay (root_of self.old) name.now (noted self.new)) }
        ensures keeps { Keeps (noted self.old) (noted self.new) }
        ensures root { root_of self.new ≡ root_of self.old }
        ensures faults { shelf_faults self.new ≡ shelf_faults self.old }
    {
        let path = self.path_of(name)?;
        let bytes = read_file(self.rt, self.rt.alloc(), path.as_str(), limit)?;
        if bytes.is_some() {
            self.note(name)?;
        }
        Ok(bytes)
    }

    // Notes the folders on the way to a name.
    fn note(&mut self, name: &FileName) -> Result<(), DeviceFault>
        ensures way { OnOk result (HasWay (root_of self.old) name.now (noted self.new)) }
        ensures keeps { Keeps (noted self.old) (noted self.new) }
        ensures root { root_of self.new ≡ root_of self.old }
        ensures faults { shelf_faults self.new ≡ shelf_faults self.old }
    {
        let alloc = self.rt.alloc();
        note_way(
            alloc,
            self.root.as_str(),
            name.as_text().as_str(),
            &mut self.changed,
        )
    }

    // Whether a file has the name; where one has, the folders on the way to it are noted.
    fn is_file(&mut self, name: &FileName) -> Result<bool, DeviceFault>
        ensures way { IfOk result (λ there. there ≡ true →
            HasWay (root_of self.old) name.now (noted self.new)) }
        ensures keeps { Keeps (noted self.old) (noted self.new) }
        ensures root { root_of self.new ≡ root_of self.old }
        ensures faults { shelf_faults self.new ≡ shelf_faults self.old }
    {
        let path = self.path_of(name)?;
        let is_there = look::is_file(self.rt, path.as_str())?;
        if is_there {
            self.note(name)?;
        }
        Ok(is_there)
    }

    // Makes the name's folders and renames the file over it; the folders on the way to it are noted first.
    fn rename(&mut self, from: &str, name: &FileName) -> Result<(), DeviceFault>
        ensures way { OnOk result (HasWay (root_of self.old) name.now (noted self.new)) }
        ensures keeps { Keeps (noted self.old) (noted self.new) }
        ensures root { root_of self.new ≡ root_of self.old }
        ensures faults { shelf_faults self.new ≡ shelf_faults self.old }
    {
        if !is_inside(name.as_text().as_bytes()) {
            return Err(DeviceFault::Failed);
        }
        let to = self.path_of(name)?;
        make_folders(self.rt, parent_of(to.as_str()), &mut self.changed)?;
        self.note(name)?;
        match self.rt.rename(from, to.as_str()) {
            Ok(()) => Ok(()),
            Err(e) => Err(fault_of(&e)),
        }
    }

    // Brings the noted folders to the disk; none is noted then. After an `Err` all are still to be brought there.
    fn bring(&mut self) -> Result<(), DeviceFault>
        ensures settled { OnOk result (IsEmpty (noted self.new)) }
        ensures keeps { OnErr result (noted self.new ≡ noted self.old) }
        ensures root { root_of self.new ≡ root_of self.old }
        ensures faults { shelf_faults self.new ≡ shelf_faults self.old }
    {
        sync_folders(self.rt, &self.changed)?;
        self.changed.clear();
        Ok(())
    }
}

impl<'a, R: rt::Files<File = File> + AllocGlobal + Clone + Drop> Shelf for RealShelf<'a, R> {
    ghost use Rattle.std.specs.Prelude.{None, false};
    ghost use Rattle.outside_real.specs.Shelf.{shelf_faults, root_of, noted};
    ghost use Rattle.outside_real.specs.Ways.{HasWay, Keeps};

    type Area = RealArea<'a, R>;

    ghost told = { λ _. None };

    ghost faults = { λ shelf. shelf.faults };

    ghost never_fails = { λ _. false };

    ghost no_faults = { λ _ e. cc };

    ghost settled_within = { λ _. tt };

    fn has(&mut self, name: &FileName) -> Result<bool, DeviceFault>
        ensures way { IfOk result (λ there. there ≡ true →
            HasWay (root_of self.old) name.now (noted self.new)) }
        ensures keeps { Keeps (noted self.old) (noted self.new) }
        ensures root { root_of self.new ≡ root_of self.old }
        ensures cause { HasCause (shelf_faults self.old) (shelf_faults self.new)
            (device_failed result) }
    {
        let answer = self.is_file(name);
        counted(&mut self.faults, answer)
    }

    fn read(&mut self, name: &FileName, limit: u64) -> Result<Option<Bytes>, ReadFault>
        ensures way { IfOk result (λ found. is_some found ≡ true →
            HasWay (root_of self.old) name.now (noted self.new)) }
        ensures within { IfOk result (λ found. IfSome found (λ bytes. length bytes ≤ limit)) }
        ensures keeps { Keeps (noted self.old) (noted self.new) }
        ensures root { root_of self.new ≡ root_of self.old }
        ensures cause { HasCause (shelf_faults self.old) (shelf_faults self.new)
            (read_failed result) }
    {
        let answer = self.bytes_at(name, limit);
        counted_read(&mut self.faults, answer)
    }

    fn versions(&mut self, group: &Text, artifact: &Text) -> Result<List<Text>, ListFault>
        requires group { is_group group.now ≡ true }
        requires artifact { is_name artifact.now ≡ true }
        ensures noted { noted self.new ≡ noted self.old }
        ensures root { root_of self.new ≡ root_of self.old }
        ensures cause { HasCause (shelf_faults self.old) (shelf_faults self.new)
            (list_failed result) }
    {
        let answer = versions_below(self.rt, self.root.as_str(), group, artifact);
        counted_list(&mut self.faults, answer)
    }

    fn publish(
        &mut self,
        area: &mut RealArea<'a, R>,
        piece: u64,
        name: &FileName,
    ) -> Result<(), DeviceFault> {
        let from = area.path_of(piece)?;
        let answer = self.rename(from.as_str(), name);
        counted(&mut self.faults, answer)?;
        area.forget(piece);
        Ok(())
    }

    fn settle(&mut self) -> Result<(), DeviceFault> {
        let answer = self.bring();
        counted(&mut self.faults, answer)
    }
}
