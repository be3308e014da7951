//! The staging folder of one worker, whose pieces are locked files.

ghost use Rattle.std.specs.Prelude.{◌≡◌, ◌<◌, ◌≤◌, length, IfOk};
ghost use Rattle.std.specs.FinMap as map;

use crate::count::counted;
use crate::fault::fault_of;
use crate::folders::make_folders;
use crate::piece::{new_piece, remove_piece, sweep_folder};
use crate::settling::sync_folders;
use crate::writing::write_some;
use mvn_outside::{Area, DeviceFault};
use mvn_shared::{Mem, Text};
use std::collections::{BTreeMap, BTreeSet};
use std::fs::{File, OpenFile};
use std::rt;

/// One worker's staging folder on a disk, which several programs may share. It tells which of its own pieces are there, and nothing of
/// their bytes. A piece is a file of this process alone, made new under the process's name and the piece's number, and held open and
/// locked until it is published or discarded.
#[derive(Drop)]
pub struct RealArea<'a, R: rt::Files<File = File> + AllocGlobal + Clone + Drop> {
    rt: &'a R,
    folder: Text,
    owner: Text,
    pieces: BTreeMap<u64, bool>,
    files: BTreeMap<u64, File>,
    next: u64,
    faults: u64,
}

impl<'a, R: rt::Files<File = File> + AllocGlobal + Clone + Drop> RealArea<'a, R> {
    ghost use Rattle.outside_real.specs.Area.{area_pieces, area_faults};

    /// The staging folder at a path of the system, which need not be there, and a name that no other process has. What a stopped run
    /// left in the folder stays until it is swept.
    pub fn new(rt: &'a R, folder: Text, owner: Text) -> RealArea<'a, R>
        ensures { area_faults result ≡ 0 }
    {
        let pieces = BTreeMap::new(rt.alloc());
        let files = BTreeMap::new(rt.alloc());
        RealArea {
            rt,
            folder,
            owner,
            pieces,
            files,
            next: 0,
            faults: 0,
        }
    }

    // The path of a piece.
    pub(crate) fn path_of(&self, piece: u64) -> Mem<String> {
        let folder = &self.folder;
        let owner = &self.owner;
        Ok(format!(in self.rt.alloc(); "{folder}/{owner}-{piece}")?)
    }

    // Drops a piece that has left the folder.
    pub(crate) fn forget(&mut self, piece: u64)
        ensures pieces { area_pieces self.new ≡ map.remove (area_pieces self.old) piece }
        ensures faults { area_faults self.new ≡ area_faults self.old }
    {
        self.pieces.remove(&piece);
        self.files.remove(&piece);
    }

    // Makes the folder, so that it stays where it is new.
    fn make_folder(&self) -> Result<(), DeviceFault> {
        let mut changed = BTreeSet::new(self.rt.alloc());
        make_folders(self.rt, self.folder.as_str(), &mut changed)?;
        sync_folders(self.rt, &changed)
    }

    // A new empty file, under the next number that is free.
    fn create(&self) -> Result<(u64, File), DeviceFault> {
        self.make_folder()?;
        for piece in self.next..u64::MAX {
            let path = self.path_of(piece)?;
            if let Some(file) = new_piece(self.rt, path.as_str())? {
                return Ok((piece, file));
            }
        }
        Err(DeviceFault::Memory)
    }

    // Writes a part of the bytes at the end of a piece.
    fn write_part(&mut self, piece: u64, bytes: &[u8]) -> Result<usize, DeviceFault>
        ensures within { IfOk result (λ count. count ≤ length bytes.now) }
        ensures progress { IfOk result (λ count. 0 < length bytes.now → 0 < count) }
        ensures pieces { area_pieces self.new ≡ area_pieces self.old }
        ensures faults { area_faults self.new ≡ area_faults self.old }
    {
        match self.files.get_mut(&piece) {
            Some(file) => write_some(file, bytes),
            None => Err(DeviceFault::Failed),
        }
    }

    // Brings a piece's bytes to the disk.
    fn sync(&self, piece: u64) -> Result<(), DeviceFault> {
        match self.files.get(&piece) {
            Some(file) => file.sync_all().map_err(|e| fault_of(&e)),
            None => Err(DeviceFault::Failed),
        }
    }

    // Removes a piece's file, if it is there.
    fn remove(&self, piece: u64) -> Result<(), DeviceFault> {
        let path = self.path_of(piece)?;
        remove_piece(self.rt, path.as_str())
    }
}

impl<'a, R: rt::Files<File = File> + AllocGlobal + Clone + Drop> Area for RealArea<'a, R> {
    ghost use Rattle.std.specs.Prelude.{None, false};
    ghost use Rattle.std.specs.FinMap.{from_entries};

    ghost pieces = { λ area. from_entries area.pieces.entries };

    ghost contents = { λ _. None };

    ghost faults = { λ area. area.faults };

    ghost never_fails = { λ _. false };

    ghost no_faults = { λ _ e. cc };

    // A number is given once; the last of them never.
    fn begin(&mut self) -> Result<u64, DeviceFault> {
        let answer = self.create();
        let (piece, file) = counted(&mut self.faults, answer)?;
        if piece == u64::MAX || self.pieces.contains_key(&piece) {
            return Err(DeviceFault::Memory);
        }
        if self.files.insert(piece, file).is_err() {
            return Err(DeviceFault::Memory);
        }
        match self.pieces.insert(piece, false) {
            Ok(_) => {
                self.next = piece + 1;
                Ok(piece)
            }
            Err(_) => Err(DeviceFault::Memory),
        }
    }

    fn append(&mut self, piece: u64, bytes: &[u8]) -> Result<usize, DeviceFault> {
        let answer = self.write_part(piece, bytes);
        counted(&mut self.faults, answer)
    }

    fn seal(&mut self, piece: u64) -> Result<(), DeviceFault> {
        let answer = self.sync(piece);
        counted(&mut self.faults, answer)?;
        match self.pieces.insert(piece, true) {
            Ok(_) => Ok(()),
            Err(_) => Err(DeviceFault::Memory),
        }
    }

    fn discard(&mut self, piece: u64) -> Result<(), DeviceFault> {
        let answer = self.remove(piece);
        counted(&mut self.faults, answer)?;
        self.forget(piece);
        Ok(())
    }

    // The own pieces are let go first: a sweep removes what nobody holds.
    fn sweep(&mut self) -> Result<(), DeviceFault> {
        self.pieces.clear();
        self.files.clear();
        let answer = sweep_folder(self.rt, self.folder.as_str());
        counted(&mut self.faults, answer)
    }
}
