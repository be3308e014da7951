// The files below a folder of the system. Links are followed; a folder isn't entered again on the way down from itself, so that a
// circle of links ends where it closes.
ghost use Rattle.std.specs.Prelude.{◌≡◌, ◌≤◌, vec_len, IfOk};
ghost use Rattle.std.specs.Ordering.{nat_cmp};
ghost use Rattle.std.specs.Cmp.Lexicographic.{slice_cmp};
ghost use Rattle.std.specs.List.Sorted.{IsSorted};
ghost use Rattle.outside_real.specs.Walk.{behind, is_known_as, is_on_way};

use crate::fault::{fault_of, is_absent};
use crate::paths::full_path;
use crate::reading_look::{entries_of, found};
use mvn_base::MOST_FILES;
use mvn_outside::ListFault;
use mvn_shared::{Mem, Text};
use std::alloc::Global;
use std::fs::{DirEntry, Metadata};
use std::os::unix::fs::MetadataExt;
use std::{io, rt};

/// How many folders are entered at most: links may lead to one another on ever more ways.
const MOST_FOLDERS: usize = MOST_FILES;

// A folder to look into: its path below the root, the place of the folder that it was met in, and the device and the number by
// which the system knows it, whatever path leads there.
#[derive(Drop)]
struct Folder {
    path: Text,
    above: Option<usize>,
    device: u64,
    number: u64,
}

// A path below the root: a folder's, and a name in it.
fn below(alloc: Global, folder: &str, name: &str) -> Mem<Text> {
    if folder.is_empty() {
        return Text::from_str(alloc, name);
    }
    Ok(Text::of(full_path(alloc, folder, name)?))
}

// What an answer of the system says of a name that was read in its folder: nothing stands there where a link leads nowhere.
fn behind(answer: io::Result<Metadata>) -> Result<Option<Metadata>, ListFault>
    ensures { result ≡ behind answer }
{
    match answer {
        Ok(metadata) => Ok(Some(metadata)),
        Err(e) => if is_absent(&e) {
            Ok(None)
        } else {
            Err(ListFault::from(fault_of(&e)))
        },
    }
}

// Whether the system knows a folder by this device and number.
fn is_known_as(folder: &Folder, device: u64, number: u64) -> bool
    ensures { result ≡ is_known_as device number folder.now }
{
    folder.device == device && folder.number == number
}

// Whether the folder at a place, or one of those that it was met in, is known by this device and number.
#[tactic(auto, using(crate::proofs::Steps::way_ends, crate::proofs::Steps::way_goes_on, crate::proofs::Steps::way_lost))]
fn is_on_way(folders: &[Folder], place: Option<usize>, device: u64, number: u64) -> bool
    ensures { result ≡ is_on_way folders.now place device number }
{
    let mut next = place;
    for _ in 0..folders.len() {
        let Some(place) = next else {
            return false;
        };
        let Some(folder) = folders.get(place) else {
            return false;
        };
        if is_known_as(folder, device, number) {
            return true;
        }
        next = folder.above;
    }
    false
}

// What was met so far below a root: the files, at most so many, and the folders, which are looked into one after another.
#[derive(Drop)]
struct Walk<'a, R: rt::Files + AllocGlobal + Clone + Drop> {
    rt: &'a R,
    root: &'a str,
    most: usize,
    files: Vec<Text>,
    folders: Vec<Folder>,
    ghost few: { vec_len files ≤ most },
}

impl<'a, R: rt::Files + AllocGlobal + Clone + Drop> Walk<'a, R> {
    // Takes a file in.
    fn take_file(&mut self, path: Text) -> Result<(), ListFault>
        ensures { self.new.most ≡ self.old.most }
    {
        if self.files.len() >= self.most {
            return Err(ListFault::TooMany);
        }
        self.files.push(path).map_err(|_| ListFault::Memory)
    }

    // Takes a folder in, unless it is one of those that lead there. One too many is a fault.
    fn take_folder(
        &mut self,
        path: Text,
        above: Option<usize>,
        metadata: &Metadata,
    ) -> Result<(), ListFault>
        ensures { self.new.most ≡ self.old.most }
    {
        let (device, number) = (metadata.dev(), metadata.ino());
        if is_on_way(self.folders.as_slice(), above, device, number) {
            return Ok(());
        }
        if self.folders.len() >= MOST_FOLDERS {
            return Err(ListFault::Failed);
        }
        let folder = Folder {
            path,
            above,
            device,
            number,
        };
        self.folders.push(folder).map_err(|_| ListFault::Memory)
    }

    // What stands at a path, links followed.
    fn behind_path(&self, path: &str) -> Result<Option<Metadata>, ListFault> {
        let full = full_path(self.rt.alloc(), self.root, path)?;
        behind(self.rt.metadata(full.as_str()))
    }

    // Takes in what stands at a path. What is neither a file nor a folder is left out.
    fn take_known(&mut self, path: Text, above: usize, metadata: &Metadata) -> Result<(), ListFault>
        ensures { self.new.most ≡ self.old.most }
    {
        if metadata.is_dir() {
            return self.take_folder(path, Some(above), metadata);
        }
        if metadata.is_file() {
            return self.take_file(path);
        }
        Ok(())
    }

    // Takes in what stands at a path, links followed. A link that leads nowhere is left out.
    fn take(&mut self, path: Text, above: usize) -> Result<(), ListFault>
        ensures { self.new.most ≡ self.old.most }
    {
        match self.behind_path(path.as_str())? {
            Some(metadata) => self.take_known(path, above, &metadata),
            None => Ok(()),
        }
    }

    // Takes in the folder to begin with, where one stands there.
    fn begin(&mut self, folder: &str) -> Result<(), ListFault>
        ensures { self.new.most ≡ self.old.most }
    {
        let alloc = self.rt.alloc();
        let full = full_path(alloc, self.root, folder)?;
        let Some(metadata) = found(self.rt, full.as_str())? else {
            return Ok(());
        };
        if !metadata.is_dir() {
            return Ok(());
        }
        self.take_folder(Text::from_str(alloc, folder)?, None, &metadata)
    }

    // Takes in the name of an entry of a folder.
    fn take_name(&mut self, folder: &str, name: &str, place: usize) -> Result<(), ListFault>
        ensures { self.new.most ≡ self.old.most }
    {
        let path = below(self.rt.alloc(), folder, name)?;
        self.take(path, place)
    }

    // Takes in an entry of a folder.
    fn take_entry(
        &mut self,
        folder: &str,
        entry: &io::Result<DirEntry<R>>,
        place: usize,
    ) -> Result<(), ListFault>
        ensures { self.new.most ≡ self.old.most }
    {
        match entry {
            Ok(entry) => self.take_name(folder, entry.file_name(), place),
            Err(e) => Err(ListFault::from(fault_of(e))),
        }
    }

    // Takes in what a folder has, which has this path of the system.
    fn look_into(&mut self, path: &str, folder: &str, place: usize) -> Result<(), ListFault>
        ensures { self.new.most ≡ self.old.most }
    {
        for entry in entries_of(self.rt, path)? {
            self.take_entry(folder, &entry, place)?;
        }
        Ok(())
    }

    // Takes in what the folder with this path below the root has.
    fn enter(&mut self, folder: &str, place: usize) -> Result<(), ListFault>
        ensures { self.new.most ≡ self.old.most }
    {
        let path = full_path(self.rt.alloc(), self.root, folder)?;
        self.look_into(path.as_str(), folder, place)
    }

    // Looks into the folder at a place, if there is one.
    fn step(&mut self, place: usize) -> Result<bool, ListFault>
        ensures { self.new.most ≡ self.old.most }
    {
        let Some(folder) = self.folders.get(place) else {
            return Ok(false);
        };
        let path = folder.path.clone().map_err(|_| ListFault::Memory)?;
        self.enter(path.as_str(), place)?;
        Ok(true)
    }

    // Takes in the folder to begin with, and looks into each folder that it meets.
    fn go(&mut self, folder: &str) -> Result<(), ListFault>
        ensures { self.new.most ≡ self.old.most }
    {
        self.begin(folder)?;
        for place in 0..MOST_FOLDERS {
            if !self.step(place)? {
                break;
            }
        }
        Ok(())
    }
}

/// The files below a folder, as paths below the root, ascending by bytes; none where it is no folder. Links to files and folders are
/// followed, as Maven follows them; where one leads back to a folder that it was met in, it is left out. A folder that several links
/// lead to is looked into for each of them, so that its files are listed under each of these paths, as Maven lists them. `TooMany`
/// where there are more than `most` files. More than 65,536 folders are a fault. Costs one look at each entry, and a sort.
pub(crate) fn files_below<R: rt::Files + AllocGlobal + Clone + Drop>(
    rt: &R,
    root: &str,
    folder: &str,
    most: usize,
) -> Result<Vec<Text>, ListFault>
    ensures few { IfOk result (λ files. vec_len files ≤ most) }
    ensures sorted { IfOk result (λ files. IsSorted (slice_cmp nat_cmp) files.items) }
{
    let alloc = rt.alloc();
    let mut walk = Walk {
        rt,
        root,
        most,
        files: Vec::new(alloc),
        folders: Vec::new(alloc),
    };
    walk.go(folder)?;
    let mut files = walk.files;
    files.sort().map_err(|_| ListFault::Memory)?;
    Ok(files)
}
