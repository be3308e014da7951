//! The local repository, with its publishes and what a stop may leave of them.

ghost use Rattle.std.specs.Prelude.{◌≡◌, ◌≤◌, ◌+◌, ℕ, [], ◌∷◌, ◌++◌, fold, length, IfOk, OnOk, OnErr, true};
ghost use Rattle.std.specs.FinMap as map;
ghost use Rattle.std.specs.Coded.{Coded-set};
ghost use Rattle.mvn_shared.specs.Files.{files_code};
ghost use Rattle.mvn_outside.specs.Shelf.{with_publish, published, files_now, Standing};
ghost use Rattle.outside_mem.specs.FilesNamed.{files_named};
ghost use Rattle.outside_mem.specs.Image.{settled_at, IsImage, image_of};

use crate::area::MemArea;
use crate::calls::{Calls, Failures, NoFailures};
use crate::images::image_files;
use crate::reading::{read_within, versions_in};
use crate::remote::{MemFile, file_map};
use mvn_base::FileName;
use mvn_outside::{DeviceFault, ListFault, Published, ReadFault, Shelf};
use mvn_shared::{Bytes, FileMap, List, Mem, Text};
use std::alloc::Global;

/// A local repository in memory. It tells its files at the opening, its publishes and how many of them are settled. It
/// notes for each publish how many were settled when it came, so that it can show what a stop may leave.
#[derive(Drop)]
pub struct MemShelf<F> {
    alloc: Global,
    given: List<MemFile>,
    files: FileMap,
    publishes: Vec<Published>,
    dates: Vec<usize>,
    settled: usize,
    calls: F,
    ghost current: { files ≡ fold with_publish (files_named given) publishes.items } by { Coded-set files_code _ _ },
    ghost within: { settled ≤ length publishes.items },
    ghost dated: { length dates.items ≡ length publishes.items },
    ghost early: { (moment : ℕ) → settled_at dates.items moment ≤ moment },
}

// A publish of these bytes under a name.
fn published_as(name: &FileName, bytes: &Bytes) -> Mem<Published>
    ensures { IfOk result (λ publish. publish ≡ (record {
      name = name.now;
      bytes = bytes.now;
    })) }
{
    let name = name.clone()?;
    let bytes = bytes.clone()?;
    Ok(Published { name, bytes })
}

// Adds a publish to the list, and puts its bytes under its name; where memory is short nothing has changed.
fn put(
    publishes: &mut Vec<Published>,
    files: &mut FileMap,
    publish: Published,
    path: Text,
    bytes: Bytes,
) -> Mem<()>
    ensures publishes { OnOk result (publishes.new.items ≡ publishes.old.items ++ publish ∷ []) }
    ensures files { OnOk result (files.new ≡ map.insert files.old path bytes) }
    ensures err { OnErr result
        ((publishes.new.items ≡ publishes.old.items) × (files.new ≡ files.old)) }
{
    publishes.push(publish)?;
    match files.insert(path, bytes) {
        Ok(()) => Ok(()),
        Err(error) => {
            publishes.pop();
            Err(error)
        }
    }
}

impl MemShelf<Calls> {
    ghost use Rattle.outside_mem.specs.Shelf.{shelf_told};

    /// The repository of these files, of which a later one of a name counts, with no publish. The calls with the numbers
    /// fail, from 0 on.
    #[tactic(auto, using(crate::proofs::Moments::no_dates))]
    pub fn new(alloc: Global, files: List<MemFile>, failing: &List<u64>) -> Mem<MemShelf<Calls>>
        ensures opening { IfOk result (λ shelf. (shelf_told shelf).opening ≡ files_named files) }
        ensures publishes { IfOk result (λ shelf. (shelf_told shelf).publishes ≡ []) }
        ensures settled { IfOk result (λ shelf. (shelf_told shelf).settled ≡ 0) }
        ensures never { failing.now ≡ [] →
            IfOk result (λ shelf. ⟦<MemShelf<Calls> as Shelf>⟧.never_fails shelf ≡ true) }
    {
        let calls = Calls::new(alloc, failing)?;
        let given = files.clone()?;
        let files = file_map(alloc, files)?;
        Ok(MemShelf {
            alloc,
            given,
            files,
            publishes: Vec::new(alloc),
            dates: Vec::new(alloc),
            settled: 0,
            calls,
        })
    }
}

impl MemShelf<NoFailures> {
    ghost use Rattle.outside_mem.specs.Shelf.{shelf_told};

    /// The repository of these files, of which a later one of a name counts, with no publish. No call fails.
    #[tactic(auto, using(crate::proofs::Moments::no_dates))]
    pub fn without_failures(alloc: Global, files: List<MemFile>) -> Mem<MemShelf<NoFailures>>
        ensures opening { IfOk result (λ shelf. (shelf_told shelf).opening ≡ files_named files) }
        ensures publishes { IfOk result (λ shelf. (shelf_told shelf).publishes ≡ []) }
        ensures settled { IfOk result (λ shelf. (shelf_told shelf).settled ≡ 0) }
        ensures never { IfOk result (λ shelf.
            ⟦<MemShelf<NoFailures> as Shelf>⟧.never_fails shelf ≡ true) }
    {
        let given = files.clone()?;
        let files = file_map(alloc, files)?;
        Ok(MemShelf {
            alloc,
            given,
            files,
            publishes: Vec::new(alloc),
            dates: Vec::new(alloc),
            settled: 0,
            calls: NoFailures,
        })
    }
}

impl<F> MemShelf<F> {
    ghost use Rattle.outside_mem.specs.Shelf.{shelf_told, shelf_calls, shelf_dates, settled_before};

    /// The number of names that hold a file. Takes no memory, and constant time.
    pub fn names(&self) -> u64
        ensures { result ≡ length (map.keys (files_now (shelf_told self.now))) }
    {
        self.files.len() as u64
    }

    /// The number of moments: the opening, and one directly after each publish. Takes no memory, and constant time.
    pub fn moments(&self) -> u64
        ensures { result ≡ length (shelf_told self.now).publishes + 1 }
    {
        self.publishes.len() as u64 + 1
    }

    // How many publishes were settled just before the publish of a moment.
    #[tactic(auto, using(crate::proofs::Moments::read_date))]
    fn settled_before(&self, moment: usize) -> usize
        requires { moment ≤ length (shelf_told self.now).publishes }
        ensures value { result ≡ settled_before self.now moment }
        ensures within { result ≤ moment }
    {
        if moment == 0 {
            return 0;
        }
        self.dates[moment - 1]
    }

    /// What a stop may leave at a moment, as a new repository that has it as its opening files and of which no call fails.
    /// Of the names that were published by then since the last settle before the moment's publish, ascending, the i-th
    /// has its newest value where item i of `newest` is true, and else its settled value, which may be that no file is
    /// there. A missing item counts as false. Costs a copy of the files, and the publishes times the chosen names.
    /// Project rule.
    #[tactic(auto, using(crate::proofs::Moments::made_image, crate::proofs::Moments::image_stands))]
    pub fn image(&self, moment: u64, newest: &[bool]) -> Mem<MemShelf<NoFailures>>
        requires { moment ≤ length (shelf_told self.now).publishes }
        ensures image { IfOk result (λ image. IsImage (shelf_told self.now)
            (settled_before self.now moment) moment newest.now (shelf_told image).opening) }
        ensures left { IfOk result (λ image. Standing (shelf_told self.now)
            (settled_before self.now moment) moment (shelf_told image).opening) }
        ensures fresh { IfOk result (λ image.
            ((shelf_told image).publishes ≡ []) × ((shelf_told image).settled ≡ 0)) }
        ensures never { IfOk result (λ image.
            ⟦<MemShelf<NoFailures> as Shelf>⟧.never_fails image ≡ true) }
    {
        let files = self.image_files(moment as usize, newest)?;
        MemShelf::without_failures(self.alloc, files)
    }

    // The files of an image: the opening ones, the settled publishes, and those of the chosen names.
    #[tactic(auto, using(crate::proofs::Moments::settled_part))]
    fn image_files(&self, moment: usize, newest: &[bool]) -> Mem<List<MemFile>>
        requires { moment ≤ length (shelf_told self.now).publishes }
        ensures { IfOk result (λ files. files_named files ≡ image_of (shelf_told self.now)
            (settled_before self.now moment) moment newest.now) }
    {
        let (publishes, _) = self.publishes.split_at(moment);
        let (settled, unsettled) = publishes.split_at(self.settled_before(moment));
        image_files(self.alloc, &self.given, settled, unsettled, newest)
    }

    // Puts the bytes under the name, and notes the publish; where memory is short nothing has changed.
    #[tactic(auto, using(crate::proofs::Moments::one_date))]
    fn note(&mut self, name: &FileName, bytes: Bytes) -> Mem<()>
        ensures ok { OnOk result
            (shelf_told self.new ≡ published (shelf_told self.old) name.now bytes) }
        ensures dates { OnOk result
            (shelf_dates self.new ≡ shelf_dates self.old ++ (shelf_told self.old).settled ∷ []) }
        ensures err { OnErr result (shelf_told self.new ≡ shelf_told self.old) }
        ensures calls { shelf_calls self.new ≡ shelf_calls self.old }
    {
        let published = published_as(name, &bytes)?;
        let path = name.as_text().clone()?;
        self.dates.push(self.settled)?;
        match put(&mut self.publishes, &mut self.files, published, path, bytes) {
            Ok(()) => Ok(()),
            Err(error) => {
                self.dates.pop();
                Err(error)
            }
        }
    }
}

impl<F: Failures> Shelf for MemShelf<F> {
    ghost use Rattle.std.specs.Prelude.{Some};
    ghost use Rattle.outside_mem.specs.Shelf.{shelf_told};

    type Area = MemArea<F>;

    ghost told = { λ shelf. Some (shelf_told shelf) };

    ghost faults = { λ shelf. F.count shelf.calls };

    ghost never_fails = { λ shelf. F.never_fails shelf.calls };

    ghost no_faults = { λ shelf. F.no_faults shelf.calls };

    ghost settled_within = { λ shelf. shelf.within };

    fn has(&mut self, name: &FileName) -> Result<bool, DeviceFault> {
        if self.calls.next_fails() {
            return Err(DeviceFault::Failed);
        }
        Ok(self.files.get(name.as_text()).is_some())
    }

    fn read(&mut self, name: &FileName, limit: u64) -> Result<Option<Bytes>, ReadFault> {
        if self.calls.next_fails() {
            return Err(ReadFault::Failed);
        }
        read_within(&self.files, name.as_text(), limit)
    }

    fn versions(&mut self, group: &Text, artifact: &Text) -> Result<List<Text>, ListFault> {
        if self.calls.next_fails() {
            return Err(ListFault::Failed);
        }
        versions_in(self.alloc, &self.files, group, artifact)
    }

    fn publish(
        &mut self,
        area: &mut MemArea<F>,
        piece: u64,
        name: &FileName,
    ) -> Result<(), DeviceFault> {
        if self.calls.next_fails() {
            return Err(DeviceFault::Failed);
        }
        let bytes = area.copy_of(piece)?;
        self.note(name, bytes)?;
        area.take(piece);
        Ok(())
    }

    fn settle(&mut self) -> Result<(), DeviceFault> {
        if self.calls.next_fails() {
            return Err(DeviceFault::Failed);
        }
        self.settled = self.publishes.len();
        Ok(())
    }
}
