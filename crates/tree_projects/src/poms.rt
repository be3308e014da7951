//! POMs in memory, as a source that effective models are built from.

ghost use Rattle.std.specs.Prelude.{◌≡◌, None, IfOk, OnErr, OnOk};
ghost use Rattle.std.specs.FinMap as map;
ghost use Rattle.std.specs.Option.{option_copied};
ghost use Rattle.mvn_base.specs.declared.gav.Gav as gavs;
ghost use Rattle.pom_source.specs.Worlds.{World};
ghost use Rattle.tree_projects.specs.Poms.{Fits, calls_in, files_in, found_in, with_found};

use mvn_base::Gav;
use mvn_outside::{DeviceFault, Files};
use mvn_shared::{Bytes, FileMap, Mem, Text};
use outside_mem::Failures;
use pom_source::{Found, PomSource};
use std::alloc::Global;
use std::collections::HashMap;

/// POMs in memory, by path and by coordinates. Calls fail as `calls` says.
#[derive(Drop)]
pub struct MemPoms<F> {
    files: FileMap,
    found: HashMap<Gav, Found>,
    calls: F,
}

// A copy of what was found.
fn copy_of(found: &Found) -> Mem<Found>
    ensures { IfOk result (λ copy. copy ≡ found.now) }
{
    let pom = found.pom.clone()?;
    let bytes = found.bytes.clone()?;
    Ok(Found { pom, bytes })
}

fn copy_at(found: Option<&Found>) -> Mem<Option<Found>>
    ensures { IfOk result (λ copy. copy ≡ option_copied found.entry) }
{
    match found {
        Some(found) => Ok(Some(copy_of(found)?)),
        None => Ok(None),
    }
}

fn bytes_at(found: Option<&Bytes>) -> Mem<Option<Bytes>>
    ensures { IfOk result (λ copy. copy ≡ option_copied found.entry) }
{
    match found {
        Some(bytes) => Ok(Some(bytes.clone()?)),
        None => Ok(None),
    }
}

impl<F: Drop> MemPoms<F> {
    /// No POMs yet. Takes no memory.
    pub fn new(alloc: Global, calls: F) -> MemPoms<F>
        ensures files { files_in result ≡ map.empty }
        ensures found { (gav : gavs.Gav) → found_in result gav ≡ None }
        ensures calls { calls_in result ≡ calls }
    {
        MemPoms {
            files: FileMap::new(alloc),
            found: HashMap::new(alloc),
            calls,
        }
    }

    /// Puts a file at a path of the project, in place of another. In logarithmic time.
    pub fn put_file(&mut self, path: Text, bytes: Bytes) -> Mem<()>
        ensures ok { OnOk result (files_in self.new ≡ map.insert (files_in self.old) path bytes) }
        ensures err { OnErr result (files_in self.new ≡ files_in self.old) }
        ensures found { (gav : gavs.Gav) → found_in self.new gav ≡ found_in self.old gav }
        ensures calls { calls_in self.new ≡ calls_in self.old }
    {
        self.files.insert(path, bytes)
    }

    /// Puts a POM under coordinates, in place of another. Costs the coordinates, on the average.
    pub fn put_found(&mut self, gav: Gav, found: Found) -> Mem<()>
        ensures ok { OnOk result ((other : gavs.Gav) → found_in self.new other
            ≡ with_found (found_in self.old) gav found other) }
        ensures err { OnErr result ((other : gavs.Gav) → found_in self.new other
            ≡ found_in self.old other) }
        ensures files { files_in self.new ≡ files_in self.old }
        ensures calls { calls_in self.new ≡ calls_in self.old }
    {
        self.found.insert(gav, found)?;
        Ok(())
    }

    /// A law of POMs in memory: there is a world that they fit. So a clause for each world that fits says something of them. It does
    /// nothing when it runs. Project rule.
    pub fn fits_a_world(&self)
        ensures { (world : World) × Fits (files_in self.now)
            (λ (gav : gavs.Gav). found_in self.now gav) world }
    {}
}

impl<F: Failures> Files for MemPoms<F> {
    ghost use Rattle.std.specs.Prelude.{◌≡◌, ℕ, List};
    ghost use Rattle.mvn_shared.specs.Files.{is_there};

    ghost fits = { λ source world. (path : List ℕ) → world path ≡ is_there source.files path };

    ghost faults = { λ source. F.count source.calls };

    ghost never_fails = { λ source. F.never_fails source.calls };

    ghost no_faults = { λ source. F.no_faults source.calls };

    ghost tells_same = { λ before now. (now.files ≡ before.files) × (now.found ≡ before.found) };

    fn has(&mut self, path: &Text) -> Result<bool, DeviceFault> {
        if self.calls.next_fails() {
            return Err(DeviceFault::Failed);
        }
        Ok(self.files.is_there(path))
    }
}

impl<F: Failures> PomSource for MemPoms<F> {
    ghost use Rattle.std.specs.Prelude.{◌≡◌};
    ghost use Rattle.std.specs.HashMap.{get};
    ghost use Rattle.std.proofs.Common.{sym, subst};
    ghost use Rattle.mvn_base.specs.declared.gav.Gav as gavs;
    ghost use Rattle.mvn_base.specs.Gav.{gav_eq};
    ghost use Rattle.tree_projects.specs.Poms.{Fits};

    ghost fits_poms = { λ source world. Fits source.files (λ (gav : gavs.Gav). get gav_eq source.found gav) world };

    ghost files_fit = { λ source world fits. fits.there };

    ghost fits_on = { λ before now world same fits.
        subst (λ files. Fits files (λ (gav : gavs.Gav). get gav_eq now.found gav) world) (sym same.0)
        (subst (λ found. Fits before.files (λ (gav : gavs.Gav). get gav_eq found gav) world) (sym same.1) fits) };

    fn by_path(&mut self, path: &Text) -> Result<Option<Bytes>, DeviceFault> {
        if self.calls.next_fails() {
            return Err(DeviceFault::Failed);
        }
        Ok(bytes_at(self.files.get(path))?)
    }

    fn by_gav(&mut self, gav: &Gav) -> Result<Option<Found>, DeviceFault> {
        if self.calls.next_fails() {
            return Err(DeviceFault::Failed);
        }
        Ok(copy_at(self.found.get(gav))?)
    }
}
