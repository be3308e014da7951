// The POMs of a project.
use crate::MemPoms;
use crate::reading::{all_files, pom_bytes};
use lineage::{raw_gav, read};
use model_types::RawModel;
use mvn_base::{Gav, PomId};
use mvn_outside::{ReadFault, Tree};
use mvn_shared::{Bytes, Mem, OutOfMemory, Shared, Text};
use outside_mem::NoFailures;
use pom_source::{BuildFault, Found};
use std::alloc::Global;

/// The POMs of a project, in memory: the source has those of a repository too, and the paths are those of the project's POMs.
#[derive(Drop)]
pub struct Project {
    pub source: MemPoms<NoFailures>,
    pub paths: Vec<Text>,
}

// Whether a file is the POM of its folder.
fn is_pom(path: &str) -> bool {
    path == "pom.xml" || path.ends_with("/pom.xml")
}

// The coordinates of a raw model; none of a POM that is refused.
fn gav_of(alloc: Global, raw: &Result<Shared<RawModel>, BuildFault>) -> Mem<Option<Gav>> {
    match raw {
        Ok(raw) => Ok(Some(raw_gav(alloc, raw)?)),
        Err(BuildFault::Memory) => Err(OutOfMemory),
        Err(_) => Ok(None),
    }
}

// The coordinates of the POM with these bytes; none where it is refused.
fn gav_in(alloc: Global, pom: &PomId, bytes: &Bytes) -> Mem<Option<Gav>> {
    gav_of(alloc, &read(alloc, pom, bytes))
}

// The coordinates of the POM at a path.
fn gav_at(alloc: Global, path: &Text, bytes: &Bytes) -> Mem<Option<Gav>> {
    let pom = PomId::Path(path.clone()?);
    gav_in(alloc, &pom, bytes)
}

impl Project {
    /// No POMs.
    pub fn new(alloc: Global) -> Project {
        Project {
            source: MemPoms::new(alloc, NoFailures),
            paths: Vec::new(alloc),
        }
    }

    // A POM under coordinates.
    fn put_under(&mut self, gav: Gav, path: &Text, bytes: &Bytes) -> Mem<()> {
        let bytes = bytes.clone()?;
        let pom = PomId::Path(path.clone()?);
        self.source.put_found(gav, Found { pom, bytes })
    }

    // A POM of the project under its coordinates. One that is refused has none.
    fn put_found(&mut self, alloc: Global, path: &Text, bytes: &Bytes) -> Mem<()> {
        match gav_at(alloc, path, bytes)? {
            Some(gav) => self.put_under(gav, path, bytes),
            None => Ok(()),
        }
    }

    // A POM of the project.
    fn put_pom(&mut self, alloc: Global, path: &Text, bytes: &Bytes) -> Mem<()> {
        self.put_found(alloc, path, bytes)?;
        self.paths.push(path.clone()?)?;
        Ok(())
    }

    // A file of the project.
    fn put_file(&mut self, alloc: Global, path: &Text, bytes: Bytes) -> Mem<()> {
        if is_pom(path.as_str()) {
            self.put_pom(alloc, path, &bytes)?;
        }
        self.source.put_file(path.clone()?, bytes)
    }

    // What stands at a path.
    fn put_path<T: Tree>(
        &mut self,
        tree: &mut T,
        alloc: Global,
        path: &Text,
    ) -> Result<(), ReadFault> {
        if let Some(bytes) = pom_bytes(tree, alloc, path)? {
            self.put_file(alloc, path, bytes)?;
        }
        Ok(())
    }

    /// Puts the files of the project, the last by path first, so that of equal coordinates the first counts.
    pub fn put_tree<T: Tree>(&mut self, tree: &mut T, alloc: Global) -> anyhow::Result<()> {
        let paths = all_files(tree, alloc)?;
        for path in paths.as_slice().iter().rev() {
            self.put_path(tree, alloc, path)?;
        }
        self.paths.reverse();
        Ok(())
    }
}
