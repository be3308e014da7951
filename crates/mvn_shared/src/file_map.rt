//! `FileMap`: files by name, in the order of their names, as an object in memory holds them.

ghost use Rattle.std.specs.Prelude.{◌≡◌, length, IfOk, OnOk, OnErr};
ghost use Rattle.std.specs.FinMap as map;
ghost use Rattle.std.specs.Option.{option_copied};
ghost use Rattle.mvn_shared.specs.Files.{is_below, names_below, is_there};

use crate::bytes::Bytes;
use crate::memory::Mem;
use crate::text::Text;
use std::alloc::Global;
use std::collections::BTreeMap;
use std::marker::Model;

/// Files by name, as an object in memory holds them. Contracts see a finite map.
#[derive(Drop)]
pub struct FileMap {
    files: BTreeMap<Text, Bytes>,
}

impl Model for FileMap {
    ghost use Rattle.std.specs.FinMap as map;
    ghost use Rattle.mvn_shared.specs.Files.{Files, files_code};

    ghost Value = { Files };

    ghost coded = { files_code };

    ghost view = { λ a. map.from_entries a.files.entries };
}

impl FileMap {
    /// No files. Takes no memory.
    pub fn new(alloc: Global) -> FileMap
        ensures { result ≡ map.empty }
    {
        FileMap {
            files: BTreeMap::new(alloc),
        }
    }

    /// The bytes under a name, in logarithmic time.
    pub fn get(&self, name: &Text) -> Option<&Bytes>
        ensures { option_copied result ≡ map.get self.now name.now }
    {
        self.files.get(name)
    }

    /// Puts bytes under a name, in place of any that stand there, in logarithmic time.
    pub fn insert(&mut self, name: Text, bytes: Bytes) -> Mem<()>
        ensures ok { OnOk result (self.new ≡ map.insert self.old name bytes) }
        ensures err { OnErr result (self.new ≡ self.old) }
    {
        self.files.insert(name, bytes)?;
        Ok(())
    }

    /// The number of names. Takes no memory, and constant time.
    pub fn len(&self) -> usize
        ensures { result ≡ length (map.keys self.now) }
    {
        self.files.len()
    }

    /// Every name, ascending by bytes. Costs one pass.
    pub fn names(&self, alloc: Global) -> Mem<Vec<Text>>
        ensures { IfOk result (λ names. names.items ≡ map.keys self.now) }
    {
        let mut names = Vec::new(alloc);
        for name in self.files.keys() {
            names.push(name.clone()?)?;
        }
        Ok(names)
    }

    /// The names below a folder, ascending by bytes; the empty text is the root. Costs one pass.
    #[tactic(auto, unfolding(crate::specs::Files::names_below))]
    pub fn names_below(&self, alloc: Global, folder: &Text) -> Mem<Vec<Text>>
        ensures { IfOk result (λ names. names.items ≡ names_below self.now folder.now) }
    {
        let mut names = Vec::new(alloc);
        for name in self.files.keys() {
            if is_below(folder.as_bytes(), name.as_bytes()) {
                names.push(name.clone()?)?;
            }
        }
        Ok(names)
    }

    /// Whether a file stands at a path or below it. Costs one pass at most.
    #[tactic(auto, unfolding(crate::specs::Files::is_there))]
    pub fn is_there(&self, path: &Text) -> bool
        ensures { result ≡ is_there self.now path.now }
    {
        if self.files.contains_key(path) {
            return true;
        }
        for name in self.files.keys() {
            if is_below(path.as_bytes(), name.as_bytes()) {
                return true;
            }
        }
        false
    }
}

// Whether a path lies below a folder.
#[tactic(auto, unfolding(crate::specs::Files::is_below))]
fn is_below(folder: &[u8], path: &[u8]) -> bool
    ensures { result ≡ is_below folder.now path.now }
{
    folder.is_empty() || (path.starts_with(folder) && path[folder.len()..].starts_with(b"/"))
}
