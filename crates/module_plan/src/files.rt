// The files of a plan, by number.
ghost use Rattle.std.specs.Prelude.{◌≡◌, ◌<◌, [], length, unwrap_or, IfOk, OnOk};
ghost use Rattle.classpaths.specs.Classpaths.{with_name};
ghost use Rattle.module_plan.specs.Numbers.{number_of};

use crate::places::small;
use indexmap::IndexMap;
use mvn_base::FileName;
use mvn_shared::{List, Mem, Text};
use std::alloc::Global;
use std::marker::Model;

/// Names of files, each once, in the order of their first mention. Contracts see them as the list.
#[derive(Drop)]
pub struct FileList {
    names: IndexMap<Text, FileName>,
}

impl Model for FileList {
    ghost use Rattle.std.specs.Prelude.{List, ℕ, ◌≡◌, map};
    ghost use Rattle.classpaths.specs.Classpaths.{twice};

    ghost Value = { List (List ℕ) };

    ghost view = { λ files. map (λ e. e.1) files.names.entries };

    ghost invariant = { λ files. files.names.entries ≡ twice (map (λ e. e.1) files.names.entries) };
}

// A place, or else the end.
fn place_or(found: Option<usize>, end: usize) -> usize
    ensures { result ≡ unwrap_or found end }
{
    match found {
        Some(at) => at,
        None => end,
    }
}

impl FileList {
    pub fn new(alloc: Global) -> FileList
        ensures { result ≡ [] }
    {
        FileList {
            names: IndexMap::new(alloc),
        }
    }

    /// One name more, unless it is there. Costs its length, on the average.
    pub fn add(&mut self, name: FileName) -> Mem<()>
        ensures { OnOk result (self.new ≡ with_name self.old name) }
    {
        let text = name.as_text().clone()?;
        self.names.insert(text, name)?;
        Ok(())
    }

    // The place of a name; the length of the list if it isn't there.
    fn place(&self, name: &Text) -> usize
        ensures { result ≡ number_of self.now name.now }
    {
        place_or(self.names.get_index_of(name), self.names.len())
    }

    /// The number of a name; the length of the list if it isn't there. Costs its length, on the average.
    #[tactic(auto, using(crate::proofs::Filed::small_place))]
    pub fn number(&self, name: &Text) -> u32
        requires few { length self.now < 4294967296 }
        ensures { result ≡ number_of self.now name.now }
    {
        small(self.place(name))
    }

    pub fn into_list(self, alloc: Global) -> Mem<List<FileName>>
        ensures { IfOk result (λ list. list ≡ self) }
    {
        Ok(List::of(self.names.into_values().collect(alloc)?))
    }
}
