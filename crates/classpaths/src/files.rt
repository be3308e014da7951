//! The files that are fetched for a project, each one once.

ghost use Rattle.std.specs.Prelude.{◌≡◌, [], All, fold, IfOk, OnOk};
ghost use Rattle.std.specs.HashSet.{contains};
ghost use Rattle.mvn_base.specs.Gav.{gav_eq};
ghost use Rattle.classpaths.specs.Classpaths.{HasNames, fetch_list, files_of, with_name};

use crate::names::{artifact_file, pom_file};
use crate::resolution::{Resolution, Resolved};
use indexmap::IndexMap;
use mvn_base::{FileName, Gav};
use mvn_shared::{List, Mem, Text};
use std::alloc::Global;
use std::collections::HashSet;
use std::marker::Model;

// Names of files, each once, in order. Contracts see them as the list.
#[derive(Drop)]
struct Files {
    names: IndexMap<Text, FileName>,
}

impl Model for Files {
    ghost use Rattle.std.specs.Prelude.{List, ℕ, ◌≡◌, map};
    ghost use Rattle.classpaths.specs.Classpaths.{twice};

    ghost Value = { List (List ℕ) };

    ghost view = { λ files. map (λ e. e.1) files.names.entries };

    ghost invariant = { λ files. files.names.entries ≡ twice (map (λ e. e.1) files.names.entries) };
}

impl Files {
    fn new(alloc: Global) -> Files
        ensures { result ≡ [] }
    {
        Files {
            names: IndexMap::new(alloc),
        }
    }

    // One name more, unless it is there.
    fn add(&mut self, name: FileName) -> Mem<()>
        ensures { OnOk result (self.new ≡ with_name self.old name) }
    {
        let text = name.as_text().clone()?;
        self.names.insert(text, name)?;
        Ok(())
    }

    fn into_list(self, alloc: Global) -> Mem<List<FileName>>
        ensures { IfOk result (λ list. list ≡ self) }
    {
        Ok(List::of(self.names.into_values().collect(alloc)?))
    }
}

// The files of a dependency, unless it is left out.
fn add_files(
    alloc: Global,
    files: &mut Files,
    selected: &HashSet<Gav>,
    winner: &Resolved,
) -> Mem<()>
    requires { HasNames winner.now }
    ensures { OnOk result (files.new
        ≡ fold with_name files.old (files_of (contains gav_eq selected.now) winner.now)) }
{
    if selected.contains(&winner.gav) {
        return Ok(());
    }
    if winner.pom_found {
        files.add(pom_file(alloc, &winner.gav)?)?;
    }
    files.add(artifact_file(alloc, winner)?)
}

impl Resolution {
    /// The files that are fetched for it: for each winner whose coordinates aren't among `selected`, the modules that
    /// are built in the same run, its POM where it has one, and its artifact; each file once, in the order of the
    /// winners. Costs their names. Maven's repository layout.
    pub fn files(&self, alloc: Global, selected: &HashSet<Gav>) -> Mem<List<FileName>>
        requires { All HasNames self.now.winners }
        ensures { IfOk result (λ list. list
            ≡ fetch_list (contains gav_eq selected.now) self.now.winners) }
    {
        let mut files = Files::new(alloc);
        let winners = self.winners.as_slice();
        for at in 0..winners.len() {
            add_files(alloc, &mut files, selected, &winners[at])?;
        }
        files.into_list(alloc)
    }
}
