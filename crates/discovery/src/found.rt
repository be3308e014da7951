//! `FoundPoms`: the POMs that were found, in order, with their paths as a set.

ghost use Rattle.std.specs.Prelude.{◌≡◌, ◌||◌, ◌∷◌, ◌++◌, [], ℕ, List as Items, IfOk, OnOk};
ghost use Rattle.std.specs.HashSet.{contains};
ghost use Rattle.std.specs.Str.{bytes_eq};
ghost use Rattle.discovery.specs.Met.{is_met};

use crate::pom::ModulePom;
use mvn_shared::{List, Mem, Text};
use std::alloc::Global;
use std::collections::HashSet;
use std::marker::Model;

/// The POMs that were found, in order, with their paths as a set. Contracts see it as the list.
#[derive(Drop)]
pub struct FoundPoms {
    poms: Vec<ModulePom>,
    met: HashSet<Text>,
}

impl Model for FoundPoms {
    ghost use Rattle.std.specs.Prelude as logic;
    ghost use Rattle.std.specs.Prelude.{◌≡◌, ℕ};
    ghost use Rattle.std.specs.Coded.{codes};
    ghost use Rattle.mvn_base.specs.contracts.setting.Setting as settings;
    ghost use Rattle.std.specs.HashSet.{contains};
    ghost use Rattle.std.specs.Str.{bytes_eq};
    ghost use Rattle.discovery.specs.Met.{is_met};
    ghost use Rattle.discovery.specs.declared.pom.ModulePom as entries;

    ghost Value = { logic.List entries.ModulePom };

    ghost coded = { Prim.hlevel (codes, settings.the_row.coded) };

    ghost view = { λ found. found.poms.items };

    ghost invariant = { λ found. (path : logic.List ℕ) → contains bytes_eq found.met path ≡ is_met found.poms.items path };
}

// One path more.
fn add_path(met: &mut HashSet<Text>, path: &Text) -> Mem<()>
    ensures { OnOk result ((q : Items ℕ) → contains bytes_eq met.new q
        ≡ (bytes_eq path.now q || contains bytes_eq met.old q)) }
{
    met.insert(path.clone()?)?;
    Ok(())
}

impl FoundPoms {
    /// An empty list. Takes no memory.
    pub fn new(alloc: Global) -> FoundPoms
        ensures { result ≡ [] }
    {
        FoundPoms {
            poms: Vec::new(alloc),
            met: HashSet::new(alloc),
        }
    }

    /// Whether the POM at a path was found. Costs the path.
    pub fn has(&self, path: &Text) -> bool
        ensures { result ≡ is_met self.now path.now }
    {
        self.met.contains(path)
    }

    /// One POM more. Costs its path.
    pub fn with(self, pom: ModulePom) -> Mem<FoundPoms>
        ensures { IfOk result (λ found. found ≡ self ++ pom ∷ []) }
    {
        let FoundPoms { mut poms, mut met } = self;
        add_path(&mut met, &pom.path)?;
        poms.push(pom)?;
        Ok(FoundPoms { poms, met })
    }

    /// The POMs as a list. Takes no memory.
    pub fn into_list(self) -> List<ModulePom>
        ensures { result ≡ self }
    {
        List::of(self.poms)
    }
}
