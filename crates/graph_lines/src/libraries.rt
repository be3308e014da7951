//! Libraries in memory, which a project's dependencies are looked up among.

ghost use Rattle.std.specs.Prelude.{◌≡◌, ◌∷◌, ◌++◌, ℕ, None, IfOk, OnErr, OnOk};
ghost use Rattle.std.specs.Prelude.{List as Items};
ghost use Rattle.mediation.specs.Libraries.{Libraries};
ghost use Rattle.mvn_base.specs.declared.gav.Gav as gavs;
ghost use Rattle.mvn_base.specs.Gav.{gav_eq};
ghost use Rattle.graph_lines.specs.Held.{Fits, models_in, versions_in, with_model, with_versions};

use crate::told::{known, name_of, told};
use mediation::{Known, Library, Lookup, LookupFault};
use model_types::Model;
use mvn_base::Gav;
use mvn_shared::{List, Mem, Shared, Text};
use std::alloc::Global;
use std::collections::HashMap;

/// Libraries in memory: POMs by coordinates, and versions by artifact. It never fails but for want of memory.
#[derive(Drop)]
pub struct MemLibraries {
    alloc: Global,
    models: HashMap<Gav, Library>,
    versions: HashMap<Text, List<Text>>,
}

impl MemLibraries {
    /// No libraries yet. Takes no memory.
    pub fn new(alloc: Global) -> MemLibraries
        ensures models { (gav : gavs.Gav) → models_in result gav ≡ None }
        ensures versions { (name : Items ℕ) → versions_in result name ≡ None }
    {
        MemLibraries {
            alloc,
            models: HashMap::new(alloc),
            versions: HashMap::new(alloc),
        }
    }

    /// Puts a POM under coordinates, in place of another. Costs the coordinates, on the average, and the
    /// model's dependencies.
    pub fn put_model(&mut self, gav: Gav, model: Shared<Model>) -> Mem<()>
        ensures ok { OnOk result ((other : gavs.Gav) → models_in self.new other
            ≡ with_model (models_in self.old) gav model other) }
        ensures err { OnErr result ((other : gavs.Gav) → models_in self.new other
            ≡ models_in self.old other) }
        ensures versions { (name : Items ℕ)
            → versions_in self.new name ≡ versions_in self.old name }
    {
        let library = Library::new(self.alloc, model)?;
        self.models.insert(gav, library)?;
        Ok(())
    }

    /// Puts the versions of an artifact, in place of others. They are to stand ascending by bytes, each once. Costs the
    /// artifact's name, on the average.
    pub fn put_versions(&mut self, group: &Text, artifact: &Text, list: List<Text>) -> Mem<()>
        ensures ok { OnOk result ((other : Items ℕ) → versions_in self.new other
            ≡ with_versions (versions_in self.old) (group.now ++ 58 ∷ artifact.now) list other) }
        ensures err { OnErr result ((other : Items ℕ) → versions_in self.new other
            ≡ versions_in self.old other) }
        ensures models { (gav : gavs.Gav) → models_in self.new gav ≡ models_in self.old gav }
    {
        let name = name_of(group, artifact)?;
        self.versions.insert(name, list)?;
        Ok(())
    }

    /// A law of libraries in memory: there are libraries that they fit. So a clause for all libraries that fit says
    /// something of them. It does nothing when it runs. Project rule.
    pub fn fits_libraries(&self)
        ensures { (libraries : Libraries)
            × Fits (models_in self.now) (versions_in self.now) libraries }
    {}
}

impl Lookup for MemLibraries {
    ghost use Rattle.std.specs.Prelude.{List as Items, ℕ};
    ghost use Rattle.std.specs.HashMap.{get};
    ghost use Rattle.std.specs.Str.{bytes_eq};
    ghost use Rattle.mvn_base.specs.declared.gav.Gav as gavs;
    ghost use Rattle.mvn_base.specs.Gav.{gav_eq};
    ghost use Rattle.graph_lines.specs.Held.{Fits};

    ghost fits = { λ held libraries. Fits (λ (gav : gavs.Gav). get gav_eq held.models gav)
        (λ (name : Items ℕ). get bytes_eq held.versions name) libraries };

    ghost faults = { λ _. 0 };

    ghost tells_same = { λ before now. now ≡ before };

    fn model(&mut self, gav: &Gav) -> Result<Known, LookupFault> {
        Ok(known(self.models.get(gav))?)
    }

    fn versions(
        &mut self,
        group: &Text,
        artifact: &Text,
    ) -> Result<Option<List<Text>>, LookupFault> {
        let name = name_of(group, artifact)?;
        Ok(told(self.alloc, self.versions.get(&name))?)
    }
}
