//! The modules of a project, found by their artifacts.

ghost use Rattle.std.specs.Prelude.{◌≡◌, ◌<◌, [], ◌∷◌, ◌++◌, ℕ, List as Items, length, if◌then◌else◌, IfOk, OnOk};
ghost use Rattle.std.specs.Str.{bytes_eq};
ghost use Rattle.model_types.specs.declared.model.Model as models;
ghost use Rattle.reactor.specs.Index.{IsIndex, listed};
ghost use Rattle.reactor.specs.Numbers.{has_artifact, numbers_where};

use model_types::Model;
use mvn_shared::{List, Mem, Shared, Text};
use std::alloc::Global;
use std::collections::HashMap;

/// The modules of a project by their artifacts: their numbers under each, ascending.
#[derive(Drop)]
pub struct ModuleIndex {
    by_artifact: HashMap<Text, Vec<u32>>,
}

// One number more, under an artifact.
fn add(alloc: Global, map: &mut HashMap<Text, Vec<u32>>, artifact: &Text, number: u32) -> Mem<()>
    ensures { OnOk result ((q : Items ℕ) → listed map.new q
        ≡ (if bytes_eq artifact.now q then listed map.old q ++ number ∷ [] else listed map.old q)) }
{
    let mut list = match map.remove(artifact) {
        Some(list) => list,
        None => Vec::new(alloc),
    };
    list.push(number)?;
    map.insert(artifact.clone()?, list)?;
    Ok(())
}

// The numbers under each artifact.
fn numbers_of(alloc: Global, modules: &[Shared<Model>]) -> Mem<HashMap<Text, Vec<u32>>>
    requires { length modules.now < 4294967296 }
    ensures { IfOk result (λ map. (q : Items ℕ) →
        listed map q ≡ numbers_where (has_artifact q) modules.now) }
{
    let mut map = HashMap::new(alloc);
    for number in 0..modules.len() {
        add(
            alloc,
            &mut map,
            &modules[number].gav.artifact,
            number as u32,
        )?;
    }
    Ok(map)
}

impl ModuleIndex {
    /// The index of modules. Costs their artifacts, on the average.
    #[tactic(auto, unfolding(crate::specs::Index::IsIndex))]
    pub fn of(alloc: Global, modules: &[Shared<Model>]) -> Mem<ModuleIndex>
        requires { length modules.now < 4294967296 }
        ensures { IfOk result (IsIndex modules.now) }
    {
        let by_artifact = numbers_of(alloc, modules)?;
        Ok(ModuleIndex { by_artifact })
    }

    // The numbers under an artifact.
    #[tactic(auto, unfolding(crate::specs::Index::IsIndex))]
    pub(crate) fn at(&self, artifact: &Text) -> &[u32]
        ensures { (modules : Items models.Model) → IsIndex modules self.now
            → result.now ≡ numbers_where (has_artifact artifact.now) modules }
    {
        match self.by_artifact.get(artifact) {
            Some(list) => list.as_slice(),
            None => &[],
        }
    }
}
