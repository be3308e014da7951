//! What an import stands for as a run keeps it, and a model with the POMs built for its imports.

ghost use Rattle.std.specs.Prelude.{◌≡◌, ◌≤◌, ◌+◌, ℕ, List as Items, true, [], ◌∷◌, ◌++◌, ◌||◌, ◌&&◌, IfOk};
ghost use Rattle.std.specs.List.{list_all};
ghost use Rattle.mvn_base.specs.declared.refusal.PomId as ids;
ghost use Rattle.model_steps.specs.Valid.{has_no_import};
ghost use Rattle.lineage.specs.Lineage.{is_in};
ghost use Rattle.lineage.specs.Stores.{meets};
ghost use Rattle.effective.specs.Serving.{serves};
ghost use Rattle.effective.specs.Lawful.{IsLawful};

use crate::below::Below;
use model_types::{Dependency, Model};
use mvn_base::PomId;
use mvn_shared::{List, Mem, Shared};
use std::alloc::Global;

/// The entries that one POM manages.
pub type Entries = List<Shared<Dependency>>;

/// What an import stands for: the entries that its POM manages, no import among them; and the POMs that are built for
/// it.
#[derive(Drop)]
pub struct Import {
    pub below: Below,
    pub managed: Entries,
    ghost replaced: { has_no_import managed ≡ true },
}

/// What some imports stand for, a list for each; and the POMs that are built for them.
#[derive(Drop)]
pub struct ImportLists {
    pub below: Below,
    pub lists: List<Entries>,
    ghost replaced: { list_all has_no_import lists ≡ true },
}

/// A model, and the POMs that are built for its imports.
#[derive(Drop)]
pub struct BuiltModel {
    pub below: Below,
    pub model: Model,
}

// What a model manages.
fn managed_in(model: &Model) -> Mem<Entries>
    ensures { IfOk result (λ managed. managed ≡ model.now.base.managed) }
{
    let managed = model.base.managed.clone()?;
    Ok(managed)
}

// What a model manages that isn't needed besides.
fn managed_of(model: Model) -> Mem<Entries>
    ensures { IfOk result (λ managed. managed ≡ model.base.managed) }
{
    managed_in(&model)
}

// Lists after others.
fn behind(done: List<Entries>, lists: List<Entries>) -> Mem<List<Entries>>
    ensures { IfOk result (λ all. all ≡ done ++ lists) }
{
    let mut all = done.into_vec();
    let mut lists = lists.into_vec();
    all.append(&mut lists)?;
    Ok(List::of(all))
}

// A list of one.
fn alone(alloc: Global, entries: Entries) -> Mem<List<Entries>>
    ensures { IfOk result (λ list. list ≡ entries ∷ []) }
{
    let mut list = List::new(alloc);
    list.push(entries)?;
    Ok(list)
}

impl Import {
    /// What a built model manages: an import of its POM.
    #[tactic(auto, using(crate::proofs::Replacing::replaced_in))]
    pub fn of_model(pom: &PomId, built: BuiltModel) -> Mem<Import>
        requires { IsLawful built.model }
        ensures managed { IfOk result (λ import. import.managed ≡ built.model.base.managed) }
        ensures depth { IfOk result (λ import. import.below.depth ≡ built.below.depth) }
        ensures poms { IfOk result (λ import. (seen : Items ids.PomId)
            → meets import.below.poms seen ≡ (meets built.below.poms seen || is_in pom.now seen)) }
    {
        let BuiltModel { below, model } = built;
        let managed = managed_of(model)?;
        let below = below.with_own(pom)?;
        Ok(Import { below, managed })
    }

    /// The same import, one level deeper. It was at most so deep.
    pub fn deeper(self, most: u32) -> Import
        requires { self.below.depth ≤ most }
        ensures managed { result.managed ≡ self.managed }
        ensures depth { result.below.depth ≡ self.below.depth + 1 }
        ensures poms { result.below.poms ≡ self.below.poms }
    {
        Import {
            below: self.below.deeper(most),
            managed: self.managed,
        }
    }
}

impl ImportLists {
    /// No import.
    pub fn none(alloc: Global) -> ImportLists
        ensures lists { result.lists ≡ [] }
        ensures serves { (left : ℕ) (building : Items ids.PomId)
            → serves left building result.below ≡ true }
    {
        let lists = List::new(alloc);
        ImportLists {
            below: Below::none(alloc),
            lists,
        }
    }

    /// One import.
    #[tactic(auto, using(crate::proofs::Replacing::replaced_alone))]
    pub fn of_import(alloc: Global, import: &Import) -> Mem<ImportLists>
        ensures lists { IfOk result (λ imports. imports.lists ≡ import.now.managed ∷ []) }
        ensures below { IfOk result (λ imports. imports.below ≡ import.now.below) }
    {
        let below = import.below.copy()?;
        let managed = import.managed.clone()?;
        let lists = alone(alloc, managed)?;
        Ok(ImportLists { below, lists })
    }

    /// These lists, and others after them.
    #[tactic(auto, using(crate::proofs::Replacing::replaced_behind))]
    pub fn and(self, others: ImportLists) -> Mem<ImportLists>
        ensures lists { IfOk result (λ all. all.lists ≡ self.lists ++ others.lists) }
        ensures serves { IfOk result (λ all. (left : ℕ) (building : Items ids.PomId)
            → serves left building all.below
            ≡ (serves left building self.below && serves left building others.below)) }
    {
        let below = self.below.and(&others.below)?;
        let lists = behind(self.lists, others.lists)?;
        Ok(ImportLists { below, lists })
    }
}
