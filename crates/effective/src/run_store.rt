//! `RunStore`: what was read and built in a run, so that no import is built twice.

ghost use Rattle.std.specs.Prelude.{◌≡◌, false, true, Some, IfOk, IfSome, OnErr, OnOk, if◌then◌else◌};
ghost use Rattle.std.specs.HashMap.{get};
ghost use Rattle.mvn_base.specs.declared.gav.Gav as gavs;
ghost use Rattle.model_steps.specs.Building.{built};
ghost use Rattle.pom_source.specs.Answers.{Says, build_failed};
ghost use Rattle.pom_source.specs.Worlds.{World};
ghost use Rattle.pom_source.specs.declared.found.Given as givens;
ghost use Rattle.mvn_base.specs.Gav.{gav_eq};
ghost use Rattle.lineage.specs.Stores.{Holds};
ghost use Rattle.effective.specs.Kept.{HoldsAll, IsImport, import_in};
ghost use Rattle.effective.specs.Serving.{serves};

use crate::kept::Import;
use lineage::{Store, meets};
use model_steps::{Bound, built};
use model_types::{BuildBase, RawModel};
use mvn_base::{Gav, PomId};
use mvn_shared::{List, Mem, Shared};
use pom_source::BuildFault;
use std::alloc::Global;
use std::collections::HashMap;

/// What was read and built in a run: the POMs that were read and what parents build on, and what imports stand for, by
/// their coordinates. So a POM that many import is read and built once. The plugins of the last module are kept too. A
/// store serves one `Given` and one project. Refusals aren't kept. Project rule.
#[derive(Drop)]
pub struct RunStore {
    pub lineages: Store,
    imports: HashMap<Gav, Shared<Import>>,
    bound: Option<Shared<Bound>>,
}

// Whether an import serves one who may build so many POMs, and is building these.
fn serves(import: &Import, left: u32, building: &List<PomId>) -> bool
    ensures { result ≡ serves left building.now import.now.below }
{
    import.below.depth <= u64::from(left) && !meets(&import.below.poms, building)
}

// Puts an import under coordinates.
fn set_import(map: &mut HashMap<Gav, Shared<Import>>, gav: &Gav, import: &Shared<Import>) -> Mem<()>
    ensures ok { OnOk result ((other : gavs.Gav) → get gav_eq map.new other
        ≡ (if gav_eq gav.now other then Some import.now else get gav_eq map.old other)) }
    ensures err { OnErr result ((other : gavs.Gav) → get gav_eq map.new other
        ≡ get gav_eq map.old other) }
{
    map.insert(gav.clone()?, import.share()?)?;
    Ok(())
}

impl RunStore {
    /// What was read before, and no imports. Takes no memory.
    pub fn over(alloc: Global, lineages: Store) -> RunStore
        ensures { (world : World) (given : givens.Given) → Holds world given lineages
            → HoldsAll world given result }
    {
        RunStore {
            lineages,
            imports: HashMap::new(alloc),
            bound: None,
        }
    }

    /// An empty store. Takes no memory.
    pub fn new(alloc: Global) -> RunStore
        ensures { (world : World) (given : givens.Given) → HoldsAll world given result }
    {
        RunStore::over(alloc, Store::new(alloc))
    }

    /// The plugins of a filled model. Costs what `model_steps::built` costs.
    pub fn built(&mut self, alloc: Global, full: &RawModel) -> Result<Shared<BuildBase>, BuildFault>
        ensures says { Says (built full.now) result }
        ensures holds { (world : World) (given : givens.Given) → HoldsAll world given self.old
            → HoldsAll world given self.new }
        ensures cause { build_failed result ≡ false }
    {
        match built(alloc, &mut self.bound, full) {
            Ok(base) => Ok(base),
            Err(fault) => Err(fault),
        }
    }

    // The import that is kept under coordinates.
    fn import_there(&self, gav: &Gav) -> Mem<Option<Shared<Import>>>
        ensures { IfOk result (λ found. found ≡ import_in self.now gav.now) }
    {
        match self.imports.get(gav) {
            Some(import) => Ok(Some(import.share()?)),
            None => Ok(None),
        }
    }

    /// What an import stands for, if it is kept and serves one who may build so many POMs and is building these. Costs
    /// a comparison of these with the POMs below the import.
    #[tactic(auto, using(crate::proofs::Storing::import_serves))]
    pub fn find_import(
        &self,
        left: u32,
        building: &List<PomId>,
        gav: &Gav,
    ) -> Mem<Option<Shared<Import>>>
        ensures serves { IfOk result (λ found. IfSome found (λ import.
            serves left building.now import.below ≡ true)) }
        ensures told { (world : World) (given : givens.Given) → HoldsAll world given self.now
            → IfOk result (λ found. IfSome found (IsImport world given gav.now)) }
    {
        let Some(import) = self.import_there(gav)? else {
            return Ok(None);
        };
        if serves(import.value(), left, building) {
            Ok(Some(import))
        } else {
            Ok(None)
        }
    }

    /// Keeps what an import stands for. Costs the coordinates.
    #[tactic(auto, using(crate::proofs::Storing::import_put))]
    pub fn keep_import(&mut self, gav: &Gav, import: &Shared<Import>) -> Mem<()>
        ensures { (world : World) (given : givens.Given) → HoldsAll world given self.old
            → IsImport world given gav.now import.now → HoldsAll world given self.new }
    {
        set_import(&mut self.imports, gav, import)
    }
}
