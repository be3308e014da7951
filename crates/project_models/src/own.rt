//! What is kept of a project's POMs before their effective models are built.

ghost use Rattle.std.specs.Prelude.{◌≡◌, [], Ok, IfOk};
ghost use Rattle.mvn_shared.specs.Files.{Files};
ghost use Rattle.effective.specs.Kept.{HoldsAll};
ghost use Rattle.model_resolver.specs.Finding.{world_of};
ghost use Rattle.lineage.specs.Stores.{Holds};
ghost use Rattle.pom_source.specs.declared.found.Given as givens;
ghost use Rattle.project_models.specs.Found.{project_poms};

use effective::RunStore;
use lineage::Store;
use model_resolver::ProjectPom;
use mvn_shared::{List, Mem};
use std::alloc::Global;

// Keeps each of the project's POMs that were read by path under its coordinates too; of several of the same coordinates
// the first.
fn keep_own(alloc: Global, store: &mut Store, poms: &[ProjectPom]) -> Mem<()>
    ensures { (tree local remote : Files) (given : givens.Given)
        → Holds (world_of poms.now tree local remote) given store.old
        → project_poms (world_of [] tree local remote) given ≡ Ok poms.now
        → Holds (world_of poms.now tree local remote) given store.new }
{
    for pom in poms {
        if !store.keep_as(alloc, &pom.gav, &pom.path)? {
            return Ok(());
        }
    }
    Ok(())
}

/// What the effective models of a project's POMs are built over: what was read by path and which profiles are active
/// there, and each POM under its coordinates too, so that none which another one names is read or parsed again. It is
/// for the world in which coordinates lead to the project's POMs first. Costs the path and the coordinates of each POM.
/// Project rule.
pub fn own_store(alloc: Global, store: Store, poms: &List<ProjectPom>) -> Mem<RunStore>
    ensures { (tree local remote : Files) (given : givens.Given)
        → Holds (world_of [] tree local remote) given store
        → project_poms (world_of [] tree local remote) given ≡ Ok poms.now
        → IfOk result (HoldsAll (world_of poms.now tree local remote) given) }
{
    let list = poms.as_slice();
    let mut read = store.only_by_path(alloc);
    keep_own(alloc, &mut read, list)?;
    let run = RunStore::over(alloc, read);
    Ok(run)
}
