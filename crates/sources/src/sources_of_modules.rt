// Reads the sources of the modules that are built.
ghost use Rattle.std.specs.Prelude.{◌≡◌, ℕ, List as Items, None, false, length, IfOk, IfSome};
ghost use Rattle.mvn_shared.specs.Cause.{HasCause};
ghost use Rattle.mvn_shared.specs.Files.{Files};
ghost use Rattle.model_resolver.specs.Devices.{Counted, IsCounted};
ghost use Rattle.model_resolver.specs.Noting.{first_after};
ghost use Rattle.model_resolver.specs.declared.failures.PomDevice.TheVariants.{Tree};
ghost use Rattle.pom_source.specs.Answers.{Says, build_failed};
ghost use Rattle.sources.specs.Sources.{GivesAll, sources_failed, sources_of_all};
ghost use Rattle.sources.specs.Modules.{allowed, folders_of, module_sources};

use crate::folders::source_folders;
use crate::{SourcesFault, all_sources};
use goal_types::SourceFile;
use model_resolver::{Failures, PomDevice};
use model_types::Model;
use mvn_base::{PomId, Rule};
use mvn_outside::Tree;
use mvn_shared::{List, Mem, Shared, Text};
use pom_source::{BuildFault, Given, text_refused};
use std::alloc::Global;

// Of each module the folders that its sources are in.
fn folders_of(alloc: Global, root: &Text, models: &[Shared<Model>]) -> Mem<List<List<Text>>>
    ensures { IfOk result (λ folders. folders ≡ folders_of root.now models.now) }
{
    let mut folders = List::new(alloc);
    for model in models {
        folders.push(source_folders(alloc, root, model)?)?;
    }
    Ok(folders)
}

// The sources of the modules, not yet refused.
#[tactic(auto, using(crate::proofs::Folding::as_many))]
fn sources_of<T: Tree>(
    alloc: Global,
    tree: &mut T,
    root: &Text,
    models: &[Shared<Model>],
) -> Result<List<List<SourceFile>>, SourcesFault>
    ensures gives { IfSome (T.files tree.old) (λ files.
        GivesAll files (folders_of root.now models.now) result) }
    ensures each { IfOk result (λ sources. length sources ≡ length models.now) }
    ensures same { T.files tree.new ≡ T.files tree.old }
    ensures cause { HasCause (T.faults tree.old) (T.faults tree.new) (sources_failed result) }
{
    match folders_of(alloc, root, models) {
        Ok(folders) => all_sources(alloc, tree, folders.as_slice()),
        Err(_) => Err(SourcesFault::Memory),
    }
}

// Too many sources.
fn refused(alloc: Global) -> Result<List<List<SourceFile>>, BuildFault>
    ensures says { Says (allowed None) result }
    ensures quiet { build_failed result ≡ false }
{
    let pom = PomId::Path(Text::from_str(alloc, "pom.xml")?);
    let place = Text::from_str(alloc, "sources")?;
    text_refused(&pom, Rule::TooLarge, &place)
}

// What reading the sources gave, with its failure counted.
fn noted(
    alloc: Global,
    failures: &mut Failures,
    sources: Result<List<List<SourceFile>>, SourcesFault>,
) -> Result<List<List<SourceFile>>, BuildFault>
    ensures says { (files : Files) (modules : Items (Items (Items ℕ)))
        → GivesAll files modules sources
        → Says (allowed (sources_of_all files modules)) result }
    ensures each { (count : ℕ) → IfOk sources (λ list. length list ≡ count)
        → IfOk result (λ list. length list ≡ count) }
    ensures first { failures.new.first
        ≡ first_after Tree (sources_failed sources) failures.old.first }
    ensures failed { build_failed result ≡ sources_failed sources }
    ensures cause { HasCause failures.old.count failures.new.count (sources_failed sources) }
{
    match sources {
        Ok(sources) => Ok(sources),
        Err(SourcesFault::TooMany) => refused(alloc),
        Err(SourcesFault::Failed) => {
            failures.note(PomDevice::Tree);
            Err(BuildFault::Source)
        }
        Err(SourcesFault::Memory) => Err(BuildFault::Memory),
    }
}

/// The sources of the modules that are built, of each the files below its source folders, with their paths and bytes,
/// ascending by path, each once; over any tree there is a list for each module. Refused if all modules together have
/// more than 65,536 files or 256 MiB; a file of two modules counts twice. The tree isn't asked if a device failed
/// before. Costs the listings, and logarithmic time for each name. POM Reference, "Directories" and "Resources".
#[tactic(auto, unfolding(crate::specs::Modules::module_sources), using(model_resolver::proofs::Counting::counted_tree, model_resolver::proofs::Counting::counted_still, model_resolver::proofs::Counting::counts_on, model_resolver::proofs::Counting::counts_still))]
pub fn module_sources<T: Tree>(
    alloc: Global,
    tree: &mut T,
    failures: &mut Failures,
    given: &Given,
    models: &[Shared<Model>],
) -> Result<List<List<SourceFile>>, BuildFault>
    ensures says { IfSome (T.files tree.old) (λ files.
        Says (module_sources files given.now.machine.root models.now) result) }
    ensures long { IfOk result (λ sources. length sources ≡ length models.now) }
    ensures same { T.files tree.new ≡ T.files tree.old }
    ensures counted { (shelf remote : ℕ) → Counted failures.old.first failures.new.first
        (record { tree = T.faults tree.old; shelf = shelf; remote = remote })
        (record { tree = T.faults tree.new; shelf = shelf; remote = remote }) }
    ensures noted { IsCounted failures.old → IsCounted failures.new }
    ensures cause { HasCause failures.old.count failures.new.count (build_failed result) }
{
    if failures.first.is_some() {
        failures.note(PomDevice::Tree);
        return Err(BuildFault::Source);
    }
    let sources = sources_of(alloc, tree, &given.machine.root, models);
    noted(alloc, failures, sources)
}
