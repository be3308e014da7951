//! A model with its texts filled and its folders placed below the POM's own folder.

ghost use Rattle.std.specs.Prelude.{◌≡◌, [], ◌∷◌, ◌++◌, List as Items, ℕ, codes, false, is_some, map, option_map, IfOk};
ghost use Rattle.profiles.specs.Lookups.{behind};
ghost use Rattle.interpolation.specs.Filling.{fill};
ghost use Rattle.mvn_base.specs.Paths.{joined};
ghost use Rattle.pom_source.specs.Answers.{Says, build_failed, refused};
ghost use Rattle.model_steps.specs.Folders.{basedir_in, filled, from_basedir, is_absolute, placed, placed_build, placed_in, placed_outputs, placed_sources, stays};

use interpolation::fill;
use model_merge::copies;
use model_types::{Build, Outputs, RawModel, Sources};
use mvn_base::{Machine, ModelError, PomId, joined};
use mvn_shared::{List, Mem, Shared, Text};
use pom_source::{BuildFault, Given};
use profiles::{basedir_of, behind};
use std::alloc::Global;

// The folder of a POM as a path of the system; a POM that was read by coordinates has none.
fn basedir_in(alloc: Global, machine: &Machine, pom: &PomId) -> Mem<Option<Text>>
    ensures { IfOk result (λ basedir. basedir ≡ basedir_in machine.now pom.now) }
{
    match pom {
        PomId::Path(path) => {
            let folder = joined(alloc, path, &Text::from_str(alloc, "..")?)?;
            Ok(Some(basedir_of(alloc, &machine.root, &folder)?))
        }
        PomId::Gav(_) => Ok(None),
    }
}

// Whether a path begins with `/`.
fn is_absolute(path: &[u8]) -> bool
    ensures { result ≡ is_absolute path.now }
{
    match path {
        [first, ..] => *first == b'/',
        [] => false,
    }
}

// Whether a folder is below another.
fn is_below(alloc: Global, basedir: &Text, folder: &Text) -> Mem<bool>
    ensures { IfOk result (λ below. below
        ≡ is_some (behind (basedir.now ++ codes "/") folder.now)) }
{
    let front = Text::of(format!(in alloc; "{basedir}/")?);
    Ok(behind(front.as_str(), folder.as_str()).is_some())
}

// Whether a folder stays as it is.
fn stays(alloc: Global, basedir: &Text, folder: &Text) -> Mem<bool>
    ensures { IfOk result (λ it. it ≡ stays basedir.now folder.now) }
{
    if is_absolute(folder.as_bytes()) || folder == basedir {
        return Ok(true);
    }
    is_below(alloc, basedir, folder)
}

// A relative folder after a relative basedir.
fn below_basedir(alloc: Global, basedir: &Text, folder: &Text) -> Mem<Text>
    ensures { IfOk result (λ path. path ≡ basedir.now ++ 47 ∷ joined [] folder.now) }
{
    let path = joined(alloc, &Text::from_str(alloc, "")?, folder)?;
    Ok(Text::of(format!(in alloc; "{basedir}/{path}")?))
}

// A relative folder, followed from the basedir on.
fn from_basedir(alloc: Global, basedir: &Text, folder: &Text) -> Mem<Text>
    ensures { IfOk result (λ path. path ≡ from_basedir basedir.now folder.now) }
{
    if is_absolute(basedir.as_bytes()) {
        let path = joined(alloc, basedir, folder)?;
        return Ok(Text::of(format!(in alloc; "/{path}")?));
    }
    below_basedir(alloc, basedir, folder)
}

// A folder as a path of the system.
#[tactic(auto, unfolding(crate::specs::Folders::placed))]
fn placed(alloc: Global, basedir: &Text, folder: &Text) -> Mem<Text>
    ensures { IfOk result (λ path. path ≡ placed basedir.now folder.now) }
{
    if stays(alloc, basedir, folder)? {
        return Ok(folder.clone()?);
    }
    from_basedir(alloc, basedir, folder)
}

// A folder as a path of the system, if it is stated.
fn placed_one(alloc: Global, basedir: &Text, folder: &Option<Text>) -> Mem<Option<Text>>
    ensures { IfOk result (λ path. path ≡ option_map (placed basedir.now) folder.now) }
{
    match folder {
        Some(folder) => Ok(Some(placed(alloc, basedir, folder)?)),
        None => Ok(None),
    }
}

// Folders as paths of the system.
fn placed_each(alloc: Global, basedir: &Text, folders: &List<Text>) -> Mem<List<Text>>
    ensures { IfOk result (λ paths. paths ≡ map (placed basedir.now) folders.now) }
{
    let mut paths = List::new(alloc);
    for folder in folders.as_slice() {
        paths.push(placed(alloc, basedir, folder)?)?;
    }
    Ok(paths)
}

// Outputs with their folders placed.
fn placed_outputs(alloc: Global, basedir: &Text, outputs: &Outputs) -> Mem<Shared<Outputs>>
    ensures { IfOk result (λ it. it ≡ placed_outputs basedir.now outputs.now) }
{
    let directory = placed_one(alloc, basedir, &outputs.directory)?;
    let output = placed_one(alloc, basedir, &outputs.output)?;
    let test_output = placed_one(alloc, basedir, &outputs.test_output)?;
    let final_name = outputs.final_name.clone()?;
    let outputs = Outputs {
        directory,
        output,
        test_output,
        final_name,
    };
    Shared::new(alloc, outputs)
}

// Sources with their folders placed.
fn placed_sources(alloc: Global, basedir: &Text, sources: &Sources) -> Mem<Shared<Sources>>
    ensures { IfOk result (λ it. it ≡ placed_sources basedir.now sources.now) }
{
    let source = placed_one(alloc, basedir, &sources.source)?;
    let test_source = placed_one(alloc, basedir, &sources.test_source)?;
    let resources = placed_each(alloc, basedir, &sources.resources)?;
    let test_resources = placed_each(alloc, basedir, &sources.test_resources)?;
    let sources = Sources {
        source,
        test_source,
        resources,
        test_resources,
    };
    Shared::new(alloc, sources)
}

// A build with its folders placed.
fn placed_build(alloc: Global, basedir: &Text, build: &Build) -> Mem<Shared<Build>>
    ensures { IfOk result (λ it. it ≡ placed_build basedir.now build.now) }
{
    let outputs = placed_outputs(alloc, basedir, &build.outputs)?;
    let sources = placed_sources(alloc, basedir, &build.sources)?;
    let base = build.base.share()?;
    let extensions = copies(&build.extensions)?;
    let build = Build {
        outputs,
        sources,
        base,
        extensions,
    };
    Shared::new(alloc, build)
}

// A model with its folders placed, if it has a basedir.
fn placed_in(alloc: Global, basedir: &Option<Text>, raw: RawModel) -> Mem<RawModel>
    ensures { IfOk result (λ model. model ≡ placed_in basedir.now raw) }
{
    match basedir {
        None => Ok(raw),
        Some(basedir) => {
            let build = placed_build(alloc, basedir, &raw.build)?;
            Ok(RawModel { build, ..raw })
        }
    }
}

// A model with its texts filled.
fn filled_texts(
    alloc: Global,
    given: &Given,
    basedir: &Option<Text>,
    raw: &RawModel,
) -> Result<RawModel, BuildFault>
    ensures says { Says
        (refused (fill raw.now basedir.now given.now.machine given.now.defines)) result }
    ensures cause { build_failed result ≡ false }
{
    match fill(
        alloc,
        raw,
        basedir.as_ref(),
        &given.machine,
        given.defines.as_slice(),
    ) {
        Ok(model) => Ok(model),
        Err(ModelError::Refused(refusal)) => Err(BuildFault::Refused(refusal)),
        Err(ModelError::Memory) => Err(BuildFault::Memory),
    }
}

/// A joined model with its expressions replaced, and, if its POM is one of the project, with the folders of its build
/// as paths of the system; or the first refusal of a text. An absolute folder, the POM's own folder and one that is
/// written below it stay as they are. Any other is followed from the POM's folder on, with `.` and `..`. Costs the
/// texts, and all that can be named. POM Reference, "Properties" and "Directories"; which folders stay as they are is a
/// project rule.
#[tactic(auto, unfolding(crate::specs::Folders::filled))]
pub fn filled(alloc: Global, given: &Given, raw: &RawModel) -> Result<RawModel, BuildFault>
    ensures says { Says (filled given.now raw.now) result }
    ensures cause { build_failed result ≡ false }
{
    let basedir = basedir_in(alloc, &given.machine, &raw.pom)?;
    let full = filled_texts(alloc, given, &basedir, raw)?;
    Ok(placed_in(alloc, &basedir, full)?)
}

/// A law of folders: one that was placed stays as it is if it is placed again. Project rule.
#[tactic(auto, using(crate::proofs::Placing::placed_twice))]
pub fn placed_stays()
    ensures { (basedir folder : Items ℕ)
        → placed basedir (placed basedir folder) ≡ placed basedir folder }
{}
