//! The super POM, which every POM without a parent builds on.

ghost use Rattle.std.specs.Prelude.{◌≡◌, [], ◌∷◌, None, Some, IfOk};
ghost use Rattle.mvn_base.specs.declared.refusal.PomId.TheVariants as ids;
ghost use Rattle.inheritance.specs.SuperPom.{super_build, super_outputs, super_pom, super_sources};

use model_types::{Build, BuildBase, Coordinates, ModelBase, Outputs, RawModel, Sources};
use mvn_base::{Gav, PomId};
use mvn_shared::{List, Mem, Shared, Text};
use std::alloc::Global;

// A text that is stated.
fn stated(alloc: Global, text: &str) -> Mem<Option<Text>>
    ensures { IfOk result (λ stated. stated ≡ Some text.now) }
{
    Ok(Some(Text::from_str(alloc, text)?))
}

// A list of one folder.
fn folder(alloc: Global, text: &str) -> Mem<List<Text>>
    ensures { IfOk result (λ folders. folders ≡ text.now ∷ []) }
{
    let mut folders = List::new(alloc);
    folders.push(Text::from_str(alloc, text)?)?;
    Ok(folders)
}

// Where a build puts what it makes unless a POM says otherwise.
#[tactic(auto, unfolding(crate::specs::SuperPom::super_outputs))]
fn super_outputs(alloc: Global) -> Mem<Shared<Outputs>>
    ensures { IfOk result (λ outputs. outputs ≡ super_outputs) }
{
    let directory = stated(alloc, "${project.basedir}/target")?;
    let output = stated(alloc, "${project.build.directory}/classes")?;
    let test_output = stated(alloc, "${project.build.directory}/test-classes")?;
    let final_name = stated(alloc, "${project.artifactId}-${project.version}")?;
    let outputs = Outputs {
        directory,
        output,
        test_output,
        final_name,
    };
    Shared::new(alloc, outputs)
}

// Where a build finds what it reads unless a POM says otherwise.
#[tactic(auto, unfolding(crate::specs::SuperPom::super_sources))]
fn super_sources(alloc: Global) -> Mem<Shared<Sources>>
    ensures { IfOk result (λ sources. sources ≡ super_sources) }
{
    let source = stated(alloc, "${project.basedir}/src/main/java")?;
    let test_source = stated(alloc, "${project.basedir}/src/test/java")?;
    let resources = folder(alloc, "${project.basedir}/src/main/resources")?;
    let test_resources = folder(alloc, "${project.basedir}/src/test/resources")?;
    let sources = Sources {
        source,
        test_source,
        resources,
        test_resources,
    };
    Shared::new(alloc, sources)
}

// Where files lie unless a POM says otherwise; no plugins.
#[tactic(auto, unfolding(crate::specs::SuperPom::super_build))]
fn super_build(alloc: Global) -> Mem<Build>
    ensures { IfOk result (λ build. build ≡ super_build) }
{
    let outputs = super_outputs(alloc)?;
    let sources = super_sources(alloc)?;
    let base = BuildBase {
        plugins: List::new(alloc),
        managed_plugins: List::new(alloc),
    };
    Ok(Build {
        outputs,
        sources,
        base: Shared::new(alloc, base)?,
        extensions: List::new(alloc),
    })
}

// The name of no POM.
fn no_pom(alloc: Global) -> PomId
    ensures { result ≡ ids.Gav (record { group = []; artifact = []; version = [] }) }
{
    PomId::Gav(Gav {
        group: Text::of(String::new(alloc)),
        artifact: Text::of(String::new(alloc)),
        version: Text::of(String::new(alloc)),
    })
}

// The coordinates of a POM that states nothing but its packaging.
fn packaged(alloc: Global, packaging: &str) -> Mem<Coordinates>
    ensures { IfOk result (λ it.
        it ≡ (record { group = None; artifact = []; version = None; packaging = packaging.now })) }
{
    let packaging = Text::from_str(alloc, packaging)?;
    Ok(Coordinates {
        group: None,
        artifact: Text::of(String::new(alloc)),
        version: None,
        packaging,
    })
}

// What a POM has that lists nothing.
fn empty_base(alloc: Global) -> ModelBase
    ensures { result ≡ (record { modules = []; properties = []; managed = []; dependencies = [] }) }
{
    ModelBase {
        modules: List::new(alloc),
        properties: List::new(alloc),
        managed: List::new(alloc),
        dependencies: List::new(alloc),
    }
}

/// The POM that each POM without a parent builds on. Constant cost. Introduction to the POM, "Super POM".
#[tactic(auto, unfolding(crate::specs::SuperPom::super_pom))]
pub fn super_pom(alloc: Global) -> Mem<RawModel>
    ensures { IfOk result (λ pom. pom ≡ super_pom) }
{
    let pom = Shared::new(alloc, no_pom(alloc))?;
    let coordinates = Shared::new(alloc, packaged(alloc, "pom")?)?;
    let base = Shared::new(alloc, empty_base(alloc))?;
    let build = Shared::new(alloc, super_build(alloc)?)?;
    let profiles = Shared::new(alloc, List::new(alloc))?;
    Ok(RawModel {
        pom,
        parent: None,
        coordinates,
        base,
        build,
        profiles,
    })
}
