//! Models of a size, and what comes out where they are joined or filled.

use inheritance::inherit;
use interpolation::fill;
use model_types::{
    Build, BuildBase, Coordinates, Dependency, ModelBase, Outputs, Profile, RawModel, Sources,
};
use mvn_base::{Machine, Pair, PomId};
use mvn_shared::{List, Mem, Shared, Text};
use profiles::inject;
use std::alloc::Global;

fn text(alloc: Global, text: &str) -> Mem<Text> {
    Text::from_str(alloc, text)
}

fn no_text(alloc: Global) -> Text {
    Text::of(String::new(alloc))
}

// The dependency of a number.
fn dependency(alloc: Global, number: u32) -> Mem<Shared<Dependency>> {
    let artifact = Text::of(format!(in alloc; "artifact{number}")?);
    let group = text(alloc, "g")?;
    let version = text(alloc, "1.0")?;
    let kind = text(alloc, "jar")?;
    let dependency = Dependency {
        group,
        artifact,
        version: Some(version),
        kind,
        classifier: no_text(alloc),
        scope: None,
        optional: no_text(alloc),
        exclusions: List::new(alloc),
    };
    Shared::new(alloc, dependency)
}

// The dependencies of some numbers.
fn dependencies(alloc: Global, from: u32, to: u32) -> Mem<List<Shared<Dependency>>> {
    let mut list = List::new(alloc);
    for number in from..to {
        list.push(dependency(alloc, number)?)?;
    }
    Ok(list)
}

// Properties and dependencies, and nothing else.
fn base(
    alloc: Global,
    properties: List<Pair>,
    dependencies: List<Shared<Dependency>>,
) -> Mem<Shared<ModelBase>> {
    let base = ModelBase {
        modules: List::new(alloc),
        properties,
        managed: List::new(alloc),
        dependencies,
    };
    Shared::new(alloc, base)
}

// The dependencies of some numbers, and nothing else.
fn base_of(alloc: Global, from: u32, to: u32) -> Mem<Shared<ModelBase>> {
    let dependencies = dependencies(alloc, from, to)?;
    base(alloc, List::new(alloc), dependencies)
}

// No plugins.
fn build_base(alloc: Global) -> Mem<Shared<BuildBase>> {
    let base = BuildBase {
        plugins: List::new(alloc),
        managed_plugins: List::new(alloc),
    };
    Shared::new(alloc, base)
}

fn outputs(alloc: Global) -> Mem<Shared<Outputs>> {
    let outputs = Outputs {
        directory: None,
        output: None,
        test_output: None,
        final_name: None,
    };
    Shared::new(alloc, outputs)
}

fn sources(alloc: Global) -> Mem<Shared<Sources>> {
    let sources = Sources {
        source: None,
        test_source: None,
        resources: List::new(alloc),
        test_resources: List::new(alloc),
    };
    Shared::new(alloc, sources)
}

// A build that says nothing.
fn build(alloc: Global) -> Mem<Shared<Build>> {
    let outputs = outputs(alloc)?;
    let sources = sources(alloc)?;
    let base = build_base(alloc)?;
    let build = Build {
        outputs,
        sources,
        base,
        extensions: List::new(alloc),
    };
    Shared::new(alloc, build)
}

fn coordinates(alloc: Global) -> Mem<Shared<Coordinates>> {
    let artifact = text(alloc, "app")?;
    let packaging = text(alloc, "jar")?;
    let coordinates = Coordinates {
        group: None,
        artifact,
        version: None,
        packaging,
    };
    Shared::new(alloc, coordinates)
}

fn pom(alloc: Global) -> Mem<Shared<PomId>> {
    let path = text(alloc, "pom.xml")?;
    Shared::new(alloc, PomId::Path(path))
}

// What a model of no size has.
#[derive(Drop)]
struct FixedParts {
    pom: Shared<PomId>,
    coordinates: Shared<Coordinates>,
    build: Shared<Build>,
}

fn fixed(alloc: Global) -> Mem<FixedParts> {
    let pom = pom(alloc)?;
    let coordinates = coordinates(alloc)?;
    let build = build(alloc)?;
    Ok(FixedParts {
        pom,
        coordinates,
        build,
    })
}

fn model(fixed: FixedParts, base: Shared<ModelBase>, profiles: Shared<List<Profile>>) -> RawModel {
    RawModel {
        pom: fixed.pom,
        parent: None,
        coordinates: fixed.coordinates,
        base,
        build: fixed.build,
        profiles,
    }
}

// A model with these properties and dependencies, and no profile.
fn without_profile(
    alloc: Global,
    properties: List<Pair>,
    dependencies: List<Shared<Dependency>>,
) -> Mem<RawModel> {
    let base = base(alloc, properties, dependencies)?;
    let none = Shared::new(alloc, List::new(alloc))?;
    Ok(model(fixed(alloc)?, base, none))
}

// A model that has some dependencies alone.
fn with_dependencies(alloc: Global, from: u32, to: u32) -> Mem<RawModel> {
    let dependencies = dependencies(alloc, from, to)?;
    without_profile(alloc, List::new(alloc), dependencies)
}

fn count_inherited(alloc: Global, child: &RawModel, parent: &RawModel) -> Mem<usize> {
    let whole = inherit(alloc, child, parent)?;
    Ok(whole.base.dependencies.len())
}

/// How many dependencies a model of a number has over one of as many, half of them shared.
pub(crate) fn inherited(alloc: Global, number: u32) -> Mem<usize> {
    let child = with_dependencies(alloc, number / 2, number)?;
    let parent = with_dependencies(alloc, 0, number)?;
    count_inherited(alloc, &child, &parent)
}

// A profile that has some dependencies.
fn profile(alloc: Global, from: u32, to: u32) -> Mem<Profile> {
    let id = text(alloc, "p")?;
    let base = base_of(alloc, from, to)?;
    let build = build_base(alloc)?;
    Ok(Profile {
        id,
        activation: None,
        base,
        build,
    })
}

fn profiles(alloc: Global, from: u32, to: u32) -> Mem<Shared<List<Profile>>> {
    let mut list = List::new(alloc);
    list.push(profile(alloc, from, to)?)?;
    Shared::new(alloc, list)
}

fn with_profile(alloc: Global, number: u32) -> Mem<RawModel> {
    let profiles = profiles(alloc, number / 2, number)?;
    let base = base_of(alloc, 0, number)?;
    Ok(model(fixed(alloc)?, base, profiles))
}

fn count_injected(alloc: Global, raw: &RawModel) -> Mem<usize> {
    let whole = inject(alloc, raw, &[0])?;
    Ok(whole.base.dependencies.len())
}

/// How many a model of a number has with a profile of half as many, which it shares.
pub(crate) fn injected(alloc: Global, number: u32) -> Mem<usize> {
    let raw = with_profile(alloc, number)?;
    count_injected(alloc, &raw)
}

// A machine of which nothing is known.
fn machine(alloc: Global) -> Machine {
    Machine {
        root: no_text(alloc),
        env: List::new(alloc),
        system: List::new(alloc),
        jdk: no_text(alloc),
        os_name: no_text(alloc),
        os_family: no_text(alloc),
        os_arch: no_text(alloc),
        os_version: no_text(alloc),
    }
}

fn push(alloc: Global, list: &mut List<Pair>, number: u32, value: Text) -> Mem<()> {
    let name = Text::of(format!(in alloc; "p{number}")?);
    list.push(Pair { name, value })
}

fn bytes_filled(alloc: Global, raw: &RawModel, machine: &Machine) -> usize {
    match fill(alloc, raw, None, machine, &[]) {
        Ok(model) => bytes_of(&model.base.properties),
        Err(_) => 0,
    }
}

// How many bytes the properties of a model have when they are filled.
fn filled(alloc: Global, properties: List<Pair>) -> Mem<usize> {
    let raw = without_profile(alloc, properties, List::new(alloc))?;
    let machine = machine(alloc);
    Ok(bytes_filled(alloc, &raw, &machine))
}

fn bytes_of(properties: &List<Pair>) -> usize {
    let mut bytes: usize = 0;
    for pair in properties.as_slice() {
        bytes = bytes.wrapping_add(pair.value.len());
    }
    bytes
}

// What names the next of so many properties; the last is one byte.
fn naming(alloc: Global, at: u32, number: u32) -> Mem<Text> {
    if at < number.saturating_sub(1) {
        let next = at + 1;
        return Ok(Text::of(format!(in alloc; "${{p{next}}}")?));
    }
    text(alloc, "x")
}

/// How many bytes so many properties come to, each of which names the next one; the last is one byte.
pub(crate) fn chained(alloc: Global, number: u32) -> Mem<usize> {
    let mut list = List::new(alloc);
    for at in 0..number {
        push(alloc, &mut list, at, naming(alloc, at, number)?)?;
    }
    filled(alloc, list)
}

fn of_65536_bytes(alloc: Global) -> Mem<Text> {
    let mut whole = String::new(alloc);
    for _ in 0..65536u32 {
        whole.push('x')?;
    }
    Ok(Text::of(whole))
}

/// How many bytes so many properties come to, each of which names one of 65,536 bytes.
pub(crate) fn long(alloc: Global, number: u32) -> Mem<usize> {
    let mut list = List::new(alloc);
    push(alloc, &mut list, 0, of_65536_bytes(alloc)?)?;
    for at in 1..number {
        push(alloc, &mut list, at, text(alloc, "${p0}")?)?;
    }
    filled(alloc, list)
}
