// What the words of a line stand for, and the models of libraries.
use model_types::{Build, BuildBase, Dependency, Exclusion, Model, ModelBase, Outputs, Sources};
use mvn_base::{Gav, PomId};
use mvn_shared::{List, Mem, Shared, Text};
use std::alloc::Global;

// A text, which its copies share, as they share those of a POM.
fn text(alloc: Global, word: &str) -> Mem<Text> {
    Text::from_str(alloc, word)?.shared(alloc)
}

// A text, unless it isn't stated.
fn stated(alloc: Global, field: &str) -> Mem<Option<Text>> {
    if field == "-" {
        Ok(None)
    } else {
        Ok(Some(text(alloc, field)?))
    }
}

// A text, or another where it isn't stated.
fn stated_or(alloc: Global, field: &str, other: &str) -> Mem<Text> {
    text(alloc, if field == "-" { other } else { field })
}

// The exclusions of a field.
fn exclusions(alloc: Global, field: &str) -> Mem<List<Exclusion>> {
    let mut list = List::new(alloc);
    for part in field.split(',') {
        if let Some((group, artifact)) = part.split_once(':') {
            let group = text(alloc, group)?;
            let artifact = text(alloc, artifact)?;
            list.push(Exclusion { group, artifact })?;
        }
    }
    Ok(list)
}

/// A word, empty where there is none.
pub(crate) fn word<'a>(words: &[&'a str], at: usize) -> &'a str {
    match words.get(at) {
        Some(word) => *word,
        None => "",
    }
}

// What a dependency is on.
#[derive(Drop)]
struct Artifact {
    group: Text,
    artifact: Text,
    kind: Text,
}

// On which terms.
#[derive(Drop)]
struct Terms {
    version: Option<Text>,
    scope: Option<Text>,
    optional: Text,
    exclusions: List<Exclusion>,
}

fn artifact_of(alloc: Global, words: &[&str]) -> Mem<Artifact> {
    let group = text(alloc, word(words, 1))?;
    let artifact = text(alloc, word(words, 2))?;
    let kind = stated_or(alloc, word(words, 4), "jar")?;
    Ok(Artifact {
        group,
        artifact,
        kind,
    })
}

fn terms_of(alloc: Global, words: &[&str], optional: &str, cut: &str) -> Mem<Terms> {
    let version = stated(alloc, word(words, 3))?;
    let scope = stated(alloc, word(words, 5))?;
    let optional = stated_or(alloc, optional, "")?;
    let exclusions = exclusions(alloc, cut)?;
    Ok(Terms {
        version,
        scope,
        optional,
        exclusions,
    })
}

fn on_terms(alloc: Global, artifact: Artifact, terms: Terms) -> Dependency {
    Dependency {
        group: artifact.group,
        artifact: artifact.artifact,
        version: terms.version,
        kind: artifact.kind,
        classifier: Text::of(String::new(alloc)),
        scope: terms.scope,
        optional: terms.optional,
        exclusions: terms.exclusions,
    }
}

/// The dependency that the first six words of a line declare, with whether it is optional and what is left out below it.
pub(crate) fn dependency(
    alloc: Global,
    words: &[&str],
    optional: &str,
    cut: &str,
) -> Mem<Shared<Dependency>> {
    let artifact = artifact_of(alloc, words)?;
    let terms = terms_of(alloc, words, optional, cut)?;
    Shared::new(alloc, on_terms(alloc, artifact, terms))
}

/// The coordinate of a line.
pub(crate) fn gav(alloc: Global, words: &[&str]) -> Mem<Gav> {
    let group = text(alloc, word(words, 1))?;
    let artifact = text(alloc, word(words, 2))?;
    let version = text(alloc, word(words, 3))?;
    Ok(Gav {
        group,
        artifact,
        version,
    })
}

// No plugins.
fn build_base(alloc: Global) -> Mem<Shared<BuildBase>> {
    let base = BuildBase {
        plugins: List::new(alloc),
        managed_plugins: List::new(alloc),
    };
    Shared::new(alloc, base)
}

fn outputs(alloc: Global) -> Mem<Shared<Outputs>> {
    let outputs = Outputs {
        directory: None,
        output: None,
        test_output: None,
        final_name: None,
    };
    Shared::new(alloc, outputs)
}

fn sources(alloc: Global) -> Mem<Shared<Sources>> {
    let sources = Sources {
        source: None,
        test_source: None,
        resources: List::new(alloc),
        test_resources: List::new(alloc),
    };
    Shared::new(alloc, sources)
}

/// A build that says nothing.
pub(crate) fn build(alloc: Global) -> Mem<Shared<Build>> {
    let outputs = outputs(alloc)?;
    let sources = sources(alloc)?;
    let base = build_base(alloc)?;
    let build = Build {
        outputs,
        sources,
        base,
        extensions: List::new(alloc),
    };
    Shared::new(alloc, build)
}

/// What a library's POM states: its dependencies alone.
pub(crate) fn base(
    alloc: Global,
    dependencies: List<Shared<Dependency>>,
) -> Mem<Shared<ModelBase>> {
    let base = ModelBase {
        modules: List::new(alloc),
        properties: List::new(alloc),
        managed: List::new(alloc),
        dependencies,
    };
    Shared::new(alloc, base)
}

fn pom(alloc: Global, gav: &Gav) -> Mem<Shared<PomId>> {
    let gav = gav.clone()?;
    Shared::new(alloc, PomId::Gav(gav))
}

fn shared_gav(alloc: Global, gav: &Gav) -> Mem<Shared<Gav>> {
    let gav = gav.clone()?;
    Shared::new(alloc, gav)
}

fn model_of(
    alloc: Global,
    gav: &Gav,
    base: &Shared<ModelBase>,
    build: &Shared<Build>,
) -> Mem<Model> {
    let packaging = text(alloc, "jar")?;
    let pom = pom(alloc, gav)?;
    let gav = shared_gav(alloc, gav)?;
    let base = base.share()?;
    let build = build.share()?;
    Ok(Model {
        pom,
        gav,
        packaging,
        parent: None,
        base,
        build,
    })
}

/// The model of a library.
pub(crate) fn model(
    alloc: Global,
    gav: &Gav,
    base: &Shared<ModelBase>,
    build: &Shared<Build>,
) -> Mem<Shared<Model>> {
    let model = model_of(alloc, gav, base, build)?;
    Shared::new(alloc, model)
}
