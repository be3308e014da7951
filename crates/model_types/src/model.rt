//! The model of one POM as it stands, and the effective model of a module.

use crate::build::Build;
use crate::dependency::Dependency;
use crate::profile::Profile;
use mvn_base::{Gav, Pair, PomId};
use mvn_shared::{List, Shared, Text};

/// The POM that a POM builds on. POM Reference, "Inheritance".
#[derive(Drop)]
pub struct Parent {
    pub gav: Gav,
    /// Where it is looked for first; empty where it isn't looked for in the project.
    pub relative_path: Text,
}

/// The coordinates that one POM states, and its packaging. POM Reference, "Maven Coordinates".
#[derive(Drop)]
pub struct Coordinates {
    /// None where the parent's counts.
    pub group: Option<Text>,
    pub artifact: Text,
    /// None where the parent's counts.
    pub version: Option<Text>,
    pub packaging: Text,
}

/// What a project and a profile may both state. POM Reference, "The Basics".
#[derive(Drop)]
pub struct ModelBase {
    pub modules: List<Text>,
    pub properties: List<Pair>,
    /// `dependencyManagement`.
    pub managed: List<Shared<Dependency>>,
    pub dependencies: List<Shared<Dependency>>,
}

/// What one POM says, with the defaults of single elements. POM Reference.
#[derive(Drop)]
pub struct RawModel {
    pub pom: Shared<PomId>,
    pub parent: Option<Shared<Parent>>,
    pub coordinates: Shared<Coordinates>,
    pub base: Shared<ModelBase>,
    pub build: Shared<Build>,
    pub profiles: Shared<List<Profile>>,
}

/// What holds for a module: its POM with its profiles, its parents and imports counted in, and every expression filled.
/// POM Reference, "The Effective POM".
#[derive(Drop)]
pub struct Model {
    pub pom: Shared<PomId>,
    pub gav: Shared<Gav>,
    pub packaging: Text,
    pub parent: Option<Shared<Gav>>,
    pub base: Shared<ModelBase>,
    pub build: Shared<Build>,
}
