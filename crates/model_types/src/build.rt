//! How a module is built: its plugins, and the folders that a build reads and writes.

use crate::plugin::Plugin;
use mvn_base::Gav;
use mvn_shared::{List, Shared, Text};

/// How a module is built: where its files lie, and the plugins that build it. POM Reference, "Build".
#[derive(Drop)]
pub struct Build {
    pub outputs: Shared<Outputs>,
    pub sources: Shared<Sources>,
    pub base: Shared<BuildBase>,
    pub extensions: List<Gav>,
}

/// The plugins of a build, which a profile may state too. POM Reference, "The BaseBuild Element Set".
#[derive(Drop)]
pub struct BuildBase {
    pub plugins: List<Shared<Plugin>>,
    /// `pluginManagement`.
    pub managed_plugins: List<Shared<Plugin>>,
}

/// Where a build puts what it makes. POM Reference, "Directories".
#[derive(Drop)]
pub struct Outputs {
    pub directory: Option<Text>,
    /// `outputDirectory`.
    pub output: Option<Text>,
    /// `testOutputDirectory`.
    pub test_output: Option<Text>,
    pub final_name: Option<Text>,
}

/// Where a build finds what it reads. POM Reference, "Directories" and "Resources".
#[derive(Drop)]
pub struct Sources {
    /// `sourceDirectory`.
    pub source: Option<Text>,
    /// `testSourceDirectory`.
    pub test_source: Option<Text>,
    /// The folders of the resources.
    pub resources: List<Text>,
    pub test_resources: List<Text>,
}
