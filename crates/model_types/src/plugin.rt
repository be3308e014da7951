//! A plugin, and the executions of its goals.

use crate::dependency::Dependency;
use mvn_base::Setting;
use mvn_shared::{List, Shared, Text};

/// A plugin, and what it is to do. POM Reference, "Plugins".
#[derive(Drop)]
pub struct Plugin {
    pub group: Text,
    pub artifact: Text,
    pub version: Option<Text>,
    /// Whether a child's POM takes it over.
    pub inherited: bool,
    pub dependencies: List<Shared<Dependency>>,
    pub executions: List<Shared<Execution>>,
    pub configuration: Shared<List<Setting>>,
}

/// Goals of a plugin, and the phase that they are bound to. POM Reference, "Executions".
#[derive(Drop)]
pub struct Execution {
    pub id: Text,
    /// None where each goal's own default counts.
    pub phase: Option<Text>,
    pub goals: List<Text>,
    /// Whether a child's POM takes it over.
    pub inherited: bool,
    pub configuration: Shared<List<Setting>>,
}
