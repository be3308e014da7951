//! A profile, and what activates it.

use crate::build::BuildBase;
use crate::model::ModelBase;
use mvn_shared::{Shared, Text};

/// What is added to a POM where the profile is active. POM Reference, "Profiles".
#[derive(Drop)]
pub struct Profile {
    pub id: Text,
    pub activation: Option<Shared<Activation>>,
    pub base: Shared<ModelBase>,
    pub build: Shared<BuildBase>,
}

/// When a profile is active by itself. POM Reference, "Activation".
#[derive(Drop)]
pub struct Activation {
    pub by_default: bool,
    pub property: Option<Property>,
    /// A file that has to be there.
    pub exists: Option<Text>,
    /// A file that may not be there.
    pub missing: Option<Text>,
    pub jdk: Option<Text>,
    pub os: Option<Os>,
}

/// A property that has to be defined, or to have a value.
#[derive(Drop)]
pub struct Property {
    pub name: Text,
    pub value: Option<Text>,
}

/// What the system has to be.
#[derive(Drop)]
pub struct Os {
    pub name: Option<Text>,
    pub family: Option<Text>,
    pub arch: Option<Text>,
    pub version: Option<Text>,
}
