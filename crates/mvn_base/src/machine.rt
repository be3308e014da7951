//! What a project may ask of the machine that builds it, and the profiles that are switched on and off.

ghost use Rattle.std.specs.Prelude.{◌≡◌};

use mvn_shared::{List, Text};
use std::alloc::AllocError;

/// A name and its value, as of a property or a variable.
#[derive(Drop, PartialEq, Eq)]
pub struct Pair {
    pub name: Text,
    pub value: Text,
}

impl Clone for Pair {
    ghost is_clone = { λ pair copy. copy ≡ pair };

    fn clone(&self) -> Result<Pair, AllocError> {
        let name = self.name.clone()?;
        let value = self.value.clone()?;
        Ok(Pair { name, value })
    }
}

/// The profiles that are switched on and off by name. Introduction to Build Profiles.
#[derive(Drop)]
pub struct Choice {
    pub on: List<Text>,
    pub off: List<Text>,
}

/// What a project may ask of the machine that builds it. POM Reference, "Properties" and "Profiles".
#[derive(Drop)]
pub struct Machine {
    /// The project's root folder, as a path of the system.
    pub root: Text,
    /// The environment's variables, ascending by name.
    pub env: List<Pair>,
    /// The system's properties.
    pub system: List<Pair>,
    pub jdk: Text,
    pub os_name: Text,
    pub os_family: Text,
    pub os_arch: Text,
    pub os_version: Text,
}
