//! Models of POMs: what one POM says, and what holds for a module when all that it builds on is counted in.
//!
//! Groups and items of a model are shared, so that what is taken over unchanged isn't copied.
#![tactic(auto)]

mod build;
mod dependency;
mod model;
mod plugin;
mod profile;

pub use build::{Build, BuildBase, Outputs, Sources};
pub use dependency::{Dependency, Exclusion};
pub use model::{Coordinates, Model, ModelBase, Parent, RawModel};
pub use plugin::{Execution, Plugin};
pub use profile::{Activation, Os, Profile, Property};
