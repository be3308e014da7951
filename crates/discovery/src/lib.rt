//! Finds the POMs of a project: the root's, and those of the modules that they and their active profiles list.
//!
//! The search goes depth first, in the order of declaration:
//!
//! 1. `naming::root` reads the `pom.xml` at which the project begins.
//! 2. `modules::listed_by` lists the modules of a POM and of its active profiles, as `waiting::Waiting` keeps them.
//! 3. `naming::named` finds the POM of the next module: `pom.xml` in a folder of its name, or a file of its name.
//! 4. `discovery::discover` repeats steps 2 and 3 until no module waits, for at most 1,024 POMs.
#![tactic(auto)]

mod discovery;
mod found;
mod law;
mod modules;
mod naming;
mod pom;
mod progress;
mod waiting;

pub use discovery::discover;
pub use found::FoundPoms;
pub use law::modules_are_listed;
pub use modules::listed_by;
pub use naming::{named, refuse, root};
pub use pom::{Listed, ModulePom};
pub use progress::Progress;
pub use waiting::Waiting;
