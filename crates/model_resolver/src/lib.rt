//! Looks POMs up for a project: by path in its folder, and by coordinates among its own POMs and in two repositories.
//!
//! 1. `known::project_at` and `known::project_of` find a POM among those of the project, without asking a device.
//! 2. `asking::ask_tree` asks the project's folder for a path.
//! 3. `repositories::find_in_repositories` asks the local repository for coordinates, and then the remote one.
//!
//! Once a device failed, `failures::Failures` names it, and none is asked any more.
#![tactic(auto)]

mod asking;
mod failures;
mod known;
mod poms;
mod repositories;
mod resolver;

pub use asking::ask_tree;
pub use failures::{Failures, PomDevice};
pub use poms::ProjectPoms;
pub use resolver::{ModelResolver, ProjectPom};
