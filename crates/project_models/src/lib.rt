//! Gives the modules of a project: the POMs that it lists, in their order, and the effective model of each.
//!
//! 1. `poms::project_poms` finds the project's POMs, by `discovery::discover`.
//! 2. `own::own_store` keeps them by path and by coordinates, so that none is read again.
//! 3. `models::models_of` builds the effective model of each POM, by `effective::effective_with`.
//! 4. `doubles::first_double` finds the first module whose coordinates an earlier one has, which is refused.
//! 5. `project::project_models` runs all of this over the project's devices.
#![tactic(auto)]

mod doubles;
mod law;
mod models;
mod own;
mod poms;
mod project;
mod whole;

pub use law::modules_are_the_projects;
pub use models::models_of;
pub use own::own_store;
pub use poms::project_poms;
pub use project::{ProjectModels, project_models};
pub use whole::Whole;
