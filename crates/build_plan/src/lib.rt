//! A project's POMs, the repositories and a command line lead to one plan, or to the first refusal or fault.
//!
//! `planning::plan_build` does it in these steps:
//!
//! 1. `project_models::project_models` reads the POMs of all modules, and makes their effective models.
//! 2. `project_libraries::resolve_modules` resolves the dependencies of each module.
//! 3. `reactor::reactor_modules` orders the modules, and selects those that the command line means.
//! 4. `sources::module_sources` reads the sources of the modules that are built.
//! 5. `built_modules::selected_modules` joins what each module that is built is planned from.
//! 6. `plan_numbers::number_modules` finds the goals of each module and the files that they need, counts the
//!    events, and puts numbers in place of names.
//! 7. `plan_numbers::plan_selected`, which calls it, then asks the local repository which of the files are there.
//!
//! A fault ends it at its step. A device that failed is named in `planning::Planning`.
#![tactic(auto)]

mod planning;
mod reading;

pub use planning::{PlanFault, Planning, plan_build};
