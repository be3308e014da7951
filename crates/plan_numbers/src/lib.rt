//! The modules that are built, in build order, become one plan, in which names, files and entries stand as numbers,
//! unless it is too large.
//!
//! `planning::plan_selected` does it in these steps:
//!
//! 1. `whole::number_modules` makes each module ready, and refuses more events than a plan may have
//!    (`events::count_events`).
//! 2. `tables::names_of` and `tables::files_of` give the names and the files of all modules, each once.
//! 3. `module_plan::parts_of` gives the modules by these numbers.
//! 4. `present::present_in` asks the local repository once for each file whether it is there.
#![tactic(auto)]

mod events;
mod planning;
mod present;
mod tables;
mod whole;

pub use planning::plan_selected;
pub use whole::{Numbered, number_modules};
