//! A sound plan is built by a crew and reported with an exit status; below 3, where all tells, that is as the build
//! by one hand, and all that was published is settled.
//!
//! `build::run_and_report` does it in these steps:
//!
//! 1. `sweeping::sweep_all` sweeps the area of each hand; where one can't be swept, nothing is built.
//! 2. `crew::build_all` builds the modules of the plan by all hands.
//! 3. `mvn_outside::settle` lets the repository settle once what was published.
//! 4. `ending::outcome_of` makes the report, and gives the status by how the modules ended and whether that was
//!    settled.
#![tactic(auto)]

mod build;
mod ending;
mod outcome;
mod sweeping;

pub use build::{Call, nothing, run_and_report};
pub use outcome::{BUILT, FAILED, FAULT, NO_MEMORY, Outcome, REFUSED};
