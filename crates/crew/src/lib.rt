//! Workers build one plan together, each with its own hand, in threads as far as these can be had, over one board
//! under the turn lock.
//!
//! `build::build_all` does it in these steps:
//!
//! 1. `board::Board::new` and `turn_lock::TurnLock::new` make the board, its lock and the first pass.
//! 2. `halves::run_crew` gives each hand a worker, by `team::run`: the hands and the pass are cut in halves, each
//!    half in a thread, until each worker has one hand and one pass.
//! 3. `worker::work_on` is one worker's work: it asks for a task and builds that module
//!    (`crew_modules::build_module`), or rests, until all modules are over.
//! 4. `turn_lock::TurnLock::join` joins the passes of two halves that are done.
//! 5. `turn_lock::TurnLock::close` and `board::Board::finish` give what the build leaves.
//!
//! Laws, functions that do nothing: `as_one::crew_builds_as_one` (it ends as the build by one hand, or its faults
//! stay apart), `counting::faults_are_counted` and `publishes::names_are_published_once`.
#![tactic(auto)]

pub mod as_one;
pub mod build;
pub mod counting;
pub mod halves;
pub mod publishes;
mod team;
pub mod worker;

pub use as_one::crew_builds_as_one;
pub use build::{BuildError, build_all};
pub use counting::faults_are_counted;
pub use halves::{Crew, run_crew};
pub use publishes::names_are_published_once;
pub use team::{Team, run};
pub use worker::work_on;
