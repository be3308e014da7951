//! A build is described as data: its plan, the events of its run, how its modules end, and who holds which lock.
//!
//! 1. `plan::Plan` is what is built: the modules in order, with their files, names and goals by number.
//! 2. `event::Event` is one step of a run, as a module's start, a lock that is taken, or a file that is read.
//! 3. `ending::State` is how a module stands, and `ending::Ending` how it ended.
//! 4. `table::LockTable` keeps which worker holds which name, and in which `mode::Mode`.
//!
//! A law, a function that does nothing: `plans_cross::plans_cross_threads` says that threads may share a plan.
#![tactic(auto)]

pub mod ending;
pub mod event;
pub mod mode;
pub mod plan;
mod plans_cross;
mod table;

pub use ending::{Device, Ending, State};
pub use event::{Answered, Event};
pub use mode::Mode;
pub use plan::{Entry, Origin, OwnFile, Plan, PlanModule};
pub use plans_cross::plans_cross_threads;
pub use table::{LockTable, Tried};
