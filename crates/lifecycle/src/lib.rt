//! Gives the goals that a packaging binds, and those that run up to a phase of the default lifecycle, in their order.
//!
//! 1. `table::rows_of` gives the built-in bindings of a packaging.
//! 2. `binding::bindings` makes plugins of them, and `binding::bind` merges these with the declared and managed ones.
//! 3. `goal_list::goals` lists the goals that run up to a phase, phase by phase.
#![tactic(auto)]

mod binding;
mod call;
mod goal_list;
mod table;
mod unbound;

pub use binding::{bind, bindings};
pub use goal_list::{GoalList, goals};
pub use mvn_base::{Phase, phase_of};
