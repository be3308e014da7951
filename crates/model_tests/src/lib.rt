//! Tests of joined models call each public function of the crates below at least once, where no row of a program
//! calls it.
//!
//! The POMs are spelled as in the rows (`row_models`), by what stands after the coordinates. `joining`, `managing`
//! and `single` tell of plugins and managed dependencies as texts and counts, which the tests in the other modules
//! compare.
#![tactic(auto)]

#[cfg(test)]
mod collected;
#[cfg(test)]
mod joined_models;
mod joining;
mod managing;
#[cfg(test)]
mod merged;
mod single;

pub use joining::{Way, joined, joined_over};
pub use managing::managed_count;
pub use single::{executions_left, is_execution_inherited, is_inherited, key_artifact};
