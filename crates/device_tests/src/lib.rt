//! Tests of objects in memory and over a disk call each public function of the crates below at least once, where no
//! row of a program calls it.
//!
//! They are tests of children in memory, of goals' requests and outputs, of a project's sources and of the summary of
//! the generated project too.
#![tactic(auto)]

#[cfg(test)]
mod child_tests;
#[cfg(test)]
mod disk;
#[cfg(test)]
mod goals;
#[cfg(test)]
mod memory;
#[cfg(test)]
mod source_tests;
#[cfg(test)]
mod summaries;
