//! Tests of values, names, locks, events and turns call each public function of the crates below at least once, where
//! no row of a program calls it.
#![tactic(auto)]

#[cfg(test)]
mod events;
#[cfg(test)]
mod names;
#[cfg(test)]
mod turns;
#[cfg(test)]
mod values;
