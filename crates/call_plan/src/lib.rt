//! The words of a call lead to the plan of its project, or to what is answered in its place.
//!
//! 1. `command::asked` reads the words, or answers their first fault.
//! 2. `given::given_of` gives what all POMs of the call are given: the machine, the properties and the profiles.
//! 3. `project::plan_by_first` plans the project (`build_plan::plan_build`), with the remote of the first hand.
//! 4. `outcome::answered` gives the plan, or what is answered where planning refused or failed.
//!
//! `devices::Sees` says what a call sees of all that it works with.
#![tactic(auto)]

mod command;
mod devices;
mod given;
mod outcome;
mod project;

pub use command::asked;
pub use devices::Sees;
pub use given::given_of;
pub use project::plan_by_first;
