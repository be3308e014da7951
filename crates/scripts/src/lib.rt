//! Each module of a plan has a script of what its worker does, and each place of the script tells what is due next.
//!
//! 1. `outline::Outline::of` keeps of a plan what scripts are made from: its numbers, and none of its bytes.
//! 2. `deed::Deed` is one step of a script: a name is taken or freed, a file is read or published, an answer is
//!    kept.
//! 3. `script_place::ScriptPlace` is where a worker stands in the script of its module.
//! 4. `rest::Rest` tells what is due at a place, and `rest::Rest::done` what is left after a deed.
//! 5. `bound::Outline::has_room` tells whether the number of events that a plan states is enough for any run.
#![tactic(auto)]

mod bound;
pub mod deed;
pub mod outline;
pub mod rest;
pub mod script_place;

pub use outline::{ModuleOutline, Outline};
