//! The program takes from its surroundings its words, the variables of the environment, the places that they name, and what a project may
//! ask of the machine.
//!
//! 1. `environment::words` gives the words after the program's name.
//! 2. `own_words::asks_for_help` and `own_words::asks_for_version` say whether the program itself answers them; `help::write_help` and
//!    `help::write_version` write these answers.
//! 3. `environment::variables` gives the variables of the environment.
//! 4. `places::named_places` gives the folders and the goal program that they name.
//! 5. `environment::machine` gives what a project may ask of the machine.
#![tactic(auto)]

mod environment;
mod help;
mod own_words;
mod places;

pub use environment::{machine, variables, words};
pub use help::{write_help, write_version};
pub use own_words::{asks_for_help, asks_for_version};
pub use places::{Places, named_places};
