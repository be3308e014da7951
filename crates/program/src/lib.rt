//! A call of the program gives an exit status of at most 4, or says that memory ran out; that it does what its words
//! ask for is tested.
//!
//! 1. `call::run` reads the words, and opens standard output.
//! 2. `call::answer` prints the help or the version, where the words ask for one of these.
//! 3. `call::build` reads the environment, and takes the devices that it names.
//! 4. `call::run_over` runs the words over them, and gives what the call leaves.
#![tactic(auto)]

mod call;

pub use call::run;
