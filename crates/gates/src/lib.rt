//! A gate runs each goal of a build: built in, with an answer that is a function of the request, or in a child, whose output and status
//! are the answer.
//!
//! The built-in goals are in `builtin`. A goal runs in a child in these steps:
//!
//! 1. `process_gate::ProcessGate::call` starts the child.
//! 2. `asking::hand_over` gives it the bytes of the request, and closes its input.
//! 3. `reading::read_output` reads its output to the end, or until it is too long for an answer.
//! 4. `asking::finish` waits for its end, or gives it up where the output is too long.
//! 5. `meaning::answer_of` makes the answer of the output and the status.
#![tactic(auto)]

pub mod any_gate;
mod asking;
pub mod builtin;
mod meaning;
pub mod process_gate;
mod reading;

pub use any_gate::AnyGate;
pub use builtin::Builtin;
pub use process_gate::ProcessGate;
