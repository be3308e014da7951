//! The words of a command line are read into what they ask for, or into the first fault with its place.
//!
//! `whole::options` does it in these steps:
//!
//! 1. `reading::Line::next_word` takes one word after another into a `line::Line`.
//! 2. `spelling::spelled` says what a word stands for that begins with a hyphen.
//! 3. `values::Line::with_value` puts the value of an option into the line, read by the functions of `value`.
//! 4. `whole::Line::whole_line` wants a phase in the line, and no more workers than there are hands.
#![tactic(auto)]

mod command_line;
mod fault;
mod line;
mod reading;
mod spelling;
mod value;
mod values;
mod whole;

pub use command_line::{CommandLine, Word};
pub use fault::{WordError, WordFault, WordKind};
pub use line::{Count, Line};
pub use spelling::{Spelling, Wanted};
pub use whole::options;
