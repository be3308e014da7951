//! The fields of a row spell the files of a project, as a source of POMs or as what a plan is made of, and what comes of them is told as
//! text.
//!
//! No call has a clause: the crate serves programs of rows alone, whose stored runs say what is right.
//!
//! 1. `source::put_row` puts the files of a row into a source of POMs; `files::put_fields` puts those of a plan by where they stand, and
//!    `sizes` makes projects of so many modules or sources.
//! 2. `given::line` reads the words of a command line, and `given::given_by` and `given::describe` say what a machine gives.
//! 3. `shown::push_plan` tells a plan, and `told` tells numbers, words, refusals and faults.
#![tactic(auto)]

mod files;
mod given;
mod modules;
mod poms;
mod shown;
mod sizes;
mod source;
mod told;

pub use files::{Files, no_files, put_fields};
pub use given::{describe, given_by, line, no_given};
pub use shown::{Shown, push_plan};
pub use sizes::{put_many, put_wide};
pub use source::{Project, empty, put_row};
pub use told::{push_fault, push_no_memory, push_number, push_refusal, push_unknown, push_word};
