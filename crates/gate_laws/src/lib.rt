//! Where all gates tell one function, a build keeps the answers that the sequential build gets of that function.
//!
//! The one law `gates::one_function_answers` does nothing, and has what holds as its clauses. It says of answers what
//! `run_law::run_confluence` takes as given: which they are. A gate that tells nothing, as one of child processes, is
//! outside of it.
#![tactic(auto)]

pub mod gates;

pub use gates::one_function_answers;
