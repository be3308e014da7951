//! Gives the trait by which POMs are looked up, and the faults of a call that builds a model from them.
#![tactic(auto)]

mod fault;
mod found;
mod refused;
mod source;

pub use fault::BuildFault;
pub use found::{Found, Given};
pub use refused::{gav_refused, text_refused};
pub use source::PomSource;
