//! Streams and children in memory tell what they hold, and fail at the calls that they are told to.
#![tactic(auto)]

mod front;
mod records;
pub mod source;
pub mod spawner;

pub use source::MemSource;
pub use spawner::{ChildScript, MemSpawner};
