//! Streams that are read and children that are started are traits here, with objects over the system, which count each failure they answer.
//!
//! The objects over the system, `RealSource` and `RealSpawner`, are trusted, and tell no bytes. What a child doesn't read any more is
//! dropped, and that is no failure. A child is used in these steps, all of them calls of `spawner::Spawner`:
//!
//! 1. `start` starts it.
//! 2. `write` gives it bytes, and `close_input` closes its input.
//! 3. `read` reads its output.
//! 4. `wait` waits for its end, or `drop_child` gives it up.
#![tactic(auto)]

mod child;
mod count;
pub mod fault;
mod pipes;
pub mod real_source;
pub mod real_spawner;
pub mod source;
pub mod spawner;

pub use fault::Failed;
pub use real_source::RealSource;
pub use real_spawner::RealSpawner;
pub use source::Source;
pub use spawner::{ChildRecord, Spawner};
