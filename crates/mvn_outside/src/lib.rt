//! Gives everything outside the program as traits, with what each call leaves and why it fails, and publishes files in
//! the local repository.
//!
//! 1. `staging::stage` writes a file's bytes to a new piece of a worker's staging area, and seals it.
//! 2. `publishing::put` gives a name in the local repository the whole bytes of a sealed piece.
//! 3. `publishing::settle` settles what was published, so that it stays through a stop.
#![tactic(auto)]

pub mod area;
pub mod fault;
pub mod files;
pub mod gate;
pub mod hand;
pub mod publishing;
pub mod remote;
pub mod shelf;
pub mod sink;
pub mod staging;
pub mod tree;
pub mod versions;

pub use area::Area;
pub use fault::{DeviceFault, ListFault, ReadFault};
pub use files::Files;
pub use gate::Gate;
pub use hand::Hand;
pub use publishing::{put, settle};
pub use remote::Remote;
pub use shelf::{Published, Shelf, ShelfTold};
pub use sink::{Sink, write_all};
pub use staging::{stage, sweep};
pub use tree::Tree;
pub use versions::list_versions;
