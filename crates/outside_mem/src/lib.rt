//! The objects of the outside in memory tell what they hold, and fail at the calls that they are told to.
//!
//! They are `MemTree` (a project's folder), `MemShelf` and `MemRemote` (the repositories), `MemArea` (staging), `MemGate` (goals) and
//! `MemSink` (output). `shelf::MemShelf::image` makes what a stop may leave of a local repository.
#![tactic(auto)]

pub mod area;
pub mod calls;
pub mod gate;
mod images;
pub mod pieces;
mod reading;
pub mod remote;
pub mod shelf;
pub mod sink;
pub mod tree;

pub use area::MemArea;
pub use calls::{Calls, Failures, NoFailures};
pub use gate::MemGate;
pub use pieces::Piece;
pub use remote::{MemFile, MemRemote};
pub use shelf::MemShelf;
pub use sink::MemSink;
pub use tree::MemTree;
