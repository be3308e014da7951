//! The objects of the outside over real files and streams count each failure that they answer, and tell no bytes; they are trusted.
//!
//! They are `RealTree` (a project's folder), `RealShelf` and `RealRemote` (the repositories), `RealArea` (staging) and `RealSink` (output).
//! A file comes into the repository step by step:
//!
//! 1. `piece::new_piece` makes a new file in the staging folder, which this process holds locked.
//! 2. `writing::write_some` writes its bytes, and the area syncs them to the disk when the piece is sealed.
//! 3. `folders::make_folders` makes the folders of its name, and `settling::note_way` notes each folder on the way to it.
//! 4. `shelf::RealShelf::publish` renames the file over its name.
//! 5. `settling::sync_folders` brings the names of the noted folders to the disk.
#![tactic(auto)]

pub mod area;
pub mod count;
pub mod fault;
mod folders;
mod look;
pub mod paths;
mod piece;
pub mod reading;
pub mod reading_look;
pub mod remote;
mod settling;
pub mod shelf;
pub mod sink;
pub mod tree;
pub mod versions;
mod walk;
mod writing;

pub use area::RealArea;
pub use remote::RealRemote;
pub use shelf::RealShelf;
pub use sink::RealSink;
pub use tree::RealTree;
