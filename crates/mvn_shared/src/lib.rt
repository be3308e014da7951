//! The types that every crate of `mvn` shares: texts, bytes, lists, files by name and shared values as contracts see
//! them, and the error for want of memory.
#![tactic(auto)]

pub mod bytes;
pub mod file_map;
mod held;
pub mod list;
pub mod memory;
mod part;
pub mod shared;
pub mod text;

pub use bytes::Bytes;
pub use file_map::FileMap;
pub use list::List;
pub use memory::{Mem, OutOfMemory};
pub use shared::Shared;
pub use text::{Text, TextError};
