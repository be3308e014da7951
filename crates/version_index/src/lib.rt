//! Writes and reads the index file of a library, which lists the versions of it that the repository holds.
//!
//! 1. `version_set` and `with_version` make sets of versions: ascending by bytes, each once.
//! 2. `index_text` writes the text of such a set, a line for each version.
//! 3. `read_index` reads it again, where bytes are such a text.
//! 4. `fits_index` says whether versions may make an index.
//! 5. `listed` gives what a repository lists, and `entered_text` the index with a further version.
#![tactic(auto)]

mod law;
mod listing;
mod lock;
mod reading;
mod set;
mod text;

pub use law::{entered_in_any_order, one_library, one_set, read_as_written};
pub use listing::{entered_text, listed};
pub use lock::index_lock;
pub use reading::read_index;
pub use set::{version_set, with_version};
pub use text::{MOST_INDEX, fits_index, index_text};
