//! A row of a program is read as fields, and its answer is spelled in printed bytes of ASCII.
//!
//! 1. `rows::fields` cuts a row into its fields, and `rows::texts` reads them as texts.
//! 2. `escapes::unescaped` reads the bytes that a field spells.
//! 3. `coordinates::gav` and `coordinates::file_name` make coordinates and names of files of fields.
//! 4. `words::word` makes an answer of a word, and `answers::escaped` spells an answer.
//!
//! No clause says what `gav`, `file_name` and `word` give, since the stored runs of the programs of rows do.
#![tactic(auto)]

mod answers;
mod coordinates;
mod escapes;
mod rows;
mod words;

pub use answers::escaped;
pub use coordinates::{file_name, gav};
pub use escapes::unescaped;
pub use rows::{fields, texts};
pub use words::word;
