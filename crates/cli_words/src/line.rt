//! What the words of a command line that were read so far say.

use crate::command_line::Word;
use crate::spelling::Wanted;
use mvn_base::{Choice, Pair, Phase};
use mvn_shared::List;

/// A number of workers, and the word where it stands.
#[derive(Clone, Copy)]
pub struct Count {
    pub place: usize,
    pub value: u32,
}

/// What the words so far say.
#[derive(Drop)]
pub struct Line {
    /// The value that the next word is, where an option stands before it.
    pub awaits: Option<Wanted>,
    pub workers: Option<Count>,
    pub phase: Option<Phase>,
    pub choice: Choice,
    pub defines: List<Pair>,
    pub projects: List<Word>,
    pub also_make: bool,
    pub also_make_dependents: bool,
    pub from: Option<Word>,
    pub full: bool,
    pub generated: Option<u32>,
}
