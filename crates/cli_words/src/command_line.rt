//! `CommandLine`: what a command line asks for, and `Word`, a selector of modules.

use mvn_base::{Choice, FailMode, Pair, Phase};
use mvn_shared::{List, Text};

/// A selector of modules, and the number of the word where it stands. Guide to Working with Multiple Modules.
#[derive(Drop)]
pub struct Word {
    pub place: usize,
    pub text: Text,
}

/// What a command line asks for.
#[derive(Drop)]
pub struct CommandLine {
    /// How many modules may be built at once, 1 where nothing is said. Parallel Builds in Maven 3.
    pub workers: u32,
    /// The last phase that runs. Introduction to the Build Lifecycle.
    pub phase: Phase,
    pub choice: Choice,
    /// The properties that are given, in the order of the words: of one name the last counts.
    pub defines: List<Pair>,
    /// The selectors of modules; all modules where there is none. Guide to Working with Multiple Modules.
    pub projects: List<Word>,
    /// Whether what the selected modules stand on is built too.
    pub also_make: bool,
    /// Whether what stands on the selected modules is built too.
    pub also_make_dependents: bool,
    /// The module from which on is built.
    pub from: Option<Word>,
    /// What is built once a module has failed. No word chooses it yet, so it is `AtEnd`.
    pub mode: FailMode,
    /// Whether the report has the dependency tree. No word asks for it yet, so it is false.
    pub tree: bool,
    /// Whether the report has the full lines. Own word.
    pub full: bool,
    /// How many POMs the generated project has that is built in place of the folder's, 1 to 1,024. Project word.
    pub generated: Option<u32>,
}
