//! Reads all words of a command line, and answers what they ask for.

ghost use Rattle.std.specs.Prelude.{◌≡◌, ◌≤◌, true, is_some};
ghost use Rattle.cli_words.specs.Faults.{Answers};
ghost use Rattle.cli_words.specs.Options.{command_line, no_words, options, whole_line, with_hands};

use crate::command_line::CommandLine;
use crate::fault::{WordError, WordKind, fault};
use crate::line::Line;
use mvn_base::{Choice, FailMode, Phase};
use mvn_shared::{Bytes, List};
use std::alloc::Global;

impl Line {
    // Before the first word.
    fn new(alloc: Global) -> Line
        ensures { result ≡ no_words }
    {
        Line {
            awaits: None,
            workers: None,
            phase: None,
            choice: Choice {
                on: List::new(alloc),
                off: List::new(alloc),
            },
            defines: List::new(alloc),
            projects: List::new(alloc),
            also_make: false,
            also_make_dependents: false,
            from: None,
            full: false,
            generated: None,
        }
    }

    // What is asked for, with this many workers.
    fn command_line(self, workers: u32, phase: Phase) -> CommandLine
        ensures { result ≡ command_line workers phase self }
    {
        CommandLine {
            workers,
            phase,
            choice: self.choice,
            defines: self.defines,
            projects: self.projects,
            also_make: self.also_make,
            also_make_dependents: self.also_make_dependents,
            from: self.from,
            mode: FailMode::AtEnd,
            tree: false,
            full: self.full,
            generated: self.generated,
        }
    }

    // How many workers are asked for, no more than there are hands.
    fn with_hands(self, hands: u32, phase: Phase) -> Result<CommandLine, WordError>
        ensures { Answers (with_hands hands phase self) result }
    {
        match self.workers {
            None => Ok(self.command_line(1, phase)),
            Some(count) if count.value > hands => Err(fault(count.place, WordKind::TooManyWorkers)),
            Some(count) => Ok(self.command_line(count.value, phase)),
        }
    }

    // What the line asks for after the last word.
    #[tactic(auto, unfolding(crate::specs::Options::whole_line))]
    fn whole_line(self, count: usize, hands: u32) -> Result<CommandLine, WordError>
        requires { is_some self.awaits ≡ true → 1 ≤ count }
        ensures { Answers (whole_line count hands self) result }
    {
        if self.awaits.is_some() {
            return Err(fault(count - 1, WordKind::MissingValue));
        }
        match self.phase {
            None => Err(fault(count, WordKind::NoPhase)),
            Some(phase) => self.with_hands(hands, phase),
        }
    }
}

/// What the words of a command line ask for, for this many hands; or the first fault from the left, and where it stands:
/// an option that Maven has and this program hasn't is an unknown word. Costs the words' length. Maven's command-line
/// options.
#[tactic(auto, unfolding(crate::specs::Options::options))]
pub fn options(alloc: Global, words: &[Bytes], hands: u32) -> Result<CommandLine, WordError>
    requires hands { (1 ≤ hands) × (hands ≤ 16) }
    ensures { Answers (options words.now hands) result }
{
    let mut line = Line::new(alloc);
    for at in 0..words.len() {
        match line.next_word(alloc, at, words[at].as_slice()) {
            Ok(more) => line = more,
            Err(error) => return Err(error),
        }
    }
    line.whole_line(words.len(), hands)
}
