//! Reads one word of a command line after the words before it.

ghost use Rattle.std.specs.Prelude.{◌≡◌, ◌≤◌, true, is_some, Some, Ok};
ghost use Rattle.std.specs.Result.{MatchResult};
ghost use Rattle.cli_words.specs.Faults.{Answers, Refuses};
ghost use Rattle.cli_words.specs.Options.{is_there, joined_value, joined_word, next_value, next_word, option_word, other_word, phase_word, with_spelling};

use crate::fault::{WordError, WordKind, fault};
use crate::line::Line;
use crate::spelling::{Spelling, Wanted, spelled};
use crate::value::{name_of, text_of, value_of};
use mvn_base::{Phase, phase_of};
use std::alloc::Global;

impl Line {
    // Whether an option is there that may stand once.
    fn is_there(&self, wanted: Wanted) -> bool
        ensures { result ≡ is_there wanted self.now }
    {
        match wanted {
            Wanted::Workers => self.workers.is_some(),
            Wanted::ResumeFrom => self.from.is_some(),
            Wanted::Generated => self.generated.is_some(),
            Wanted::Profiles | Wanted::Define | Wanted::Projects => false,
        }
    }

    // An option with its value in one word.
    fn joined_value(
        self,
        alloc: Global,
        at: usize,
        wanted: Wanted,
        value: &str,
    ) -> Result<Line, WordError>
        ensures { Answers (joined_value at wanted value.now self) result }
    {
        let repeated = self.is_there(wanted);
        match self.with_value(alloc, at, wanted, value) {
            Err(error) => Err(error),
            Ok(_) if repeated => Err(fault(at, WordKind::Repeated)),
            Ok(line) => Ok(line),
        }
    }

    // The phase that a word is, where it may be the line's.
    fn new_phase(&self, at: usize, word: &str) -> Result<Phase, WordError>
        ensures { MatchResult result
            (λ phase. phase_word at word.now self.now ≡ Ok (record self.now { phase = Some phase }))
            (λ error. Refuses error (phase_word at word.now self.now)) }
    {
        match phase_of(word.as_bytes()) {
            None => Err(fault(at, WordKind::UnknownPhase)),
            Some(_) if self.phase.is_some() => Err(fault(at, WordKind::TwoPhases)),
            Some(Phase::Deploy) => Err(fault(at, WordKind::DeployPhase)),
            Some(phase) => Ok(phase),
        }
    }

    // A word without a hyphen.
    fn phase_word(mut self, at: usize, word: &str) -> Result<Line, WordError>
        ensures { Answers (phase_word at word.now self) result }
    {
        match self.new_phase(at, word) {
            Ok(phase) => {
                self.phase = Some(phase);
                Ok(self)
            }
            Err(error) => Err(error),
        }
    }

    // A phase, or an option of one letter with its value after it.
    #[tactic(auto, using(crate::proofs::Texts::third_boundary))]
    fn joined_word(self, alloc: Global, at: usize, word: &str) -> Result<Line, WordError>
        ensures { Answers (joined_word at word.now self) result }
    {
        match word.as_bytes() {
            [b'-', b'T', ..] => self.joined_value(alloc, at, Wanted::Workers, &word[2..]),
            [b'-', b'P', ..] => self.joined_value(alloc, at, Wanted::Profiles, &word[2..]),
            [b'-', b'D', ..] => self.joined_value(alloc, at, Wanted::Define, &word[2..]),
            [b'-', ..] => Err(fault(at, WordKind::UnknownWord)),
            _ => self.phase_word(at, word),
        }
    }

    // A word that isn't an option by itself.
    fn other_word(self, alloc: Global, at: usize, word: &str) -> Result<Line, WordError>
        ensures { Answers (other_word at word.now self) result }
    {
        match spelled(name_of(word)) {
            Some(Spelling::Takes(wanted)) => {
                self.joined_value(alloc, at, wanted, value_of(word))
            }
            _ => self.joined_word(alloc, at, word),
        }
    }

    // A word that is spelled exactly so.
    fn with_spelling(mut self, meant: Spelling) -> Line
        ensures { result ≡ with_spelling meant self }
    {
        match meant {
            Spelling::Takes(wanted) => self.awaits = Some(wanted),
            Spelling::AlsoMake => self.also_make = true,
            Spelling::AlsoMakeDependents => self.also_make_dependents = true,
            Spelling::Full => self.full = true,
            Spelling::NoEffect => {}
        }
        self
    }

    // A word where no value is awaited.
    fn option_word(self, alloc: Global, at: usize, word: &str) -> Result<Line, WordError>
        ensures { Answers (option_word at word.now self) result }
    {
        match spelled(word) {
            Some(meant) => Ok(self.with_spelling(meant)),
            None => self.other_word(alloc, at, word),
        }
    }

    // The value of the option before it.
    #[tactic(auto, unfolding(crate::specs::Options::next_value))]
    fn next_value(
        mut self,
        alloc: Global,
        at: usize,
        wanted: Wanted,
        value: &[u8],
    ) -> Result<Line, WordError>
        requires { 1 ≤ at }
        ensures { Answers (next_value at wanted value.now self) result }
    {
        if self.is_there(wanted) {
            return Err(fault(at - 1, WordKind::Repeated));
        }
        self.awaits = None;
        match text_of(value) {
            Some(value) => self.with_value(alloc, at, wanted, value),
            None => Err(fault(at, WordKind::NotUtf8)),
        }
    }

    /// One word more. Costs its length.
    #[tactic(auto, unfolding(crate::specs::Options::next_word))]
    pub(crate) fn next_word(self, alloc: Global, at: usize, word: &[u8]) -> Result<Line, WordError>
        requires { is_some self.awaits ≡ true → 1 ≤ at }
        ensures { Answers (next_word at word.now self) result }
    {
        match self.awaits {
            Some(wanted) => self.next_value(alloc, at, wanted, word),
            None => match text_of(word) {
                Some(word) => self.option_word(alloc, at, word),
                None => Err(fault(at, WordKind::NotUtf8)),
            },
        }
    }
}
