//! What may be wrong with a word, and how that is printed.

ghost use Rattle.std.specs.Prelude.{◌≡◌};
ghost use Rattle.cli_words.specs.declared.fault.WordError.TheVariants.{Fault};

use mvn_shared::OutOfMemory;
use std::fmt;
use thiserror::Error;

/// What is wrong with a word. Project rule.
#[derive(Clone, Copy, Debug)]
pub enum WordKind {
    UnknownWord,
    UnknownPhase,
    MissingValue,
    BadNumber,
    Repeated,
    TwoPhases,
    NoPhase,
    BadSelector,
    UnknownModule,
    TooManyWorkers,
    DeployPhase,
    NotUtf8,
}

impl WordKind {
    ghost use Rattle.std.specs.Prelude.{◌≡◌};
    ghost use Rattle.cli_words.specs.Faults.{kind_name};

    /// The name of the kind, as it is printed.
    #[tactic(auto, unfolding(crate::specs::Faults::kind_name))]
    pub fn name(self) -> &'static str
        ensures { result.now ≡ kind_name self }
    {
        match self {
            WordKind::UnknownWord => "UnknownWord",
            WordKind::UnknownPhase => "UnknownPhase",
            WordKind::MissingValue => "MissingValue",
            WordKind::BadNumber => "BadNumber",
            WordKind::Repeated => "Repeated",
            WordKind::TwoPhases => "TwoPhases",
            WordKind::NoPhase => "NoPhase",
            WordKind::BadSelector => "BadSelector",
            WordKind::UnknownModule => "UnknownModule",
            WordKind::TooManyWorkers => "TooManyWorkers",
            WordKind::DeployPhase => "DeployPhase",
            WordKind::NotUtf8 => "NotUtf8",
        }
    }
}

/// The first fault of a command line: the number of the word, from 0, and what is wrong there.
#[derive(Clone, Copy, Debug)]
pub struct WordFault {
    pub place: usize,
    pub kind: WordKind,
}

impl fmt::Display for WordFault {
    ghost use Rattle.std.specs.Prelude.{Some};
    ghost use Rattle.cli_words.specs.Faults.{fault_text};

    ghost output = { λ fault. Some (fault_text fault) };

    #[tactic(auto, unfolding(crate::specs::Faults::fault_text))]
    fn fmt<W: fmt::Write>(&self, f: &mut fmt::Formatter<W>) -> fmt::Result {
        let place = self.place;
        let name = self.kind.name();
        write!(f, "word {place} {name}")
    }
}

/// Why words have no meaning.
#[derive(Clone, Copy, Debug, Error)]
pub enum WordError {
    #[error("{0}")]
    Fault(WordFault),
    #[error("out of memory")]
    Memory,
}

impl From<OutOfMemory> for WordError {
    ghost use Rattle.std.specs.Prelude.{◌≡◌};
    ghost use Rattle.cli_words.specs.declared.fault.WordError.TheVariants.{Memory};

    ghost from_gives = { λ _ e. e ≡ Memory };

    fn from(_: OutOfMemory) -> Self {
        WordError::Memory
    }
}

/// The error of a fault. Constant time.
pub(crate) fn fault(place: usize, kind: WordKind) -> WordError
    ensures { result ≡ Fault (record { place = place; kind = kind }) }
{
    WordError::Fault(WordFault { place, kind })
}
