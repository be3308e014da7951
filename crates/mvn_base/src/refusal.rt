//! A refusal of a project: the POM, the rule that it doesn't meet, and the place.

ghost use Rattle.std.specs.Prelude.{◌≡◌};

use crate::gav::Gav;
use crate::rule::Rule;
use mvn_shared::Text;
use std::alloc::AllocError;
use std::fmt;

/// Which POM is meant: one of the project, by its path, or one of a repository, by its coordinate.
#[derive(Debug, Drop, PartialEq, Eq)]
pub enum PomId {
    Path(Text),
    Gav(Gav),
}

/// Where in a POM a rule isn't met: at a byte of its text, or at what is named.
#[derive(Clone, Debug, Drop, PartialEq, Eq)]
pub enum Place {
    Byte(u64),
    Name(Text),
}

/// A refusal of the project: the POM, the rule and the place.
#[derive(Clone, Debug, Drop, PartialEq, Eq)]
pub struct Refusal {
    pub pom: PomId,
    pub rule: Rule,
    pub place: Place,
}

impl Clone for PomId {
    ghost is_clone = { λ pom copy. copy ≡ pom };

    fn clone(&self) -> Result<PomId, AllocError> {
        match self {
            PomId::Path(path) => Ok(PomId::Path(path.clone()?)),
            PomId::Gav(gav) => Ok(PomId::Gav(gav.clone()?)),
        }
    }
}

impl fmt::Display for PomId {
    ghost use Rattle.std.specs.Prelude.{Some};
    ghost use Rattle.mvn_base.specs.Refusal.{pom_text};

    ghost output = { λ pom. Some (pom_text pom) };

    #[tactic(auto, unfolding(crate::specs::Refusal::pom_text))]
    fn fmt<W: fmt::Write>(&self, f: &mut fmt::Formatter<W>) -> fmt::Result {
        match self {
            PomId::Path(path) => write!(f, "{path}"),
            PomId::Gav(gav) => write!(f, "{gav}"),
        }
    }
}

impl fmt::Display for Place {
    ghost use Rattle.std.specs.Prelude.{Some};
    ghost use Rattle.mvn_base.specs.Refusal.{place_text};

    ghost output = { λ place. Some (place_text place) };

    #[tactic(auto, unfolding(crate::specs::Refusal::place_text))]
    fn fmt<W: fmt::Write>(&self, f: &mut fmt::Formatter<W>) -> fmt::Result {
        match self {
            Place::Byte(at) => write!(f, "{at}"),
            Place::Name(name) => write!(f, "{name}"),
        }
    }
}

impl fmt::Display for Refusal {
    ghost use Rattle.std.specs.Prelude.{Some};
    ghost use Rattle.mvn_base.specs.Refusal.{refusal_text};

    ghost output = { λ refusal. Some (refusal_text refusal) };

    #[tactic(auto, unfolding(crate::specs::Refusal::refusal_text))]
    fn fmt<W: fmt::Write>(&self, f: &mut fmt::Formatter<W>) -> fmt::Result {
        let pom = &self.pom;
        let rule = &self.rule;
        let place = &self.place;
        write!(f, "refused {pom} rule {rule} at {place}")
    }
}
