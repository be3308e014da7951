//! `Lookup`: what is known of the POMs and versions of libraries, and why a look-up fails.

ghost use Rattle.std.specs.Prelude.{◌≡◌, ◌≤◌, ℕ, Ok, length, IfOk, IfSome};
ghost use Rattle.mvn_shared.specs.Cause.{HasCause};
ghost use Rattle.mediation.specs.Faults.{Says, is_faulty, lookup_failed};
ghost use Rattle.mediation.specs.Libraries.{Libraries};
ghost use Rattle.mediation.specs.Telling.{TellsOn};
ghost use Rattle.mvn_base.specs.Limits.{most_versions};

use crate::fault::MediationFault;
use crate::library::Library;
use mvn_base::{Gav, Rule};
use mvn_shared::{List, OutOfMemory, Text};
use thiserror::Error;

/// What is known of a coordinate's POM.
#[derive(Drop)]
pub enum Known {
    Model(Library),
    Missing,
    Refused(Rule),
}

/// Why a look-up has no answer.
#[derive(Clone, Copy, Debug, Error)]
pub enum LookupFault {
    #[error("the look-up failed")]
    Failed,
    #[error("out of memory")]
    Memory,
}

impl From<OutOfMemory> for LookupFault {
    ghost use Rattle.mediation.specs.declared.known.LookupFault.TheVariants.{Memory};

    ghost from_gives = { λ _ e. e ≡ Memory };

    fn from(_: OutOfMemory) -> Self {
        LookupFault::Memory
    }
}

/// What answers which POMs and versions of libraries there are, and may fail.
pub trait Lookup {
    /// The libraries that agree with all that it tells.
    ghost fits: { Self → Libraries → Type 0 };

    /// The faults so far. The count never falls.
    ghost faults: { Self → ℕ };

    /// Before a call and after it: what is asked is the same, and tells what it told.
    ghost tells_same: { Self → Self → Type 0 };

    /// What is known of a coordinate's POM.
    fn model(&mut self, gav: &Gav) -> Result<Known, LookupFault>
        ensures tells { (libraries : Libraries) → fits self.old libraries
            → IfOk result (λ known. known ≡ libraries.at gav.now) }
        ensures same { (libraries : Libraries) → fits self.old libraries → fits self.new libraries }
        ensures alike { tells_same self.old self.new }
        ensures cause { HasCause (faults self.old) (faults self.new) (lookup_failed result) };

    /// The available versions of an artifact, each once, ascending by bytes; `None` where there are more than 4,096.
    fn versions(&mut self, group: &Text, artifact: &Text) -> Result<Option<List<Text>>, LookupFault>
        ensures tells { (libraries : Libraries) → fits self.old libraries
            → IfOk result (λ list. list ≡ libraries.versions group.now artifact.now) }
        ensures few { IfOk result (λ list. IfSome list (λ all. length all ≤ most_versions)) }
        ensures same { (libraries : Libraries) → fits self.old libraries → fits self.new libraries }
        ensures alike { tells_same self.old self.new }
        ensures cause { HasCause (faults self.old) (faults self.new) (lookup_failed result) };
}

// What is known of a coordinate's POM, or the fault.
#[tactic(auto, using(crate::proofs::Telling::told_once))]
pub fn ask_model<L: Lookup>(lookup: &mut L, gav: &Gav) -> Result<Known, MediationFault>
    ensures tells { (libraries : Libraries) → L.fits lookup.old libraries
        → Says (Ok (libraries.at gav.now)) result }
    ensures same { (libraries : Libraries) → L.fits lookup.old libraries
        → L.fits lookup.new libraries }
    ensures alike { TellsOn L.tells_same lookup.old lookup.new }
    ensures cause { HasCause (L.faults lookup.old) (L.faults lookup.new) (is_faulty result) }
{
    match lookup.model(gav) {
        Ok(known) => Ok(known),
        Err(LookupFault::Failed) => Err(MediationFault::Lookup),
        Err(LookupFault::Memory) => Err(MediationFault::Memory),
    }
}

// The available versions of an artifact, or the fault.
#[tactic(auto, using(crate::proofs::Telling::told_once))]
pub fn ask_versions<L: Lookup>(
    lookup: &mut L,
    group: &Text,
    artifact: &Text,
) -> Result<Option<List<Text>>, MediationFault>
    ensures tells { (libraries : Libraries) → L.fits lookup.old libraries
        → Says (Ok (libraries.versions group.now artifact.now)) result }
    ensures few { IfOk result (λ list. IfSome list (λ all. length all ≤ most_versions)) }
    ensures same { (libraries : Libraries) → L.fits lookup.old libraries
        → L.fits lookup.new libraries }
    ensures alike { TellsOn L.tells_same lookup.old lookup.new }
    ensures cause { HasCause (L.faults lookup.old) (L.faults lookup.new) (is_faulty result) }
{
    match lookup.versions(group, artifact) {
        Ok(list) => Ok(list),
        Err(LookupFault::Failed) => Err(MediationFault::Lookup),
        Err(LookupFault::Memory) => Err(MediationFault::Memory),
    }
}
