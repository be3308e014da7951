//! A POM's bytes read into its model, or its first refusal.

ghost use Rattle.std.specs.Prelude.{◌≡◌, false, Err};
ghost use Rattle.mvn_base.specs.declared.refusal.Place.TheVariants.{Byte};
ghost use Rattle.pom_model.specs.Raw.{raw};
ghost use Rattle.pom_source.specs.Answers.{Says, build_failed, refused};
ghost use Rattle.pom_source.specs.declared.fault.BuildFault.TheVariants.{Refused};
ghost use Rattle.lineage.specs.Reading.{read};

use model_types::RawModel;
use mvn_base::{ModelError, Place, PomId, Refusal, Rule};
use mvn_shared::{Bytes, Shared};
use pom_model::read_model;
use pom_source::BuildFault;
use pom_text::{PomText, TextFault, read_text};
use std::alloc::Global;

// A refusal of a POM at a byte.
fn byte_refused<T>(pom: &PomId, rule: Rule, place: u64) -> Result<T, BuildFault>
    ensures says { Says
        (Err (Refused (record { pom = pom.now; rule = rule; place = Byte place }))) result }
    ensures cause { build_failed result ≡ false }
{
    let pom = pom.clone()?;
    Err(BuildFault::Refused(Refusal {
        pom,
        rule,
        place: Place::Byte(place),
    }))
}

// What the elements of a POM say.
fn of_text(alloc: Global, text: &PomText, pom: &PomId) -> Result<Shared<RawModel>, BuildFault>
    ensures says { Says (refused (raw text.now.nodes pom.now)) result }
    ensures cause { build_failed result ≡ false }
{
    match read_model(alloc, text, pom) {
        Ok(model) => Ok(Shared::new(alloc, model)?),
        Err(ModelError::Refused(refusal)) => Err(BuildFault::Refused(refusal)),
        Err(ModelError::Memory) => Err(BuildFault::Memory),
    }
}

/// What the bytes of a POM say, or its first refusal: of its text, and then of its elements in document order. Costs
/// the bytes. POM Reference.
#[tactic(auto, unfolding(crate::specs::Reading::read))]
pub fn read(alloc: Global, pom: &PomId, bytes: &Bytes) -> Result<Shared<RawModel>, BuildFault>
    ensures says { Says (read pom.now bytes.now) result }
    ensures cause { build_failed result ≡ false }
{
    match read_text(alloc, bytes.as_slice()) {
        Ok(text) => of_text(alloc, &text, pom),
        Err(TextFault::Refused { rule, place }) => byte_refused(pom, rule, place),
        Err(TextFault::Memory) => Err(BuildFault::Memory),
    }
}
