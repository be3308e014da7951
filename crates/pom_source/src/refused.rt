//! Refusals of a POM that name coordinates or a text.

ghost use Rattle.std.specs.Prelude.{◌≡◌, false, Err};
ghost use Rattle.pom_source.specs.Answers.{Says, build_failed};
ghost use Rattle.pom_source.specs.Refusals.{gav_refused, text_refused};

use crate::fault::BuildFault;
use mvn_base::{Gav, Place, PomId, Refusal, Rule};
use mvn_shared::Text;
use std::alloc::Global;

/// A refusal of a POM that names coordinates. Costs their length. Project rule.
pub fn gav_refused<T>(alloc: Global, pom: &PomId, rule: Rule, gav: &Gav) -> Result<T, BuildFault>
    ensures says { Says (Err (gav_refused pom.now rule gav.now)) result }
    ensures cause { build_failed result ≡ false }
{
    let pom = pom.clone()?;
    let place = Place::Name(Text::of(format!(in alloc; "{gav}")?));
    Err(BuildFault::Refused(Refusal { pom, rule, place }))
}

/// A refusal of a POM that names a text. Costs its length. Project rule.
pub fn text_refused<T>(pom: &PomId, rule: Rule, text: &Text) -> Result<T, BuildFault>
    ensures says { Says (Err (text_refused pom.now rule text.now)) result }
    ensures cause { build_failed result ≡ false }
{
    let pom = pom.clone()?;
    let place = Place::Name(text.clone()?);
    Err(BuildFault::Refused(Refusal { pom, rule, place }))
}
