//! Lists of the POMs that a lineage has met.

ghost use Rattle.std.specs.Prelude.{◌≡◌, IfOk};
ghost use Rattle.lineage.specs.Lineage.{is_in, next_poms};
ghost use Rattle.lineage.specs.Stores.{meets};

use mvn_base::PomId;
use mvn_shared::{List, Mem};

/// Whether a POM is among some. Costs a comparison with each.
pub fn is_in(pom: &PomId, poms: &List<PomId>) -> bool
    ensures { result ≡ is_in pom.now poms.now }
{
    poms.as_slice().iter().any(|other| other == pom)
}

/// POMs and one more. Costs all of them.
pub fn next_poms(poms: &List<PomId>, pom: &PomId) -> Mem<List<PomId>>
    ensures { IfOk result (λ more. more ≡ next_poms poms.now pom.now) }
{
    let mut more = poms.clone()?;
    more.push(pom.clone()?)?;
    Ok(more)
}

/// Whether one of the POMs is among the others. Costs a comparison of each with each.
pub fn meets(poms: &List<PomId>, seen: &List<PomId>) -> bool
    ensures { result ≡ meets poms.now seen.now }
{
    poms.as_slice().iter().any(|pom| is_in(pom, seen))
}
