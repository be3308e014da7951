//! One step of a lineage: where the parent is, whether it may stand, and the POM put over it.

ghost use Rattle.std.specs.Prelude.{◌≡◌, false, Err, option_map, IfOk};
ghost use Rattle.mvn_shared.specs.Cause.{HasCause};
ghost use Rattle.profiles.specs.Judging.{TellsOn};
ghost use Rattle.pom_source.specs.Answers.{Says, build_failed};
ghost use Rattle.pom_source.specs.Refusals.{gav_refused};
ghost use Rattle.pom_source.specs.Worlds.{World};
ghost use Rattle.pom_source.specs.declared.found.Given as givens;
ghost use Rattle.lineage.specs.declared.origin.Candidate.TheVariants.{Read};
ghost use Rattle.lineage.specs.Stores.{Holds, IsAt, KeepsLines, KeepsRead};
ghost use Rattle.lineage.specs.Lineage.{candidate, first_of, gav_of, has_range, is_in, next_poms, origin_of, packed, parent_at, parent_from, pom_of, put_over, text_of, top, unmet, unstated};

use crate::coordinates::pom_at;
use crate::{
    Candidate, Joined, Origin, Store, found_origin, has_expression, is_in, next_poms, raw_gav,
};
use inheritance::{inherit, super_pom};
use model_types::{Parent, RawModel};
use mvn_base::{Gav, PomId, Rule};
use mvn_shared::{List, Mem, Shared, Text};
use pom_source::{BuildFault, PomSource, gav_refused, text_refused};
use std::alloc::Global;

/// The POM whose lineage is built.
pub fn first_of<'a>(seen: &'a List<PomId>, pom: &'a PomId) -> &'a PomId
    ensures { result.now ≡ first_of seen.now pom.now }
{
    match seen.as_slice() {
        [first, ..] => first,
        [] => pom,
    }
}

/// The super POM, above all.
pub fn top(alloc: Global) -> Mem<Shared<Joined>>
    ensures { IfOk result (λ joined. joined ≡ top) }
{
    let model = super_pom(alloc)?;
    let poms = List::new(alloc);
    Shared::new(alloc, Joined { poms, model })
}

/// A POM over what it builds on. Costs both.
pub fn put_over(alloc: Global, pom: &PomId, raw: &RawModel, above: &Joined) -> Mem<Shared<Joined>>
    ensures { IfOk result (λ joined. joined ≡ put_over pom.now raw.now above.now) }
{
    let model = inherit(alloc, raw, &above.model)?;
    let poms = next_poms(&above.poms, pom)?;
    Shared::new(alloc, Joined { poms, model })
}

// Whether a version has a byte of a range.
fn has_range(version: &[u8]) -> bool
    ensures { result ≡ has_range version.now }
{
    version
        .iter()
        .any(|b| *b == b'[' || *b == b'(' || *b == b',')
}

// What may not stand in a parent's coordinates, with the rule.
#[tactic(auto, unfolding(crate::specs::Lineage::unstated))]
fn unstated(gav: &Gav) -> Option<(Rule, &Text)>
    ensures { option_map (λ e. (e.0, e.1.now)) result ≡ unstated gav.now }
{
    if has_expression(gav.group.as_bytes()) {
        Some((Rule::ParentExpression, &gav.group))
    } else if has_expression(gav.artifact.as_bytes()) {
        Some((Rule::ParentExpression, &gav.artifact))
    } else if has_expression(gav.version.as_bytes()) {
        Some((Rule::ParentExpression, &gav.version))
    } else if has_range(gav.version.as_bytes()) {
        Some((Rule::BadRange, &gav.version))
    } else {
        None
    }
}

/// Where a parent comes from, whose coordinates may stand. Costs the path, and the POM's bytes the first time.
#[tactic(auto, using(crate::proofs::Telling::untold))]
pub fn origin_of<P: PomSource>(
    alloc: Global,
    store: &mut Store,
    source: &mut P,
    child: &PomId,
    parent: &Parent,
) -> Result<Origin, BuildFault>
    ensures says { (world : World) (given : givens.Given) → P.fits_poms source.old world
        → Holds world given store.old → Says (origin_of world child.now parent.now) result }
    ensures at { (world : World) (given : givens.Given) → P.fits_poms source.old world
        → Holds world given store.old → IfOk result (IsAt world) }
    ensures fit { (world : World) → P.fits_poms source.old world → P.fits_poms source.new world }
    ensures same { TellsOn P.tells_same source.old source.new }
    ensures holds { (world : World) (given : givens.Given) → P.fits_poms source.old world
        → Holds world given store.old → Holds world given store.new }
    ensures keeps { KeepsRead store.old store.new }
    ensures keeps_lines { KeepsLines store.old store.new }
    ensures cause { HasCause (P.faults source.old) (P.faults source.new) (build_failed result) }
{
    match unstated(&parent.gav) {
        Some((rule, text)) => text_refused(child, rule, text),
        None => match found_origin(alloc, store, source, child, parent) {
            Ok(origin) => Ok(origin),
            Err(fault) => Err(fault),
        },
    }
}

// The coordinates that a refusal of a parent names.
fn gav_of(alloc: Global, origin: &Origin) -> Mem<Gav>
    ensures { IfOk result (λ gav. gav ≡ gav_of origin.now) }
{
    match origin {
        Origin::Beside(_, raw) => raw_gav(alloc, raw),
        Origin::Elsewhere(gav) => Ok(gav.clone()?),
    }
}

/// A refusal of a POM that names its parent's coordinates.
pub fn origin_refused<T>(
    alloc: Global,
    pom: &PomId,
    rule: Rule,
    origin: &Origin,
) -> Result<T, BuildFault>
    ensures says { Says (Err (gav_refused pom.now rule (gav_of origin.now))) result }
    ensures cause { build_failed result ≡ false }
{
    let gav = gav_of(alloc, origin)?;
    gav_refused(alloc, pom, rule, &gav)
}

/// Which POM was found. Constant time.
pub fn pom_of(found: &Candidate) -> &PomId
    ensures { result.now ≡ pom_of found.now }
{
    match found {
        Candidate::Read(raw) => raw.pom.value(),
        Candidate::Refused(pom, _) => pom,
    }
}

/// What a POM says that was found and read: its model, or its first refusal. Costs a copy of the refusal.
pub fn text_of(found: &Candidate) -> Result<Shared<RawModel>, BuildFault>
    ensures says { Says (text_of found.now) result }
    ensures cause { build_failed result ≡ false }
{
    match found {
        Candidate::Read(raw) => Ok(raw.share()?),
        Candidate::Refused(_, refusal) => Err(BuildFault::Refused(refusal.clone()?)),
    }
}

/// A parent, if its packaging is `pom`.
pub fn packed(
    alloc: Global,
    child: &PomId,
    origin: &Origin,
    raw: Shared<RawModel>,
) -> Result<Shared<RawModel>, BuildFault>
    ensures says { Says (packed child.now (gav_of origin.now) raw) result }
    ensures cause { build_failed result ≡ false }
{
    if raw.coordinates.packaging.as_str() == "pom" {
        return Ok(raw);
    }
    origin_refused(alloc, child, Rule::ParentPackaging, origin)
}

// A POM of the project that was found and read.
fn there(alloc: Global, raw: &Shared<RawModel>) -> Mem<Shared<Candidate>>
    ensures { IfOk result (λ found. found ≡ Read raw.now) }
{
    let raw = raw.share()?;
    Shared::new(alloc, Candidate::Read(raw))
}

// The POM of coordinates, which has to be there.
#[tactic(auto, using(crate::proofs::Telling::untold))]
fn parent_at<P: PomSource>(
    alloc: Global,
    store: &mut Store,
    source: &mut P,
    child: &PomId,
    gav: &Gav,
) -> Result<Shared<Candidate>, BuildFault>
    ensures says { (world : World) (given : givens.Given) → P.fits_poms source.old world
        → Holds world given store.old
        → Says (parent_at world child.now gav.now) result }
    ensures fit { (world : World) → P.fits_poms source.old world → P.fits_poms source.new world }
    ensures same { TellsOn P.tells_same source.old source.new }
    ensures holds { (world : World) (given : givens.Given) → P.fits_poms source.old world
        → Holds world given store.old → Holds world given store.new }
    ensures keeps { KeepsRead store.old store.new }
    ensures keeps_lines { KeepsLines store.old store.new }
    ensures cause { HasCause (P.faults source.old) (P.faults source.new) (build_failed result) }
{
    match pom_at(alloc, store, source, gav)? {
        Some(found) => Ok(found),
        None => gav_refused(alloc, child, Rule::ParentNotFound, gav),
    }
}

// The POM that an origin leads to.
#[tactic(auto, using(crate::proofs::Telling::untold))]
fn candidate<P: PomSource>(
    alloc: Global,
    store: &mut Store,
    source: &mut P,
    child: &PomId,
    origin: &Origin,
) -> Result<Shared<Candidate>, BuildFault>
    ensures says { (world : World) (given : givens.Given) → P.fits_poms source.old world
        → Holds world given store.old
        → Says (candidate world child.now origin.now) result }
    ensures fit { (world : World) → P.fits_poms source.old world → P.fits_poms source.new world }
    ensures same { TellsOn P.tells_same source.old source.new }
    ensures holds { (world : World) (given : givens.Given) → P.fits_poms source.old world
        → Holds world given store.old → Holds world given store.new }
    ensures keeps { KeepsRead store.old store.new }
    ensures keeps_lines { KeepsLines store.old store.new }
    ensures cause { HasCause (P.faults source.old) (P.faults source.new) (build_failed result) }
{
    match origin {
        Origin::Beside(_, raw) => Ok(there(alloc, raw)?),
        Origin::Elsewhere(gav) => match parent_at(alloc, store, source, child, gav) {
            Ok(found) => Ok(found),
            Err(fault) => Err(fault),
        },
    }
}

// A parent that wasn't met before.
fn unmet(
    alloc: Global,
    child: &PomId,
    seen: &List<PomId>,
    origin: &Origin,
    found: Shared<Candidate>,
) -> Result<Shared<Candidate>, BuildFault>
    ensures says { Says (unmet child.now seen.now (gav_of origin.now) found) result }
    ensures cause { build_failed result ≡ false }
{
    if is_in(pom_of(&found), seen) {
        return origin_refused(alloc, child, Rule::ParentCycle, origin);
    }
    Ok(found)
}

/// The parent that an origin leads to, which wasn't met before in its lineage. Costs the POM's bytes the first time.
#[tactic(auto, using(crate::proofs::Telling::untold))]
pub fn parent_from<P: PomSource>(
    alloc: Global,
    store: &mut Store,
    source: &mut P,
    child: &PomId,
    seen: &List<PomId>,
    origin: &Origin,
) -> Result<Shared<Candidate>, BuildFault>
    ensures says { (world : World) (given : givens.Given) → P.fits_poms source.old world
        → Holds world given store.old
        → Says (parent_from world child.now seen.now origin.now) result }
    ensures fit { (world : World) → P.fits_poms source.old world → P.fits_poms source.new world }
    ensures same { TellsOn P.tells_same source.old source.new }
    ensures holds { (world : World) (given : givens.Given) → P.fits_poms source.old world
        → Holds world given store.old → Holds world given store.new }
    ensures keeps { KeepsRead store.old store.new }
    ensures keeps_lines { KeepsLines store.old store.new }
    ensures cause { HasCause (P.faults source.old) (P.faults source.new) (build_failed result) }
{
    let found = candidate(alloc, store, source, child, origin)?;
    match unmet(alloc, child, seen, origin, found) {
        Ok(found) => Ok(found),
        Err(fault) => Err(fault),
    }
}
