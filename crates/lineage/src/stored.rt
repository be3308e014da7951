//! The lineage of a POM, built from its parents up to the super POM and kept in the store.

ghost use Rattle.std.specs.Prelude.{◌≡◌, [], true, Ok, Some, codes, is_some, IfOk, IfSome, OnOk};
ghost use Rattle.std.specs.Str.{bytes_eq};
ghost use Rattle.mvn_shared.specs.Cause.{HasCause};
ghost use Rattle.profiles.specs.Judging.{TellsOn};
ghost use Rattle.pom_source.specs.Answers.{Says, build_failed};
ghost use Rattle.pom_source.specs.Worlds.{World};
ghost use Rattle.lineage.specs.declared.origin.Origin.TheVariants.{Beside};
ghost use Rattle.lineage.specs.Beside.{read_at};
ghost use Rattle.lineage.specs.Lineage.{above, entered, gav_of, joined_from, joined_up, line, lineage, next_poms};
ghost use Rattle.lineage.specs.Reading.{active_places};
ghost use Rattle.lineage.specs.Stores.{Holds, IsAt, KeepsLines, KeepsParent, KeepsRead, LedThere, line_in, serves};

use crate::{
    Candidate, Joined, Origin, Store, active_at, active_from, active_places, first_of, next_poms,
    origin_of, origin_refused, packed, parent_from, put_over, text_of, top,
};
use model_types::{Parent, RawModel};
use mvn_base::{PomId, Rule};
use mvn_shared::{List, Mem, Shared, Text};
use pom_source::{BuildFault, Given, PomSource};
use profiles::inject;
use std::alloc::Global;

// What is built on from a parent's origin on, at most `left` POMs; kept, or built and then kept.
#[cycle(stored)]
#[tactic(auto, using(crate::proofs::Telling::untold, crate::proofs::Keeping::is_kept, crate::proofs::Kept::served_there, crate::proofs::Kept::untouched_line))]
fn joined_from<P: PomSource>(
    alloc: Global,
    store: &mut Store,
    source: &mut P,
    given: &Given,
    left: u32,
    child: &PomId,
    seen: &List<PomId>,
    origin: &Origin,
) -> Result<Shared<Joined>, BuildFault>
    ensures says { (world : World) → P.fits_poms source.old world → Holds world given.now store.old
        → IsAt world origin.now
        → Says (joined_from world given.now left child.now seen.now origin.now) result }
    ensures fit { (world : World) → P.fits_poms source.old world → P.fits_poms source.new world }
    ensures same { TellsOn P.tells_same source.old source.new }
    ensures holds { (world : World) → P.fits_poms source.old world → Holds world given.now store.old
        → IsAt world origin.now → Holds world given.now store.new }
    ensures kept { OnOk result (is_some (line_in store.new origin.now) ≡ true) }
    ensures unasked { IfSome (line_in store.old origin.now) (λ line.
        serves left seen.now line ≡ true → source.new ≡ source.old) }
    ensures keeps { KeepsRead store.old store.new }
    ensures keeps_lines { KeepsLines store.old store.new }
    ensures cause { HasCause (P.faults source.old) (P.faults source.new) (build_failed result) }
{
    if let Some(kept) = store.find_line(left, seen, origin)? {
        return Ok(kept);
    }
    let line = match fresh(alloc, store, source, given, left, child, seen, origin) {
        Ok(line) => line,
        Err(fault) => return Err(fault),
    };
    store.keep_line(origin, &line)?;
    Ok(line)
}

// What is built on from a parent's origin on, if it isn't kept.
#[cycle(stored)]
#[tactic(auto, using(crate::proofs::Telling::told_both, crate::proofs::Judging::led_there, crate::proofs::Joining::joined_stops, crate::proofs::Joining::joined_zero, crate::proofs::Joining::joined_more))]
fn fresh<P: PomSource>(
    alloc: Global,
    store: &mut Store,
    source: &mut P,
    given: &Given,
    left: u32,
    child: &PomId,
    seen: &List<PomId>,
    origin: &Origin,
) -> Result<Shared<Joined>, BuildFault>
    ensures says { (world : World) → P.fits_poms source.old world → Holds world given.now store.old
        → IsAt world origin.now
        → Says (joined_from world given.now left child.now seen.now origin.now) result }
    ensures fit { (world : World) → P.fits_poms source.old world → P.fits_poms source.new world }
    ensures same { TellsOn P.tells_same source.old source.new }
    ensures holds { (world : World) → P.fits_poms source.old world → Holds world given.now store.old
        → IsAt world origin.now → Holds world given.now store.new }
    ensures keeps { KeepsRead store.old store.new }
    ensures keeps_lines { KeepsLines store.old store.new }
    ensures cause { HasCause (P.faults source.old) (P.faults source.new) (build_failed result) }
{
    let found = match parent_from(alloc, store, source, child, seen, origin) {
        Ok(found) => found,
        Err(fault) => return Err(fault),
    };
    if left == 0 {
        return origin_refused(alloc, first_of(seen, child), Rule::LineageTooLong, origin);
    }
    entered(
        alloc,
        store,
        source,
        given,
        left - 1,
        child,
        seen,
        origin,
        &found,
    )
}

// A parent that was found, and what it builds on.
#[cycle(stored)]
#[tactic(auto, using(crate::proofs::Telling::told_both, crate::proofs::Telling::untold, crate::proofs::Judging::packed_there, crate::proofs::Judging::are_places, crate::proofs::Judging::never_refused))]
fn entered<P: PomSource>(
    alloc: Global,
    store: &mut Store,
    source: &mut P,
    given: &Given,
    left: u32,
    child: &PomId,
    seen: &List<PomId>,
    origin: &Origin,
    found: &Candidate,
) -> Result<Shared<Joined>, BuildFault>
    ensures says { (world : World) → P.fits_poms source.old world → Holds world given.now store.old
        → LedThere world origin.now found.now
        → Says (entered world given.now (joined_up world given.now left) child.now seen.now
        (gav_of origin.now) found.now) result }
    ensures fit { (world : World) → P.fits_poms source.old world → P.fits_poms source.new world }
    ensures same { TellsOn P.tells_same source.old source.new }
    ensures holds { (world : World) → P.fits_poms source.old world → Holds world given.now store.old
        → LedThere world origin.now found.now → Holds world given.now store.new }
    ensures keeps { KeepsRead store.old store.new }
    ensures keeps_lines { KeepsLines store.old store.new }
    ensures cause { HasCause (P.faults source.old) (P.faults source.new) (build_failed result) }
{
    let raw = text_of(found)?;
    let raw = packed(alloc, child, origin, raw)?;
    let places = match active_from(alloc, store, source, given, origin, &raw) {
        Ok(places) => places,
        Err(fault) => return Err(fault),
    };
    match line(alloc, store, source, given, left, seen, &raw, &places) {
        Ok(line) => Ok(line),
        Err(fault) => Err(fault),
    }
}

// A POM with its profiles at some places, and what it builds on.
#[cycle(stored)]
#[tactic(auto, using(crate::proofs::Judging::line_gives))]
fn line<P: PomSource>(
    alloc: Global,
    store: &mut Store,
    source: &mut P,
    given: &Given,
    left: u32,
    seen: &List<PomId>,
    raw: &Shared<RawModel>,
    places: &List<usize>,
) -> Result<Shared<Joined>, BuildFault>
    ensures says { (world : World) → P.fits_poms source.old world → Holds world given.now store.old
        → places.now ≡ active_places given.now world.there raw.now
        → Says (line world given.now (joined_up world given.now left) seen.now raw.now) result }
    ensures fit { (world : World) → P.fits_poms source.old world → P.fits_poms source.new world }
    ensures same { TellsOn P.tells_same source.old source.new }
    ensures holds { (world : World) → P.fits_poms source.old world → Holds world given.now store.old
        → Holds world given.now store.new }
    ensures kept { (world : World) → P.fits_poms source.old world → Holds world given.now store.old
        → OnOk result (KeepsParent world store.new raw.now.pom raw.now.parent) }
    ensures keeps { KeepsRead store.old store.new }
    ensures keeps_lines { KeepsLines store.old store.new }
    ensures cause { HasCause (P.faults source.old) (P.faults source.new) (build_failed result) }
{
    let above = above(
        alloc,
        store,
        source,
        given,
        left,
        &raw.pom,
        seen,
        &raw.parent,
    )?;
    let own = inject(alloc, raw, places.as_slice())?;
    Ok(put_over(alloc, &raw.pom, &own, &above)?)
}

// What a POM builds on, by its parent, with the POMs up to it.
#[cycle(stored)]
#[tactic(auto, using(crate::proofs::Telling::told_both, crate::proofs::Telling::untold, crate::proofs::Kept::parent_kept))]
fn from_parent<P: PomSource>(
    alloc: Global,
    store: &mut Store,
    source: &mut P,
    given: &Given,
    left: u32,
    pom: &PomId,
    seen: &List<PomId>,
    parent: &Parent,
) -> Result<Shared<Joined>, BuildFault>
    ensures says { (world : World) → P.fits_poms source.old world → Holds world given.now store.old
        → Says (above (joined_up world given.now left pom.now seen.now) (Some parent.now)) result }
    ensures fit { (world : World) → P.fits_poms source.old world → P.fits_poms source.new world }
    ensures same { TellsOn P.tells_same source.old source.new }
    ensures holds { (world : World) → P.fits_poms source.old world → Holds world given.now store.old
        → Holds world given.now store.new }
    ensures kept { (world : World) → P.fits_poms source.old world → Holds world given.now store.old
        → OnOk result (KeepsParent world store.new pom.now (Some parent.now)) }
    ensures keeps { KeepsRead store.old store.new }
    ensures keeps_lines { KeepsLines store.old store.new }
    ensures cause { HasCause (P.faults source.old) (P.faults source.new) (build_failed result) }
{
    let origin = origin_of(alloc, store, source, pom, parent)?;
    match joined_from(alloc, store, source, given, left, pom, seen, &origin) {
        Ok(line) => Ok(line),
        Err(fault) => Err(fault),
    }
}

// What a POM builds on, by its parent.
#[cycle(stored)]
#[tactic(auto, using(crate::proofs::Telling::untold, crate::proofs::Kept::no_parent_kept))]
fn above<P: PomSource>(
    alloc: Global,
    store: &mut Store,
    source: &mut P,
    given: &Given,
    left: u32,
    pom: &PomId,
    seen: &List<PomId>,
    parent: &Option<Shared<Parent>>,
) -> Result<Shared<Joined>, BuildFault>
    ensures says { (world : World) → P.fits_poms source.old world → Holds world given.now store.old
        → Says (above (joined_up world given.now left pom.now (next_poms seen.now pom.now))
        parent.now) result }
    ensures fit { (world : World) → P.fits_poms source.old world → P.fits_poms source.new world }
    ensures same { TellsOn P.tells_same source.old source.new }
    ensures holds { (world : World) → P.fits_poms source.old world → Holds world given.now store.old
        → Holds world given.now store.new }
    ensures kept { (world : World) → P.fits_poms source.old world → Holds world given.now store.old
        → OnOk result (KeepsParent world store.new pom.now parent.now) }
    ensures keeps { KeepsRead store.old store.new }
    ensures keeps_lines { KeepsLines store.old store.new }
    ensures cause { HasCause (P.faults source.old) (P.faults source.new) (build_failed result) }
{
    match parent {
        None => Ok(top(alloc)?),
        Some(parent) => {
            let seen = next_poms(seen, pom)?;
            match from_parent(alloc, store, source, given, left, pom, &seen, parent) {
                Ok(line) => Ok(line),
                Err(fault) => Err(fault),
            }
        }
    }
}

// A POM with its profiles at some places, over all that it builds on.
fn with_places<P: PomSource>(
    alloc: Global,
    store: &mut Store,
    source: &mut P,
    given: &Given,
    raw: &Shared<RawModel>,
    places: &List<usize>,
) -> Result<Shared<Joined>, BuildFault>
    ensures says { (world : World) → P.fits_poms source.old world → Holds world given.now store.old
        → places.now ≡ active_places given.now world.there raw.now
        → Says (lineage world given.now raw.now) result }
    ensures fit { (world : World) → P.fits_poms source.old world → P.fits_poms source.new world }
    ensures same { TellsOn P.tells_same source.old source.new }
    ensures holds { (world : World) → P.fits_poms source.old world → Holds world given.now store.old
        → Holds world given.now store.new }
    ensures kept { (world : World) → P.fits_poms source.old world → Holds world given.now store.old
        → OnOk result (KeepsParent world store.new raw.now.pom raw.now.parent) }
    ensures keeps { KeepsRead store.old store.new }
    ensures keeps_lines { KeepsLines store.old store.new }
    ensures cause { HasCause (P.faults source.old) (P.faults source.new) (build_failed result) }
{
    let none = List::new(alloc);
    match line(alloc, store, source, given, 31, &none, raw, places) {
        Ok(line) => Ok(line),
        Err(fault) => Err(fault),
    }
}

/// A POM with its active profiles, over all that it builds on: its parents, each with its own profiles, and the super
/// POM. Or the first refusal, from the POM up: an expression or a range in a parent's coordinates; a POM at its path
/// that has no model; a parent that isn't found; one that was met before; the 33rd POM, which names the first; what the
/// parent's text breaks; and a parent whose packaging isn't `pom`. `Source` comes only if the source's count of faults
/// rose. Costs the models that are joined, and the bytes of each POM on the way the first time. POM Reference,
/// "Inheritance"; limits are project rules.
#[tactic(auto, using(crate::proofs::Telling::told_both, crate::proofs::Judging::are_places, crate::proofs::Judging::never_refused))]
pub fn lineage<P: PomSource>(
    alloc: Global,
    store: &mut Store,
    source: &mut P,
    given: &Given,
    raw: &Shared<RawModel>,
) -> Result<Shared<Joined>, BuildFault>
    ensures says { (world : World) → P.fits_poms source.old world → Holds world given.now store.old
        → Says (lineage world given.now raw.now) result }
    ensures fit { (world : World) → P.fits_poms source.old world → P.fits_poms source.new world }
    ensures same { TellsOn P.tells_same source.old source.new }
    ensures holds { (world : World) → P.fits_poms source.old world → Holds world given.now store.old
        → Holds world given.now store.new }
    ensures kept { (world : World) → P.fits_poms source.old world → Holds world given.now store.old
        → OnOk result (KeepsParent world store.new raw.now.pom raw.now.parent) }
    ensures keeps { KeepsRead store.old store.new }
    ensures keeps_lines { KeepsLines store.old store.new }
    ensures cause { HasCause (P.faults source.old) (P.faults source.new) (build_failed result) }
{
    let places = match active_places(alloc, source, given, raw) {
        Ok(places) => places,
        Err(fault) => return Err(fault),
    };
    with_places(alloc, store, source, given, raw, &places)
}

// Whether a POM may be a parent.
fn is_parent(raw: &RawModel) -> bool
    ensures { result ≡ bytes_eq raw.now.coordinates.packaging (codes "pom") }
{
    raw.coordinates.packaging.as_str() == "pom"
}

// The POM at a path of the project, as a parent is found there.
fn beside(path: &Text, raw: &Shared<RawModel>) -> Mem<Origin>
    ensures { IfOk result (λ origin. origin ≡ Beside path.now raw.now) }
{
    let path = path.clone()?;
    Ok(Origin::Beside(path, raw.share()?))
}

// What a POM comes to as a parent of this origin, where no other was met: kept, or built and then kept.
fn from_origin<P: PomSource>(
    alloc: Global,
    store: &mut Store,
    source: &mut P,
    given: &Given,
    child: &PomId,
    origin: &Origin,
) -> Result<Shared<Joined>, BuildFault>
    ensures says { (world : World) → P.fits_poms source.old world → Holds world given.now store.old
        → IsAt world origin.now
        → Says (joined_from world given.now 32 child.now [] origin.now) result }
    ensures fit { (world : World) → P.fits_poms source.old world → P.fits_poms source.new world }
    ensures same { TellsOn P.tells_same source.old source.new }
    ensures holds { (world : World) → P.fits_poms source.old world → Holds world given.now store.old
        → IsAt world origin.now → Holds world given.now store.new }
    ensures kept { OnOk result (is_some (line_in store.new origin.now) ≡ true) }
    ensures unasked { IfSome (line_in store.old origin.now) (λ line.
        serves 32 [] line ≡ true → source.new ≡ source.old) }
    ensures keeps { KeepsRead store.old store.new }
    ensures keeps_lines { KeepsLines store.old store.new }
    ensures cause { HasCause (P.faults source.old) (P.faults source.new) (build_failed result) }
{
    let none = List::new(alloc);
    match joined_from(alloc, store, source, given, 32, child, &none, origin) {
        Ok(line) => Ok(line),
        Err(fault) => Err(fault),
    }
}

// What a POM at a path comes to as a parent: kept, or built and then kept.
#[tactic(auto, using(crate::proofs::Joining::at_path, crate::proofs::Joining::as_parent, crate::proofs::Telling::untold))]
fn as_parent<P: PomSource>(
    alloc: Global,
    store: &mut Store,
    source: &mut P,
    given: &Given,
    path: &Text,
    raw: &Shared<RawModel>,
) -> Result<Shared<Joined>, BuildFault>
    requires parent { bytes_eq raw.now.coordinates.packaging (codes "pom") ≡ true }
    ensures says { (world : World) → P.fits_poms source.old world → Holds world given.now store.old
        → read_at world path.now ≡ Ok (Some raw.now)
        → Says (lineage world given.now raw.now) result }
    ensures fit { (world : World) → P.fits_poms source.old world → P.fits_poms source.new world }
    ensures same { TellsOn P.tells_same source.old source.new }
    ensures holds { (world : World) → P.fits_poms source.old world → Holds world given.now store.old
        → read_at world path.now ≡ Ok (Some raw.now) → Holds world given.now store.new }
    ensures kept { OnOk result (is_some (line_in store.new (Beside path.now raw.now)) ≡ true) }
    ensures unasked { IfSome (line_in store.old (Beside path.now raw.now)) (λ line.
        serves 32 [] line ≡ true → source.new ≡ source.old) }
    ensures keeps { KeepsRead store.old store.new }
    ensures keeps_lines { KeepsLines store.old store.new }
    ensures cause { HasCause (P.faults source.old) (P.faults source.new) (build_failed result) }
{
    let origin = beside(path, raw)?;
    match from_origin(alloc, store, source, given, &raw.pom, &origin) {
        Ok(line) => Ok(line),
        Err(fault) => Err(fault),
    }
}

// What `lineage` answers of the POM at a path of the project.
#[tactic(auto, using(crate::proofs::Telling::told_both, crate::proofs::Judging::are_places, crate::proofs::Judging::never_refused))]
fn by_itself<P: PomSource>(
    alloc: Global,
    store: &mut Store,
    source: &mut P,
    given: &Given,
    path: &Text,
    raw: &Shared<RawModel>,
) -> Result<Shared<Joined>, BuildFault>
    ensures says { (world : World) → P.fits_poms source.old world → Holds world given.now store.old
        → read_at world path.now ≡ Ok (Some raw.now)
        → Says (lineage world given.now raw.now) result }
    ensures fit { (world : World) → P.fits_poms source.old world → P.fits_poms source.new world }
    ensures same { TellsOn P.tells_same source.old source.new }
    ensures holds { (world : World) → P.fits_poms source.old world → Holds world given.now store.old
        → read_at world path.now ≡ Ok (Some raw.now) → Holds world given.now store.new }
    ensures keeps { KeepsRead store.old store.new }
    ensures keeps_lines { KeepsLines store.old store.new }
    ensures cause { HasCause (P.faults source.old) (P.faults source.new) (build_failed result) }
{
    let places = match active_at(alloc, store, source, given, path, raw) {
        Ok(places) => places,
        Err(fault) => return Err(fault),
    };
    with_places(alloc, store, source, given, raw, &places)
}

/// What `lineage` answers of the POM at a path of the project, where `raw` is what was read at this path. What a POM of
/// packaging `pom` comes to stays in the store as that of a parent, and is taken from there, so that a module that is a
/// parent, too, is joined once in a run, with its profiles. Which of its profiles are active is taken from the store,
/// if it was found there before, as `active_at` says. Costs what `lineage` does, or a comparison of 32 POMs at most
/// where it was joined before. Project rule.
pub fn module_lineage<P: PomSource>(
    alloc: Global,
    store: &mut Store,
    source: &mut P,
    given: &Given,
    path: &Text,
    raw: &Shared<RawModel>,
) -> Result<Shared<Joined>, BuildFault>
    ensures says { (world : World) → P.fits_poms source.old world → Holds world given.now store.old
        → read_at world path.now ≡ Ok (Some raw.now)
        → Says (lineage world given.now raw.now) result }
    ensures fit { (world : World) → P.fits_poms source.old world → P.fits_poms source.new world }
    ensures same { TellsOn P.tells_same source.old source.new }
    ensures holds { (world : World) → P.fits_poms source.old world → Holds world given.now store.old
        → read_at world path.now ≡ Ok (Some raw.now) → Holds world given.now store.new }
    ensures kept { bytes_eq raw.now.coordinates.packaging (codes "pom") ≡ true
        → OnOk result (is_some (line_in store.new (Beside path.now raw.now)) ≡ true) }
    ensures unasked { bytes_eq raw.now.coordinates.packaging (codes "pom") ≡ true
        → IfSome (line_in store.old (Beside path.now raw.now)) (λ line.
        serves 32 [] line ≡ true → source.new ≡ source.old) }
    ensures keeps { KeepsRead store.old store.new }
    ensures keeps_lines { KeepsLines store.old store.new }
    ensures cause { HasCause (P.faults source.old) (P.faults source.new) (build_failed result) }
{
    if is_parent(raw) {
        as_parent(alloc, store, source, given, path, raw)
    } else {
        by_itself(alloc, store, source, given, path, raw)
    }
}
