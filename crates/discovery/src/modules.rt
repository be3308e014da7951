//! The modules that a POM and its active profiles list.

ghost use Rattle.std.specs.Prelude.{◌≡◌, ◌++◌, false, flat_map, slice_get, Ok, Some, IfOk, OnOk};
ghost use Rattle.mvn_shared.specs.Cause.{HasCause};
ghost use Rattle.profiles.specs.Judging.{TellsOn};
ghost use Rattle.pom_source.specs.Answers.{Says, build_failed};
ghost use Rattle.pom_source.specs.Worlds.{World};
ghost use Rattle.profiles.specs.Injection.{inject};
ghost use Rattle.lineage.specs.Beside.{read_at};
ghost use Rattle.lineage.specs.Stores.{Holds, KeepsLines, KeepsRead};
ghost use Rattle.discovery.specs.Discovery.{aggregated, listed, listed_by};
ghost use Rattle.discovery.specs.Profiles.{modules_at, modules_in};

use crate::naming::refuse;
use crate::pom::{Listed, ModulePom};
use lineage::{Store, active_at};
use model_types::{Profile, RawModel};
use mvn_base::Rule;
use mvn_shared::{List, Mem, Text};
use pom_source::{BuildFault, Given, PomSource};
use std::alloc::Global;

// The modules of one POM or profile, after others.
fn push_modules(by: &Text, modules: &List<Text>, list: &mut List<Listed>) -> Mem<()>
    ensures { OnOk result (list.new ≡ list.old ++ listed by.now modules.now) }
{
    for text in modules.as_slice() {
        let by = by.clone()?;
        let text = text.clone()?;
        list.push(Listed { by, text })?;
    }
    Ok(())
}

// The modules of the profile at a place, if there is one, after others.
fn push_profile(
    by: &Text,
    profiles: &List<Profile>,
    place: usize,
    list: &mut List<Listed>,
) -> Mem<()>
    ensures { OnOk result (list.new ≡ list.old ++ listed by.now
        (modules_in (slice_get profiles.now place))) }
{
    match profiles.get(place) {
        Some(profile) => push_modules(by, &profile.base.modules, list),
        None => Ok(()),
    }
}

// The modules of the profiles at some places, after others.
fn push_profiles(
    by: &Text,
    profiles: &List<Profile>,
    places: &List<usize>,
    list: &mut List<Listed>,
) -> Mem<()>
    ensures { OnOk result (list.new ≡ list.old ++ listed by.now
        (flat_map (λ place. modules_in (slice_get profiles.now place)) places.now)) }
{
    for place in places.as_slice() {
        push_profile(by, profiles, *place, list)?;
    }
    Ok(())
}

// The modules of a POM and of its profiles at some places, after others.
fn push_all(by: &Text, raw: &RawModel, places: &List<usize>, list: &mut List<Listed>) -> Mem<()>
    ensures { OnOk result (list.new ≡ list.old ++ listed by.now (modules_at raw.now places.now)) }
{
    push_modules(by, &raw.base.modules, list)?;
    push_profiles(by, &raw.profiles, places, list)
}

// The modules of a POM with its profiles at some places.
#[tactic(auto, using(crate::proofs::Injected::injected_modules))]
fn modules_at(alloc: Global, pom: &ModulePom, places: &List<usize>) -> Mem<List<Listed>>
    ensures { IfOk result (λ list. list
        ≡ listed pom.now.path (inject pom.now.raw places.now).base.modules) }
{
    let mut list = List::new(alloc);
    push_all(&pom.path, &pom.raw, places, &mut list)?;
    Ok(list)
}

// A POM that lists modules has the packaging `pom`.
fn aggregated(pom: &ModulePom, list: List<Listed>) -> Result<List<Listed>, BuildFault>
    ensures says { Says (aggregated pom.now list) result }
    ensures cause { build_failed result ≡ false }
{
    if list.is_empty() || pom.raw.coordinates.packaging.as_str() == "pom" {
        return Ok(list);
    }
    refuse(
        &pom.path,
        Rule::AggregatorPackaging,
        &pom.raw.coordinates.packaging,
    )
}

/// The modules that a POM lists, and those of its active profiles, or that its packaging isn't `pom`. Which profiles
/// are active stays in the store. Costs the criteria of its profiles, and the modules. POM Reference, "Aggregation".
#[tactic(auto, using(crate::proofs::Injected::lists, crate::proofs::Injected::lists_fails, lineage::proofs::Judging::never_refused))]
pub fn listed_by<P: PomSource>(
    alloc: Global,
    store: &mut Store,
    source: &mut P,
    given: &Given,
    pom: &ModulePom,
) -> Result<List<Listed>, BuildFault>
    ensures says { (world : World) → P.fits_poms source.old world → Holds world given.now store.old
        → read_at world pom.now.path ≡ Ok (Some pom.now.raw)
        → Says (listed_by world given.now pom.now) result }
    ensures fit { (world : World) → P.fits_poms source.old world → P.fits_poms source.new world }
    ensures same { TellsOn P.tells_same source.old source.new }
    ensures holds { (world : World) → P.fits_poms source.old world → Holds world given.now store.old
        → read_at world pom.now.path ≡ Ok (Some pom.now.raw) → Holds world given.now store.new }
    ensures keeps { KeepsRead store.old store.new }
    ensures keeps_lines { KeepsLines store.old store.new }
    ensures cause { HasCause (P.faults source.old) (P.faults source.new) (build_failed result) }
{
    let places = match active_at(alloc, store, source, given, &pom.path, &pom.raw) {
        Ok(places) => places,
        Err(fault) => return Err(fault),
    };
    let list = modules_at(alloc, pom, &places)?;
    match aggregated(pom, list) {
        Ok(list) => Ok(list),
        Err(fault) => Err(fault),
    }
}
