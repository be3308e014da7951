//! The places of a POM's active profiles.

ghost use Rattle.std.specs.Prelude.{◌≡◌, ℕ, Bool, false, List as Items, length, map, zip, IfOk};
ghost use Rattle.std.specs.List.{list_any};
ghost use Rattle.mvn_shared.specs.Cause.{HasCause};
ghost use Rattle.mvn_outside.specs.Faults.{device_failed};
ghost use Rattle.profiles.specs.Activation.{active, needs_files, places_from};
ghost use Rattle.profiles.specs.Judging.{Alone, Asks, TellsOn, active_in, asks_for_any, is_chosen_by, is_placed};

use crate::judge::Judge;
use model_types::{Profile, RawModel};
use mvn_base::{Choice, Machine, Pair};
use mvn_outside::{DeviceFault, Files};
use mvn_shared::{List, Mem};
use std::alloc::Global;

// Which profiles are active by their ids or by their criteria.
#[tactic(auto, using(crate::proofs::Telling::untold, crate::proofs::Telling::told_both))]
fn chosen_among<F: Files>(
    alloc: Global,
    judge: &Judge<'_>,
    profiles: &[Profile],
    files: &mut F,
) -> Result<List<bool>, DeviceFault>
    ensures each { IfOk result (λ list. length list ≡ length profiles.now) }
    ensures asks { Asks F.fits F.faults F.tells_same files.old files.new result
        (λ world. map (is_chosen_by judge.now world) profiles.now) }
    ensures alone { Alone (asks_for_any judge.now profiles.now) result
        (λ world. map (is_chosen_by judge.now world) profiles.now) }
    ensures untouched { asks_for_any judge.now profiles.now ≡ false → files.new ≡ files.old }
{
    let mut list = List::new(alloc);
    for profile in profiles {
        let chosen = judge.is_chosen(alloc, profile, files)?;
        list.push(chosen)?;
    }
    Ok(list)
}

// Whether any of some is so.
fn any_of(list: &[bool]) -> bool
    ensures { result ≡ list_any (λ b. b) list.now }
{
    list.iter().any(|chosen| *chosen)
}

// Whether a profile is chosen, or active by default where none is.
fn is_placed(judge: &Judge<'_>, any: bool, chosen: bool, profile: &Profile) -> bool
    ensures { result ≡ is_placed judge.now any (chosen, profile.now) }
{
    chosen || (!any && judge.is_default(profile))
}

// The places of the profiles that are chosen, or active by default.
fn places(
    alloc: Global,
    judge: &Judge<'_>,
    chosen: &[bool],
    profiles: &[Profile],
) -> Mem<List<usize>>
    requires each { length chosen.now ≡ length profiles.now }
    ensures { IfOk result (λ list. list
        ≡ places_from (is_placed judge.now (list_any (λ b. b) chosen.now)) 0
        (zip chosen.now profiles.now)) }
{
    let any = any_of(chosen);
    let mut list = List::new(alloc);
    for at in 0..profiles.len() {
        if is_placed(judge, any, chosen[at], &profiles[at]) {
            list.push(at)?;
        }
    }
    Ok(list)
}

// The places of a POM's active profiles.
fn active_among<F: Files>(
    alloc: Global,
    judge: &Judge<'_>,
    raw: &RawModel,
    files: &mut F,
) -> Result<List<usize>, DeviceFault>
    ensures asks { Asks F.fits F.faults F.tells_same files.old files.new result
        (λ world. active_in judge.now world raw.now.profiles) }
    ensures alone { Alone (asks_for_any judge.now raw.now.profiles) result
        (λ world. active_in judge.now world raw.now.profiles) }
    ensures untouched { asks_for_any judge.now raw.now.profiles ≡ false → files.new ≡ files.old }
{
    let profiles = raw.profiles.as_slice();
    let chosen = chosen_among(alloc, judge, profiles, files)?;
    Ok(places(alloc, judge, chosen.as_slice(), profiles)?)
}

/// The places of a POM's active profiles, ascending. One is active that is switched on or whose
/// criteria all hold, at least one, and one that is so by default where no profile of the POM is;
/// none that is switched off. A POM read by coordinates knows no switches and no files. In every world
/// that fits the files the places are this world's; where no file counts they are the same in all, and
/// `files` isn't asked. Failed only where the count of `files` rose. Costs the criteria, and a look at
/// each property; nothing where there is no profile. Introduction to Build Profiles.
#[tactic(auto, using(crate::proofs::Telling::untold, crate::proofs::Joins::none_active))]
pub fn active<F: Files>(
    alloc: Global,
    raw: &RawModel,
    machine: &Machine,
    defines: &[Pair],
    choice: &Choice,
    files: &mut F,
) -> Result<List<usize>, DeviceFault>
    ensures tells { (world : Items ℕ → Bool) → F.fits files.old world
        → IfOk result (λ places. places
        ≡ active machine.now defines.now choice.now world raw.now.pom raw.now.profiles) }
    ensures alone { needs_files choice.now raw.now.pom raw.now.profiles ≡ false
        → (world : Items ℕ → Bool) → IfOk result (λ places. places
        ≡ active machine.now defines.now choice.now world raw.now.pom raw.now.profiles) }
    ensures untouched { needs_files choice.now raw.now.pom raw.now.profiles ≡ false
        → files.new ≡ files.old }
    ensures fit { (world : Items ℕ → Bool) → F.fits files.old world → F.fits files.new world }
    ensures same { TellsOn F.tells_same files.old files.new }
    ensures cause { HasCause (F.faults files.old) (F.faults files.new) (device_failed result) }
{
    if raw.profiles.is_empty() {
        return Ok(List::new(alloc));
    }
    let judge = Judge::of(alloc, raw, machine, defines, choice)?;
    active_among(alloc, &judge, raw, files)
}
