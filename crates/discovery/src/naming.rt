//! The POM that the text of a module leads to.

ghost use Rattle.std.specs.Prelude.{◌≡◌, false, true, None, Err, IfOk};
ghost use Rattle.mvn_shared.specs.Cause.{HasCause};
ghost use Rattle.profiles.specs.Judging.{TellsOn};
ghost use Rattle.pom_source.specs.Answers.{Says, build_failed};
ghost use Rattle.pom_source.specs.Worlds.{World};
ghost use Rattle.pom_source.specs.declared.found.Given as givens;
ghost use Rattle.mvn_base.specs.Paths.{joined};
ghost use Rattle.lineage.specs.Stores.{Holds, KeepsLines, KeepsRead};
ghost use Rattle.discovery.specs.Discovery.{as_taken, at_either, at_last, taken_up, named, new_at, one_too_many, path_of, pom_xml, read_pom, refuse, root};

use crate::found::FoundPoms;
use crate::pom::{Listed, ModulePom};
use lineage::{Store, has_expression, read_found};
use mvn_base::{PomId, Rule, joined};
use mvn_shared::{Bytes, Mem, Text};
use pom_source::{BuildFault, PomSource, text_refused};
use std::alloc::Global;

/// A refusal of the POM at a path, which names a text. Costs both.
pub fn refuse<T>(path: &Text, rule: Rule, text: &Text) -> Result<T, BuildFault>
    ensures says { Says (refuse path.now rule text.now) result }
    ensures cause { build_failed result ≡ false }
{
    let pom = PomId::Path(path.clone()?);
    text_refused(&pom, rule, text)
}

// The path that a module's text leads to.
fn path_of(alloc: Global, listed: &Listed) -> Result<Text, BuildFault>
    ensures says { Says (path_of listed.now) result }
    ensures cause { build_failed result ≡ false }
{
    if has_expression(listed.text.as_bytes()) {
        return refuse(&listed.by, Rule::Unresolved, &listed.text);
    }
    let folder = joined(alloc, &listed.by, &Text::from_str(alloc, "..")?)?;
    let path = joined(alloc, &folder, &listed.text)?;
    Ok(path)
}

// The POM at a path whose file was asked for, read or kept, if it was found; with the file's bytes.
#[tactic(auto, using(crate::proofs::Reading::none_there, crate::proofs::Reading::read_none, crate::proofs::Reading::read_some, crate::proofs::Reading::read_fails))]
fn pom_found(
    alloc: Global,
    store: &mut Store,
    path: &Text,
    found: Option<Bytes>,
) -> Result<Option<ModulePom>, BuildFault>
    ensures says { (world : World) (given : givens.Given) → Holds world given store.old
        → found ≡ world.by_path path.now
        → Says (taken_up read_pom path.now (world.by_path path.now)) result }
    ensures holds { (world : World) (given : givens.Given) → Holds world given store.old
        → found ≡ world.by_path path.now → Holds world given store.new }
    ensures keeps { KeepsRead store.old store.new }
    ensures keeps_lines { KeepsLines store.old store.new }
    ensures cause { build_failed result ≡ false }
{
    let read = read_found(alloc, store, path, &found)?;
    let Some(bytes) = found else {
        return Ok(None);
    };
    let Some(raw) = read else {
        return Ok(None);
    };
    let path = path.clone()?;
    Ok(Some(ModulePom { path, raw, bytes }))
}

// The POM at a path, if a file is there. The file is read once.
#[tactic(auto, using(lineage::proofs::Telling::told_once))]
fn read_pom<P: PomSource>(
    alloc: Global,
    store: &mut Store,
    source: &mut P,
    path: &Text,
) -> Result<Option<ModulePom>, BuildFault>
    ensures says { (world : World) (given : givens.Given) → P.fits_poms source.old world
        → Holds world given store.old
        → Says (taken_up read_pom path.now (world.by_path path.now)) result }
    ensures fit { (world : World) → P.fits_poms source.old world → P.fits_poms source.new world }
    ensures same { TellsOn P.tells_same source.old source.new }
    ensures holds { (world : World) (given : givens.Given) → P.fits_poms source.old world
        → Holds world given store.old → Holds world given store.new }
    ensures keeps { KeepsRead store.old store.new }
    ensures keeps_lines { KeepsLines store.old store.new }
    ensures cause { HasCause (P.faults source.old) (P.faults source.new) (build_failed result) }
{
    let found = source.by_path(path)?;
    match pom_found(alloc, store, path, found) {
        Ok(pom) => Ok(pom),
        Err(fault) => Err(fault),
    }
}

// A POM at a path, if a file is there, where no more may come.
#[tactic(auto, using(lineage::proofs::Telling::told_once))]
fn too_many<P: PomSource>(
    alloc: Global,
    source: &mut P,
    listed: &Listed,
    path: &Text,
) -> Result<Option<ModulePom>, BuildFault>
    ensures says { (world : World) → P.fits_poms source.old world
        → Says (taken_up (one_too_many listed.now) path.now (world.by_path path.now)) result }
    ensures none { IfOk result (λ pom. pom ≡ None) }
    ensures fit { (world : World) → P.fits_poms source.old world → P.fits_poms source.new world }
    ensures same { TellsOn P.tells_same source.old source.new }
    ensures cause { HasCause (P.faults source.old) (P.faults source.new) (build_failed result) }
{
    match source.by_path(path)? {
        Some(_) => {
            let list = Text::from_str(alloc, "modules")?;
            refuse(&listed.by, Rule::TooLarge, &list)
        }
        None => Ok(None),
    }
}

// The file at a path, if there is one, as it is taken up.
fn taken_up<P: PomSource>(
    alloc: Global,
    store: &mut Store,
    source: &mut P,
    full: bool,
    listed: &Listed,
    path: &Text,
) -> Result<Option<ModulePom>, BuildFault>
    ensures says { (world : World) (given : givens.Given) → P.fits_poms source.old world
        → Holds world given store.old
        → Says (taken_up (as_taken full listed.now) path.now (world.by_path path.now)) result }
    ensures none { full ≡ true → IfOk result (λ pom. pom ≡ None) }
    ensures fit { (world : World) → P.fits_poms source.old world → P.fits_poms source.new world }
    ensures same { TellsOn P.tells_same source.old source.new }
    ensures holds { (world : World) (given : givens.Given) → P.fits_poms source.old world
        → Holds world given store.old → Holds world given store.new }
    ensures keeps { KeepsRead store.old store.new }
    ensures keeps_lines { KeepsLines store.old store.new }
    ensures cause { HasCause (P.faults source.old) (P.faults source.new) (build_failed result) }
{
    if full {
        too_many(alloc, source, listed, path)
    } else {
        read_pom(alloc, store, source, path)
    }
}

// A POM at a path, if one is there that wasn't met.
#[tactic(auto, using(lineage::proofs::Telling::untold))]
fn new_at<P: PomSource>(
    alloc: Global,
    store: &mut Store,
    source: &mut P,
    full: bool,
    listed: &Listed,
    found: &FoundPoms,
    path: &Text,
) -> Result<Option<ModulePom>, BuildFault>
    ensures says { (world : World) (given : givens.Given) → P.fits_poms source.old world
        → Holds world given store.old
        → Says (new_at world (as_taken full listed.now) listed.now found.now path.now) result }
    ensures none { full ≡ true → IfOk result (λ pom. pom ≡ None) }
    ensures fit { (world : World) → P.fits_poms source.old world → P.fits_poms source.new world }
    ensures same { TellsOn P.tells_same source.old source.new }
    ensures holds { (world : World) (given : givens.Given) → P.fits_poms source.old world
        → Holds world given store.old → Holds world given store.new }
    ensures keeps { KeepsRead store.old store.new }
    ensures keeps_lines { KeepsLines store.old store.new }
    ensures cause { HasCause (P.faults source.old) (P.faults source.new) (build_failed result) }
{
    if found.has(path) {
        return refuse(&listed.by, Rule::DuplicateProject, path);
    }
    taken_up(alloc, store, source, full, listed, path)
}

// The file of a module's name, where no folder of that name has a POM.
fn at_last<P: PomSource>(
    alloc: Global,
    store: &mut Store,
    source: &mut P,
    full: bool,
    listed: &Listed,
    found: &FoundPoms,
    path: &Text,
) -> Result<ModulePom, BuildFault>
    ensures says { (world : World) (given : givens.Given) → P.fits_poms source.old world
        → Holds world given store.old
        → Says (at_last world (as_taken full listed.now) listed.now found.now path.now) result }
    ensures never { full ≡ true → IfOk result (λ pom. ⊥) }
    ensures fit { (world : World) → P.fits_poms source.old world → P.fits_poms source.new world }
    ensures same { TellsOn P.tells_same source.old source.new }
    ensures holds { (world : World) (given : givens.Given) → P.fits_poms source.old world
        → Holds world given store.old → Holds world given store.new }
    ensures keeps { KeepsRead store.old store.new }
    ensures keeps_lines { KeepsLines store.old store.new }
    ensures cause { HasCause (P.faults source.old) (P.faults source.new) (build_failed result) }
{
    match new_at(alloc, store, source, full, listed, found, path)? {
        Some(pom) => Ok(pom),
        None => refuse(&listed.by, Rule::ModuleNotFound, &listed.text),
    }
}

// The path of `pom.xml` in the folder at a path.
fn inside(alloc: Global, path: &Text) -> Mem<Text>
    ensures { IfOk result (λ inside. inside ≡ joined path.now pom_xml) }
{
    let name = Text::from_str(alloc, "pom.xml")?;
    let inside = joined(alloc, path, &name)?;
    Ok(inside)
}

// `pom.xml` in the folder at a path, if one is there that wasn't met.
#[tactic(auto, using(lineage::proofs::Telling::untold))]
fn new_inside<P: PomSource>(
    alloc: Global,
    store: &mut Store,
    source: &mut P,
    full: bool,
    listed: &Listed,
    found: &FoundPoms,
    path: &Text,
) -> Result<Option<ModulePom>, BuildFault>
    ensures says { (world : World) (given : givens.Given) → P.fits_poms source.old world
        → Holds world given store.old
        → Says (new_at world (as_taken full listed.now) listed.now found.now
        (joined path.now pom_xml)) result }
    ensures none { full ≡ true → IfOk result (λ pom. pom ≡ None) }
    ensures fit { (world : World) → P.fits_poms source.old world → P.fits_poms source.new world }
    ensures same { TellsOn P.tells_same source.old source.new }
    ensures holds { (world : World) (given : givens.Given) → P.fits_poms source.old world
        → Holds world given store.old → Holds world given store.new }
    ensures keeps { KeepsRead store.old store.new }
    ensures keeps_lines { KeepsLines store.old store.new }
    ensures cause { HasCause (P.faults source.old) (P.faults source.new) (build_failed result) }
{
    let path = inside(alloc, path)?;
    match new_at(alloc, store, source, full, listed, found, &path) {
        Ok(pom) => Ok(pom),
        Err(fault) => Err(fault),
    }
}

// `pom.xml` in the folder at a path, or else the file.
#[tactic(auto, using(lineage::proofs::Telling::told_both))]
fn at_either<P: PomSource>(
    alloc: Global,
    store: &mut Store,
    source: &mut P,
    full: bool,
    listed: &Listed,
    found: &FoundPoms,
    path: &Text,
) -> Result<ModulePom, BuildFault>
    ensures says { (world : World) (given : givens.Given) → P.fits_poms source.old world
        → Holds world given store.old
        → Says (at_either world (as_taken full listed.now) listed.now found.now path.now) result }
    ensures never { full ≡ true → IfOk result (λ pom. ⊥) }
    ensures fit { (world : World) → P.fits_poms source.old world → P.fits_poms source.new world }
    ensures same { TellsOn P.tells_same source.old source.new }
    ensures holds { (world : World) (given : givens.Given) → P.fits_poms source.old world
        → Holds world given store.old → Holds world given store.new }
    ensures keeps { KeepsRead store.old store.new }
    ensures keeps_lines { KeepsLines store.old store.new }
    ensures cause { HasCause (P.faults source.old) (P.faults source.new) (build_failed result) }
{
    match new_inside(alloc, store, source, full, listed, found, path)? {
        Some(pom) => Ok(pom),
        None => match at_last(alloc, store, source, full, listed, found, path) {
            Ok(pom) => Ok(pom),
            Err(fault) => Err(fault),
        },
    }
}

/// The POM that a module leads to, or its refusal: an expression in its text, no POM, one that was met, or what the
/// POM's text breaks. If `full`, none: a POM that is found is one too many. Costs the paths and the POM's bytes.
#[tactic(auto, using(lineage::proofs::Telling::untold))]
pub fn named<P: PomSource>(
    alloc: Global,
    store: &mut Store,
    source: &mut P,
    full: bool,
    listed: &Listed,
    found: &FoundPoms,
) -> Result<ModulePom, BuildFault>
    ensures says { (world : World) (given : givens.Given) → P.fits_poms source.old world
        → Holds world given store.old
        → Says (named world (as_taken full listed.now) listed.now found.now) result }
    ensures never { full ≡ true → IfOk result (λ pom. ⊥) }
    ensures fit { (world : World) → P.fits_poms source.old world → P.fits_poms source.new world }
    ensures same { TellsOn P.tells_same source.old source.new }
    ensures holds { (world : World) (given : givens.Given) → P.fits_poms source.old world
        → Holds world given store.old → Holds world given store.new }
    ensures keeps { KeepsRead store.old store.new }
    ensures keeps_lines { KeepsLines store.old store.new }
    ensures cause { HasCause (P.faults source.old) (P.faults source.new) (build_failed result) }
{
    let path = path_of(alloc, listed)?;
    match at_either(alloc, store, source, full, listed, found, &path) {
        Ok(pom) => Ok(pom),
        Err(fault) => Err(fault),
    }
}

/// The POM by which the project begins. Costs its bytes.
#[tactic(auto, using(lineage::proofs::Telling::untold))]
pub fn root<P: PomSource>(
    alloc: Global,
    store: &mut Store,
    source: &mut P,
) -> Result<ModulePom, BuildFault>
    ensures says { (world : World) (given : givens.Given) → P.fits_poms source.old world
        → Holds world given store.old → Says (root world) result }
    ensures fit { (world : World) → P.fits_poms source.old world → P.fits_poms source.new world }
    ensures same { TellsOn P.tells_same source.old source.new }
    ensures holds { (world : World) (given : givens.Given) → P.fits_poms source.old world
        → Holds world given store.old → Holds world given store.new }
    ensures keeps { KeepsRead store.old store.new }
    ensures keeps_lines { KeepsLines store.old store.new }
    ensures cause { HasCause (P.faults source.old) (P.faults source.new) (build_failed result) }
{
    let path = Text::from_str(alloc, "pom.xml")?;
    match read_pom(alloc, store, source, &path)? {
        Some(pom) => Ok(pom),
        None => refuse(&path, Rule::ModuleNotFound, &path),
    }
}
