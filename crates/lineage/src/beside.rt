//! The POM at a path of the project, read once a run, and whether it is the parent that is meant.

ghost use Rattle.std.specs.Prelude.{◌≡◌, false, Some, IfOk, OnSome};
ghost use Rattle.mvn_shared.specs.Cause.{HasCause};
ghost use Rattle.profiles.specs.Judging.{TellsOn};
ghost use Rattle.pom_source.specs.Answers.{Says, build_failed};
ghost use Rattle.pom_source.specs.Worlds.{World};
ghost use Rattle.pom_source.specs.declared.found.Given as givens;
ghost use Rattle.mvn_base.specs.declared.refusal.PomId.TheVariants as poms;
ghost use Rattle.mvn_base.specs.Gav.{gav_eq};
ghost use Rattle.lineage.specs.Beside.{at_either, at_path, at_second, of_gav, origin_from, found_origin, raw_gav, read_at};
ghost use Rattle.mvn_base.specs.Paths.{joined};
ghost use Rattle.profiles.specs.Activation.{folder_of};
ghost use Rattle.lineage.specs.Reading.{read_file};
ghost use Rattle.lineage.specs.Stores.{Holds, IsAt, KeepsLines, KeepsRead, read_in};

use crate::{Origin, Store, read};
use model_types::{Parent, RawModel};
use mvn_base::{Gav, PomId, joined};
use mvn_shared::{Bytes, Mem, Shared, Text};
use pom_source::{BuildFault, PomSource};
use std::alloc::Global;

/// The group of a POM as it says it, or its parent's. Constant time.
#[tactic(auto, unfolding(crate::specs::Beside::raw_gav))]
fn group_of(raw: &RawModel) -> &str
    ensures { result.now ≡ (raw_gav raw.now).group }
{
    match &raw.coordinates.group {
        Some(group) => group.as_str(),
        None => match &raw.parent {
            Some(parent) => parent.gav.group.as_str(),
            None => "",
        },
    }
}

// The version of a POM as it says it, or its parent's.
#[tactic(auto, unfolding(crate::specs::Beside::raw_gav))]
fn version_of(raw: &RawModel) -> &str
    ensures { result.now ≡ (raw_gav raw.now).version }
{
    match &raw.coordinates.version {
        Some(version) => version.as_str(),
        None => match &raw.parent {
            Some(parent) => parent.gav.version.as_str(),
            None => "",
        },
    }
}

/// The coordinates of a POM as it says them, or else its parent's. Costs their length. POM Reference, "Maven
/// Coordinates".
#[tactic(auto, unfolding(crate::specs::Beside::raw_gav))]
pub fn raw_gav(alloc: Global, raw: &RawModel) -> Mem<Gav>
    ensures { IfOk result (λ gav. gav ≡ raw_gav raw.now) }
{
    let group = Text::from_str(alloc, group_of(raw))?;
    let artifact = raw.coordinates.artifact.clone()?;
    let version = Text::from_str(alloc, version_of(raw))?;
    Ok(Gav {
        group,
        artifact,
        version,
    })
}

// Whether a POM's coordinates are these.
#[tactic(auto, unfolding(crate::specs::Beside::raw_gav))]
fn has_gav(raw: &RawModel, gav: &Gav) -> bool
    ensures { result ≡ gav_eq (raw_gav raw.now) gav.now }
{
    group_of(raw) == gav.group.as_str()
        && raw.coordinates.artifact.as_str() == gav.artifact.as_str()
        && version_of(raw) == gav.version.as_str()
}

// The POM that was looked for at a path, if its coordinates are these, or else the coordinates.
fn of_gav(gav: &Gav, path: &Text, found: Option<Shared<RawModel>>) -> Mem<Origin>
    ensures { IfOk result (λ origin. origin ≡ of_gav gav.now path.now found) }
{
    match found {
        Some(raw) => {
            if has_gav(&raw, gav) {
                return Ok(Origin::Beside(path.clone()?, raw));
            }
            Ok(Origin::Elsewhere(gav.clone()?))
        }
        None => Ok(Origin::Elsewhere(gav.clone()?)),
    }
}

// What a file says, if there is one.
fn read_file(
    alloc: Global,
    pom: &PomId,
    found: &Option<Bytes>,
) -> Result<Option<Shared<RawModel>>, BuildFault>
    ensures says { Says (read_file pom.now found.now) result }
    ensures cause { build_failed result ≡ false }
{
    match found {
        Some(bytes) => {
            let raw = read(alloc, pom, bytes)?;
            Ok(Some(raw))
        }
        None => Ok(None),
    }
}

// What the file at a path says, if there is one.
fn read_path(
    alloc: Global,
    path: &Text,
    found: &Option<Bytes>,
) -> Result<Option<Shared<RawModel>>, BuildFault>
    ensures says { Says (read_file (poms.Path path.now) found.now) result }
    ensures cause { build_failed result ≡ false }
{
    let pom = PomId::Path(path.clone()?);
    match read_file(alloc, &pom, found) {
        Ok(raw) => Ok(raw),
        Err(fault) => Err(fault),
    }
}

// The POM at a path of the project, asked for and read.
#[tactic(auto, using(crate::proofs::Telling::told_once, crate::proofs::Telling::untold))]
fn read_anew<P: PomSource>(
    alloc: Global,
    source: &mut P,
    path: &Text,
) -> Result<Option<Shared<RawModel>>, BuildFault>
    ensures says { (world : World) → P.fits_poms source.old world
        → Says (read_at world path.now) result }
    ensures fit { (world : World) → P.fits_poms source.old world → P.fits_poms source.new world }
    ensures same { TellsOn P.tells_same source.old source.new }
    ensures cause { HasCause (P.faults source.old) (P.faults source.new) (build_failed result) }
{
    let found = source.by_path(path)?;
    match read_path(alloc, path, &found) {
        Ok(raw) => Ok(raw),
        Err(fault) => Err(fault),
    }
}

/// The POM at a path of the project: as it was read before, or read and kept; none if no file is there; or what its
/// text breaks first. What was read stays in the store and isn't asked for again. `Source` comes only if the source's
/// count of faults rose. Costs the POM's bytes the first time, and the path after that. Project rule.
#[tactic(auto, using(crate::proofs::Telling::untold, crate::proofs::Kept::untouched))]
pub fn read_at<P: PomSource>(
    alloc: Global,
    store: &mut Store,
    source: &mut P,
    path: &Text,
) -> Result<Option<Shared<RawModel>>, BuildFault>
    ensures says { (world : World) (given : givens.Given) → P.fits_poms source.old world
        → Holds world given store.old → Says (read_at world path.now) result }
    ensures fit { (world : World) → P.fits_poms source.old world → P.fits_poms source.new world }
    ensures same { TellsOn P.tells_same source.old source.new }
    ensures holds { (world : World) (given : givens.Given) → P.fits_poms source.old world
        → Holds world given store.old → Holds world given store.new }
    ensures kept { IfOk result (λ found. read_in store.new path.now ≡ Some found) }
    ensures unasked { OnSome (read_in store.old path.now) (source.new ≡ source.old) }
    ensures keeps { KeepsRead store.old store.new }
    ensures keeps_lines { KeepsLines store.old store.new }
    ensures cause { HasCause (P.faults source.old) (P.faults source.new) (build_failed result) }
{
    if let Some(kept) = store.find_read(path)? {
        return Ok(kept);
    }
    let found = match read_anew(alloc, source, path) {
        Ok(found) => found,
        Err(fault) => return Err(fault),
    };
    store.keep_read(path, &found)?;
    Ok(found)
}

/// What the file that was found at a path of the project says, for one who asked the source and needs the bytes, too:
/// as it was read before, or read and kept; none if no file was found; or what its text breaks first. What was read
/// stays in the store. Costs the POM's bytes the first time, and the path after that. Project rule.
#[tactic(auto, using(crate::proofs::Finding::says_found, crate::proofs::Finding::reads_found))]
pub fn read_found(
    alloc: Global,
    store: &mut Store,
    path: &Text,
    found: &Option<Bytes>,
) -> Result<Option<Shared<RawModel>>, BuildFault>
    ensures says { (world : World) (given : givens.Given) → Holds world given store.old
        → found.now ≡ world.by_path path.now → Says (read_at world path.now) result }
    ensures holds { (world : World) (given : givens.Given) → Holds world given store.old
        → found.now ≡ world.by_path path.now → Holds world given store.new }
    ensures kept { IfOk result (λ raw. read_in store.new path.now ≡ Some raw) }
    ensures keeps { KeepsRead store.old store.new }
    ensures keeps_lines { KeepsLines store.old store.new }
    ensures cause { build_failed result ≡ false }
{
    if let Some(raw) = store.find_read(path)? {
        return Ok(raw);
    }
    let raw = match read_path(alloc, path, found) {
        Ok(raw) => raw,
        Err(fault) => return Err(fault),
    };
    store.keep_read(path, &raw)?;
    Ok(raw)
}

// The second of two paths, at the first of which no POM is.
#[tactic(auto, using(crate::proofs::Holding::at_is))]
fn at_second<P: PomSource>(
    alloc: Global,
    store: &mut Store,
    source: &mut P,
    gav: &Gav,
    path: &Text,
) -> Result<Origin, BuildFault>
    ensures says { (world : World) (given : givens.Given) → P.fits_poms source.old world
        → Holds world given store.old
        → Says (at_second world gav.now path.now) result }
    ensures at { (world : World) (given : givens.Given) → P.fits_poms source.old world
        → Holds world given store.old → IfOk result (IsAt world) }
    ensures fit { (world : World) → P.fits_poms source.old world → P.fits_poms source.new world }
    ensures same { TellsOn P.tells_same source.old source.new }
    ensures holds { (world : World) (given : givens.Given) → P.fits_poms source.old world
        → Holds world given store.old → Holds world given store.new }
    ensures keeps { KeepsRead store.old store.new }
    ensures keeps_lines { KeepsLines store.old store.new }
    ensures cause { HasCause (P.faults source.old) (P.faults source.new) (build_failed result) }
{
    let found = read_at(alloc, store, source, path)?;
    let origin = of_gav(gav, path, found)?;
    Ok(origin)
}

// The first of two paths at which a POM is.
#[tactic(auto, using(crate::proofs::Telling::told_both, crate::proofs::Holding::at_is))]
fn at_either<P: PomSource>(
    alloc: Global,
    store: &mut Store,
    source: &mut P,
    gav: &Gav,
    first: &Text,
    second: &Text,
) -> Result<Origin, BuildFault>
    ensures says { (world : World) (given : givens.Given) → P.fits_poms source.old world
        → Holds world given store.old
        → Says (at_either world gav.now first.now second.now) result }
    ensures at { (world : World) (given : givens.Given) → P.fits_poms source.old world
        → Holds world given store.old → IfOk result (IsAt world) }
    ensures fit { (world : World) → P.fits_poms source.old world → P.fits_poms source.new world }
    ensures same { TellsOn P.tells_same source.old source.new }
    ensures holds { (world : World) (given : givens.Given) → P.fits_poms source.old world
        → Holds world given store.old → Holds world given store.new }
    ensures keeps { KeepsRead store.old store.new }
    ensures keeps_lines { KeepsLines store.old store.new }
    ensures cause { HasCause (P.faults source.old) (P.faults source.new) (build_failed result) }
{
    match read_at(alloc, store, source, first)? {
        Some(raw) => Ok(of_gav(gav, first, Some(raw))?),
        None => match at_second(alloc, store, source, gav, second) {
            Ok(origin) => Ok(origin),
            Err(fault) => Err(fault),
        },
    }
}

// `pom.xml` in the folder that a path from the child's folder on names, or the file that it names.
#[tactic(auto, using(crate::proofs::Telling::untold))]
fn at_path<P: PomSource>(
    alloc: Global,
    store: &mut Store,
    source: &mut P,
    gav: &Gav,
    path: &Text,
) -> Result<Origin, BuildFault>
    ensures says { (world : World) (given : givens.Given) → P.fits_poms source.old world
        → Holds world given store.old → Says (at_path world gav.now path.now) result }
    ensures at { (world : World) (given : givens.Given) → P.fits_poms source.old world
        → Holds world given store.old → IfOk result (IsAt world) }
    ensures fit { (world : World) → P.fits_poms source.old world → P.fits_poms source.new world }
    ensures same { TellsOn P.tells_same source.old source.new }
    ensures holds { (world : World) (given : givens.Given) → P.fits_poms source.old world
        → Holds world given store.old → Holds world given store.new }
    ensures keeps { KeepsRead store.old store.new }
    ensures keeps_lines { KeepsLines store.old store.new }
    ensures cause { HasCause (P.faults source.old) (P.faults source.new) (build_failed result) }
{
    let first = joined(alloc, path, &Text::from_str(alloc, "pom.xml")?)?;
    match at_either(alloc, store, source, gav, &first, path) {
        Ok(origin) => Ok(origin),
        Err(fault) => Err(fault),
    }
}

// The path that a relative path names, from the folder of a POM on.
fn path_from(alloc: Global, child: &Text, path: &Text) -> Mem<Text>
    ensures { IfOk result (λ whole. whole ≡ joined (folder_of child.now) path.now) }
{
    let folder = joined(alloc, child, &Text::from_str(alloc, "..")?)?;
    joined(alloc, &folder, path)
}

// Where a parent of a POM of the project comes from.
#[tactic(auto, using(crate::proofs::Telling::untold))]
fn origin_from<P: PomSource>(
    alloc: Global,
    store: &mut Store,
    source: &mut P,
    child: &Text,
    parent: &Parent,
) -> Result<Origin, BuildFault>
    ensures says { (world : World) (given : givens.Given) → P.fits_poms source.old world
        → Holds world given store.old
        → Says (origin_from world child.now parent.now.gav parent.now.relative_path) result }
    ensures at { (world : World) (given : givens.Given) → P.fits_poms source.old world
        → Holds world given store.old → IfOk result (IsAt world) }
    ensures fit { (world : World) → P.fits_poms source.old world → P.fits_poms source.new world }
    ensures same { TellsOn P.tells_same source.old source.new }
    ensures holds { (world : World) (given : givens.Given) → P.fits_poms source.old world
        → Holds world given store.old → Holds world given store.new }
    ensures keeps { KeepsRead store.old store.new }
    ensures keeps_lines { KeepsLines store.old store.new }
    ensures cause { HasCause (P.faults source.old) (P.faults source.new) (build_failed result) }
{
    if parent.relative_path.is_empty() {
        return Ok(Origin::Elsewhere(parent.gav.clone()?));
    }
    let path = path_from(alloc, child, &parent.relative_path)?;
    match at_path(alloc, store, source, &parent.gav, &path) {
        Ok(origin) => Ok(origin),
        Err(fault) => Err(fault),
    }
}

/// Where a parent comes from: the POM of the project at its path, from the child's folder on, if the coordinates are
/// the parent's; else its coordinates. Costs the path, and the POM's bytes the first time. POM Reference,
/// "Inheritance".
#[tactic(auto, unfolding(crate::specs::Beside::found_origin), using(crate::proofs::Telling::untold))]
pub fn found_origin<P: PomSource>(
    alloc: Global,
    store: &mut Store,
    source: &mut P,
    child: &PomId,
    parent: &Parent,
) -> Result<Origin, BuildFault>
    ensures says { (world : World) (given : givens.Given) → P.fits_poms source.old world
        → Holds world given store.old → Says (found_origin world child.now parent.now) result }
    ensures at { (world : World) (given : givens.Given) → P.fits_poms source.old world
        → Holds world given store.old → IfOk result (IsAt world) }
    ensures fit { (world : World) → P.fits_poms source.old world → P.fits_poms source.new world }
    ensures same { TellsOn P.tells_same source.old source.new }
    ensures holds { (world : World) (given : givens.Given) → P.fits_poms source.old world
        → Holds world given store.old → Holds world given store.new }
    ensures keeps { KeepsRead store.old store.new }
    ensures keeps_lines { KeepsLines store.old store.new }
    ensures cause { HasCause (P.faults source.old) (P.faults source.new) (build_failed result) }
{
    match child {
        PomId::Path(path) => match origin_from(alloc, store, source, path, parent) {
            Ok(origin) => Ok(origin),
            Err(fault) => Err(fault),
        },
        PomId::Gav(_) => Ok(Origin::Elsewhere(parent.gav.clone()?)),
    }
}
