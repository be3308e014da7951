//! What is known of a POM without asking a device.

ghost use Rattle.std.specs.Prelude.{◌≡◌, find, replicate, IfOk};
ghost use Rattle.std.specs.Option.{option_copied, option_map};
ghost use Rattle.std.specs.Str.{bytes_eq};
ghost use Rattle.mvn_base.specs.FileName.{file_name, IsValid};
ghost use Rattle.model_resolver.specs.Finding.{found_in_project, is_valid, oversized, project_at, project_of};

use crate::poms::ProjectPoms;
use crate::resolver::ProjectPom;
use mvn_base::{Gav, POM_LIMIT, PomId, valid_group, valid_name, valid_version};
use mvn_shared::{Bytes, Mem, Text};
use pom_source::Found;
use std::alloc::Global;

// A number of spaces.
fn spaces(alloc: Global, count: usize) -> Mem<Bytes>
    ensures { IfOk result (λ bytes. bytes ≡ replicate count 32) }
{
    Ok(Bytes::of(vec![in alloc; b' '; count]?))
}

/// What stands for a text that is too long for a POM.
#[tactic(auto, unfolding(crate::specs::Finding::oversized))]
pub(crate) fn oversized(alloc: Global) -> Mem<Bytes>
    ensures { IfOk result (λ bytes. bytes ≡ oversized) }
{
    spaces(alloc, 1 + POM_LIMIT as usize)
}

/// Whether the names of a coordinate are valid.
pub(crate) fn is_valid(gav: &Gav) -> bool
    ensures { result ≡ is_valid gav.now }
{
    valid_group(gav.group.as_bytes())
        && valid_name(gav.artifact.as_bytes())
        && valid_version(gav.version.as_bytes())
}

// The first of the project's POMs at a path.
fn first_at<'a>(poms: &'a [ProjectPom], path: &Text) -> Option<&'a ProjectPom>
    ensures { option_map (λ p. p.now) result ≡ find (λ p. bytes_eq p.path path.now) poms.now }
{
    poms.iter().find(|pom| pom.path == *path)
}

/// The bytes of one of the project's POMs, by its path. Costs a look at each of them, and the bytes.
pub(crate) fn project_at<'p>(poms: &ProjectPoms<'p>, path: &Text) -> Mem<Option<Bytes>>
    ensures { IfOk result (λ found. found ≡ project_at poms.now path.now) }
{
    match first_at(poms.list(), path) {
        Some(pom) => Ok(Some(pom.bytes.clone()?)),
        None => Ok(None),
    }
}

// A POM of the project, as it is found.
fn found_of(pom: &ProjectPom) -> Mem<Found>
    ensures { IfOk result (λ found. found ≡ found_in_project pom.now) }
{
    let path = PomId::Path(pom.path.clone()?);
    let bytes = pom.bytes.clone()?;
    Ok(Found { pom: path, bytes })
}

/// The first of the project's POMs of these coordinates. Costs the coordinates, on the average, and its path and bytes.
pub(crate) fn project_of<'p>(poms: &ProjectPoms<'p>, gav: &Gav) -> Mem<Option<Found>>
    ensures { IfOk result (λ found. found ≡ project_of poms.now gav.now) }
{
    match poms.first(gav) {
        Some(pom) => Ok(Some(found_of(pom)?)),
        None => Ok(None),
    }
}
