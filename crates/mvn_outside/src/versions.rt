//! The versions of an artifact among the names of a repository's files.

ghost use Rattle.std.specs.Prelude.{◌≡◌, true, false, IfOk};
ghost use Rattle.std.specs.List.{filter_map};
ghost use Rattle.mvn_outside.specs.Faults.{list_failed};
ghost use Rattle.mvn_outside.specs.Versions.{ListsAll};
ghost use Rattle.mvn_base.specs.FileName.{version_in};
ghost use Rattle.mvn_base.specs.Names.{is_group, is_name};

use crate::fault::ListFault;
use mvn_base::{MOST_VERSIONS, version_in};
use mvn_shared::{List, Mem, Text};
use std::alloc::Global;

// The versions whose POMs have these names, in their order.
fn versions_among(alloc: Global, names: &[Text], group: &Text, artifact: &Text) -> Mem<Vec<Text>>
    requires group { is_group group.now ≡ true }
    requires artifact { is_name artifact.now ≡ true }
    ensures { IfOk result (λ versions.
        versions.items ≡ filter_map (version_in group.now artifact.now) names.now) }
{
    let mut versions = Vec::new(alloc);
    for name in names {
        if let Some(version) = version_in(alloc, group, artifact, name)? {
            versions.push(version)?;
        }
    }
    Ok(versions)
}

/// The versions whose POMs have these names, in their order; `TooMany` exactly where there are more than 4,096. Costs
/// one pass over the names.
pub fn list_versions(
    alloc: Global,
    names: &[Text],
    group: &Text,
    artifact: &Text,
) -> Result<List<Text>, ListFault>
    requires group { is_group group.now ≡ true }
    requires artifact { is_name artifact.now ≡ true }
    ensures lists { ListsAll (filter_map (version_in group.now artifact.now) names.now) result }
    ensures quiet { list_failed result ≡ false }
{
    let versions = versions_among(alloc, names, group, artifact)?;
    if versions.len() > MOST_VERSIONS {
        return Err(ListFault::TooMany);
    }
    Ok(List::of(versions))
}
