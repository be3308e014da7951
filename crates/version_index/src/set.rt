//! Sets of versions: ascending by their bytes, each once.

ghost use Rattle.std.specs.Prelude.{◌≡◌, ◌≤◌, length, IfOk, IfSome};
ghost use Rattle.std.specs.List.{insert};
ghost use Rattle.std.specs.Option.{option_map_or};
ghost use Rattle.version_index.specs.Sets.{put_version, version_set};

use mvn_shared::{List, Mem, Text};
use std::alloc::Global;
use std::cmp::Ordering;

// A copy of versions.
fn copies(alloc: Global, versions: &[Text]) -> Mem<Vec<Text>>
    ensures { IfOk result (λ copies. copies.items ≡ versions.now) }
{
    let mut copies = Vec::with_capacity(alloc, versions.len())?;
    for version in versions {
        copies.push(version.clone()?)?;
    }
    Ok(copies)
}

// The set of versions, in their own place.
fn sorted(versions: Vec<Text>) -> List<Text>
    ensures { result ≡ version_set versions.items }
{
    let mut versions = versions;
    versions.sort_unstable();
    versions.dedup();
    List::of(versions)
}

/// The set of these versions: ascending by their bytes, each once. Costs a copy of each and sorting them, which is one pass where
/// they ascend already. Project rule.
pub fn version_set(alloc: Global, versions: &[Text]) -> Mem<List<Text>>
    ensures { IfOk result (λ set. set ≡ version_set versions.now) }
{
    let copies = copies(alloc, versions)?;
    Ok(sorted(copies))
}

// Where a further version comes in, or none where it stands there already.
fn place(versions: &[Text], version: &Text) -> Option<usize>
    ensures put { put_version versions.now version.now
        ≡ option_map_or (λ at. insert versions.now at version.now) result versions.now }
    ensures within { IfSome result (λ at. at ≤ length versions.now) }
{
    for at in 0..versions.len() {
        match version.cmp(&versions[at]) {
            Ordering::Less => return Some(at),
            Ordering::Equal => return None,
            Ordering::Greater => {}
        }
    }
    Some(versions.len())
}

/// Versions with one more, before the first that it is below; the same where it stands before that already. So a set stays a
/// set. Costs a comparison with each that stands before it, and moves those behind. Project rule.
pub fn with_version(versions: List<Text>, version: &Text) -> Mem<List<Text>>
    ensures { IfOk result (λ more. more ≡ put_version versions version.now) }
{
    match place(versions.as_slice(), version) {
        None => Ok(versions),
        Some(at) => put(versions, at, version),
    }
}

// Versions with one more at a place.
fn put(versions: List<Text>, at: usize, version: &Text) -> Mem<List<Text>>
    requires { at ≤ length versions }
    ensures { IfOk result (λ more. more ≡ insert versions at version.now) }
{
    let version = version.clone()?;
    let mut all = versions.into_vec();
    all.insert(at, version)?;
    Ok(List::of(all))
}
