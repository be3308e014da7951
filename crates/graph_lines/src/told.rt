//! What libraries in memory answer: a POM, or the versions of an artifact.

ghost use Rattle.std.specs.Prelude.{◌≡◌, ◌≤◌, ◌∷◌, ◌++◌, length, IfOk, IfSome};
ghost use Rattle.std.specs.Option.{option_copied};
ghost use Rattle.graph_lines.specs.Held.{known_of, short, told_of};
ghost use Rattle.mvn_base.specs.Limits.{most_versions};

use mediation::{Known, Library};
use mvn_base::MOST_VERSIONS;
use mvn_shared::{List, Mem, Text};
use std::alloc::Global;

// What an artifact's versions are kept under: its group, a colon and itself.
pub fn name_of(group: &Text, artifact: &Text) -> Mem<Text>
    ensures { IfOk result (λ name. name ≡ group.now ++ 58 ∷ artifact.now) }
{
    let mut name = group.clone()?;
    name.push_str(":")?;
    name.push_str(artifact.as_str())?;
    Ok(name)
}

// What is known of a coordinate's POM.
pub fn known(found: Option<&Library>) -> Mem<Known>
    ensures { IfOk result (λ known. known ≡ known_of (option_copied found.entry)) }
{
    match found {
        Some(library) => Ok(Known::Model(library.share()?)),
        None => Ok(Known::Missing),
    }
}

// A copy of a list, unless it is too long.
fn short(list: &List<Text>) -> Mem<Option<List<Text>>>
    ensures same { IfOk result (λ copy. copy ≡ short list.now) }
    ensures few { IfOk result (λ copy. IfSome copy (λ all. length all ≤ most_versions)) }
{
    if MOST_VERSIONS < list.len() {
        return Ok(None);
    }
    Ok(Some(list.clone()?))
}

// What is told of an artifact's versions.
pub fn told(alloc: Global, found: Option<&List<Text>>) -> Mem<Option<List<Text>>>
    ensures same { IfOk result (λ copy. copy ≡ told_of (option_copied found.entry)) }
    ensures few { IfOk result (λ copy. IfSome copy (λ all. length all ≤ most_versions)) }
{
    match found {
        Some(list) => short(list),
        None => Ok(Some(List::new(alloc))),
    }
}
