//! Dependencies and plugins that stand once each, of equal keys the last one.

ghost use Rattle.std.specs.Prelude.{◌≡◌, ◌||◌, List as Items, ℕ, false, not, IfOk, OnOk};
ghost use Rattle.std.specs.HashSet.{contains};
ghost use Rattle.std.specs.Str.{bytes_eq};
ghost use Rattle.model_merge.specs.Keyed.{settled};
ghost use Rattle.model_merge.specs.Merging.{settled_plugins};
ghost use Rattle.model_steps.specs.Once.{are_new};

use model_merge::{Keyed, each_settled, settled};
use model_types::{Dependency, Plugin};
use mvn_shared::{List, Mem, Shared, Text};
use std::alloc::Global;
use std::collections::HashSet;

/// An item whose key names an artifact.
pub trait Artifact: Keyed {
    ghost use Rattle.std.specs.Prelude.{◌≡◌};

    /// The artifact of its key.
    fn artifact(&self) -> &Text
        ensures { result.now ≡ (Self.key_of self.now).artifact };
}

impl Artifact for Dependency {
    fn artifact(&self) -> &Text {
        &self.artifact
    }
}

impl Artifact for Plugin {
    fn artifact(&self) -> &Text {
        &self.artifact
    }
}

// One name more; whether it is new.
fn add_name(names: &mut HashSet<Text>, name: &Text) -> Mem<bool>
    ensures alone { IfOk result (λ added. added ≡ not (contains bytes_eq names.old name.now)) }
    ensures all { OnOk result ((t : Items ℕ) → contains bytes_eq names.new t
        ≡ (bytes_eq name.now t || contains bytes_eq names.old t)) }
{
    Ok(names.insert(name.clone()?)?)
}

// Whether no two items of a list name one artifact.
#[tactic(auto, using(crate::proofs::Apart::one_again))]
fn are_apart<T: Artifact>(alloc: Global, items: &[Shared<T>]) -> Mem<bool>
    ensures { IfOk result (λ apart. apart ≡ are_new T.key_of (λ name. false) items.now) }
{
    let mut names = HashSet::new(alloc);
    for item in items {
        if !add_name(&mut names, item.value().artifact())? {
            return Ok(false);
        }
    }
    Ok(true)
}

/// The items of a list, of equal keys the last one, at the place of the first. Costs a look-up of each artifact, on the
/// average, and where one stands twice the keys too. Project rule.
#[tactic(auto, using(crate::proofs::Apart::kept))]
pub fn once<T: Artifact>(alloc: Global, items: List<Shared<T>>) -> Mem<List<Shared<T>>>
    ensures { IfOk result (λ list. list ≡ settled T.key_of items) }
{
    if are_apart(alloc, items.as_slice())? {
        return Ok(items);
    }
    settled(alloc, items.as_slice())
}

/// Plugins of which each name has one, each settled. Costs what they have, on the average. Project rule.
pub fn plugins_once(alloc: Global, plugins: &[Shared<Plugin>]) -> Mem<List<Shared<Plugin>>>
    ensures { IfOk result (λ list. list ≡ settled_plugins plugins.now) }
{
    once(alloc, each_settled(alloc, plugins)?)
}
