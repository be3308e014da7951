//! `ExclusionSet`: a set of exclusions that shares its parts with the sets it was made of.

ghost use Rattle.std.specs.Prelude.{◌≡◌, ◌||◌, [], ◌∷◌, IfOk};
ghost use Rattle.std.specs.List.{list_any};
ghost use Rattle.collector.specs.Excluding.{excludes, is_excluded};
ghost use Rattle.collector.specs.Nodes.{HasMore, is_same};
ghost use Rattle.model_types.specs.declared.dependency.Dependency as rows;

use crate::hash::hash_of;
use crate::node::{Node, has, is_excluded_below, leaf};
use crate::put::put;
use model_types::{Dependency, Exclusion};
use mvn_shared::{List, Mem, Shared};
use std::alloc::Global;
use std::marker::Model;
use std::sync::Arc;

/// A set of exclusions, which shares what it has with the sets that it was made of. Contracts see a list of its
/// exclusions.
#[derive(Drop)]
pub struct ExclusionSet {
    root: Option<Arc<Node>>,
}

impl Model for ExclusionSet {
    ghost use Rattle.std.specs.Prelude as logic;
    ghost use Rattle.std.specs.Coded.{codes};
    ghost use Rattle.model_types.specs.declared.dependency.Exclusion as rows;
    ghost use Rattle.std.specs.Arc.{arc_value};

    ghost Value = { logic.List rows.Exclusion };

    ghost coded = { Prim.hlevel (codes) };

    ghost view = { λ set. logic.unwrap_or (logic.option_map arc_value set.root) logic.[] };
}

// A tree of one.
fn only(alloc: Global, one: Shared<Exclusion>) -> Mem<Node>
    ensures { IfOk result (λ node. node ≡ one ∷ []) }
{
    let mut items = List::new(alloc);
    items.push(one)?;
    Ok(leaf(items))
}

// The tree of a set with one exclusion more.
fn grown(alloc: Global, set: &ExclusionSet, one: &Exclusion) -> Mem<Node>
    ensures { IfOk result (λ node. HasMore set.now one.now node) }
{
    let one = Shared::new(alloc, one.clone()?)?;
    match &set.root {
        None => only(alloc, one),
        Some(node) => {
            let hash = hash_of(one.group.as_str(), one.artifact.as_str());
            put(alloc, node, hash, &one)
        }
    }
}

// Whether a set has an exclusion of the same texts.
fn has_same(set: &ExclusionSet, one: &Exclusion) -> bool
    ensures { result ≡ list_any (is_same one.now.group one.now.artifact) set.now }
{
    match &set.root {
        None => false,
        Some(node) => has(node, one.group.as_str(), one.artifact.as_str()),
    }
}

impl ExclusionSet {
    /// The empty set. Takes no memory.
    pub fn new() -> ExclusionSet
        ensures { result ≡ [] }
    {
        ExclusionSet { root: None }
    }

    /// The same set, in constant time; nothing is copied.
    pub fn share(&self) -> Mem<ExclusionSet>
        ensures { IfOk result (λ set. set ≡ self.now) }
    {
        match &self.root {
            None => Ok(ExclusionSet::new()),
            Some(node) => {
                let node = Arc::try_clone(node)?;
                Ok(ExclusionSet { root: Some(node) })
            }
        }
    }

    /// The same set and one exclusion more, which excludes what either of them excludes; what this set has is shared,
    /// and nothing is added where it has one of the same texts. Costs the two texts, and some steps for each time that
    /// the number of exclusions doubles, 32 times at most; different exclusions of one number stand in one list, which
    /// is copied. Project rule.
    pub fn with(&self, alloc: Global, one: &Exclusion) -> Mem<ExclusionSet>
        ensures { IfOk result (λ set. (d : rows.Dependency)
            → is_excluded set d ≡ (is_excluded self.now d || excludes d one.now)) }
    {
        if has_same(self, one) {
            return Ok(self.share()?);
        }
        let node = grown(alloc, self, one)?;
        let root = Arc::new(alloc, node)?;
        Ok(ExclusionSet { root: Some(root) })
    }

    /// Whether some exclusion names this declaration, `*` standing for any group or artifact. Costs four look-ups, by
    /// the two texts and by `*` for either, of some steps each for each time that the number of exclusions doubles. POM
    /// Reference, "Exclusions".
    pub fn excludes(&self, dependency: &Dependency) -> bool
        ensures { result ≡ is_excluded self.now dependency.now }
    {
        match &self.root {
            None => false,
            Some(node) => is_excluded_below(node, dependency),
        }
    }
}
