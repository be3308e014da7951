//! The binary tree that a set of exclusions is kept in.

ghost use Rattle.std.specs.Prelude.{◌≡◌, ◌||◌, ◌++◌, IfOk};
ghost use Rattle.std.specs.List.{list_any};
ghost use Rattle.collector.specs.Excluding.{excludes, is_excluded, is_named};
ghost use Rattle.collector.specs.Hashes.{hash_of};
ghost use Rattle.collector.specs.Nodes.{IsSplit, is_same, names};

use crate::hash::{hash_of, leads_right};
use model_types::{Dependency, Exclusion};
use mvn_shared::{List, Mem, Shared};
use std::alloc::Global;
use std::marker::Model;
use std::sync::Arc;

// A set that isn't empty, as a tree: contracts see the list of its exclusions.
#[cycle(node)]
#[derive(Drop)]
pub struct Node {
    pub(crate) part: Part,
}

// A few exclusions; or two trees, of those whose number lacks a bit and of those whose number has it.
#[cycle(node)]
#[derive(Drop)]
pub enum Part {
    Leaf(List<Shared<Exclusion>>),
    Fork(u32, Arc<Node>, Arc<Node>),
}

impl Model for Node {
    ghost use Rattle.std.specs.Prelude as logic;
    ghost use Rattle.std.specs.Coded.{codes};
    ghost use Rattle.model_types.specs.declared.dependency.Exclusion as rows;

    ghost Value = { logic.List rows.Exclusion };

    ghost coded = { Prim.hlevel (codes) };

    ghost use Rattle.collector.specs.Parts.{IsPart, items_of};

    ghost view = { λ node. items_of node.part };

    ghost invariant = { λ node. IsPart node.part };

    ghost size = { logic.length };

    ghost use Rattle.collector.specs.ExclusionFalls.{falls};

    ghost size_decreases = { λ node h. falls node.part h };
}

// A leaf of a few exclusions.
pub(crate) fn leaf(items: List<Shared<Exclusion>>) -> Node
    ensures { result ≡ items }
{
    Node {
        part: Part::Leaf(items),
    }
}

// Two trees, by a bit.
fn fork(bit: u32, left: Arc<Node>, right: Arc<Node>) -> Node
    requires { IsSplit bit left.value right.value }
    ensures { result ≡ left.value ++ right.value }
{
    Node {
        part: Part::Fork(bit, left, right),
    }
}

// Two leaves.
pub(crate) fn leaves(
    alloc: Global,
    bit: u32,
    left: List<Shared<Exclusion>>,
    right: List<Shared<Exclusion>>,
) -> Mem<Node>
    requires { IsSplit bit left right }
    ensures { IfOk result (λ node. node ≡ left ++ right) }
{
    let left = Arc::new(alloc, leaf(left))?;
    let right = Arc::new(alloc, leaf(right))?;
    Ok(fork(bit, left, right))
}

// A tree that is shared, and a new one on its right.
pub(crate) fn with_right(alloc: Global, bit: u32, left: &Arc<Node>, right: Node) -> Mem<Node>
    requires { IsSplit bit left.now.value right }
    ensures { IfOk result (λ node. node ≡ left.now.value ++ right) }
{
    let right = Arc::new(alloc, right)?;
    let left = Arc::try_clone(left)?;
    Ok(fork(bit, left, right))
}

// A new tree, and on its right one that is shared.
pub(crate) fn with_left(alloc: Global, bit: u32, left: Node, right: &Arc<Node>) -> Mem<Node>
    requires { IsSplit bit left right.now.value }
    ensures { IfOk result (λ node. node ≡ left ++ right.now.value) }
{
    let left = Arc::new(alloc, left)?;
    let right = Arc::try_clone(right)?;
    Ok(fork(bit, left, right))
}

// Whether a pattern names a text.
fn is_named(pattern: &str, name: &str) -> bool
    ensures { result ≡ is_named pattern.now name.now }
{
    pattern == "*" || pattern == name
}

// Whether an exclusion names a declaration.
fn excludes(exclusion: &Exclusion, dependency: &Dependency) -> bool
    ensures { result ≡ excludes dependency.now exclusion.now }
{
    is_named(exclusion.group.as_str(), dependency.group.as_str())
        && is_named(exclusion.artifact.as_str(), dependency.artifact.as_str())
}

// Whether some exclusion of a few does.
fn is_excluded(items: &[Shared<Exclusion>], dependency: &Dependency) -> bool
    ensures { result ≡ is_excluded items.now dependency.now }
{
    for exclusion in items {
        if excludes(exclusion, dependency) {
            return true;
        }
    }
    false
}

// Whether an exclusion has these texts.
fn is_same(exclusion: &Exclusion, group: &str, artifact: &str) -> bool
    ensures { result ≡ is_same group.now artifact.now exclusion.now }
{
    exclusion.group.is(group) && exclusion.artifact.is(artifact)
}

// Whether some exclusion of a few does.
fn is_listed(items: &[Shared<Exclusion>], group: &str, artifact: &str) -> bool
    ensures { result ≡ list_any (is_same group.now artifact.now) items.now }
{
    for exclusion in items {
        if is_same(exclusion, group, artifact) {
            return true;
        }
    }
    false
}

// Whether some exclusion below a node does.
fn is_below(node: &Node, hash: u32, group: &str, artifact: &str) -> bool
    requires { hash ≡ hash_of group.now artifact.now }
    ensures { result ≡ list_any (is_same group.now artifact.now) node.now }
{
    let mut at = node;
    loop {
        match &at.part {
            Part::Leaf(items) => return is_listed(items.as_slice(), group, artifact),
            Part::Fork(bit, left, right) => {
                at = if leads_right(hash, *bit) { right } else { left };
            }
        }
    }
}

// Whether some exclusion below a node has these texts, by their number.
pub(crate) fn has(node: &Node, group: &str, artifact: &str) -> bool
    ensures { result ≡ list_any (is_same group.now artifact.now) node.now }
{
    is_below(node, hash_of(group, artifact), group, artifact)
}

// Whether one of four is so.
fn one_of(first: bool, second: bool, third: bool, fourth: bool) -> bool
    ensures { result ≡ (first || (second || (third || fourth))) }
{
    first || second || third || fourth
}

// Whether some exclusion below a node names a group and an artifact, by both texts or by `*`.
fn has_named(node: &Node, group: &str, artifact: &str) -> bool
    ensures { result ≡ list_any (names group.now artifact.now) node.now }
{
    let by_both = has(node, group, artifact);
    let by_group = has(node, group, "*");
    let by_artifact = has(node, "*", artifact);
    let by_any = has(node, "*", "*");
    one_of(by_both, by_group, by_artifact, by_any)
}

// Whether some exclusion below a node names a declaration; a few are compared with it, each in turn.
pub(crate) fn is_excluded_below(node: &Node, dependency: &Dependency) -> bool
    ensures { result ≡ is_excluded node.now dependency.now }
{
    match &node.part {
        Part::Leaf(items) => is_excluded(items.as_slice(), dependency),
        Part::Fork(_, _, _) => {
            has_named(
                node,
                dependency.group.as_str(),
                dependency.artifact.as_str(),
            )
        }
    }
}
