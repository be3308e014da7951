//! How one exclusion more is put into a tree.

ghost use Rattle.std.specs.Prelude.{◌≡◌, ◌++◌, [], ◌∷◌, filter, IfOk, OnOk, if◌then◌else◌};
ghost use Rattle.collector.specs.Hashes.{hash_of};
ghost use Rattle.collector.specs.Nodes.{HasMore, HasSame, stands};

use crate::hash::{hash_of, leads_right};
use crate::node::{Node, Part, leaf, leaves, with_left, with_right};
use model_types::Exclusion;
use mvn_shared::{List, Mem, Shared};
use std::alloc::Global;

// How many exclusions stand in one leaf at most, but for those of one number.
const FEW: usize = 8;

// Whether an exclusion stands on a side of a bit.
fn stands(exclusion: &Exclusion, bit: u32, right: bool) -> bool
    ensures { result ≡ stands bit right exclusion.now }
{
    let hash = hash_of(exclusion.group.as_str(), exclusion.artifact.as_str());
    if right {
        leads_right(hash, bit)
    } else {
        !leads_right(hash, bit)
    }
}

// The lowest bit in which the number of some exclusion differs from this one; 0 where none does.
fn differing(items: &[Shared<Exclusion>], hash: u32) -> u32 {
    let mut differ = 0u32;
    for exclusion in items {
        differ |= hash ^ hash_of(exclusion.group.as_str(), exclusion.artifact.as_str());
    }
    differ & differ.wrapping_neg()
}

// One exclusion more, where it stands on a side.
fn keep(
    list: &mut List<Shared<Exclusion>>,
    one: &Shared<Exclusion>,
    bit: u32,
    right: bool,
) -> Mem<()>
    ensures { OnOk result (list.new
        ≡ list.old ++ (if stands bit right one.now then one.now ∷ [] else [])) }
{
    if stands(one, bit, right) {
        list.push(one.share()?)?;
    }
    Ok(())
}

// The exclusions of one side.
fn side(
    alloc: Global,
    items: &List<Shared<Exclusion>>,
    bit: u32,
    right: bool,
) -> Mem<List<Shared<Exclusion>>>
    ensures { IfOk result (λ list. list ≡ filter (stands bit right) items.now) }
{
    let mut list = List::new(alloc);
    for one in items.as_slice() {
        keep(&mut list, one, bit, right)?;
    }
    Ok(list)
}

// A leaf, or a fork of two where its exclusions are on both sides of a bit.
fn divided(alloc: Global, items: List<Shared<Exclusion>>, bit: u32) -> Mem<Node>
    ensures { IfOk result (λ node. HasSame items node) }
{
    let left = side(alloc, &items, bit, false)?;
    let right = side(alloc, &items, bit, true)?;
    if left.is_empty() || right.is_empty() {
        return Ok(leaf(items));
    }
    Ok(leaves(alloc, bit, left, right)?)
}

// A few exclusions and one more.
fn longer(items: &List<Shared<Exclusion>>, one: &Shared<Exclusion>) -> Mem<List<Shared<Exclusion>>>
    ensures { IfOk result (λ list. list ≡ items.now ++ one.now ∷ []) }
{
    let mut list = items.clone()?;
    list.push(one.share()?)?;
    Ok(list)
}

// One exclusion more beside a few.
fn grown(
    alloc: Global,
    items: &List<Shared<Exclusion>>,
    hash: u32,
    one: &Shared<Exclusion>,
) -> Mem<Node>
    ensures { IfOk result (λ node. HasMore items.now one.now node) }
{
    let bit = if items.len() < FEW {
        0
    } else {
        differing(items.as_slice(), hash)
    };
    let more = longer(items, one)?;
    if bit == 0 {
        return Ok(leaf(more));
    }
    divided(alloc, more, bit)
}

// The same tree with one exclusion more, whose number this is. What is on the other side of a fork is shared. Costs the
// forks above the leaf, of which each is by another bit, and a leaf.
pub(crate) fn put(alloc: Global, node: &Node, hash: u32, one: &Shared<Exclusion>) -> Mem<Node>
    requires { hash ≡ hash_of one.now.group one.now.artifact }
    ensures { IfOk result (λ more. HasMore node.now one.now more) }
{
    match &node.part {
        Part::Leaf(items) => grown(alloc, items, hash, one),
        Part::Fork(bit, left, right) => {
            if leads_right(hash, *bit) {
                let more = put(alloc, right, hash, one)?;
                Ok(with_right(alloc, *bit, left, more)?)
            } else {
                let more = put(alloc, left, hash, one)?;
                Ok(with_left(alloc, *bit, more, right)?)
            }
        }
    }
}
