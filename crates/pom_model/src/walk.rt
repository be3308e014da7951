//! The walk through a POM's elements by the read table, to the first one that is refused.

ghost use Rattle.std.specs.Prelude.{◌≡◌, ◌<◌, ◌≤◌, ℕ, [], IsTrue, Some, map, find, length, option_map, is_some, slice_get, IfOk};
ghost use Rattle.pom_model.specs.Faults.{begun, combines, ended, fault_within, first_fault, has_name, is_alone, is_combine, is_kind, is_required, missing, read_child, version_fault};
ghost use Rattle.pom_model.specs.Spans.{is_lacking};
ghost use Rattle.pom_model.specs.Table.{row_view};
ghost use Rattle.pom_model.specs.declared.table.Kind.TheVariants.{Leaf};

use crate::element::{child, is_filled, name_of, named, text_or};
use crate::fault::{Fault, Spot};
use crate::table::{Kind, Row, Times, found, required_under};
use mvn_base::Rule;
use mvn_shared::{Mem, Text};
use pom_text::{DEPTH, Node};
use std::alloc::Global;

/// The most items of one list.
const ITEMS: usize = 1024;

// An element that is read, by its number.
#[tactic(auto, unfolding(crate::specs::Faults::read_child))]
fn read_child<'a>(nodes: &'a [Node], kind: Kind, k: u32) -> Option<((Kind, Times), &'a Node)>
    ensures { option_map (λ e. (e.0, e.1.now)) result ≡ read_child nodes.now kind k }
{
    let node = nodes.get(k as usize)?;
    Some((found(kind, name_of(node))?, node))
}

// Whether one of these has this name.
fn has_name(nodes: &[Node], name: &str, before: &[u32]) -> bool
    ensures { result ≡ has_name nodes.now name.now before.now }
{
    for k in before {
        if named(nodes, *k, name).is_some() {
            return true;
        }
    }
    false
}

// Whether an attribute says how configurations merge.
fn is_combine(name: &str) -> bool
    ensures { result ≡ is_combine name.now }
{
    name == "combine.children" || name == "combine.self"
}

fn combines(node: &Node) -> bool
    ensures { result ≡ combines node.now }
{
    for name in node.attributes.as_slice() {
        if is_combine(name.as_str()) {
            return true;
        }
    }
    false
}

impl Kind {
    fn is(self, other: Kind) -> bool
        ensures { result ≡ is_kind self other }
    {
        self.number() == other.number()
    }
}

// What is refused where an element begins, after some, so many of which are read.
#[tactic(auto, unfolding(crate::specs::Faults::begun))]
fn begun(
    alloc: Global,
    nodes: &[Node],
    before: &[u32],
    read: usize,
    kind: Kind,
    times: Times,
    node: &Node,
) -> Mem<Option<Fault>>
    requires { read < 18446744073709551615 }
    ensures { IfOk result (λ fault.
        fault ≡ begun nodes.now before.now read (kind, times) node.now) }
{
    let name = name_of(node);
    if !times.is_repeated() && has_name(nodes, name, before) {
        return Ok(Some(Fault::at_path(alloc, Rule::RepeatedElement, name)?));
    }
    if kind.is(Kind::Configuration) && combines(node) {
        let step = times.step(alloc, read, name)?;
        return Ok(Some(Fault::at_path(alloc, Rule::CombineAttribute, step.as_str())?));
    }
    if times.is_repeated() && read == ITEMS {
        return Ok(Some(Fault::at_path(alloc, Rule::TooLarge, "")?));
    }
    Ok(None)
}

// Whether a POM has no parent.
fn is_alone(nodes: &[Node], node: &Node) -> bool
    ensures { result ≡ is_alone nodes.now node.now }
{
    child(nodes, Some(node), "parent").is_none()
}

impl Times {
    // Whether an element has to be there, in another one. Only few ask whether that has a parent.
    fn is_required(self, nodes: &[Node], node: &Node) -> bool
        ensures { result ≡ is_required (is_alone nodes.now node.now) self }
    {
        match self {
            Times::Optional | Times::Repeated => false,
            Times::Required => true,
            Times::RequiredAlone => is_alone(nodes, node),
        }
    }
}

// The first name of these lines that an element lacks.
fn missing_among(rows: &[Row], nodes: &[Node], node: &Node) -> Option<&'static str>
    ensures { option_map (λ name. name.now) result
        ≡ option_map (λ r. r.name)
        (find (is_lacking nodes.now node.now (is_alone nodes.now node.now))
        (map row_view rows.now)) }
{
    for (_, name, _, times) in rows {
        if times.is_required(nodes, node) && !is_filled(nodes, node, name) {
            return Some(*name);
        }
    }
    None
}

// What an element lacks, first in the table's order.
#[tactic(auto, using(crate::proofs::Spans::missing_so), unfolding(crate::specs::Faults::missing))]
fn missing(alloc: Global, nodes: &[Node], kind: Kind, node: &Node) -> Mem<Option<Fault>>
    ensures { IfOk result (λ fault. fault ≡ missing nodes.now kind node.now) }
{
    match missing_among(required_under(kind), nodes, node) {
        Some(name) => Ok(Some(Fault::at_path(alloc, Rule::MissingField, name)?)),
        None => Ok(None),
    }
}

// Another form of POM than this.
#[tactic(auto, unfolding(crate::specs::Faults::version_fault))]
fn version_fault(alloc: Global, nodes: &[Node], kind: Kind, node: &Node) -> Mem<Option<Fault>>
    ensures { IfOk result (λ fault. fault ≡ version_fault nodes.now kind node.now) }
{
    if !kind.is(Kind::Project) {
        return Ok(None);
    }
    let text = text_or(alloc, nodes, Some(node), "modelVersion", "")?;
    if text.as_str() == "4.0.0" {
        return Ok(None);
    }
    let rule = Rule::ModelVersion;
    let spot = Spot::Own(text);
    Ok(Some(Fault { rule, spot }))
}

// What is refused where an element ends.
#[tactic(auto, unfolding(crate::specs::Faults::ended))]
fn ended(alloc: Global, nodes: &[Node], kind: Kind, node: &Node) -> Mem<Option<Fault>>
    ensures { IfOk result (λ fault. fault ≡ ended nodes.now kind node.now) }
{
    match version_fault(alloc, nodes, kind, node)? {
        Some(fault) => Ok(Some(fault)),
        None => missing(alloc, nodes, kind, node),
    }
}

// Whether an element is a text with no element in it, in which nothing is refused.
fn is_bare(kind: Kind, node: &Node) -> bool
    ensures leaf { IsTrue result → kind ≡ Leaf }
    ensures none { IsTrue result → node.now.children ≡ [] }
{
    match kind {
        Kind::Leaf => node.children.is_empty(),
        _ => false,
    }
}

// What is refused in an element, first in document order. Most elements are texts, so the walk into these is left out.
fn fault_within(
    alloc: Global,
    depth: u32,
    nodes: &[Node],
    kind: Kind,
    node: &Node,
) -> Mem<Option<Fault>>
    ensures { IfOk result (λ fault. fault ≡ fault_within depth nodes.now kind node.now) }
{
    if depth == 0 {
        return Ok(None);
    }
    let children = node.children.as_slice();
    let mut read = 0;
    for (i, k) in children.iter().enumerate() {
        if let Some(((inner, times), child)) = read_child(nodes, kind, *k) {
            let (before, _) = children.split_at(i);
            if let Some(fault) = begun(alloc, nodes, before, read, inner, times, child)? {
                return Ok(Some(fault));
            }
            if is_bare(inner, child) {
                read += 1;
                continue;
            }
            if let Some(fault) = fault_within(alloc, depth - 1, nodes, inner, child)? {
                let step = times.step(alloc, read, name_of(child))?;
                return Ok(Some(fault.under(alloc, step.as_str())?));
            }
            read += 1;
        }
    }
    ended(alloc, nodes, kind, node)
}

/// What is refused in a POM, first in document order. Costs its elements, and on a refusal its path.
#[tactic(auto, unfolding(crate::specs::Faults::first_fault))]
pub fn first_fault(alloc: Global, nodes: &[Node]) -> Mem<Option<Fault>>
    ensures { IfOk result (λ fault. fault ≡ first_fault nodes.now) }
{
    let Some(root) = nodes.get(0) else {
        let rule = Rule::RootNotProject;
        let spot = Spot::Own(Text::of(String::new(alloc)));
        return Ok(Some(Fault { rule, spot }));
    };
    if name_of(root) != "project" {
        let rule = Rule::RootNotProject;
        let spot = Spot::Own(root.name.value().clone()?);
        return Ok(Some(Fault { rule, spot }));
    }
    match fault_within(alloc, DEPTH, nodes, Kind::Project, root)? {
        Some(fault) => Ok(Some(fault.under(alloc, "project")?)),
        None => Ok(None),
    }
}
