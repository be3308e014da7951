//! The properties of a POM, of equal names the last.

ghost use Rattle.std.specs.Prelude.{◌≡◌, fold, map, [], IfOk, OnOk};
ghost use Rattle.std.specs.Option.{option_copied};
ghost use Rattle.pom_model.specs.AnyNames.{all_in, pair, properties, put_entry};

use crate::element::{at, child, own_text};
use indexmap::IndexMap;
use mvn_base::Pair;
use mvn_shared::{List, Mem, Text};
use pom_text::Node;
use std::alloc::Global;

// The pairs of a map, in its order.
fn pairs_of(alloc: Global, entries: IndexMap<Text, Text>) -> Mem<List<Pair>>
    ensures { IfOk result (λ pairs. pairs ≡ map pair entries.entries) }
{
    Ok(List::of(
        entries
            .into_iter()
            .map(|(name, value)| Pair { name, value })
            .collect(alloc)?,
    ))
}

// One element more: the later value of a name stands at the earlier place.
#[tactic(auto, using(crate::proofs::TablePairs::put_same))]
fn put(alloc: Global, entries: &mut IndexMap<Text, Text>, node: &Node) -> Mem<()>
    ensures { OnOk result (entries.new.entries ≡ put_entry entries.old.entries node.now) }
{
    entries.insert(node.name.value().clone()?, own_text(alloc, node)?)?;
    Ok(())
}

// The pairs of these elements.
fn pairs_among(alloc: Global, nodes: &[Node], ks: &[u32]) -> Mem<IndexMap<Text, Text>>
    ensures { IfOk result (λ entries.
        entries.entries ≡ fold put_entry [] (all_in nodes.now ks.now)) }
{
    let mut entries = IndexMap::new(alloc);
    for k in ks {
        if let Some(node) = at(nodes, *k) {
            put(alloc, &mut entries, node)?;
        }
    }
    Ok(entries)
}

/// The properties that stand in an element, or in none. Costs their number and texts, on the average.
#[tactic(auto, unfolding(crate::specs::AnyNames::properties))]
pub fn properties(alloc: Global, nodes: &[Node], node: Option<&Node>) -> Mem<List<Pair>>
    ensures { IfOk result (λ pairs. pairs ≡ properties nodes.now (option_copied node.entry)) }
{
    match child(nodes, node, "properties") {
        Some(list) => pairs_of(alloc, pairs_among(alloc, nodes, list.children.as_slice())?),
        None => Ok(List::new(alloc)),
    }
}
