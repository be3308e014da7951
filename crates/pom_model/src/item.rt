//! `Item`: how one element of a list is read, and the lists of such elements.

ghost use Rattle.std.specs.Prelude.{◌≡◌, ℕ, map, IfOk};
ghost use Rattle.std.specs.Option.{option_copied};
ghost use Rattle.pom_model.specs.Elements.{items, named_among};
ghost use Rattle.pom_model.specs.Groups.{list_in, text_item};

use crate::element::{child, named, own_text};
use mvn_shared::{List, Mem, Shared, Text};
use pom_text::Node;
use std::alloc::Global;

/// What is read of one element of a list.
pub trait Item: Sized + Drop {
    ghost use Rattle.std.specs.Prelude.{List};
    ghost use Rattle.pom_text.specs.declared.node.Node.{Node};

    /// What it is, by all elements and its own.
    ghost value: { List Node → Node → Self };

    /// `like` is an item before it, whose texts it may share.
    fn read(alloc: Global, nodes: &[Node], node: &Node, like: Option<&Self>) -> Mem<Self>
        ensures { IfOk result (λ item. item ≡ value nodes.now node.now) };
}

// What is read of those of a name among some.
fn list_among<T: Item>(alloc: Global, nodes: &[Node], name: &str, ks: &[u32]) -> Mem<List<T>>
    ensures { IfOk result (λ list.
        list ≡ map (T.value nodes.now) (named_among nodes.now name.now ks.now)) }
{
    let mut list = List::new(alloc);
    for k in ks {
        if let Some(node) = named(nodes, *k, name) {
            let like = list.as_slice().last();
            let item = T::read(alloc, nodes, node, like)?;
            list.push(item)?;
        }
    }
    Ok(list)
}

/// What is read of each element of a name, in an element or in none. Costs the elements there.
pub(crate) fn items_in<T: Item>(
    alloc: Global,
    nodes: &[Node],
    list: Option<&Node>,
    name: &str,
) -> Mem<List<T>>
    ensures { IfOk result (λ read.
        read ≡ map (T.value nodes.now) (items nodes.now name.now (option_copied list.entry))) }
{
    match list {
        Some(list) => list_among(alloc, nodes, name, list.children.as_slice()),
        None => Ok(List::new(alloc)),
    }
}

/// What is read of each element of a name, in the first element of another name. Costs the elements there.
pub(crate) fn list_in<T: Item>(
    alloc: Global,
    nodes: &[Node],
    node: Option<&Node>,
    outer: &str,
    name: &str,
) -> Mem<List<T>>
    ensures { IfOk result (λ list.
        list ≡ list_in T.value nodes.now outer.now name.now (option_copied node.entry)) }
{
    items_in(alloc, nodes, child(nodes, node, outer), name)
}

impl Item for Text {
    ghost value = { text_item };

    fn read(alloc: Global, _nodes: &[Node], node: &Node, _like: Option<&Text>) -> Mem<Text> {
        own_text(alloc, node)
    }
}

// An item that is shared, if there is one.
fn inside<T>(like: Option<&Shared<T>>) -> Option<&T> {
    match like {
        Some(item) => Some(item.value()),
        None => None,
    }
}

impl<T: Item> Item for Shared<T> {
    ghost value = { T.value };

    fn read(
        alloc: Global,
        nodes: &[Node],
        node: &Node,
        like: Option<&Shared<T>>,
    ) -> Mem<Shared<T>> {
        let item = T::read(alloc, nodes, node, inside(like))?;
        Shared::new(alloc, item)
    }
}
