//! The texts of two elements that stand side by side.

ghost use Rattle.std.specs.Prelude.{◌≡◌, IfOk};
ghost use Rattle.std.specs.Option.{option_copied};
ghost use Rattle.pom_model.specs.Elements.{text_of};

use crate::element::text_of;
use mvn_shared::{Mem, Text};
use pom_text::Node;
use std::alloc::Global;

/// The texts of the first elements of two names, where they aren't empty. Costs the number of elements, and the texts.
pub fn two_texts(
    alloc: Global,
    nodes: &[Node],
    node: Option<&Node>,
    one: &str,
    other: &str,
) -> Mem<(Option<Text>, Option<Text>)>
    ensures { IfOk result (λ both. both
        ≡ (
          text_of nodes.now one.now (option_copied node.entry),
          text_of nodes.now other.now (option_copied node.entry),
        )) }
{
    let first = text_of(alloc, nodes, node, one)?;
    let second = text_of(alloc, nodes, node, other)?;
    Ok((first, second))
}
