//! The names of a start tag's attributes, as texts that elements of one shape share.

ghost use Rattle.std.specs.Prelude.{◌≡◌, [], option_and_then, slice_get, IfOk};
ghost use Rattle.std.specs.Option.{option_copied};
ghost use Rattle.std.specs.Str.{chars};
ghost use Rattle.pom_text.specs.Reads.{attributes_of, names_of};

use crate::attribute_words::attribute_of;
use crate::cuts::begins_space;
use crate::names::text_like;
use crate::node::Node;
use mvn_shared::{List, Mem, Text};
use std::alloc::Global;

// The name of an element's attribute, by its place.
fn name_at(like: Option<&Node>, at: usize) -> Option<&Text>
    ensures { option_copied result
        ≡ option_and_then (λ node. slice_get node.attributes at) (option_copied like.entry) }
{
    like?.attributes.get(at)
}

// An empty list with room for as many names as an element has, since elements of one name mostly have as many.
fn room_like(alloc: Global, like: Option<&Node>) -> Mem<List<Text>>
    ensures { IfOk result (λ names. names ≡ []) }
{
    match like {
        Some(node) => node.attributes.emptied(),
        None => Ok(List::new(alloc)),
    }
}

// The names of all attributes that stand next. Those that an element has at the same places are shared with it. A call
// of its own as well.
#[inline(never)]
fn names_in(alloc: Global, like: Option<&Node>, text: &str) -> Mem<List<Text>>
    ensures { IfOk result (λ names. names ≡ names_of (attributes_of (chars text.now)).0) }
{
    let mut names = room_like(alloc, like)?;
    let mut rest = text;
    while let Some((attribute, behind)) = attribute_of(rest) {
        let name = text_like(alloc, name_at(like, names.len()), attribute.0)?;
        names.push(name)?;
        rest = behind;
    }
    Ok(names)
}

// The names of a tag's attributes, of which mostly none stands.
#[tactic(auto, using(crate::proofs::Attributes::no_names))]
pub(crate) fn tag_names(alloc: Global, like: Option<&Node>, text: &str) -> Mem<List<Text>>
    ensures { IfOk result (λ names. names ≡ names_of (attributes_of (chars text.now)).0) }
{
    if begins_space(text) {
        return names_in(alloc, like, text);
    }
    Ok(List::new(alloc))
}
