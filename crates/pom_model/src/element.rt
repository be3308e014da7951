//! Elements found by number and by name, and their texts without the white space round them.

ghost use Rattle.std.specs.Prelude.{◌≡◌, option_map, unwrap_or, is_some, slice_get, IfOk, IfSome, Some};
ghost use Rattle.std.specs.Option.{option_copied};
ghost use Rattle.std.specs.Str.{bytes_eq};
ghost use Rattle.pom_model.specs.Elements.{child, named, non_empty, text_in, text_is, text_of, text_or, trimmed};

use mvn_shared::{Mem, Text};
use pom_text::Node;
use std::alloc::Global;

// Without the white space round it. A form feed counts too, which stands in no POM text.
fn trimmed(text: &str) -> &str
    ensures { result.now ≡ trimmed text.now }
{
    text.trim_ascii()
}

/// Whether two texts are the same. Costs comparing them; most that are compared differ in length, so that is looked at
/// first.
#[tactic(auto, using(crate::proofs::Texts::other_length))]
pub fn same(text: &str, other: &str) -> bool
    ensures { result ≡ bytes_eq text.now other.now }
{
    if text.len() != other.len() {
        return false;
    }
    text == other
}

/// The name of an element. Constant time.
pub fn name_of(node: &Node) -> &str
    ensures { result.now ≡ node.now.name }
{
    node.name.as_str()
}

/// The element of a number. Constant time.
pub fn at(nodes: &[Node], k: u32) -> Option<&Node>
    ensures { option_copied result ≡ slice_get nodes.now k }
{
    nodes.get(k as usize)
}

/// The element of a number, where it has this name. Costs comparing names. It stands in the loops that call it, since a
/// POM has many elements.
#[inline(always)]
#[tactic(auto, unfolding(crate::specs::Elements::named))]
pub fn named<'a>(nodes: &'a [Node], k: u32, name: &str) -> Option<&'a Node>
    ensures { option_copied result ≡ named nodes.now name.now k }
{
    let node = at(nodes, k)?;
    if same(name_of(node), name) {
        Some(node)
    } else {
        None
    }
}

/// The first element of a name in another, or in none. Costs the number of elements in it.
#[tactic(auto, unfolding(crate::specs::Elements::child))]
pub fn child<'a>(nodes: &'a [Node], node: Option<&'a Node>, name: &str) -> Option<&'a Node>
    ensures { option_copied result ≡ child nodes.now name.now (option_copied node.entry) }
{
    for k in node?.children.as_slice() {
        if let Some(child) = named(nodes, *k, name) {
            return Some(child);
        }
    }
    None
}

// A text and what is in it without the white space round it.
type Inside<'a> = (&'a Text, &'a str);

// A copy of what is in a text without the white space round it, which its copies share: coordinates are copied into
// keys and edges often. A text that has none round it is shared with the element, whose text is shared since it was
// read. It stands in its caller, as what is found by name below does, since a POM has many texts and few fields.
#[inline(always)]
#[tactic(auto, using(crate::proofs::Texts::is_whole))]
fn copied(alloc: Global, found: Inside<'_>) -> Mem<Text>
    requires { found.1.now ≡ trimmed found.0.now }
    ensures { IfOk result (λ copy. copy ≡ found.entry.1.now) }
{
    let (text, inside) = found;
    if text.len() == inside.len() {
        return Ok(text.clone()?);
    }
    Text::from_str(alloc, inside)?.shared(alloc)
}

/// An element's own text, without the white space round it. Costs the text.
pub fn own_text(alloc: Global, node: &Node) -> Mem<Text>
    ensures { IfOk result (λ text. text ≡ trimmed node.now.text) }
{
    copied(alloc, (&node.text, trimmed(node.text.as_str())))
}

// What is in a text, where that is more than white space.
fn filled_text(text: &Text) -> Option<Inside<'_>>
    ensures inside { option_map (λ i. i.1.now) result ≡ non_empty (trimmed text.now) }
    ensures both { IfSome result (λ i. i.1.now ≡ trimmed i.0.now) }
{
    let inside = trimmed(text.as_str());
    if inside.is_empty() {
        None
    } else {
        Some((text, inside))
    }
}

// The text of an element, where there is one and more than white space stands in it.
#[inline(always)]
fn filled_in(found: Option<&Node>) -> Option<Inside<'_>>
    ensures inside { option_map (λ i. i.1.now) result ≡ text_in (option_copied found.entry) }
    ensures both { IfSome result (λ i. i.1.now ≡ trimmed i.0.now) }
{
    filled_text(&found?.text)
}

// The text of the first element of a name, where more than white space stands in it.
#[tactic(auto, unfolding(crate::specs::Elements::text_of))]
fn filled<'a>(nodes: &'a [Node], node: Option<&'a Node>, name: &str) -> Option<Inside<'a>>
    ensures inside { option_map (λ i. i.1.now) result
        ≡ text_of nodes.now name.now (option_copied node.entry) }
{
    filled_in(child(nodes, node, name))
}

// Or a default.
fn filled_or<'a>(nodes: &'a [Node], node: Option<&'a Node>, name: &str, default: &'a str) -> &'a str
    ensures { result.now ≡ text_or nodes.now name.now default.now (option_copied node.entry) }
{
    match filled(nodes, node, name) {
        Some((_, inside)) => inside,
        None => default,
    }
}

// A default, which is shared with a text that is it already.
#[inline(always)]
#[tactic(auto, using(crate::proofs::Texts::is_same))]
fn default_like(alloc: Global, default: &str, like: Option<&Text>) -> Mem<Text>
    ensures { IfOk result (λ text. text ≡ default.now) }
{
    if let Some(text) = like {
        if text.is(default) {
            return Ok(text.clone()?);
        }
    }
    if default.is_empty() {
        return Ok(Text::of(String::new(alloc)));
    }
    Text::from_str(alloc, default)?.shared(alloc)
}

/// The text of an element, where there is one and its text isn't empty. Costs the text.
#[inline(always)]
pub fn text_in(alloc: Global, found: Option<&Node>) -> Mem<Option<Text>>
    ensures { IfOk result (λ text. text ≡ text_in (option_copied found.entry)) }
{
    match filled_in(found) {
        Some(text) => Ok(Some(copied(alloc, text)?)),
        None => Ok(None),
    }
}

/// Or a default, which is shared with a text that is it already. Costs the text.
#[inline(always)]
pub fn text_in_or(
    alloc: Global,
    found: Option<&Node>,
    default: &str,
    like: Option<&Text>,
) -> Mem<Text>
    ensures { IfOk result (λ text.
        text ≡ unwrap_or (text_in (option_copied found.entry)) default.now) }
{
    match filled_in(found) {
        Some(text) => copied(alloc, text),
        None => default_like(alloc, default, like),
    }
}

/// The text of the first element of a name, where it isn't empty. Costs the number of elements, and the text.
#[tactic(auto, unfolding(crate::specs::Elements::text_of))]
pub fn text_of(alloc: Global, nodes: &[Node], node: Option<&Node>, name: &str) -> Mem<Option<Text>>
    ensures { IfOk result (λ text. text ≡ text_of nodes.now name.now (option_copied node.entry)) }
{
    text_in(alloc, child(nodes, node, name))
}

/// Or a default. Costs the same.
#[tactic(auto, unfolding(crate::specs::Elements::text_of))]
pub fn text_or(
    alloc: Global,
    nodes: &[Node],
    node: Option<&Node>,
    name: &str,
    default: &str,
) -> Mem<Text>
    ensures { IfOk result (λ text.
        text ≡ text_or nodes.now name.now default.now (option_copied node.entry)) }
{
    text_in_or(alloc, child(nodes, node, name), default, None)
}

/// Whether the first element of a name has a text that isn't empty.
pub(crate) fn is_filled(nodes: &[Node], node: &Node, name: &str) -> bool
    ensures { result ≡ is_some (text_of nodes.now name.now (Some node.now)) }
{
    filled(nodes, Some(node), name).is_some()
}

/// Whether the text of the first element of a name is this one; an absent text is empty. Costs the number of
/// elements.
pub fn text_is(nodes: &[Node], node: Option<&Node>, name: &str, value: &str) -> bool
    ensures { result ≡ text_is nodes.now name.now value.now (option_copied node.entry) }
{
    same(filled_or(nodes, node, name, ""), value)
}
