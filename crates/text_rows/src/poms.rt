// The elements of a POM text.
use mvn_shared::{Mem, Text};
use pom_text::{Node, PomText, read_text};
use std::alloc::Global;

// Names in brackets, each with a comma after it.
fn push_names(shown: &mut String, names: &[Text]) -> Mem<()> {
    if names.is_empty() {
        return Ok(());
    }
    shown.push_str("[")?;
    for name in names {
        shown.push_str(name.as_str())?;
        shown.push_str(",")?;
    }
    shown.push_str("]")?;
    Ok(())
}

// Numbers in braces, each with a comma after it.
fn push_numbers(alloc: Global, shown: &mut String, numbers: &[u32]) -> Mem<()> {
    if numbers.is_empty() {
        return Ok(());
    }
    shown.push_str("{")?;
    for n in numbers {
        shown.push_str(format!(in alloc; "{n},")?.as_str())?;
    }
    shown.push_str("}")?;
    Ok(())
}

// An element, as `name[attribute,](text){child,}`.
fn push_node(alloc: Global, shown: &mut String, node: &Node) -> Mem<()> {
    shown.push_str(node.name.as_str())?;
    push_names(shown, node.attributes.as_slice())?;
    if !node.text.is_empty() {
        shown.push_str("(")?;
        shown.push_str(node.text.as_str())?;
        shown.push_str(")")?;
    }
    push_numbers(alloc, shown, node.children.as_slice())
}

fn nodes(alloc: Global, nodes: &[Node]) -> Mem<String> {
    let mut shown = String::new(alloc);
    for node in nodes {
        if !shown.is_empty() {
            shown.push_str(" ")?;
        }
        push_node(alloc, &mut shown, node)?;
    }
    Ok(shown)
}

/// All elements, or why there are none.
pub(crate) fn outline(alloc: Global, bytes: &[u8]) -> Mem<String> {
    match &read_text(alloc, bytes) {
        Ok(text) => nodes(alloc, text.nodes.as_slice()),
        Err(fault) => Ok(format!(in alloc; "{fault}")?),
    }
}

// How many attributes, bytes of names and bytes of texts elements have.
fn sizes(nodes: &[Node]) -> (usize, usize, usize) {
    let (mut attributes, mut names, mut texts) = (0usize, 0usize, 0usize);
    for node in nodes {
        attributes = attributes.wrapping_add(node.attributes.len());
        names = names.wrapping_add(node.name.len());
        texts = texts.wrapping_add(node.text.len());
    }
    (attributes, names, texts)
}

fn counts(alloc: Global, text: &PomText) -> Mem<String> {
    let nodes = text.nodes.as_slice();
    let elements = nodes.len();
    let (attributes, names, texts) = sizes(nodes);
    Ok(format!(in alloc;
        "elements {elements} attributes {attributes} names {names} texts {texts}"
    )?)
}

/// How many elements and attributes a POM text has, and how many bytes their names and texts, or why it is none.
pub(crate) fn count(alloc: Global, bytes: &[u8]) -> Mem<String> {
    match &read_text(alloc, bytes) {
        Ok(text) => counts(alloc, text),
        Err(fault) => Ok(format!(in alloc; "{fault}")?),
    }
}
