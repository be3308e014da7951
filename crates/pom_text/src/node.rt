//! The elements of a POM, in the order in which they begin.

use mvn_shared::{List, Shared, Text};

/// An element: its name, which elements of one name may share, the names of its attributes, its own text, and the
/// numbers of the elements directly in it. Texts are in UTF-8; the text joins what stands directly in the element, with
/// references and CDATA resolved and each line end a line feed. XML 1.0.
#[derive(Drop)]
pub struct Node {
    pub name: Shared<Text>,
    pub attributes: List<Text>,
    pub text: Text,
    pub children: List<u32>,
}

/// The elements of a POM, in the order in which they begin: the root is number 0, and each child comes after its
/// parent.
#[derive(Drop)]
pub struct PomText {
    pub nodes: List<Node>,
}
