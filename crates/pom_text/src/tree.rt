//! The elements that have begun, and how each piece of a text extends them.

ghost use Rattle.std.specs.Prelude.{◌≡◌, ◌<◌, true, length, IfOk, IfSome, OnOk};
ghost use Rattle.std.specs.List.{list_all};
ghost use Rattle.std.specs.Str.{bytes_eq, chars, encode_utf8_all};
ghost use Rattle.pom_text.specs.Growth.{HasChanged, HasGotChild, Takes, standing_of};
ghost use Rattle.pom_text.specs.Parts.{Character, Section, Reference};
ghost use Rattle.pom_text.specs.Runs.{TakesRun, begun_by, line_bytes, said};
ghost use Rattle.pom_text.specs.Lent.{is_run};
ghost use Rattle.pom_text.specs.Tree.{add_child, add_text, closes, ended, innermost, may_begin, nothing_yet, passed};

use crate::attribute::tag_names;
use crate::cuts::{is_over, skip_space};
use crate::document::Document;
use crate::names::{SLOTS, key_of, new_name, slot_of};
use crate::node::Node;
use crate::part::{Part, Tag};
use crate::spelled::{behind_feed, push_lines, text_of};
use mvn_shared::{List, Mem, Shared, Text};
use std::alloc::Global;
use std::mem::replace;

// How many children there is room for at first: the memory for fewer would not be less.
const CHILDREN: usize = 6;

/// The elements that have begun, the numbers of those that have not ended, outermost first, and whether a carriage
/// return in text stands directly before. Of the elements whose names have one slot it remembers the last, by the key
/// of its name and its number, so that the next of that name shares it, and the names of its attributes.
#[derive(Drop)]
pub(crate) struct Tree {
    pub(crate) nodes: Vec<Node>,
    pub(crate) path: Vec<u32>,
    pub(crate) returned: bool,
    pub(crate) keys: [usize; SLOTS],
    pub(crate) recent: [u32; SLOTS],
}

// A text more in an element's text, each of its line ends as a line feed.
fn push_section(node: &mut Node, more: &str) -> Mem<()>
    ensures { OnOk result (node.new ≡ add_text (line_bytes more.now) node.old) }
{
    push_lines(&mut node.text, more)
}

// A run more in an element's text, which ends at a byte of a document. The first of an element is a part of the
// document.
fn push_run(
    alloc: Global,
    node: &mut Node,
    run: &str,
    document: &mut Document<'_>,
    end: usize,
) -> Mem<()>
    ensures { OnOk result (node.new ≡ add_text run.now node.old) }
{
    if node.text.is_empty() {
        node.text = document.part(alloc, end, run)?;
        return Ok(());
    }
    node.text.push_str(run)
}

// A child more of an element, whose first one makes room for the next.
fn push_child(alloc: Global, node: &mut Node, child: u32) -> Mem<()>
    ensures { OnOk result (node.new ≡ add_child child node.old) }
{
    if node.children.is_empty() {
        let mut children = List::with_capacity(alloc, CHILDREN)?;
        children.push(child)?;
        node.children = children;
        return Ok(());
    }
    node.children.push(child)
}

// Shares an element's text with the copies that are made of it, unless others stand in it.
fn share_own_text(alloc: Global, node: &mut Node) -> Mem<()>
    ensures { OnOk result (node.new ≡ node.old) }
{
    if node.children.is_empty() && !node.text.is_empty() {
        let text = replace(&mut node.text, Text::of(String::new(alloc)));
        node.text = text.shared(alloc)?;
    }
    Ok(())
}

// Whether an element has this name.
#[tactic(auto, using(crate::proofs::Bytes::whole_again))]
fn is_named(node: &Node, name: &str) -> bool
    ensures { result ≡ bytes_eq node.now.name (encode_utf8_all (chars name.now)) }
{
    node.name.as_str() == name
}

// A name for an element, shared with one that has it.
fn name_like(alloc: Global, like: Option<&Node>, name: &str) -> Mem<Shared<Text>>
    requires { IfSome like (λ node. node.now.name ≡ encode_utf8_all (chars name.now)) }
    ensures { IfOk result (λ copy. copy ≡ encode_utf8_all (chars name.now)) }
{
    match like {
        Some(node) => node.name.share(),
        None => new_name(alloc, name),
    }
}

impl Tree {
    /// No element yet.
    pub(crate) fn new(alloc: Global) -> Tree
        ensures { standing_of result ≡ nothing_yet }
    {
        Tree {
            nodes: Vec::new(alloc),
            path: Vec::new(alloc),
            returned: false,
            keys: [0; SLOTS],
            recent: [0; SLOTS],
        }
    }

    /// The open element that began last.
    fn innermost(&self) -> Option<u32>
        ensures { result ≡ innermost self.now.path.items }
    {
        self.path.last().copied()
    }

    // An element's text grows.
    fn add_text(&mut self, at: u32, more: &str) -> Mem<()>
        ensures nodes { HasChanged result (add_text more.now) at self.old self.new }
        ensures path { self.new.path.items ≡ self.old.path.items }
    {
        if (at as usize) < self.nodes.len() {
            self.nodes[at as usize].text.push_str(more)?;
        }
        Ok(())
    }

    // An element's text grows by a run that ends at a byte of a document.
    fn add_run(
        &mut self,
        alloc: Global,
        at: u32,
        run: &str,
        document: &mut Document<'_>,
        end: usize,
    ) -> Mem<()>
        ensures nodes { HasChanged result (add_text run.now) at self.old self.new }
        ensures path { self.new.path.items ≡ self.old.path.items }
    {
        if (at as usize) < self.nodes.len() {
            push_run(alloc, &mut self.nodes[at as usize], run, document, end)?;
        }
        Ok(())
    }

    // An element's text grows by lines.
    fn add_lines(&mut self, at: u32, more: &str) -> Mem<()>
        ensures nodes { HasChanged result (add_text (line_bytes more.now)) at self.old self.new }
        ensures path { self.new.path.items ≡ self.old.path.items }
    {
        if (at as usize) < self.nodes.len() {
            push_section(&mut self.nodes[at as usize], more)?;
        }
        Ok(())
    }

    // An element gets a child.
    fn add_child(&mut self, alloc: Global, at: u32, child: u32) -> Mem<()>
        ensures nodes { HasChanged result (add_child child) at self.old self.new }
        ensures path { self.new.path.items ≡ self.old.path.items }
    {
        if (at as usize) < self.nodes.len() {
            push_child(alloc, &mut self.nodes[at as usize], child)?;
        }
        Ok(())
    }

    // A comment or an instruction.
    fn pass(&mut self)
        ensures { standing_of self.new ≡ passed (standing_of self.old) }
    {
        self.returned = false;
    }

    /// Characters that stand for themselves, none of which is a carriage return, and which end at a byte of a document:
    /// whether they may stand. The first of an element are a part of the document, and more are copied.
    pub(crate) fn take_run(
        &mut self,
        alloc: Global,
        run: &str,
        document: &mut Document<'_>,
        end: usize,
    ) -> Mem<bool>
        requires { list_all is_run (chars run.now) ≡ true }
        ensures { TakesRun result self.old self.new run.now }
    {
        if is_over(run) {
            return Ok(true);
        }
        let Some(at) = self.innermost() else {
            self.returned = false;
            return Ok(is_over(skip_space(run)));
        };
        let fed = behind_feed(self.returned, run);
        self.add_run(alloc, at, fed, document, end)?;
        self.returned = false;
        Ok(true)
    }

    // A carriage return that stands for itself.
    #[tactic(auto, using(crate::proofs::Breaks::return_bytes), unfolding(crate::specs::Tree::with_text, crate::specs::Growth::take_part, crate::specs::Characters::is_space))]
    fn take_return(&mut self) -> Mem<bool>
        ensures { Takes result self.old self.new (Character 13) }
    {
        let Some(at) = self.innermost() else {
            self.returned = false;
            return Ok(true);
        };
        self.add_text(at, "\n")?;
        self.returned = true;
        Ok(true)
    }

    // A character that is referred to.
    #[tactic(auto, using(crate::proofs::Breaks::one_character), unfolding(crate::specs::Tree::with_text, crate::specs::Growth::take_part))]
    fn take_reference(&mut self, c: char) -> Mem<bool>
        ensures { Takes result self.old self.new (Reference c) }
    {
        let Some(at) = self.innermost() else {
            return Ok(false);
        };
        let mut bytes = [0u8; 4];
        self.add_text(at, c.encode_utf8(bytes.as_mut_slice()))?;
        self.returned = false;
        Ok(true)
    }

    // What stands in a CDATA part.
    #[tactic(auto, unfolding(crate::specs::Growth::with_bytes, crate::specs::Growth::take_part))]
    fn take_section(&mut self, inside: &str) -> Mem<bool>
        ensures { Takes result self.old self.new (Section (line_bytes inside.now)) }
    {
        let Some(at) = self.innermost() else {
            return Ok(false);
        };
        self.add_lines(at, inside)?;
        self.returned = false;
        Ok(true)
    }

    // Whether an element may begin.
    fn may_begin(&self) -> bool
        ensures { result ≡ may_begin (standing_of self.now) }
    {
        self.nodes.is_empty() || !self.path.is_empty()
    }

    // The innermost open element, if there is one, gets a child.
    fn add_to_innermost(&mut self, alloc: Global, child: u32) -> Mem<()>
        ensures nodes { HasGotChild result child self.old self.new }
        ensures path { self.new.path.items ≡ self.old.path.items }
    {
        match self.innermost() {
            Some(at) => self.add_child(alloc, at, child),
            None => Ok(()),
        }
    }

    // The element that is remembered in a slot, where it has this name.
    #[tactic(auto, using(crate::proofs::Trees::same_name))]
    fn remembered(&self, slot: usize, key: usize, name: &str) -> Option<&Node>
        requires { slot < 127 }
        ensures { IfSome result (λ node. node.now.name ≡ encode_utf8_all (chars name.now)) }
    {
        if self.keys[slot] != key {
            return None;
        }
        let node = self.nodes.get(self.recent[slot] as usize)?;
        if !is_named(node, name) {
            return None;
        }
        Some(node)
    }

    // An element begins, by its name and a text that begins with its attributes. It stands in its caller, which has
    // them at hand.
    #[inline(always)]
    #[tactic(auto, unfolding(crate::specs::Tree::begun))]
    fn begin(&mut self, alloc: Global, tag: Tag<'_>) -> Mem<()>
        requires { length self.old.nodes.items < 4294967295 }
        ensures { OnOk result (standing_of self.new ≡ begun_by tag.entry self.old) }
    {
        let number = self.nodes.len() as u32;
        let key = key_of(tag.name);
        let slot = slot_of(key);
        let like = self.remembered(slot, key, tag.name);
        let name = name_like(alloc, like, tag.name)?;
        let attributes = tag_names(alloc, like, tag.attributes)?;
        self.add_to_innermost(alloc, number)?;
        self.nodes.push(Node {
            name,
            attributes,
            text: Text::of(String::new(alloc)),
            children: List::new(alloc),
        })?;
        self.path.push(number)?;
        self.keys[slot] = key;
        self.recent[slot] = number;
        self.returned = false;
        Ok(())
    }

    // The innermost open element ends.
    #[tactic(auto, unfolding(crate::specs::Tree::ended))]
    fn end(&mut self)
        ensures { standing_of self.new ≡ ended (standing_of self.old) }
    {
        self.path.pop();
        self.returned = false;
    }

    // Shares the text of the element of a number with its copies.
    fn share_text(&mut self, alloc: Global, at: u32) -> Mem<()>
        ensures nodes { OnOk result (self.new.nodes.items ≡ self.old.nodes.items) }
        ensures path { self.new.path.items ≡ self.old.path.items }
    {
        if (at as usize) < self.nodes.len() {
            share_own_text(alloc, &mut self.nodes[at as usize])?;
        }
        Ok(())
    }

    // The innermost open element ends, after what stands in it.
    #[tactic(auto, unfolding(crate::specs::Tree::ended))]
    fn close(&mut self, alloc: Global) -> Mem<()>
        ensures { OnOk result (standing_of self.new ≡ ended (standing_of self.old)) }
    {
        if let Some(at) = self.innermost() {
            self.share_text(alloc, at)?;
        }
        self.end();
        Ok(())
    }

    // Whether the innermost open element has this name.
    #[tactic(auto, unfolding(crate::specs::Tree::closes))]
    fn closes(&self, name: &str) -> bool
        ensures { result ≡ closes (encode_utf8_all (chars name.now)) (standing_of self.now) }
    {
        match self.innermost() {
            None => false,
            Some(at) => match self.nodes.get(at as usize) {
                None => false,
                Some(node) => is_named(node, name),
            },
        }
    }

    /// One part more: whether it may stand. Constant time on the average, besides the bytes that it gives.
    #[tactic(auto, unfolding(crate::specs::Growth::take_part))]
    pub(crate) fn take(&mut self, alloc: Global, part: Part<'_>) -> Mem<bool>
        requires { length self.old.nodes.items < 4294967295 }
        ensures { Takes result self.old self.new (said part.entry) }
    {
        match part {
            Part::Passed => {
                self.pass();
                Ok(true)
            }
            Part::Return => self.take_return(),
            Part::Section(inside) => self.take_section(inside),
            Part::Reference(c) => self.take_reference(c),
            Part::Start(tag) => {
                if !self.may_begin() {
                    return Ok(false);
                }
                self.begin(alloc, tag)?;
                Ok(true)
            }
            Part::Empty(tag) => {
                if !self.may_begin() {
                    return Ok(false);
                }
                self.begin(alloc, tag)?;
                self.end();
                Ok(true)
            }
            Part::End(name) => {
                if !self.closes(name) {
                    return Ok(false);
                }
                self.close(alloc)?;
                Ok(true)
            }
        }
    }
}
