//! The one copy of a document that the texts of its elements share.

ghost use Rattle.std.specs.Prelude.{◌≡◌, IfOk};

use mvn_shared::{Mem, Shared, Text};
use std::alloc::Global;

/// A text that is read, and a copy of it, made when the first part is asked for, which all parts share.
#[derive(Drop)]
pub(crate) struct Document<'a> {
    text: &'a str,
    copy: Option<Shared<String>>,
}

// A copy of a text, for any number of owners.
fn copy_of(alloc: Global, text: &str) -> Mem<Shared<String>> {
    let copy = String::from_str(alloc, text)?;
    Shared::new(alloc, copy)
}

impl<'a> Document<'a> {
    /// No part has been asked for yet. Takes no memory.
    pub(crate) fn new(text: &'a str) -> Document<'a> {
        Document { text, copy: None }
    }

    /// A part of the text, which ends at this byte of it, and of which copies take no memory. The first part costs a
    /// copy of the whole text, and each part costs comparing it.
    pub(crate) fn part(&mut self, alloc: Global, end: usize, part: &str) -> Mem<Text>
        ensures { IfOk result (λ copy. copy ≡ part.now) }
    {
        if self.copy.is_none() {
            self.copy = Some(copy_of(alloc, self.text)?);
        }
        match &self.copy {
            Some(copy) => Text::within(alloc, copy, end.wrapping_sub(part.len()), part),
            None => Text::from_str(alloc, part),
        }
    }
}
