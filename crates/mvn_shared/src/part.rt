//! A part of a text that others share too.

ghost use Rattle.std.specs.Prelude.{◌≡◌, length, IfOk, IfSome};
ghost use Rattle.std.specs.List.{slice_range};
ghost use Rattle.std.specs.String.{string_bytes};

use crate::memory::Mem;
use crate::shared::Shared;
use std::alloc::{AllocError, Global};
use std::marker::Model;

/// The bytes of a text from one place up to another, each at the begin of a character or at the end. Contracts see them
/// as a list.
#[derive(Drop)]
pub struct Part {
    whole: Shared<String>,
    from: usize,
    to: usize,
}

impl Model for Part {
    ghost use Rattle.std.specs.Prelude.{List, ℕ, ◌≤◌};
    ghost use Rattle.std.specs.Coded.{coded_list, coded_ℕ};
    ghost use Rattle.std.specs.List.{slice_range};
    ghost use Rattle.std.specs.Str.{IsCharBoundary};
    ghost use Rattle.std.specs.String.{string_bytes};

    ghost Value = { List ℕ };

    ghost coded = { coded_list coded_ℕ };

    ghost view = { λ p. slice_range (string_bytes p.whole) p.from p.to };

    ghost invariant = { λ p. (p.from ≤ p.to)
        × IsCharBoundary (string_bytes p.whole) p.from × IsCharBoundary (string_bytes p.whole) p.to };
}

impl Part {
    /// The part of a text between two places, if characters begin there. Constant time; nothing is copied.
    pub(crate) fn of(whole: &Shared<String>, from: usize, to: usize) -> Mem<Option<Part>>
        ensures { IfOk result (λ part. IfSome part
            (λ part. part ≡ slice_range (string_bytes whole.now) from to)) }
    {
        let text = whole.value().as_str();
        if from > to || !text.is_char_boundary(from) || !text.is_char_boundary(to) {
            return Ok(None);
        }
        let whole = whole.share()?;
        Ok(Some(Part { whole, from, to }))
    }

    /// The same bytes once more, in constant time.
    pub(crate) fn copy(&self) -> Result<Part, AllocError>
        ensures { IfOk result (λ copy. copy ≡ self.now) }
    {
        let whole = self.whole.clone()?;
        Ok(Part {
            whole,
            from: self.from,
            to: self.to,
        })
    }

    /// The allocator that the text comes from.
    pub(crate) fn allocator(&self) -> Global {
        *self.whole.value().allocator()
    }

    /// The bytes. Constant time.
    pub(crate) fn as_str(&self) -> &str
        ensures { result.now ≡ self.now }
    {
        match self.whole.value().as_str().get(self.from..self.to) {
            Some(text) => text,
            None => "",
        }
    }

    /// The same as bytes, without a look at its ends for characters. Constant time.
    pub(crate) fn as_bytes(&self) -> &[u8]
        ensures { result.now ≡ self.now }
    {
        match self
            .whole
            .value()
            .as_str()
            .as_bytes()
            .get(self.from..self.to)
        {
            Some(bytes) => bytes,
            None => &[],
        }
    }

    /// The number of bytes. Constant time.
    pub(crate) fn len(&self) -> usize
        ensures { result ≡ length self.now }
    {
        self.to.wrapping_sub(self.from)
    }
}
