//! `List`: a list of items, which contracts see as the list itself, so that a copy equals its source.

ghost use Rattle.std.specs.Prelude.{◌≡◌, ◌↔◌, [], ◌∷◌, ◌++◌, length, slice_get, IsTrue, IfOk, OnOk, OnErr};
ghost use Rattle.std.specs.Option.{option_copied};

use crate::memory::Mem;
use std::alloc::{AllocError, Global};
use std::marker::Model;

/// A list of items. Contracts see it as the list, so that a copy equals what it copies.
#[derive(Drop)]
pub struct List<T> {
    items: Vec<T>,
}

impl<T> Model for List<T> {
    ghost use Rattle.std.specs.Prelude as logic;
    ghost use Rattle.std.specs.Coded.{coded_list};

    ghost Value = { logic.List T };

    ghost coded = { coded_list T.code };

    ghost view = { λ list. list.items.items };
}

impl<T> List<T> {
    /// The empty list, which takes no memory.
    pub fn new(alloc: Global) -> List<T>
        ensures { result ≡ [] }
    {
        List {
            items: Vec::new(alloc),
        }
    }

    /// An empty list, with room for so many items.
    pub fn with_capacity(alloc: Global, room: usize) -> Mem<List<T>>
        ensures { IfOk result (λ list. list ≡ []) }
    {
        let items = Vec::with_capacity(alloc, room)?;
        Ok(List { items })
    }

    /// The items of a `Vec`. Takes no memory.
    pub fn of(items: Vec<T>) -> List<T>
        ensures { result ≡ items.items }
    {
        List { items }
    }

    /// The items as a `Vec`. Takes no memory.
    pub fn into_vec(self) -> Vec<T>
        ensures { result.items ≡ self }
    {
        self.items
    }

    pub fn as_slice(&self) -> &[T]
        ensures { result.now ≡ self.now }
    {
        self.items.as_slice()
    }

    pub fn len(&self) -> usize
        ensures { result ≡ length self.now }
    {
        self.items.len()
    }

    pub fn is_empty(&self) -> bool
        ensures { IsTrue result ↔ (self.now ≡ []) }
    {
        self.items.is_empty()
    }

    pub fn get(&self, at: usize) -> Option<&T>
        ensures { option_copied result ≡ slice_get self.now at }
    {
        self.items.get(at)
    }
}

impl<T: Drop> List<T> {
    /// An empty list, from the same allocator, with room for as many items.
    pub fn emptied(&self) -> Mem<List<T>>
        ensures { IfOk result (λ list. list ≡ []) }
    {
        let items = Vec::with_capacity(*self.items.allocator(), self.items.len())?;
        Ok(List { items })
    }

    /// Adds an item at the end, in constant time on the average.
    pub fn push(&mut self, item: T) -> Mem<()>
        ensures ok { OnOk result (self.new ≡ self.old ++ item ∷ []) }
        ensures err { OnErr result (self.new ≡ self.old) }
    {
        self.items.push(item)?;
        Ok(())
    }
}

impl<T: Clone> Clone for List<T> {
    ghost use Rattle.std.specs.List.{AllZip};

    ghost is_clone = { AllZip T.is_clone };

    fn clone(&self) -> Result<List<T>, AllocError> {
        let items = self.items.clone()?;
        Ok(List { items })
    }
}
