//! Who has the bytes of a text.

ghost use Rattle.std.specs.Prelude.{◌≡◌, ◌++◌, length, IfOk};
ghost use Rattle.std.specs.String.{string_bytes};
ghost use Rattle.mvn_shared.specs.Held.{held_bytes};

use crate::memory::Mem;
use crate::part::Part;
use crate::shared::Shared;
use std::alloc::{AllocError, Global};

/// The bytes of a text: it alone has them, and may add to them, or they are a part of a text, or all of one, that
/// others share too.
#[derive(Drop)]
pub enum Held {
    Own(String),
    Within(Part),
}

// All of a text that is shared.
fn whole_of(text: Shared<String>) -> Mem<Held>
    ensures { IfOk result (λ whole. held_bytes whole ≡ string_bytes text) }
{
    let long = text.value().len();
    match Part::of(&text, 0, long)? {
        Some(part) => Ok(Held::Within(part)),
        None => Ok(Held::Own(text.value().clone()?)),
    }
}

impl Held {
    /// The same bytes, which copies share; empty ones need no memory, so they aren't shared.
    pub(crate) fn shared(self, alloc: Global) -> Mem<Held>
        ensures { IfOk result (λ shared. held_bytes shared ≡ held_bytes self) }
    {
        match self {
            Held::Own(text) => {
                if text.is_empty() {
                    Ok(Held::Own(text))
                } else {
                    whole_of(Shared::new(alloc, text)?)
                }
            }
            Held::Within(part) => Ok(Held::Within(part)),
        }
    }

    // The allocator that the bytes come from.
    fn allocator(&self) -> Global {
        match self {
            Held::Own(text) => *text.allocator(),
            Held::Within(part) => part.allocator(),
        }
    }

    /// The bytes with further ones after them, which the result alone has, and room for as many again.
    pub(crate) fn with(&self, more: &str) -> Mem<Held>
        ensures { IfOk result (λ longer. held_bytes longer ≡ held_bytes self.now ++ more.now) }
    {
        let front = self.as_str();
        let room = front.len().wrapping_add(more.len()).wrapping_mul(2);
        let mut text = String::with_capacity(self.allocator(), room)?;
        text.push_str(front)?;
        text.push_str(more)?;
        Ok(Held::Own(text))
    }

    /// The same bytes once more, in constant time where they are shared.
    pub(crate) fn copy(&self) -> Result<Held, AllocError>
        ensures { IfOk result (λ copy. held_bytes copy ≡ held_bytes self.now) }
    {
        match self {
            Held::Own(text) => Ok(Held::Own(text.clone()?)),
            Held::Within(part) => Ok(Held::Within(part.copy()?)),
        }
    }

    /// The bytes.
    pub(crate) fn as_str(&self) -> &str
        ensures { result.now ≡ held_bytes self.now }
    {
        match self {
            Held::Own(text) => text.as_str(),
            Held::Within(part) => part.as_str(),
        }
    }

    /// The same as bytes, for comparing and hashing.
    pub(crate) fn as_bytes(&self) -> &[u8]
        ensures { result.now ≡ held_bytes self.now }
    {
        match self {
            Held::Own(text) => text.as_bytes(),
            Held::Within(part) => part.as_bytes(),
        }
    }

    /// The number of bytes.
    pub(crate) fn len(&self) -> usize
        ensures { result ≡ length (held_bytes self.now) }
    {
        match self {
            Held::Own(text) => text.len(),
            Held::Within(part) => part.len(),
        }
    }
}
