//! `Text`: bytes that are UTF-8, and the errors of bytes that aren't.

ghost use Rattle.std.specs.Prelude.{◌≡◌, ◌↔◌, ◌==◌, ◌++◌, [], length, IsTrue, IfOk, IsErrOf, OnOk, OnErr};
ghost use Rattle.std.specs.Str.{IsUtf8, bytes_eq};
ghost use Rattle.std.specs.String.{string_bytes};

use crate::held::Held;
use crate::memory::{Mem, OutOfMemory};
use crate::part::Part;
use crate::shared::Shared;
use std::alloc::{AllocError, Global};
use std::cmp::Ordering;
use std::fmt;
use std::hash::{Hash, Hasher};
use std::marker::Model;
use thiserror::Error;

/// Bytes that are UTF-8. Contracts see a text as the list of its bytes, and compare texts by it.
#[derive(Drop)]
pub struct Text {
    held: Held,
}

impl Model for Text {
    ghost use Rattle.std.specs.Prelude.{List, ℕ};
    ghost use Rattle.std.specs.Coded.{coded_list, coded_ℕ};
    ghost use Rattle.mvn_shared.specs.Held.{held_bytes};

    ghost Value = { List ℕ };

    ghost coded = { coded_list coded_ℕ };

    ghost view = { λ t. held_bytes t.held };
}

/// Why bytes give no text.
#[derive(Clone, Copy, Debug, PartialEq, Eq, Error)]
pub enum TextError {
    #[error("the bytes are not UTF-8")]
    NotUtf8,
    #[error("out of memory")]
    Memory,
}

impl From<OutOfMemory> for TextError {
    ghost use Rattle.mvn_shared.specs.declared.text.TextError.TheVariants.{Memory};

    ghost from_gives = { λ _ e. e ≡ Memory };

    fn from(_: OutOfMemory) -> Self {
        TextError::Memory
    }
}

impl Text {
    /// The text of these bytes: refused exactly where they aren't UTF-8. Costs one pass and one copy.
    pub fn from_slice(alloc: Global, bytes: &[u8]) -> Result<Text, TextError>
        ensures text { IfOk result (λ text. text ≡ bytes.now) }
        ensures utf8 { OnOk result (IsUtf8 bytes.now) }
        ensures not_utf8 { IsErrOf result TextError.NotUtf8 → ¬ (IsUtf8 bytes.now) }
        ensures memory { IsErrOf result TextError.Memory → IsUtf8 bytes.now }
    {
        match std::str::from_utf8(bytes) {
            Ok(text) => Ok(Text::from_str(alloc, text)?),
            Err(_) => Err(TextError::NotUtf8),
        }
    }

    /// A copy of a text. It alone has its bytes: a copy of it copies them.
    pub fn from_str(alloc: Global, text: &str) -> Mem<Text>
        ensures { IfOk result (λ copy. copy ≡ text.now) }
    {
        Ok(Text::of(String::from_str(alloc, text)?))
    }

    /// The text that a `String` holds. Takes no memory; a copy of it copies its bytes.
    pub fn of(text: String) -> Text
        ensures { result ≡ string_bytes text }
    {
        let held = Held::Own(text);
        Text { held }
    }

    /// A copy of a text that stands in another one at a byte, which it and its copies share: they take no memory. Where
    /// it doesn't stand there it is a copy of its own. Costs comparing them.
    pub fn within(alloc: Global, whole: &Shared<String>, at: usize, text: &str) -> Mem<Text>
        ensures { IfOk result (λ copy. copy ≡ text.now) }
    {
        if let Some(part) = Part::of(whole, at, at.wrapping_add(text.len()))? {
            if part.as_str() == text {
                let held = Held::Within(part);
                return Ok(Text { held });
            }
        }
        Text::from_str(alloc, text)
    }

    /// The same text, which its copies share: they take no memory. Costs one allocation, and none where it is empty or
    /// its copies share it already.
    pub fn shared(self, alloc: Global) -> Mem<Text>
        ensures { IfOk result (λ shared. shared ≡ self) }
    {
        let held = self.held.shared(alloc)?;
        Ok(Text { held })
    }

    /// Adds a text at the end, in the time of what is added on the average; what copies share is copied first.
    pub fn push_str(&mut self, more: &str) -> Mem<()>
        ensures ok { OnOk result (self.new ≡ self.old ++ more.now) }
        ensures err { OnErr result (self.new ≡ self.old) }
    {
        if let Held::Own(text) = &mut self.held {
            text.push_str(more)?;
            return Ok(());
        }
        self.held = self.held.with(more)?;
        Ok(())
    }

    pub fn as_str(&self) -> &str
        ensures value { result.now ≡ self.now }
    {
        self.held.as_str()
    }

    pub fn as_bytes(&self) -> &[u8]
        ensures value { result.now ≡ self.now }
        ensures utf8 { IsUtf8 self.now }
    {
        self.as_str().as_bytes()
    }

    /// Whether it is this text. Costs comparing them, and nothing where their lengths differ.
    pub fn is(&self, text: &str) -> bool
        ensures { result ≡ bytes_eq self.now text.now }
    {
        self.held.as_bytes() == text.as_bytes()
    }

    /// The number of bytes.
    pub fn len(&self) -> usize
        ensures { result ≡ length self.now }
    {
        self.held.len()
    }

    pub fn is_empty(&self) -> bool
        ensures { IsTrue result ↔ (self.now ≡ []) }
    {
        self.held.len() == 0
    }
}

impl fmt::Debug for Text {
    fn fmt<W: fmt::Write>(&self, f: &mut fmt::Formatter<W>) -> fmt::Result {
        fmt::Debug::fmt(self.as_str(), f)
    }
}

impl fmt::Display for Text {
    ghost use Rattle.std.specs.Prelude.{Some};

    ghost output = { λ text. Some text };

    fn fmt<W: fmt::Write>(&self, f: &mut fmt::Formatter<W>) -> fmt::Result {
        let text = self.as_str();
        write!(f, "{text}")
    }
}

impl Clone for Text {
    ghost is_clone = { λ text copy. copy ≡ text };

    fn clone(&self) -> Result<Text, AllocError> {
        let held = self.held.copy()?;
        Ok(Text { held })
    }
}

impl PartialEq for Text {
    ghost use Rattle.std.specs.Prelude.{nat_eq};
    ghost use Rattle.std.specs.Cmp.{partial_equiv_from_equiv};
    ghost use Rattle.std.specs.Cmp.Lexicographic.{pointwise, nat_list_eq_equiv};

    ghost eq = { pointwise nat_eq };

    ghost laws = { partial_equiv_from_equiv nat_list_eq_equiv };

    fn eq(&self, other: &Self) -> bool {
        self.held.as_bytes() == other.held.as_bytes()
    }
}

impl Eq for Text {
    ghost use Rattle.std.specs.Cmp.Lexicographic.{nat_list_eq_equiv};

    ghost laws = { nat_list_eq_equiv };
}

impl PartialOrd for Text {
    ghost use Rattle.std.specs.Prelude.{Some};
    ghost use Rattle.std.specs.Ordering.{nat_cmp};
    ghost use Rattle.std.specs.Cmp.Lexicographic.{slice_cmp, texts_po};

    ghost partial_cmp = { λ x y. Some (slice_cmp nat_cmp x y) };

    ghost laws = { texts_po };

    fn partial_cmp(&self, other: &Self) -> Option<Ordering> {
        Some(self.cmp(other))
    }
}

impl Ord for Text {
    ghost use Rattle.std.proofs.Common.{refl};
    ghost use Rattle.std.specs.Ordering.{nat_cmp};
    ghost use Rattle.std.specs.Cmp.Lexicographic.{slice_cmp, nat_list_cmp_total, texts_ties};

    ghost cmp = { slice_cmp nat_cmp };

    ghost total = { nat_list_cmp_total };

    ghost matches_partial_cmp = { λ x y. refl };

    ghost matches_eq = { texts_ties };

    fn cmp(&self, other: &Self) -> Ordering {
        self.held.as_bytes().cmp(other.held.as_bytes())
    }
}

impl Hash for Text {
    ghost use Rattle.std.proofs.Common.{rules};
    ghost use Rattle.std.specs.Cmp.Rules.{hashing};
    ghost use Rattle.std.specs.Hash as fed;

    ghost hash_input = { fed.str };

    ghost respects_eq = { Prim.search (hashing, rules) };

    fn hash<H: Hasher>(&self, state: &mut H) {
        state.write(self.held.as_bytes());
        state.write_u8(0xff);
    }
}
