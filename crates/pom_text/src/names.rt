//! The names of elements, of which a reader keeps those met before to share them.

ghost use Rattle.std.specs.Prelude.{◌≡◌, ◌<◌, IfOk};
ghost use Rattle.std.specs.Str.{bytes_eq, chars, encode_utf8_all};

use crate::spelled::text_of;
use mvn_shared::{Mem, Shared, Text};
use std::alloc::Global;

/// How many names are remembered. A prime number, so that each part of a key counts.
pub(crate) const SLOTS: usize = 127;

// A byte, or 0 for none.
fn code_of(byte: Option<&u8>) -> usize
    ensures { result < 256 }
{
    match byte {
        Some(b) => *b as usize,
        None => 0,
    }
}

/// Three bytes of a name and its length as one number, which tells most names apart.
pub(crate) fn key_of(name: &str) -> usize
    ensures { result < 4294967296 }
{
    let bytes = name.as_bytes();
    let n = bytes.len();
    let ends = code_of(bytes.first()) + code_of(bytes.last()) * 0x100;
    ends + code_of(bytes.get(n.wrapping_sub(2))) * 0x1_0000 + n % 0x100 * 0x100_0000
}

/// The slot of a key.
pub(crate) fn slot_of(key: usize) -> usize
    ensures { result < 127 }
{
    key % SLOTS
}

/// A copy of a name, for any number of owners.
pub(crate) fn new_name(alloc: Global, name: &str) -> Mem<Shared<Text>>
    ensures { IfOk result (λ copy. copy ≡ encode_utf8_all (chars name.now)) }
{
    let text = text_of(alloc, name)?;
    Shared::new(alloc, text)
}

// Whether a text is this name.
#[tactic(auto, using(crate::proofs::Bytes::whole_again))]
fn is_text(text: &Text, name: &str) -> bool
    ensures { result ≡ bytes_eq text.now (encode_utf8_all (chars name.now)) }
{
    text.as_str() == name
}

/// A name as a text: a copy of another text where that is the same, and else a new one. Its copies take no memory.
#[tactic(auto, using(crate::proofs::Trees::same_name))]
pub(crate) fn text_like(alloc: Global, like: Option<&Text>, name: &str) -> Mem<Text>
    ensures { IfOk result (λ copy. copy ≡ encode_utf8_all (chars name.now)) }
{
    if let Some(text) = like {
        if is_text(text, name) {
            return Ok(text.clone()?);
        }
    }
    let text = text_of(alloc, name)?;
    text.shared(alloc)
}
