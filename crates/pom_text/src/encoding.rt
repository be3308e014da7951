//! The three encodings that a POM may have, and how bytes are decoded by them.

ghost use Rattle.std.specs.Prelude.{◌≡◌, ◌≤◌, ◌*◌, length, IfOk};
ghost use Rattle.std.specs.List.{prefix_len};
ghost use Rattle.std.specs.Str.{bytes_eq, chars, str_to_ascii_lowercase};
ghost use Rattle.std.specs.String.{string_bytes};
ghost use Rattle.pom_text.specs.declared.encoding.Encoding.TheVariants.{Utf8, UsAscii};
ghost use Rattle.pom_text.specs.Encodings.{decoded, encoded, is_ascii, mark_len, named};
ghost use Rattle.pom_text.specs.Lent.{IsShort, decoded_chars};

use crate::decoded::Decoded;
use mvn_shared::Mem;
use std::alloc::Global;

/// An encoding that a POM may have.
#[derive(Clone, Copy)]
pub enum Encoding {
    Utf8,
    UsAscii,
    Iso88591,
}

/// How many bytes of a UTF-8 mark stand at the front. Constant time.
pub fn mark_len(bytes: &[u8]) -> usize
    ensures within { result ≤ length bytes.now }
    ensures len { result ≡ mark_len bytes.now }
{
    if bytes.starts_with(&[0xef, 0xbb, 0xbf]) {
        3
    } else {
        0
    }
}

// How many bytes of ASCII stand at the front.
fn ascii_len(bytes: &[u8]) -> usize
    ensures within { result ≤ length bytes.now }
    ensures len { result ≡ prefix_len is_ascii bytes.now }
{
    for (i, b) in bytes.iter().enumerate() {
        if *b >= 0x80 {
            return i;
        }
    }
    bytes.len()
}

// The text of bytes, each of which is the character of its number.
fn single_bytes(alloc: Global, bytes: &[u8]) -> Mem<String>
    ensures text { IfOk result (λ text. chars (string_bytes text) ≡ bytes.now) }
    ensures within { IfOk result (λ text. length (string_bytes text) ≤ 4 * length bytes.now) }
{
    let mut text = String::with_capacity(alloc, bytes.len())?;
    for b in bytes {
        text.push(*b as char)?;
    }
    Ok(text)
}

// The text that bytes are in UTF-8, or the first byte that is none.
fn decode_utf8(bytes: &[u8]) -> Result<Decoded<'_>, usize>
    ensures text { decoded_chars result ≡ decoded Utf8 bytes.now }
    ensures within { IsShort bytes.now result }
{
    match std::str::from_utf8(bytes) {
        Ok(text) => Ok(Decoded::Lent(text)),
        Err(error) => Err(error.valid_up_to()),
    }
}

// The text that bytes are in ASCII, or the first byte that is none.
fn decode_ascii(bytes: &[u8]) -> Result<Decoded<'_>, usize>
    ensures text { decoded_chars result ≡ decoded UsAscii bytes.now }
    ensures within { IsShort bytes.now result }
{
    let n = ascii_len(bytes);
    if n < bytes.len() {
        return Err(n);
    }
    match std::str::from_utf8(bytes) {
        Ok(text) => Ok(Decoded::Lent(text)),
        Err(_) => unreachable!(),
    }
}

// How many characters a text has.
#[tactic(auto, using(std::proofs::lemmas::Str::chars_from_encodes))]
fn char_len(text: &str) -> usize
    ensures { result ≡ length (chars text.now) }
{
    text.chars().count()
}

impl Encoding {
    /// The encoding of a name, without case. Costs the name. Project rule: these three.
    #[tactic(auto, unfolding(crate::specs::Encodings::named))]
    pub fn named(name: &[u8]) -> Option<Encoding>
        ensures { result ≡ named name.now }
    {
        if is_name(name, b"utf-8") {
            Some(Encoding::Utf8)
        } else if is_name(name, b"us-ascii") {
            Some(Encoding::UsAscii)
        } else if is_name(name, b"iso-8859-1") {
            Some(Encoding::Iso88591)
        } else {
            None
        }
    }

    /// The text of bytes, or the first byte that the encoding doesn't allow. UTF-8 and ASCII are lent. Costs one pass.
    #[tactic(auto, unfolding(crate::specs::Encodings::decoded))]
    pub fn decode(self, alloc: Global, bytes: &[u8]) -> Mem<Result<Decoded<'_>, usize>>
        ensures text { IfOk result (λ r. decoded_chars r ≡ decoded self bytes.now) }
        ensures within { IfOk result (λ r. IsShort bytes.now r) }
    {
        match self {
            Encoding::Utf8 => Ok(decode_utf8(bytes)),
            Encoding::UsAscii => Ok(decode_ascii(bytes)),
            Encoding::Iso88591 => Ok(Ok(Decoded::Made(single_bytes(alloc, bytes)?))),
        }
    }

    /// How many bytes the characters of a text took. Costs one pass; constant time for UTF-8.
    #[tactic(auto, using(crate::proofs::Bytes::whole_len), unfolding(crate::specs::Encodings::encoded))]
    pub fn len(self, text: &str) -> usize
        ensures { result ≡ length (encoded self (chars text.now)) }
    {
        match self {
            Encoding::Utf8 => text.len(),
            Encoding::UsAscii | Encoding::Iso88591 => char_len(text),
        }
    }
}

// Whether a text is a name, without case. The name is in lower case.
fn is_name(text: &[u8], name: &[u8]) -> bool
    ensures { result ≡ bytes_eq (str_to_ascii_lowercase text.now) name.now }
{
    if text.len() != name.len() {
        return false;
    }
    for (i, b) in text.iter().enumerate() {
        if b.to_ascii_lowercase() != name[i] {
            return false;
        }
    }
    true
}
