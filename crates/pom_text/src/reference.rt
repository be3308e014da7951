//! Character and entity references, and the characters that they stand for. XML 1.0, section 4.1.

ghost use Rattle.std.specs.Prelude.{◌≡◌, ◌≤◌, ◌<◌, ◌+◌, ◌*◌, ℕ, is_some, option_map, IfSome};
ghost use Rattle.std.specs.Char.{is_digit};
ghost use Rattle.std.specs.List.{list_all};
ghost use Rattle.std.specs.Str.{chars};
ghost use Rattle.pom_text.specs.Reads.{reference_of};
ghost use Rattle.pom_text.specs.Numerals.{Keeps};
ghost use Rattle.pom_text.specs.References.{allowed, entity, number, numbered, numeral, referred};

use crate::character::is_allowed;
use crate::cuts::up_to;

// One past the greatest code of a character.
const PAST_CHARACTERS: u32 = 0x11_0000;

// One digit more.
fn with_digit(value: u32, radix: u32, digit: u32) -> u32
    requires lower { 2 ≤ radix }
    requires upper { radix ≤ 16 }
    requires digit { digit < radix }
    ensures { (whole : ℕ) → Keeps value whole → Keeps result (whole * radix + digit) }
{
    if value < PAST_CHARACTERS {
        value * radix + digit
    } else {
        value
    }
}

// The number that digits write, where all are digits. From the last character on it is some number that is no
// character's.
fn number(radix: u32, digits: &[u8]) -> Option<u32>
    requires lower { 2 ≤ radix }
    requires upper { radix ≤ 16 }
    ensures digits { is_some result ≡ list_all (λ d. is_digit d radix) digits.now }
    ensures value { IfSome result (λ value. allowed value ≡ allowed (number radix digits.now)) }
{
    let mut value = 0;
    for b in digits {
        value = with_digit(value, radix, (*b as char).to_digit(radix)?);
    }
    Some(value)
}

// The character of a code, where it may stand in a text.
#[tactic(auto, unfolding(crate::specs::Characters::is_allowed))]
fn allowed(code: u32) -> Option<char>
    ensures { result ≡ allowed code }
{
    match char::from_u32(code) {
        Some(c) if is_allowed(c) => Some(c),
        _ => None,
    }
}

// The character that one digit or more write.
#[tactic(auto, unfolding(crate::specs::References::numbered))]
fn numbered(radix: u32, digits: &[u8]) -> Option<char>
    requires lower { 2 ≤ radix }
    requires upper { radix ≤ 16 }
    ensures { result ≡ numbered radix digits.now }
{
    if digits.is_empty() {
        return None;
    }
    allowed(number(radix, digits)?)
}

// The character of a numeric reference, by what stands after its `#`.
#[tactic(auto, unfolding(crate::specs::References::numeral))]
fn numeral(text: &[u8]) -> Option<char>
    ensures { result ≡ numeral text.now }
{
    match text {
        [] => None,
        [b'x', digits @ ..] => numbered(16, digits),
        digits => numbered(10, digits),
    }
}

// One of the five entities that need no declaration.
#[tactic(auto, unfolding(crate::specs::References::entity))]
fn entity(name: &[u8]) -> Option<char>
    ensures { result ≡ entity name.now }
{
    if name == b"lt".as_slice() {
        Some('<')
    } else if name == b"gt".as_slice() {
        Some('>')
    } else if name == b"amp".as_slice() {
        Some('&')
    } else if name == b"quot".as_slice() {
        Some('"')
    } else if name == b"apos".as_slice() {
        Some('\'')
    } else {
        None
    }
}

// The character that a reference means, by what stands between `&` and `;`.
#[tactic(auto, unfolding(crate::specs::References::referred))]
fn referred(name: &[u8]) -> Option<char>
    ensures { result ≡ referred name.now }
{
    match name {
        [] => None,
        [b'#', numeric @ ..] => numeral(numeric),
        name => entity(name),
    }
}

/// A reference after its `&`: the character, and what follows. Costs what stands before the next `;`. XML 1.0, sections
/// 4.1 and 4.6.
#[tactic(auto, using(crate::proofs::Referred::same_meaning), unfolding(crate::specs::Reads::reference_of))]
pub fn reference_of(text: &str) -> Option<(char, &str)>
    ensures { option_map (λ e. (e.0, chars e.1.now)) result ≡ reference_of (chars text.now) }
{
    let (name, rest) = up_to(text, b";")?;
    Some((referred(name.as_bytes())?, rest))
}
