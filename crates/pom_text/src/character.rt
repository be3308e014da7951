//! The classes of characters that the grammar knows. XML 1.0, sections 2.2 and 2.3.

ghost use Rattle.std.specs.Prelude.{◌≡◌};
ghost use Rattle.pom_text.specs.Characters.{is_space, is_allowed, is_name_start, is_name_char};
ghost use Rattle.pom_text.specs.Lent.{is_suspect};

// White space: a space, a tab, a line feed, a carriage return. A byte past ASCII stands for its character, here and
// below.
#[tactic(auto, unfolding(crate::specs::Characters::is_space))]
pub(crate) fn is_space(b: u8) -> bool
    ensures { result ≡ is_space b }
{
    b == b' ' || b == b'\t' || b == b'\n' || b == b'\r'
}

// What may stand in a text at all. XML 1.0, section 2.2.
#[tactic(auto, unfolding(crate::specs::Characters::is_allowed))]
pub(crate) fn is_allowed(c: char) -> bool
    ensures { result ≡ is_allowed c }
{
    let code = c as u32;
    matches!(code, 0x9 | 0xa | 0xd | 0x20..=0xd7ff | 0xe000..=0xfffd | 0x10000..=0x10ffff)
}

// A byte that a character has which may not stand in a text, and hardly one that may.
#[tactic(auto, unfolding(crate::specs::Lent::is_suspect))]
pub(crate) fn is_suspect(b: u8) -> bool
    ensures { result ≡ is_suspect b }
{
    b < 0x20 && b != b'\t' && b != b'\n' && b != b'\r' || b == 0xef
}

// The first character of a name.
#[tactic(auto, unfolding(crate::specs::Characters::is_name_start))]
pub(crate) fn is_name_start(b: u8) -> bool
    ensures { result ≡ is_name_start b }
{
    b.is_ascii_alphabetic() || b == b'_' || b > 127
}

// A further character of a name, whatever it is. A call of its own, so that a small letter costs no more than its own
// test.
#[inline(never)]
#[tactic(auto, unfolding(crate::specs::Characters::is_name_char))]
fn is_any_name_char(b: u8) -> bool
    ensures { result ≡ is_name_char b }
{
    is_name_start(b) || b.is_ascii_digit() || b == b'-' || b == b'.' || b == b':'
}

// A further character of a name. Most are small letters, so these are looked for first, and then what ends a name in
// most tags.
#[tactic(auto, using(crate::proofs::Flat::small_letter, crate::proofs::Flat::name_end))]
pub(crate) fn is_name_char(b: u8) -> bool
    ensures { result ≡ is_name_char b }
{
    if b.is_ascii_lowercase() {
        return true;
    }
    if b == b'>' || b == b'=' {
        return false;
    }
    is_any_name_char(b)
}
