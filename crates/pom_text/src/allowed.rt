//! The front of a text as far as its characters may stand in an XML document.

ghost use Rattle.pom_text.specs.Lent.{IsAllowedCut, IsAllowedOf};

use crate::character::is_allowed;
use crate::words::has_suspect;

// How many bytes the characters at the front have that may stand in a text.
fn allowed_len(text: &str) -> usize
    ensures { IsAllowedCut text.now result }
{
    let mut total = 0;
    for c in text.chars() {
        if !is_allowed(c) {
            return total;
        }
        total += c.len_utf8();
    }
    total
}

/// The characters at the front that may stand in a text, and what follows. Costs one pass over the bytes; two where
/// some byte may be of a character that may not stand there. XML 1.0, section 2.2.
pub fn allowed_of(text: &str) -> (&str, &str)
    ensures { IsAllowedOf text.now result.0.now result.1.now }
{
    if !has_suspect(text.as_bytes()) {
        return (text, "");
    }
    text.split_at(allowed_len(text))
}
