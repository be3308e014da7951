//! One attribute of a tag, and what follows all of them. XML 1.0, section 3.1.

ghost use Rattle.std.specs.Prelude.{◌≡◌, option_and_then, option_map};
ghost use Rattle.std.specs.Str.{chars};
ghost use Rattle.pom_text.specs.Reads.{attribute_of, attributes_of, name_of, skip_space, with_name};
ghost use Rattle.pom_text.specs.Lent.{attribute_chars};

use crate::cuts::{after, begins_space, name_of, quoted, skip_space};

// An attribute after white space or none, as its name and its value, and what follows. A call of its own, since most
// tags have no attribute.
#[inline(never)]
fn named_value(text: &str) -> Option<((&str, &str), &str)>
    ensures { option_map attribute_chars result
        ≡ option_and_then with_name (name_of (skip_space (chars text.now))) }
{
    let (name, rest) = name_of(skip_space(text))?;
    let rest = after(skip_space(rest), b"=")?;
    let (value, rest) = quoted(skip_space(rest))?;
    Some(((name, value), rest))
}

/// An attribute with the white space before it, as its name and its value, and what follows. Costs what it has. XML
/// 1.0, section 3.1.
#[tactic(auto, using(crate::proofs::Firsts::some_space, crate::proofs::Firsts::no_space), unfolding(crate::specs::Reads::attribute_of))]
pub fn attribute_of(text: &str) -> Option<((&str, &str), &str)>
    ensures { option_map attribute_chars result ≡ attribute_of (chars text.now) }
{
    if !begins_space(text) {
        return None;
    }
    named_value(text)
}

// What follows all attributes that stand next. A call of its own, since most tags have no attribute.
#[inline(never)]
pub(crate) fn skip_attributes(text: &str) -> &str
    ensures { chars result.now ≡ (attributes_of (chars text.now)).1 }
{
    let mut rest = text;
    while let Some((_, behind)) = attribute_of(rest) {
        rest = behind;
    }
    rest
}

/// What follows all attributes of a tag, which mostly has none. Costs what they have. XML 1.0, section 3.1.
#[tactic(auto, using(crate::proofs::Attributes::all_left))]
pub fn behind_attributes(text: &str) -> &str
    ensures { chars result.now ≡ (attributes_of (chars text.now)).1 }
{
    if begins_space(text) {
        return skip_attributes(text);
    }
    text
}
