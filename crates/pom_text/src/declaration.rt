//! The encoding that an XML declaration names. XML 1.0, section 2.8.

ghost use Rattle.std.specs.Prelude.{◌≡◌, ◌≤◌, ◌<◌, ◌+◌, length, codes, option_map};
ghost use Rattle.std.specs.Str.{bytes_eq};
ghost use Rattle.pom_text.specs.Encodings.{begins_space};
ghost use Rattle.pom_text.specs.Openings.{closed, encoding_from, named_encoding};
ghost use Rattle.pom_text.specs.Reads.{attribute_of, attributes_of};
ghost use Rattle.pom_text.specs.Lent.{attribute_bytes};

use crate::character::is_space;
use crate::words::{after, name_of, quoted, skip_space, space_len};

/// An attribute: its name and its value.
#[derive(Clone, Copy)]
struct Attribute<'a> {
    name: &'a [u8],
    value: &'a [u8],
}

// An attribute with the white space before it, and what follows.
#[tactic(auto, unfolding(crate::specs::Reads::attribute_of))]
fn attribute_of(text: &[u8]) -> Option<(Attribute<'_>, &[u8])>
    ensures { option_map attribute_bytes result ≡ attribute_of text.now }
{
    if space_len(text) == 0 {
        return None;
    }
    let (name, rest) = name_of(skip_space(text))?;
    let rest = after(skip_space(rest), b"=")?;
    let (value, rest) = quoted(skip_space(rest))?;
    Some((Attribute { name, value }, rest))
}

// Whether white space stands next.
fn begins_space(text: &[u8]) -> bool
    ensures { result ≡ begins_space text.now }
{
    match text {
        [c, ..] => is_space(*c),
        [] => false,
    }
}

// What follows all attributes that stand next.
fn skip_attributes(text: &[u8]) -> &[u8]
    ensures { result.now ≡ (attributes_of text.now).1 }
{
    let mut rest = text;
    while let Some((_, behind)) = attribute_of(rest) {
        rest = behind;
    }
    rest
}

// What stands after a declaration, by what stands after its `<?xml`.
fn closed(text: &[u8]) -> Option<&[u8]>
    ensures { option_map (λ rest. rest.now) result ≡ closed text.now }
{
    if !begins_space(text) {
        return None;
    }
    after(skip_space(skip_attributes(text)), b"?>")
}

// Whether a name is `encoding`.
fn is_encoding(name: &[u8]) -> bool
    ensures { result ≡ bytes_eq name.now (codes "encoding") }
{
    name == b"encoding".as_slice()
}

// The first attribute `encoding` of so many bytes: where its value begins, and its value.
fn encoding_from(total: usize, text: &[u8]) -> Option<(usize, &[u8])>
    requires { length text.now ≤ total }
    ensures { option_map (λ e. (e.0, e.1.now)) result ≡ encoding_from total text.now }
{
    let mut rest = text;
    while let Some((attribute, behind)) = attribute_of(rest) {
        if is_encoding(attribute.name) {
            let place = total - (behind.len() + 1 + attribute.value.len());
            return Some((place, attribute.value));
        }
        rest = behind;
    }
    None
}

/// The encoding that a declaration at the front names: where its name begins, and its name. Costs what the declaration
/// has. XML 1.0, section 2.8.
#[tactic(auto, using(crate::proofs::Fronts::behind_within), unfolding(crate::specs::Openings::named_encoding))]
pub fn named_encoding(text: &[u8]) -> Option<(usize, &[u8])>
    ensures { option_map (λ e. (e.0, e.1.now)) result ≡ named_encoding text.now }
{
    let rest = after(text, b"<?xml")?;
    closed(rest)?;
    encoding_from(text.len(), rest)
}
