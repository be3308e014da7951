//! The start of a text, up to the end of its XML declaration. XML 1.0, section 2.8.

ghost use Rattle.std.specs.Prelude.{◌≡◌, option_map};
ghost use Rattle.std.specs.Str.{chars};
ghost use Rattle.pom_text.specs.Encodings.{announces};
ghost use Rattle.pom_text.specs.Openings.{behind_declaration, closed, opening};

use crate::attribute_words::skip_attributes;
use crate::cuts::{after, begins_space, skip_space};

// What stands after a declaration, by what stands after its `<?xml`.
fn closed(text: &str) -> Option<&str>
    ensures { option_map (λ rest. chars rest.now) result ≡ closed (chars text.now) }
{
    if !begins_space(text) {
        return None;
    }
    after(skip_space(skip_attributes(text)), b"?>")
}

// What stands after a declaration.
#[tactic(auto, unfolding(crate::specs::Openings::behind_declaration))]
fn behind_declaration(text: &str) -> Option<&str>
    ensures { option_map (λ rest. chars rest.now) result ≡ behind_declaration (chars text.now) }
{
    closed(after(text, b"<?xml")?)
}

// Whether a text begins as a declaration does.
#[tactic(auto, unfolding(crate::specs::Encodings::announces, crate::specs::Reads::after))]
fn announces(text: &str) -> bool
    ensures { result ≡ announces (chars text.now) }
{
    match after(text, b"<?xml") {
        Some(rest) => begins_space(rest),
        None => false,
    }
}

/// What stands after a declaration, or after none where the text doesn't begin as one. Costs what the declaration has.
/// XML 1.0, section 2.8.
#[tactic(auto, unfolding(crate::specs::Openings::opening))]
pub fn opening(text: &str) -> Option<&str>
    ensures { option_map (λ rest. chars rest.now) result ≡ opening (chars text.now) }
{
    if announces(text) {
        behind_declaration(text)
    } else {
        Some(text)
    }
}
