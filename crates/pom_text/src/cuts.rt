//! A text cut at a mark, at white space, at a name or at the end of plain character data.

ghost use Rattle.std.specs.Prelude.{◌≡◌, ◌<◌, true, length, option_map};
ghost use Rattle.std.specs.List.{list_all, prefix_len};
ghost use Rattle.std.specs.Str.{IsCharBoundary, chars};
ghost use Rattle.pom_text.specs.Characters.{is_name_char, is_name_start, is_space};
ghost use Rattle.pom_text.specs.Encodings.{begins_space, is_ascii};
ghost use Rattle.pom_text.specs.Grammar.{is_quote};
ghost use Rattle.pom_text.specs.Reads.{after, begins, is_value, name_of, quoted, skip_space, up_to, value_of};
ghost use Rattle.pom_text.specs.Lent.{IsRunOf, both_chars, is_run};
ghost use Rattle.pom_text.specs.Parts.{is_empty};

use crate::character::{is_name_start, is_space};
use crate::words;
use memchr::memmem;

/// What follows a mark of ASCII, where the text begins with it. Costs comparing the mark.
#[tactic(auto, using(crate::proofs::Needles::ascii_boundary, crate::proofs::Needles::ascii_after, crate::proofs::Needles::ascii_not_after))]
pub fn after<'a>(text: &'a str, mark: &[u8]) -> Option<&'a str>
    requires { list_all is_ascii mark.now ≡ true }
    ensures { option_map (λ rest. chars rest.now) result ≡ after mark.now (chars text.now) }
{
    if !text.as_bytes().starts_with(mark) {
        return None;
    }
    Some(text.split_at(mark.len()).1)
}

/// What stands before the first of a mark of ASCII, and what follows that. Costs what stands before it.
#[tactic(auto, using(crate::proofs::Needles::ascii_found, crate::proofs::Needles::ascii_found_behind, crate::proofs::Needles::ascii_parts))]
pub fn up_to<'a>(text: &'a str, mark: &[u8]) -> Option<(&'a str, &'a str)>
    requires some { 0 < length mark.now }
    requires ascii { list_all is_ascii mark.now ≡ true }
    ensures { option_map both_chars result ≡ up_to mark.now (chars text.now) }
{
    match memmem::find(text.as_bytes(), mark) {
        None => None,
        Some(at) => {
            let (front, rest) = text.split_at(at);
            Some((front, rest.split_at(mark.len()).1))
        }
    }
}

/// Whether a text is empty. Constant time.
#[tactic(auto, using(crate::proofs::Bytes::empty_chars))]
pub fn is_over(text: &str) -> bool
    ensures { result ≡ is_empty (chars text.now) }
{
    text.is_empty()
}

// How many bytes the white space at the front has.
#[tactic(auto, using(crate::proofs::Bytes::space_boundary))]
fn space_len(text: &str) -> usize
    ensures cut { IsCharBoundary text.now result }
    ensures len { result ≡ prefix_len is_space text.now }
{
    words::space_len(text.as_bytes())
}

/// Whether white space stands next. Constant time. XML 1.0, section 2.3.
#[tactic(auto, using(crate::proofs::Firsts::begins_some, crate::proofs::Firsts::begins_none))]
pub fn begins_space(text: &str) -> bool
    ensures { result ≡ begins_space (chars text.now) }
{
    match text.as_bytes() {
        [first, ..] => is_space(*first),
        [] => false,
    }
}

/// What follows the white space at the front. Costs that white space. XML 1.0, section 2.3.
#[tactic(auto, using(crate::proofs::Bytes::space_back), unfolding(crate::specs::Reads::skip_space))]
pub fn skip_space(text: &str) -> &str
    ensures { chars result.now ≡ skip_space (chars text.now) }
{
    text.split_at(space_len(text)).1
}

// How many bytes stand before the first `<`, `&` and carriage return.
#[tactic(auto, using(crate::proofs::Bytes::run_boundary))]
fn run_len(text: &str) -> usize
    ensures cut { IsCharBoundary text.now result }
    ensures len { result ≡ prefix_len is_run text.now }
{
    words::run_len(text.as_bytes())
}

/// What stands before the first `<`, `&` and carriage return, and what follows. Costs what stands before it. XML 1.0,
/// section 2.4.
pub fn run_of(text: &str) -> (&str, &str)
    ensures { IsRunOf (chars text.now) (chars result.0.now) (chars result.1.now) }
{
    text.split_at(run_len(text))
}

/// Whether a name begins here. Constant time. XML 1.0, section 2.3; project rule: any byte past ASCII.
#[tactic(auto, using(crate::proofs::Bytes::begins_name, crate::proofs::Bytes::begins_no_name))]
pub fn begins_name(text: &str) -> bool
    ensures { result ≡ begins is_name_start (chars text.now) }
{
    match text.as_bytes() {
        [first, ..] => is_name_start(*first),
        [] => false,
    }
}

// How many bytes the name characters at the front have.
#[tactic(auto, using(crate::proofs::Bytes::name_boundary))]
fn name_len(text: &str) -> usize
    ensures cut { IsCharBoundary text.now result }
    ensures len { result ≡ prefix_len is_name_char text.now }
{
    words::name_len(text.as_bytes())
}

/// A name, and what follows it. Costs the name. XML 1.0, section 2.3.
#[tactic(auto, using(crate::proofs::Bytes::name_front, crate::proofs::Bytes::name_back), unfolding(crate::specs::Reads::name_of))]
pub fn name_of(text: &str) -> Option<(&str, &str)>
    ensures { option_map both_chars result ≡ name_of (chars text.now) }
{
    if !begins_name(text) {
        return None;
    }
    Some(text.split_at(name_len(text)))
}

// How many bytes the front of a value in these quotes has.
#[tactic(auto, using(crate::proofs::Bytes::value_boundary))]
fn value_len(quote: u8, text: &str) -> usize
    requires { is_quote quote ≡ true }
    ensures cut { IsCharBoundary text.now result }
    ensures len { result ≡ prefix_len (is_value quote) text.now }
{
    words::value_len(quote, text.as_bytes())
}

// A value after its opening quote, and what follows its closing one.
#[tactic(auto, using(crate::proofs::Bytes::value_front, crate::proofs::Bytes::value_back, crate::proofs::Bytes::quote_ascii), unfolding(crate::specs::Reads::value_of))]
fn value_of(quote: u8, text: &str) -> Option<(&str, &str)>
    requires { is_quote quote ≡ true }
    ensures { option_map both_chars result ≡ value_of quote (chars text.now) }
{
    let (value, rest) = text.split_at(value_len(quote, text));
    Some((value, after(rest, &[quote])?))
}

// A value in quotes, and what follows it.
#[tactic(auto, using(crate::proofs::Firsts::double, crate::proofs::Firsts::single, crate::proofs::Firsts::no_quote))]
pub(crate) fn quoted(text: &str) -> Option<(&str, &str)>
    ensures { option_map both_chars result ≡ quoted (chars text.now) }
{
    match after(text, b"\"") {
        Some(rest) => value_of(b'"', rest),
        None => match after(text, b"'") {
            Some(rest) => value_of(b'\'', rest),
            None => None,
        },
    }
}
