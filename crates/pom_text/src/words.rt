//! Bytes cut at marks, white space, names, values in quotes and the end of plain character data.

ghost use Rattle.std.specs.Prelude.{◌≡◌, ◌≤◌, length, option_map};
ghost use Rattle.std.specs.List.{list_any, prefix_len};
ghost use Rattle.pom_text.specs.Characters.{is_space, is_name_char};
ghost use Rattle.pom_text.specs.Reads.{after, begins, skip_space, name_of, is_value, value_of, quoted};
ghost use Rattle.pom_text.specs.Lent.{is_run, is_suspect};

use crate::character::{is_name_char, is_name_start, is_space, is_suspect};
use memchr::{memchr2, memchr3};

// What follows a mark, where the bytes begin with it.
#[tactic(auto, unfolding(crate::specs::Reads::after))]
pub(crate) fn after<'a>(text: &'a [u8], mark: &[u8]) -> Option<&'a [u8]>
    ensures { option_map (λ rest. rest.now) result ≡ after mark.now text.now }
{
    if text.starts_with(mark) {
        Some(&text[mark.len()..])
    } else {
        None
    }
}

// How many bytes of white space stand at the front.
pub(crate) fn space_len(text: &[u8]) -> usize
    ensures within { result ≤ length text.now }
    ensures len { result ≡ prefix_len is_space text.now }
{
    for (i, b) in text.iter().enumerate() {
        if !is_space(*b) {
            return i;
        }
    }
    text.len()
}

// Whether some byte is of a character that may not stand in a text, or nearly so.
pub(crate) fn has_suspect(text: &[u8]) -> bool
    ensures { result ≡ list_any is_suspect text.now }
{
    let mut found = false;
    for b in text {
        found |= is_suspect(*b);
    }
    found
}

// Whether a byte stands in a run.
#[tactic(auto, unfolding(crate::specs::Lent::is_run))]
fn is_run(b: u8) -> bool
    ensures { result ≡ is_run b }
{
    b != b'<' && b != b'&' && b != b'\r'
}

fn begins_run(text: &[u8]) -> bool
    ensures { result ≡ begins is_run text.now }
{
    match text {
        [b, ..] => is_run(*b),
        [] => false,
    }
}

// How many bytes stand before the first `<`, `&` and carriage return. Nothing is searched where one stands next.
#[tactic(auto, using(crate::proofs::Needles::no_run, crate::proofs::Needles::run_found, crate::proofs::Needles::run_all))]
pub(crate) fn run_len(text: &[u8]) -> usize
    ensures within { result ≤ length text.now }
    ensures len { result ≡ prefix_len is_run text.now }
{
    if !begins_run(text) {
        return 0;
    }
    match memchr3(b'<', b'&', b'\r', text) {
        Some(at) => at,
        None => text.len(),
    }
}

// What follows the white space at the front.
#[tactic(auto, unfolding(crate::specs::Reads::skip_space))]
pub(crate) fn skip_space(text: &[u8]) -> &[u8]
    ensures { result.now ≡ skip_space text.now }
{
    text.split_at(space_len(text)).1
}

// How many bytes of a name stand at the front.
pub(crate) fn name_len(text: &[u8]) -> usize
    ensures within { result ≤ length text.now }
    ensures len { result ≡ prefix_len is_name_char text.now }
{
    for (i, b) in text.iter().enumerate() {
        if !is_name_char(*b) {
            return i;
        }
    }
    text.len()
}

// A name, and what follows it.
#[tactic(auto, unfolding(crate::specs::Reads::name_of))]
pub(crate) fn name_of(text: &[u8]) -> Option<(&[u8], &[u8])>
    ensures { option_map (λ e. (e.0.now, e.1.now)) result ≡ name_of text.now }
{
    match text {
        [first, ..] if is_name_start(*first) => {
            let n = name_len(text);
            Some(text.split_at(n))
        }
        _ => None,
    }
}

// How many bytes of a value in these quotes stand at the front.
#[tactic(auto, using(crate::proofs::Needles::value_found, crate::proofs::Needles::value_all))]
pub(crate) fn value_len(quote: u8, text: &[u8]) -> usize
    ensures within { result ≤ length text.now }
    ensures len { result ≡ prefix_len (is_value quote) text.now }
{
    match memchr2(quote, b'<', text) {
        Some(at) => at,
        None => text.len(),
    }
}

// A value after its opening quote, and what follows its closing one.
#[tactic(auto, unfolding(crate::specs::Reads::value_of))]
fn value_of(quote: u8, text: &[u8]) -> Option<(&[u8], &[u8])>
    ensures { option_map (λ e. (e.0.now, e.1.now)) result ≡ value_of quote text.now }
{
    let n = value_len(quote, text);
    let (value, rest) = text.split_at(n);
    Some((value, after(rest, &[quote])?))
}

// A value in quotes, and what follows it.
#[tactic(auto, unfolding(crate::specs::Reads::quoted))]
pub(crate) fn quoted(text: &[u8]) -> Option<(&[u8], &[u8])>
    ensures { option_map (λ e. (e.0.now, e.1.now)) result ≡ quoted text.now }
{
    match text {
        [quote, rest @ ..] if *quote == b'"' || *quote == b'\'' => value_of(*quote, rest),
        _ => None,
    }
}
